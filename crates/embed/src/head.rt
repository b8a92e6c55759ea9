// The head of RAM: eight numbers that say where the journal stands, and the counters of the tables.
ghost use Rattle.std.specs.Prelude.{◌≡◌};
ghost use Rattle.book.specs.Writes.{Few};
ghost use Rattle.state.specs.Answers.{number_and_value, rows_and_pages};
ghost use Rattle.journal.specs.Outcomes.{Bounded};
ghost use Rattle.embed_model.specs.Arrays.{is_set, fuse_by};
ghost use Rattle.embed_model.specs.Head.{kind_number, left_number, control_by, counts_by, head_of};
ghost use Rattle.embed_model.specs.Packed.{answer_in, writes_in};

use crate::packed::packed;
use journal::{Control, Outcome};
use state::ram::{Fuse, Phase};
use tables_model::Counts;

pub(crate) const HEAD_LENGTH: usize = 8;

fn fuse_by(kind: u32, left: u32) -> Fuse
    ensures { result ≡ fuse_by (is_set kind) left }
{
    if kind == 0 {
        Fuse::Unlimited
    } else {
        Fuse::Left(left)
    }
}

// Where the journal stands.
pub(crate) fn control_in(head: &[u32; HEAD_LENGTH]) -> Control
    ensures { result ≡ control_by head.now }
{
    Control {
        phase: if head[0] == 0 {
            Phase::Closed
        } else {
            Phase::Open
        },
        fuse: fuse_by(head[1], head[2]),
        stored: head[3] as usize,
        waiting: head[4] as usize,
    }
}

// The counters of the tables. The begin rows so far are a number of 16 bits.
pub(crate) fn counts_in(head: &[u32; HEAD_LENGTH]) -> Counts
    ensures { result ≡ counts_by head.now }
{
    Counts {
        begun: (head[5] % 65536) as u16,
        count: head[6] as usize,
        used: head[7] as usize,
    }
}

// The kind of a fuse, and the stored writes that still land.
fn fuse_numbers(f: Fuse) -> (u32, u32)
    ensures { (result.0 ≡ kind_number f) × (result.1 ≡ left_number f) }
{
    match f {
        Fuse::Unlimited => (0, 0),
        Fuse::Left(n) => (1, n),
    }
}

fn put_head(head: &mut [u32; HEAD_LENGTH], c: Control, t: Counts)
    requires { Bounded c t }
    ensures { (head.new ≡ head_of c t) × (counts_by head.new ≡ t) }
{
    let (kind, left) = fuse_numbers(c.fuse);
    *head = [
        u32::from(matches!(c.phase, Phase::Open)),
        kind,
        left,
        c.stored as u32,
        c.waiting as u32,
        u32::from(t.begun),
        t.count as u32,
        t.used as u32,
    ];
}

// What a call came to is written into the head, and its answer and counts given back.
pub(crate) fn finish(head: &mut [u32; HEAD_LENGTH], r: Outcome) -> u64
    requires { Bounded r.control r.counts × Few (rows_and_pages r.writes) }
    ensures { ((answer_in result ≡ number_and_value r.answer) × (writes_in result ≡ rows_and_pages r.writes)) × (head.new ≡ head_of r.control r.counts) × (counts_by head.new ≡ r.counts) }
{
    put_head(head, r.control, r.counts);
    packed(r.answer, r.writes)
}
