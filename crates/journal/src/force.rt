// Force: waiting rows go in order to the end of the stored log, one write each.
ghost use Rattle.std.specs.Prelude.{◌≡◌, ◌+◌, ◌*◌, ◌≤◌, length};
ghost use Rattle.book.specs.Limits.{row_length, tail_limit};
ghost use Rattle.journal.specs.Force.{runs, chunks, control_after, shifted, Sizes};
ghost use Rattle.journal.specs.Journal.{journal, forced, forced_up_to};
ghost use Rattle.state.specs.World.{tail_length};

use crate::Control;
use crate::writes::store_row;
use rows::limits::ROW_LENGTH;
use state::ram::Fuse;

// How a run of stored writes ended: the fuse that is left, none where a write was beyond it, and the rows stored.
#[derive(Clone, Copy)]
pub struct Run {
    pub fuse: Option<Fuse>,
    pub stored: usize,
}

// The tail's first m rows go to the end of the log, until a write is beyond the fuse.
fn store_tail(f: Fuse, stored: usize, m: usize, log: &mut [u8], tail: &[u8]) -> Run
    requires { (row_length * (stored + m) ≤ length log.old) × (row_length * m ≤ length tail.now) }
    ensures { (result ≡ (runs f stored log.old (chunks m tail.now)).run)
        × (log.new ≡ (runs f stored log.old (chunks m tail.now)).log) }
{
    let mut fuse = f;
    for j in 0..m {
        let at = ROW_LENGTH * j;
        let Some(left) = store_row(fuse, stored + j, log, &tail[at..at + ROW_LENGTH]) else {
            return Run {
                fuse: None,
                stored: stored + j,
            };
        };
        fuse = left;
    }
    Run {
        fuse: Some(fuse),
        stored: stored + m,
    }
}

// Where the journal stands after a run that leaves so many rows waiting.
fn control_after(c: Control, waiting: usize, run: Run) -> Control
    ensures { result ≡ control_after c waiting run }
{
    let stored = run.stored;
    match run.fuse {
        Some(fuse) => Control {
            fuse,
            stored,
            waiting,
            ..c
        },
        None => Control::closed(stored),
    }
}

// All waiting rows are stored. Then the tail is empty.
pub fn force(c: Control, log: &mut [u8], tail: &mut [u8]) -> Control
    requires { Sizes c (length log.old) (length tail.old) }
    ensures { journal result log.new tail.new ≡ forced (journal c log.old tail.old) }
{
    let run = store_tail(c.fuse, c.stored, c.waiting, log, tail);
    tail.fill(0);
    control_after(c, 0, run)
}

// The waiting rows behind the first m move to the front, zeros follow. No byte behind the waiting rows is touched.
fn shift(tail: &mut [u8], m: usize, waiting: usize)
    requires { (m ≤ waiting) × (waiting ≤ tail_limit) × (length tail.old ≡ tail_length) }
    ensures { tail.new ≡ shifted m waiting tail.old }
{
    let gap = ROW_LENGTH * m;
    let end = ROW_LENGTH * waiting;
    let keep = end - gap;
    // Moved by a loop: copy_within gets its range's ends as Bound<&usize>, and tools/unit refuses a function that gives back a number and a pointer.
    for i in 0..keep {
        tail[i] = tail[i + gap];
    }
    tail[keep..end].fill(0);
}

// The first m waiting rows are stored, the others go on waiting. Where there are none to store, the tail is not touched.
pub fn force_up_to(c: Control, log: &mut [u8], tail: &mut [u8], m: usize) -> Control
    requires { Sizes c (length log.old) (length tail.old) × (m ≤ c.waiting) }
    ensures { journal result log.new tail.new ≡ forced_up_to m (journal c log.old tail.old) }
{
    if m == 0 {
        return c;
    }
    let run = store_tail(c.fuse, c.stored, m, log, tail);
    match run.fuse {
        Some(_) => shift(tail, m, c.waiting),
        None => tail.fill(0),
    }
    control_after(c, c.waiting - m, run)
}
