// The state in numbers: a head of eight, the active visits as in the flat tables, and the tail as it is. Any numbers are some state: a flag is set by whatever is not 0, and the others are
// read modulo what their fields hold.
use cores::crossing::{visits_from, visits_into};
use rows::limits::TAIL_LENGTH;
use state::ram::{Fuse, Phase, State};
use tables::layout::VISITS_LENGTH;
use tables_model::Tables;

pub(crate) const HEAD_LENGTH: usize = 8;

pub(crate) fn fuse_by(is_limited: bool, left: u32) -> Fuse {
    if is_limited {
        Fuse::Left(left)
    } else {
        Fuse::Unlimited
    }
}

pub(crate) fn state_in(
    head: [u64; HEAD_LENGTH],
    visits: [u16; VISITS_LENGTH],
    tail: [u8; TAIL_LENGTH],
) -> State {
    State {
        phase: if head[0] == 0 {
            Phase::Closed
        } else {
            Phase::Open
        },
        fuse: fuse_by(head[1] != 0, (head[2] & 0xffff_ffff) as u32),
        stored: head[3] as usize,
        waiting: head[4] as usize,
        tables: Tables {
            begun: (head[5] & 0xffff) as u16,
            active: visits_from(&visits),
            count: head[6] as usize,
            used: head[7] as usize,
        },
        tail,
    }
}

// The kind of a fuse, and the stored writes that still land.
fn fuse_numbers(f: Fuse) -> (u32, u32) {
    match f {
        Fuse::Unlimited => (0, 0),
        Fuse::Left(n) => (1, n),
    }
}

pub(crate) fn head_of(s: State) -> [u64; HEAD_LENGTH] {
    let (kind, left) = fuse_numbers(s.fuse);
    [
        u64::from(s.phase == Phase::Open),
        u64::from(kind),
        u64::from(left),
        s.stored as u64,
        s.waiting as u64,
        u64::from(s.tables.begun),
        s.tables.count as u64,
        s.tables.used as u64,
    ]
}

pub(crate) fn visits_of(s: State) -> [u16; VISITS_LENGTH] {
    let mut visits = [0; VISITS_LENGTH];
    visits_into(s.tables.active, &mut visits);
    visits
}
