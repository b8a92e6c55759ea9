// The state of the store between calls.
ghost use Rattle.std.specs.Prelude.{◌≡◌};
ghost use Rattle.state.specs.World.{allowance, fuse_of_number};

use rows::limits::TAIL_LENGTH;
use tables_model::Tables;

// Closed until it is opened, and after a power failure.
#[derive(Clone, Copy, PartialEq, Eq)]
pub enum Phase {
    Open,
    Closed,
}

// The stored writes that still land: without limit, or so many.
#[derive(Clone, Copy, PartialEq, Eq)]
pub enum Fuse {
    Unlimited,
    Left(u32),
}

// The number that stands for no fuse, in run files and for C.
pub const NO_FUSE: u32 = 4294967295;

impl From<u32> for Fuse {
    ghost from_gives = { λ n fuse. allowance fuse ≡ fuse_of_number n };

    fn from(n: u32) -> Fuse {
        if n == NO_FUSE {
            Fuse::Unlimited
        } else {
            Fuse::Left(n)
        }
    }
}

// Rows stored and waiting are counted; the tail has the waiting ones, zero after the last.
#[derive(Clone, Copy)]
pub struct State {
    pub phase: Phase,
    pub fuse: Fuse,
    pub stored: usize,
    pub waiting: usize,
    pub tables: Tables,
    pub tail: [u8; TAIL_LENGTH],
}
