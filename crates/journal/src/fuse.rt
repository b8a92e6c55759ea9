// The fuse is counted down per stored write.
ghost use Rattle.std.specs.Prelude.{◌≡◌};
ghost use Rattle.journal.specs.Writes.{spend_of};

use state::ram::Fuse;

// What one stored write leaves of the fuse; none where it is beyond it.
pub fn spend(f: Fuse) -> Option<Fuse>
    ensures { result ≡ spend_of f }
{
    match f {
        Fuse::Unlimited => Some(f),
        Fuse::Left(0) => None,
        Fuse::Left(n) => Some(Fuse::Left(n - 1)),
    }
}
