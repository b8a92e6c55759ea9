// The scope table between its two forms: lent as a slice, and by value. A slice of another length than 64 loads as blank, and is stored to never.
ghost use Rattle.std.specs.Prelude.{◌≡◌};
ghost use Rattle.store.specs.Table.{loaded, stored};

use rows::limits::SCOPE_LIMIT;
use tables_model::Scope;

pub fn load(s: &[Scope]) -> [Scope; SCOPE_LIMIT]
    ensures { result ≡ loaded s.now }
{
    <[Scope; SCOPE_LIMIT]>::try_from(s).unwrap_or([Scope::default(); SCOPE_LIMIT])
}

pub fn store(s: &mut [Scope], t: [Scope; SCOPE_LIMIT])
    ensures { s.new ≡ stored s.old t }
{
    if s.len() == SCOPE_LIMIT {
        s.copy_from_slice(&t);
    }
}
