// The scope table and the active visits between their structs, as the host has them, and their flat forms, in which the calls work on them in place.
// Each table has a pair of functions of its own: a trait for both, with its laws, would be longer than they are.
ghost use Rattle.std.specs.Prelude.{◌≡◌, map, length};
ghost use Rattle.tables_model.specs.Entries.{scope_in};
ghost use Rattle.tables_model.specs.Layout.{flat_length, entries, visits_length, actives};
ghost use Rattle.tables_model.specs.Meaning.{scope_of};

use rows::limits::{ACTIVE_LIMIT, SCOPE_LIMIT};
use std::array;
use tables::entries::{entry_at, put_entry};
use tables::visits::{active_at, put_active};
use tables_model::{Active, Scope};

pub fn flat_into(t: [Scope; SCOPE_LIMIT], f: &mut [u16])
    requires { length f.old ≡ flat_length }
    ensures { entries f.new ≡ map scope_in t }
{
    for i in 0..SCOPE_LIMIT {
        put_entry(f, i, t[i]);
    }
}

pub fn table_from(f: &[u16]) -> [Scope; SCOPE_LIMIT]
    requires { length f.now ≡ flat_length }
    ensures { result ≡ map scope_of (entries f.now) }
{
    array::from_fn(|i| entry_at(f, i))
}

pub fn visits_into(active: [Active; ACTIVE_LIMIT], f: &mut [u16])
    requires { length f.old ≡ visits_length }
    ensures { actives f.new ≡ active }
{
    for i in 0..ACTIVE_LIMIT {
        put_active(f, i, active[i]);
    }
}

pub fn visits_from(f: &[u16]) -> [Active; ACTIVE_LIMIT]
    requires { length f.now ≡ visits_length }
    ensures { result ≡ actives f.now }
{
    array::from_fn(|i| active_at(f, i))
}
