// What a row does to the charts: a change is added to its cell, an undo subtracted from it.
ghost use Rattle.std.specs.Prelude.{◌≡◌};
ghost use Rattle.rows.specs.Meaning.{effect_of};

use crate::{Effect, Row};

pub fn effect_of(row: Row) -> Effect
    ensures { result ≡ effect_of row }
{
    match row {
        Row::Change(_, c, x) => Effect::Adds(c, x),
        Row::Undo(_, c, _, x) => Effect::Subtracts(c, x),
        _ => Effect::Nothing,
    }
}
