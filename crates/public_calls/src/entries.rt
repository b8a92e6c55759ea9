// A scope table in numbers, an entry after another as the flat tables have them, as far as there are numbers. A number that is missing is 0, and is not written.
use rows::{Cell, Lsn, Visit};
use tables::layout::{CELL, COUNT, ENTRY_WIDTH, FIRST, HANDED, HOLDER, LAST, MAKER};
use tables_model::Scope;

// The entries of a table that may be lent.
pub(crate) const ENTRIES: usize = 128;

fn scope_in(numbers: &[u16]) -> Scope {
    let number = |place: usize| numbers.get(place).copied().unwrap_or(0);
    Scope {
        maker: Visit(number(MAKER)),
        holder: Visit(number(HOLDER)),
        cell: Cell((number(CELL) & 0xff) as u8),
        first: Lsn(number(FIRST)),
        last: Lsn(number(LAST)),
        handed: number(HANDED) != 0,
        count: number(COUNT),
    }
}

pub(crate) fn table_from(numbers: &[u16]) -> [Scope; ENTRIES] {
    let mut table = [Scope::default(); ENTRIES];
    for (scope, entry) in table.iter_mut().zip(numbers.chunks(ENTRY_WIDTH)) {
        *scope = scope_in(entry);
    }
    table
}

fn put_number(numbers: &mut [u16], place: usize, x: u16) {
    if let Some(number) = numbers.get_mut(place) {
        *number = x;
    }
}

fn put_scope(numbers: &mut [u16], s: Scope) {
    put_number(numbers, MAKER, s.maker.0);
    put_number(numbers, HOLDER, s.holder.0);
    put_number(numbers, CELL, u16::from(s.cell.0));
    put_number(numbers, FIRST, s.first.0);
    put_number(numbers, LAST, s.last.0);
    put_number(numbers, HANDED, u16::from(s.handed));
    put_number(numbers, COUNT, s.count);
}

pub(crate) fn table_into(table: [Scope; ENTRIES], numbers: &mut [u16]) {
    for (scope, entry) in table.iter().zip(numbers.chunks_mut(ENTRY_WIDTH)) {
        put_scope(entry, *scope);
    }
}
