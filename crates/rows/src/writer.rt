// The writer of a row: its 16 bytes, the fields at their places, set by the table of kinds and bytes.
ghost use Rattle.std.specs.Prelude.{◌≡◌, ◌≤◌, length};
ghost use Rattle.book.specs.Limits.{kind_limit, row_length};
ghost use Rattle.book.specs.RowBytes.{row_bytes};
ghost use Rattle.rows.specs.Meaning.{meant};
ghost use Rattle.rows.specs.Table.{fill};
ghost use Rattle.rows.specs.Writing.{fields_of, field_bytes};

use crate::table::put_by_table;
use crate::{Lsn, Row};

// A row's fields, with zeros for those that its kind lacks. The kind is the number that its first byte has, which is its line of the table too.
#[derive(Clone, Copy, Default)]
struct Fields {
    kind: u8,
    visit: u16,
    receiver: u16,
    cell: u8,
    undone: u16,
    change: u16,
}

impl From<Row> for Fields {
    ghost from_gives = { λ row fields. fields ≡ fields_of row };

    fn from(row: Row) -> Fields {
        let zeros = Fields::default();
        match row {
            Row::Begin(v) => Fields {
                kind: 1,
                visit: v.0,
                ..zeros
            },
            Row::Change(v, c, x) => Fields {
                kind: 2,
                visit: v.0,
                cell: c.0,
                change: x.cast_unsigned(),
                ..zeros
            },
            Row::HandOver(g, r, c) => Fields {
                kind: 3,
                visit: g.0,
                receiver: r.0,
                cell: c.0,
                ..zeros
            },
            Row::Undo(h, c, n, x) => Fields {
                kind: 4,
                visit: h.0,
                cell: c.0,
                undone: n.0,
                change: x.cast_unsigned(),
                ..zeros
            },
            Row::Commit(v) => Fields {
                kind: 5,
                visit: v.0,
                ..zeros
            },
            Row::Abort(v) => Fields {
                kind: 6,
                visit: v.0,
                ..zeros
            },
            Row::HandOverAll(g, r) => Fields {
                kind: 7,
                visit: g.0,
                receiver: r.0,
                ..zeros
            },
        }
    }
}

// The fields of row n at their places, of which the table keeps those that the kind has.
fn put(b: &mut [u8], f: Fields, n: Lsn)
    requires { (f.kind ≤ kind_limit) × (length b.old ≡ row_length) }
    ensures { b.new ≡ fill row_length 0 f.kind (field_bytes f n.0) b.old }
{
    let [visit_low, visit_high] = f.visit.to_le_bytes();
    let [receiver_low, receiver_high] = f.receiver.to_le_bytes();
    let [own_low, own_high] = n.0.to_le_bytes();
    let [undone_low, undone_high] = f.undone.to_le_bytes();
    let [change_low, change_high] = f.change.to_le_bytes();
    let fields = [
        f.kind,
        visit_low,
        receiver_low,
        f.cell,
        own_low,
        own_high,
        undone_low,
        undone_high,
        change_low,
        change_high,
        visit_high,
        receiver_high,
        0,
        0,
        0,
        0,
    ];
    put_by_table(b, usize::from(f.kind), &fields);
}

// Writes row n to b, a row's 16 bytes.
pub fn write_row(b: &mut [u8], row: Row, n: Lsn)
    requires { length b.old ≡ row_length }
    ensures { b.new ≡ row_bytes n.0 (meant row) }
{
    put(b, Fields::from(row), n);
}
