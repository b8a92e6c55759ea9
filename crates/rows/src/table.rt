// 01's constant table: for each kind of row and each of its 16 bytes, whether the byte may be other than zero.
// The reader tests bytes by it, the writer sets them by it.
ghost use Rattle.std.specs.Prelude.{◌≡◌, ◌&&◌, eqb, ◌≤◌, length, get_or, []};
ghost use Rattle.book.specs.Limits.{kind_limit, row_length};
ghost use Rattle.book.specs.RowBytes.{may_be_set};
ghost use Rattle.rows.specs.Table.{as_table, ok_byte, masked, fill};

use crate::limits::{KIND_LIMIT, ROW_LENGTH};

// Kind 0 is a blank row.
const MAY_BE: [[u8; ROW_LENGTH]; KIND_LIMIT + 1] = [
    [0, 0, 0, 0, 0, 0, 0, 0, 0, 0, 0, 0, 0, 0, 0, 0],
    [1, 1, 0, 0, 1, 1, 0, 0, 0, 0, 1, 0, 0, 0, 0, 0],
    [1, 1, 0, 1, 1, 1, 0, 0, 1, 1, 1, 0, 0, 0, 0, 0],
    [1, 1, 1, 1, 1, 1, 0, 0, 0, 0, 1, 1, 0, 0, 0, 0],
    [1, 1, 0, 1, 1, 1, 1, 1, 1, 1, 1, 0, 0, 0, 0, 0],
    [1, 1, 0, 0, 1, 1, 0, 0, 0, 0, 1, 0, 0, 0, 0, 0],
    [1, 1, 0, 0, 1, 1, 0, 0, 0, 0, 1, 0, 0, 0, 0, 0],
    [1, 1, 1, 0, 1, 1, 0, 0, 0, 0, 1, 1, 0, 0, 0, 0],
];

// The table's line of a kind. Each arm is a constant to the compiler; indexed by a variable, the whole table would be stored to the stack first.
fn line_of(kind: usize) -> [u8; ROW_LENGTH]
    requires { kind ≤ kind_limit }
    ensures { result ≡ get_or may_be_set kind [] }
{
    match kind {
        0 => MAY_BE[0],
        1 => MAY_BE[1],
        2 => MAY_BE[2],
        3 => MAY_BE[3],
        4 => MAY_BE[4],
        5 => MAY_BE[5],
        6 => MAY_BE[6],
        _ => MAY_BE[KIND_LIMIT],
    }
}

// x where the byte, whose entry is m, may be other than zero, else zero.
fn byte_or_zero(m: u8, x: u8) -> u8
    ensures { result ≡ masked m x }
{
    if m == 0 { 0 } else { x }
}

// The wrong bits found so far and those of a byte x, whose entry in the table is m: where it is to be zero, each of its bits is wrong.
fn gather_wrong(wrong: u8, m: u8, x: u8) -> u8
    ensures { eqb result 0 ≡ (eqb wrong 0 && ok_byte m x) }
{
    if m == 0 { wrong | x } else { wrong }
}

// Each byte that is to be zero in a row of kind `kind` is zero. Wrong bits are gathered, with no way out of the loop before its end: so it compiles to a few
// instructions for all 16 bytes, and an opening goes over the whole log by it.
pub(crate) fn is_as_table(b: &[u8], kind: usize) -> bool
    requires { (kind ≤ kind_limit) × (length b.now ≡ row_length) }
    ensures { result ≡ as_table row_length 0 kind b.now }
{
    let line = line_of(kind);
    let mut wrong = 0;
    for i in 0..ROW_LENGTH {
        wrong = gather_wrong(wrong, line[i], b[i]);
    }
    wrong == 0
}

// Sets b to the bytes of `f` that a row of kind `kind` may have, and zeros.
pub(crate) fn put_by_table(b: &mut [u8], kind: usize, f: &[u8; ROW_LENGTH])
    requires { (kind ≤ kind_limit) × (length b.old ≡ row_length) }
    ensures { b.new ≡ fill row_length 0 kind f.now b.old }
{
    let line = line_of(kind);
    for i in 0..ROW_LENGTH {
        b[i] = byte_or_zero(line[i], f[i]);
    }
}
