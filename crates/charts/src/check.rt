// The check of a page by its bytes, as an opening makes it: zero bytes and bounds. Whether the mark is allowed goes by the log, and is given.
ghost use Rattle.std.specs.Prelude.{◌≡◌, ◌&&◌, length};
ghost use Rattle.book.specs.Limits.{chart_bound, page_length, places};
ghost use Rattle.book.specs.Lists.{first_failing};
ghost use Rattle.book.specs.Numbers.{within};
ghost use Rattle.book.specs.Pages.{page_of};
ghost use Rattle.charts.specs.Checks.{is_sound};

use crate::page::read_place;
use rows::limits::{CHART_BOUND, PLACES};
use rows::numbers::read16;

// A number of grams that an opening takes.
fn in_bounds(z: i32) -> bool
    ensures { result ≡ within chart_bound z }
{
    (-CHART_BOUND..=CHART_BOUND).contains(&z)
}

// Bytes 2 and 3 are zero, and every cell is in bounds.
fn is_sound(p: &[u8]) -> bool
    requires { length p.now ≡ page_length }
    ensures { result ≡ is_sound p.now }
{
    read16(p, 2) == 0 && (0..PLACES).all(|i| in_bounds(read_place(p, i)))
}

// The page passes: its mark is allowed, as the caller says, and its bytes are sound.
pub fn page_ok(p: &[u8], allowed: bool) -> bool
    requires { length p.now ≡ page_length }
    ensures { result ≡ (allowed && is_sound p.now) }
{
    allowed && is_sound(p)
}
