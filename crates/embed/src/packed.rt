// An answer and the stored writes of a call in one number of 64 bits: the value's 32 bits lowest, the refusal number in bits 32 to 39, the rows in bits 40 to 55 and the pages in
// bits 56 to 63.
ghost use Rattle.std.specs.Prelude.{◌≡◌};
ghost use Rattle.book.specs.Book.{answer};
ghost use Rattle.book.specs.Writes.{Few, no_writes};
ghost use Rattle.state.specs.Answers.{number_and_value, refusal_answer, rows_and_pages};
ghost use Rattle.embed_model.specs.Packed.{answer_in, writes_in};

use state::answers::{Answer, Refusal, Writes, number_of, value_of};

fn joined(number: u8, value: i32, rows: usize, pages: usize) -> u64
    requires { Few (record { rows = rows; pages = pages }) }
    ensures { (answer_in result ≡ answer number value) × (writes_in result ≡ record { rows = rows; pages = pages }) }
{
    let low = 4294967296 * u64::from(number) + u64::from(value.cast_unsigned());
    72057594037927936 * (pages as u64) + (1099511627776 * (rows as u64) + low)
}

pub(crate) fn packed(a: Answer, w: Writes) -> u64
    requires { Few (rows_and_pages w) }
    ensures { (answer_in result ≡ number_and_value a) × (writes_in result ≡ rows_and_pages w) }
{
    joined(number_of(a), value_of(a), w.rows, w.pages)
}

// Of a call that was refused, and so stored nothing.
pub(crate) fn refused(refusal: Refusal) -> u64
    ensures { (answer_in result ≡ refusal_answer refusal) × (writes_in result ≡ no_writes) }
{
    packed(Err(refusal), Writes::default())
}
