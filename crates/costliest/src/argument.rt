// The argument of the program: for which n the log is asked for.
ghost use Rattle.std.specs.Prelude.{◌≡◌};
ghost use Rattle.costliest.specs.Argument.{further as further_of, asked};

use rows::limits::COST_LIMIT;

// The bytes are no number up to 2,048.
#[derive(Clone, Copy)]
pub struct NoNumber;

// The number after one more byte. A digit may follow others of which the first is not 0.
fn further(before: Option<usize>, b: u8) -> Result<usize, NoNumber>
    ensures { result ≡ further_of before b }
{
    if !b.is_ascii_digit() {
        return Err(NoNumber);
    }
    let digit = usize::from(b - b'0');
    let Some(n) = before else {
        return Ok(digit);
    };
    if n == 0 {
        return Err(NoNumber);
    }
    if COST_LIMIT < n {
        return Err(NoNumber);
    }
    let m = 10 * n + digit;
    if COST_LIMIT < m {
        return Err(NoNumber);
    }
    Ok(m)
}

// The number that the bytes of an argument ask for, or none where there is no byte.
pub fn read_argument(text: &[u8]) -> Result<Option<usize>, NoNumber>
    ensures { result ≡ asked text.now }
{
    let mut n = None;
    for b in text {
        n = Some(further(n, *b)?);
    }
    Ok(n)
}
