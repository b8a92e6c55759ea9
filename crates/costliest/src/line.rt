// The line of an opening.
ghost use Rattle.std.specs.Prelude.{◌≤◌, length};
ghost use Rattle.io.specs.Counts.{IsPrefixLen};
ghost use Rattle.run_lines.specs.Output.{Written};
ghost use Rattle.costliest.specs.Opened.{line_length, line_for};

use run_lines::line::Output;
use state::answers::{Answer, value_of};

// Room for any line: two numbers of ten digits, a sign, a space and the line's end.
pub const LINE_LENGTH: usize = 23;

// n and the value of the answer, from the start of the buffer on. Gives the bytes of the line.
pub fn put_line(out: &mut [u8], n: u16, answer: Answer) -> usize
    requires { line_length ≤ length out.old }
    ensures { Written out.old 0 (line_for n answer) result out.new × IsPrefixLen result out.new }
{
    let mut output = Output { bytes: out, at: 0 };
    output.put_decimal(u32::from(n));
    output.put_value(value_of(answer));
    output.put(b"\n");
    output.at
}
