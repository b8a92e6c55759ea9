// `relog` (document 01, "The run file"): a run file from standard input, its lines to standard output. An input that cannot be read is no run file; that, and
// that the output cannot be written, is said on standard error.
#![tactic(auto)]

ghost use Rattle.std.specs.Prelude.{IfOk};
ghost use Rattle.io.specs.Counts.{IsPrefixLen};

use runfile::run::{INPUT_LENGTH, OUTPUT_LENGTH, run};
use std::io;
use std::io::{Read, Stderr, Stdin, Write};

// Reads until the buffer is full or the input ends. Gives the bytes read.
fn read_input(mut stdin: Stdin, buf: &mut [u8]) -> io::Result<usize>
    ensures { IfOk result (λ n. IsPrefixLen n buf.new) }
{
    let mut done = 0;
    while done < buf.len() {
        let more = stdin.read(&mut buf[done..])?;
        if more == 0 {
            break;
        }
        done += more;
    }
    Ok(done)
}

// Nothing is left to do where standard error cannot be written either.
fn say(mut stderr: Stderr, text: &[u8]) {
    let _ = stderr.write_all(text);
}

fn main(rt: HostRuntime) {
    let mut input = [0; INPUT_LENGTH];
    let length = match read_input(rt.stdin(), &mut input) {
        Ok(length) => length,
        // What was read is not the whole input.
        Err(_) => {
            say(rt.stderr(), b"relog: standard input cannot be read\n");
            0
        }
    };
    let mut out = [0; OUTPUT_LENGTH];
    if let Ok(n) = run(&input[..length], &mut out) {
        if rt.stdout().write_all(&out[..n]).is_err() {
            say(rt.stderr(), b"relog: standard output cannot be written\n");
        }
    }
}
