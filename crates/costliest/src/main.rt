// `costliest` (document 02, L6). Without an argument: for each n from 0 to 2,048 a log of n rows whose opening writes the most rows is opened by the public call.
// A line has n and the rows that the opening reported. With n for its argument: the 65,536 bytes of that log. What is asked for wrongly, and that the output
// cannot be written, is said on standard error.
#![tactic(auto)]

mod argument; // for which n a log is asked for
mod line; // the line of an opening
mod log; // the logs

ghost use Rattle.std.specs.Prelude.{◌≤◌, length};
ghost use Rattle.io.specs.Counts.{IsPrefixLen};
ghost use Rattle.book.specs.Limits.{cost_limit};
ghost use Rattle.costliest.specs.Opened.{line_length, OpeningResult, Told};

use cores::ram::closed_state;
use line::{LINE_LENGTH, put_line};
use log::{write_asked, write_log};
use rows::limits::{CHARTS_LENGTH, COST_LIMIT, LOG_LENGTH, SCOPE_LIMIT};
use state::answers::Reply;
use state::ram::Fuse;
use std::env::{Env, FillError};
use std::io;
use std::io::{Stderr, Stdout, Write};
use store::bridges::open_on;
use tables_model::Scope;

// A longer argument is no number up to 2,048.
const ARGUMENT_LENGTH: usize = 8;

// What an opening of the log of n rows comes to, beside charts of zeros and with power for n stored writes.
fn opened(n: usize) -> Reply
    requires { n ≤ cost_limit }
    ensures { OpeningResult n result }
{
    let mut log = [0u8; LOG_LENGTH];
    let mut charts = [0u8; CHARTS_LENGTH];
    let mut copy = [0u8; CHARTS_LENGTH];
    let _ = write_log(&mut log, n);
    let table = [Scope::default(); SCOPE_LIMIT];
    let fuse = Fuse::Left(n as u32);
    let state = closed_state();
    open_on(state, &mut log, &mut charts, &mut copy, table, fuse).result
}

// The line of the opening for n. Gives its bytes.
fn tell(out: &mut [u8], n: usize) -> usize
    requires { (n ≤ cost_limit) × (line_length ≤ length out.old) }
    ensures { Told n out.old result out.new × IsPrefixLen result out.new }
{
    put_line(out, n as u16, opened(n).answer)
}

fn print_openings(mut stdout: Stdout) -> io::Result<()> {
    for n in 0..=COST_LIMIT {
        let mut out = [0u8; LINE_LENGTH];
        let length = tell(&mut out, n);
        stdout.write_all(&out[..length])?;
    }
    Ok(())
}

fn say_what_to_ask(mut stderr: Stderr) {
    let _ = stderr.write_all(
        b"costliest: the argument is a number of rows from 0 to 2048, in base ten, or there is none\n",
    );
}

fn say_whether_printed(printed: io::Result<()>, mut stderr: Stderr) {
    if printed.is_err() {
        let _ = stderr.write_all(b"costliest: standard output cannot be written\n");
    }
}

// Whether the program got an argument i, of which 0 is its own name.
fn is_given(env: &impl Env, i: usize) -> bool {
    let mut text = [0u8; ARGUMENT_LENGTH];
    !matches!(env.arg(i, &mut text), Err(FillError::NotPresent))
}

// An argument that is empty or too long for the buffer is read as no byte, which asks for no log.
fn print_log(env: &impl Env, mut stdout: Stdout, stderr: Stderr) {
    let mut text = [0u8; ARGUMENT_LENGTH];
    let length = env.arg(1, &mut text).unwrap_or(0);
    let mut log = [0u8; LOG_LENGTH];
    if write_asked(&mut log, &text[..length]).is_ok() {
        say_whether_printed(stdout.write_all(&log), stderr);
    } else {
        say_what_to_ask(stderr);
    }
}

fn main(rt: HostRuntime) {
    if !is_given(&rt, 1) {
        say_whether_printed(print_openings(rt.stdout()), rt.stderr());
    } else if !is_given(&rt, 2) {
        print_log(&rt, rt.stdout(), rt.stderr());
    } else {
        say_what_to_ask(rt.stderr());
    }
}
