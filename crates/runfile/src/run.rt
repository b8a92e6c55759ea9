// A run file's sessions on a store formatted at zeros, from the first line to the last: the file's next call, the public call that it names, its line.
ghost use Rattle.std.specs.Prelude.{◌≡◌, true, [], ◌∷◌, map, ◌+◌, ◌*◌, ◌≤◌, ◌<◌, length};
ghost use Rattle.book.specs.Power.{Book, formatted};
ghost use Rattle.book.specs.Limits.{log_length, charts_length, scope_limit};
ghost use Rattle.book.specs.Writes.{Few};
ghost use Rattle.book.specs.Events.{opens as opening_of, calls as call_of};
ghost use Rattle.state.specs.Answers.{number_and_value, rows_and_pages};
ghost use Rattle.state.specs.World.{Represents, world, allowance};
ghost use Rattle.run_reader.specs.File.{call_length, call_at, calls_from, is_run_file, sessions_in};
ghost use Rattle.run_lines.specs.Lines.{line, fault_line};
ghost use Rattle.run_lines.specs.Output.{line_length, output_length, Room, Puts, Written};
ghost use Rattle.runfile.specs.Runs.{run_lines};
ghost use Rattle.book.specs.Cells.{zeros};
ghost use Rattle.runfile.specs.Play.{Played, world_in, RunsTo};

use cores::ram::closed_state;
use rows::limits::{CELL_LIMIT, CHARTS_LENGTH, LOG_LENGTH, SCOPE_LIMIT};
use run_lines::line::Output;
use run_reader::file::{
    CALL_LENGTH, ENTRY_LENGTH, FILE_LIMIT, call_at, calls_at, fuse_at, is_run_file,
};
use state::answers::{Reply, number_of, value_of};
use state::ram::{Fuse, State};
use store::public;
use tables_model::Scope;

// Room for one byte more than a run file can have, which is enough to refuse a longer input.
pub const INPUT_LENGTH: usize = FILE_LIMIT + 1;

// Room for the lines of any run file.
pub const OUTPUT_LENGTH: usize = 18432;

// The output could be too short for the lines of a run file.
#[derive(Clone, Copy, PartialEq, Eq)]
pub struct OutputTooShort;

// The store between two calls: its state and what it was lent.
#[derive(Drop)]
struct Store<'a> {
    state: State,
    log: &'a mut [u8],
    charts: &'a mut [u8],
    copy: &'a mut [u8],
    scopes: &'a mut [Scope],
}

impl Store<'_> {
    // The call at a place of the file, and its line.
    fn turn(&mut self, file: &[u8], place: usize, out: &mut Output, session: usize, call: usize)
        requires { (place + call_length ≤ length file.now) × Room out.old line_length × (session < 65536) × (call < 65536) }
        ensures { Played (call_of true (call_at file.now place) ∷ []) session call self.old self.new out.old out.new }
    {
        let reply = public::call(
            self.state,
            self.log,
            self.charts,
            self.copy,
            self.scopes,
            call_at(file, place),
        );
        self.state = reply.state;
        tell(out, reply, session, call);
    }

    // An opening, and its line.
    fn opening(&mut self, fuse: Fuse, out: &mut Output, session: usize)
        requires { Room out.old line_length × (session < 65536) }
        ensures { Played (opening_of true (allowance fuse) ∷ []) session 0 self.old self.new out.old out.new }
    {
        let reply = public::open(
            self.state,
            self.log,
            self.charts,
            self.copy,
            self.scopes,
            fuse,
        );
        self.state = reply.state;
        tell(out, reply, session, 0);
    }

    // The n calls from a place of the file on.
    fn turns(&mut self, file: &[u8], place: usize, n: usize, out: &mut Output, session: usize)
        requires { (place + call_length * n ≤ length file.now) × (n < 65535) × Room out.old (line_length * n) × (session < 65536) }
        ensures { Played (map (call_of true) (calls_from n file.now place)) session 1 self.old self.new out.old out.new }
    {
        for i in 0..n {
            self.turn(file, place + CALL_LENGTH * i, out, session, i + 1);
        }
    }

    // A session: its opening and its n calls.
    fn session(
        &mut self,
        fuse: Fuse,
        file: &[u8],
        place: usize,
        n: usize,
        out: &mut Output,
        number: usize,
    )
        requires { (place + call_length * n ≤ length file.now) × (n < 65535) × Room out.old (line_length * (n + 1)) × (number < 65536) }
        ensures { Played (opening_of true (allowance fuse) ∷ map (call_of true) (calls_from n file.now place)) number 0 self.old self.new out.old out.new }
    {
        self.opening(fuse, out, number);
        self.turns(file, place, n, out, number);
    }

    // All sessions of a run file, from the start of the output on.
    fn sessions(&mut self, file: &[u8], out: &mut Output)
        requires { (is_run_file file.now ≡ true) × Room out.old output_length }
        ensures { (b : Book) → Represents zeros b (world_in self.old) → Puts out.old (run_lines 1 b (sessions_in file.now)) out.new }
    {
        let s = usize::from(file[0]);
        let mut place = 1 + ENTRY_LENGTH * s;
        for i in 0..s {
            let n = calls_at(file, i);
            self.session(fuse_at(file, i), file, place, n, out, i + 1);
            place += CALL_LENGTH * n;
        }
    }
}

// The line of a call's answer and of what it stored.
fn tell(out: &mut Output, reply: Reply, session: usize, call: usize)
    requires { Room out.old line_length × (session < 65536) × (call < 65536) × Few (rows_and_pages reply.writes) }
    ensures told { Puts out.old (line session call (number_and_value reply.answer) (rows_and_pages reply.writes)) out.new }
    ensures short { out.new.at ≤ out.old.at + line_length }
{
    out.put_line(
        session,
        call,
        number_of(reply.answer),
        value_of(reply.answer),
        reply.writes.rows,
        reply.writes.pages,
    );
}

// A store is formatted with no grams in any cell. Gives its state.
fn formatted_at_zeros(
    log: &mut [u8],
    charts: &mut [u8],
    copy: &mut [u8],
    scopes: &mut [Scope],
) -> State
    requires { (length log.old ≡ log_length) × (length charts.old ≡ charts_length) × (length copy.old ≡ charts_length) × (length scopes.old ≡ scope_limit) }
    ensures { Represents zeros formatted (world result log.new charts.new copy.new scopes.new) }
{
    public::format(closed_state(), log, charts, copy, scopes, &[0; CELL_LIMIT]).state
}

// The lines of a run file, on a store of its own. Gives how many bytes they are.
fn play(file: &[u8], out: &mut [u8]) -> usize
    requires { (is_run_file file.now ≡ true) × (output_length ≤ length out.old) }
    ensures { Written out.old 0 (run_lines 1 formatted (sessions_in file.now)) result out.new }
{
    let mut log = [0u8; LOG_LENGTH];
    let mut charts = [0u8; CHARTS_LENGTH];
    let mut copy = [0u8; CHARTS_LENGTH];
    let mut scopes = [Scope::default(); SCOPE_LIMIT];
    let state = formatted_at_zeros(&mut log, &mut charts, &mut copy, &mut scopes);
    let mut store = Store {
        state,
        log: &mut log,
        charts: &mut charts,
        copy: &mut copy,
        scopes: &mut scopes,
    };
    let mut output = Output { bytes: out, at: 0 };
    store.sessions(file, &mut output);
    output.at
}

// What a run file comes to, and anything else. Gives how many bytes the lines are.
pub fn run(file: &[u8], out: &mut [u8]) -> Result<usize, OutputTooShort>
    ensures { RunsTo file.now out.old result out.new }
{
    if out.len() < OUTPUT_LENGTH {
        return Err(OutputTooShort);
    }
    if is_run_file(file) {
        Ok(play(file, out))
    } else {
        Ok(put_fault(out))
    }
}

// The line of what is no run file. Gives how many bytes it is.
fn put_fault(out: &mut [u8]) -> usize
    requires { output_length ≤ length out.old }
    ensures { Written out.old 0 fault_line result out.new }
{
    let mut output = Output { bytes: out, at: 0 };
    output.put_fault_line();
    output.at
}
