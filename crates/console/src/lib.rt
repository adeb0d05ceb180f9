// Lines of `desk`: a line read into a command, the command done on a store, and what is printed for it as bytes. No input or output.
#![tactic(auto)]

mod lines; // a line of the input, and what it says
mod numbers; // what says a number: itself, or an enum's value
mod text; // what is printed
mod writer; // a lent buffer that is filled from a place on

ghost use Rattle.std.specs.Prelude.{◌≡◌, []};
ghost use Rattle.meaning.specs.Call.{add, ask, change, flush};
ghost use Rattle.console.specs.Demand.{Demands};
ghost use Rattle.console.specs.Desk.{replies, reply_of};
ghost use Rattle.console.specs.Private.Commands.{reply_to};

use cache::SealedState;
pub use lines::{gather, read_line};
pub use numbers::Numbered;
pub use text::{write_added, write_answer, write_bad, write_flushed, write_refused, write_updated};

// What a line says: for ASK and DO the statement's number, and how many values there are. The text of ADD is the line from byte Line::TEXT on.
// A count and no slice: there is no heap, so the values stand in a buffer that the caller lends, and what a line says (`line_of`) is defined without one.
#[derive(Clone, Copy)]
pub enum Line {
    Add,
    Ask { number: usize, count: usize },
    Do { number: usize, count: usize },
    Flush,
    Bad,
}

impl Line {
    // The most bytes of a line.
    pub const BYTES: usize = 512;

    // Where the text of ADD starts.
    pub const TEXT: usize = 4;
}

// How far a line was gathered: where the input goes on, the bytes held, and whether the line has ended. `next` and `held` hold either way, so no Option takes their place.
#[derive(Clone, Copy)]
pub struct Gathered {
    pub next: usize,
    pub held: usize,
    pub ended: bool,
}

// Does what a line says, and puts what is printed for it at the start of `out`, as far as there is room: how many bytes those are.
pub fn respond(
    state: &mut SealedState,
    cells: &mut [i32],
    memory: &mut [u8],
    answer: &mut [u8],
    line: &[u8],
    out: &mut [u8],
) -> usize
    ensures { replies (record { size = result; state = state.new }) cells.new memory.new answer.new out.new ≡ reply_of state.old cells.old memory.old answer.old line.now out.old }
{
    let mut values = [0i32; Line::BYTES];
    match read_line(line, &mut values) {
        Line::Add => respond_add(state, cells, memory, &line[Line::TEXT..], out),
        Line::Ask { number, count } => {
            respond_ask(state, cells, memory, number, &values[..count], answer, out)
        }
        Line::Do { number, count } => {
            respond_do(state, cells, memory, number, &values[..count], out)
        }
        Line::Flush => respond_flush(state, cells, memory, out),
        Line::Bad => write_bad(out),
    }
}

// ---- each command, with what is lent to it. Four functions: what is lent and what is written differ in each, so one of the four would be the `match` of `respond` again.
// State, cells, memory, answer and out stay parameters: a caller lends them, and a call that is lent two fields of a struct of `&mut` borrows gets no generated proof. Each
// function would take the struct apart first, so their names would stand there as now. (`serve` has a struct that owns its arrays.)

fn respond_add(
    state: &mut SealedState,
    cells: &[i32],
    memory: &[u8],
    text: &[u8],
    out: &mut [u8],
) -> usize
    ensures { replies (record { size = result; state = state.new }) cells.now memory.now [] out.new ≡ reply_to state.old cells.now memory.now [] (add text.now) out.old }
{
    match state.add(cells, memory, text) {
        Ok(added) => write_added(out, added.kind, added.number),
        Err(refusal) => write_refused(out, refusal),
    }
}

fn respond_ask(
    state: &mut SealedState,
    cells: &[i32],
    memory: &mut [u8],
    number: usize,
    values: &[i32],
    answer: &mut [u8],
    out: &mut [u8],
) -> usize
    ensures { replies (record { size = result; state = state.new }) cells.now memory.new answer.new out.new ≡ reply_to state.old cells.now memory.old answer.old (ask (record { query = number; values = values.now }) answer.old) out.old }
{
    match state.ask(cells, memory, number, values, answer) {
        Ok(asked) => {
            let record = &answer[..asked.size];
            write_answer(out, asked.source, asked.scanned, record)
        }
        Err(refusal) => write_refused(out, refusal),
    }
}

fn respond_do(
    state: &mut SealedState,
    cells: &mut [i32],
    memory: &[u8],
    number: usize,
    values: &[i32],
    out: &mut [u8],
) -> usize
    ensures { replies (record { size = result; state = state.new }) cells.new memory.now [] out.new ≡ reply_to state.old cells.old memory.now [] (change number values.now) out.old }
{
    match state.update(cells, memory, number, values) {
        Ok(changed) => write_updated(out, changed.rows, changed.invalidated),
        Err(refusal) => write_refused(out, refusal),
    }
}

fn respond_flush(state: &mut SealedState, cells: &[i32], memory: &[u8], out: &mut [u8]) -> usize
    ensures { replies (record { size = result; state = state.new }) cells.now memory.now [] out.new ≡ reply_to state.old cells.now memory.now [] flush out.old }
{
    match state.flush(cells, memory) {
        Ok(()) => write_flushed(out),
        Err(refusal) => write_refused(out, refusal),
    }
}

// All claims of specs/Demand hold. A theorem is proved only where a contract names it: this function is there to name them, and does nothing.
pub fn claims_hold()
    ensures { Demands }
{}
