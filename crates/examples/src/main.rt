// The calls of the store, run on document 01's examples, each number for a call not taken, and states that are not sound: a line of standard input each.
// `OPEN cells memory slots bytes`, `ADD text`, `ASK number buffer v v ..`, `DO number v v ..`, `FLUSH`, `PROPOSE number v v ..`, `COMMIT` and `WITHDRAW` make a call and print what it gives. `LEND cells memory` says
// how much the next calls are lent, `ROW i` shows a row of the last answer, and `SLOTS` prints the order of use. `SET field n ..` changes a field of the state, and
// `SPOIL field n ..` prints what a flush gives on a state changed so. Numbers may stand behind a name, and of a line 16 are read. A line that starts with `#` is a comment.
// This program runs on a host and may use the heap.
// It prints refusals, kinds and sources in words of its own: the library has no output form. A type with a `Display` would make `refused {}` no shorter, and a
// `Display` of `Kind` or `Source` would serve this program alone, as `console` prints bytes.
#![tactic(auto)]

mod fields; // a field of the state, changed by its name
mod memory; // a memory, and how much of it is lent

use cache::{Changed, Kind, Source, State};
use memory::Memory;
use script::{Constants, LINE, PAIRS_RECORD, Program, Row, Rows, number, split_part};
use slots::SlotList;
use std::alloc::{AllocError, Global};
use std::io;
use std::io::Write;
use table::Refusal;

// One cell and one byte more than a store may have.
const CELLS: usize = State::CELLS + 1;

const MEMORY: usize = State::MEMORY + 1;

// The state, and the memories that it is lent.
#[derive(Drop)]
struct Store {
    alloc: Global,
    state: State,
    cells: Memory<i32>,
    memory: Memory<u8>,
    answer: Memory<u8>,
}

// What an update or a commit gives.
fn print_changed<W: Write>(changed: Result<Changed, Refusal>, out: &mut W) -> io::Result<()> {
    match changed {
        Ok(changed) => writeln!(out, "rows {} dropped {}", changed.rows, changed.invalidated),
        Err(refusal) => writeln!(out, "refused {}", refusal.number()),
    }
}

// Where the numbers of a text start: behind the name at its start, if there is one.
fn numbers_start(text: &[u8]) -> usize {
    let first = token::next(text, 0);
    match first.kind {
        token::Kind::Name => first.next,
        _ => 0,
    }
}

impl Store {
    // A store that is not open yet.
    fn new(alloc: Global) -> Result<Self, AllocError> {
        Ok(Store {
            alloc,
            state: State::open(&mut [], &mut [], 0, SlotList::LEAST_BYTES).state,
            cells: Memory::new(alloc, 0, CELLS)?,
            memory: Memory::new(alloc, 0, MEMORY)?,
            answer: Memory::new(alloc, 0, PAIRS_RECORD)?,
        })
    }

    // ---- the calls, by value, on what is lent

    fn open<W: Write>(&mut self, n: &[i32], out: &mut W) -> io::Result<()> {
        self.lend(n);
        let (cells, memory) = (self.cells.lent_mut(), self.memory.lent_mut());
        let opened = State::open(cells, memory, number(n, 2), number(n, 3));
        self.state = opened.state;
        match opened.result {
            Ok(()) => writeln!(out, "opened"),
            Err(refusal) => writeln!(out, "refused {}", refusal.number()),
        }
    }

    fn add<W: Write>(&mut self, text: &[u8], out: &mut W) -> io::Result<()> {
        let added = self
            .state
            .clone()?
            .add(self.cells.lent(), self.memory.lent(), text);
        self.state = added.state;
        let added = match added.result {
            Ok(added) => added,
            Err(refusal) => return writeln!(out, "refused {}", refusal.number()),
        };
        let kind = match added.kind {
            Kind::Table => "table",
            Kind::Query => "query",
            Kind::Update => "update",
        };
        writeln!(out, "{kind} {}", added.number)
    }

    fn ask<W: Write>(&mut self, n: &[i32], out: &mut W) -> io::Result<()> {
        self.answer.lend(number(n, 1));
        let values = n.get(2..).unwrap_or(&[]);
        let (cells, memory) = (self.cells.lent(), self.memory.lent_mut());
        let answer = self.answer.lent_mut();
        let asked = self
            .state
            .clone()?
            .ask(cells, memory, number(n, 0), values, answer);
        self.state = asked.state;
        let answer = match asked.result {
            Ok(answer) => answer,
            Err(refusal) => return writeln!(out, "refused {}", refusal.number()),
        };
        let what = match answer.source {
            Source::New => "new",
            Source::Cached => "kept",
        };
        let rows = Rows(self.answer.lent());
        writeln!(
            out,
            "{what} read {} bytes {} :{rows}",
            answer.scanned, answer.size
        )
    }

    fn update<W: Write>(&mut self, n: &[i32], out: &mut W) -> io::Result<()> {
        let values = n.get(1..).unwrap_or(&[]);
        let (cells, memory) = (self.cells.lent_mut(), self.memory.lent());
        let updated = self
            .state
            .clone()?
            .update(cells, memory, number(n, 0), values);
        self.state = updated.state;
        print_changed(updated.result, out)
    }

    fn propose<W: Write>(&mut self, n: &[i32], out: &mut W) -> io::Result<()> {
        let values = n.get(1..).unwrap_or(&[]);
        let (cells, memory) = (self.cells.lent(), self.memory.lent());
        let proposed = self
            .state
            .clone()?
            .propose(cells, memory, number(n, 0), values);
        self.state = proposed.state;
        match proposed.result {
            Ok(proposed) => writeln!(out, "rows {}", proposed.rows),
            Err(refusal) => writeln!(out, "refused {}", refusal.number()),
        }
    }

    fn commit<W: Write>(&mut self, out: &mut W) -> io::Result<()> {
        let (cells, memory) = (self.cells.lent_mut(), self.memory.lent());
        let committed = self.state.clone()?.commit(cells, memory);
        self.state = committed.state;
        print_changed(committed.result, out)
    }

    fn withdraw<W: Write>(&mut self, out: &mut W) -> io::Result<()> {
        let (cells, memory) = (self.cells.lent(), self.memory.lent());
        let withdrawn = self.state.clone()?.withdraw(cells, memory);
        self.state = withdrawn.state;
        match withdrawn.result {
            Ok(()) => writeln!(out, "withdrawn"),
            Err(refusal) => writeln!(out, "refused {}", refusal.number()),
        }
    }

    // Flushes this state; the state after it.
    fn flush<W: Write>(&self, state: State, out: &mut W) -> io::Result<State> {
        let flushed = state.flush(self.cells.lent(), self.memory.lent());
        match flushed.result {
            Ok(()) => writeln!(out, "flushed")?,
            Err(refusal) => writeln!(out, "refused {}", refusal.number())?,
        }
        Ok(flushed.state)
    }

    // ---- what is no call of the store

    fn lend(&mut self, n: &[i32]) {
        self.cells.lend(number(n, 0));
        self.memory.lend(number(n, 1));
    }

    // Row i of the last answer.
    fn print_row<W: Write>(&self, i: usize, out: &mut W) -> io::Result<()> {
        let answer = self.answer.lent();
        match table::check_row(answer, i) {
            Ok(()) => writeln!(out, "row :{}", Row(table::row(answer, i))),
            Err(refusal) => writeln!(out, "refused {}", refusal.number()),
        }
    }

    fn print_slots<W: Write>(&self, out: &mut W) -> io::Result<()> {
        let slots = &self.state.slots;
        write!(out, "order")?;
        for slot in slots.order.iter().take(usize::from(slots.count)) {
            write!(out, " {slot}")?;
        }
        writeln!(out, " held {}", slots.held)
    }

    // The numbers of a text, at most as many as a line has.
    fn numbers(&self, text: &[u8]) -> Result<Vec<i32>, AllocError> {
        let numbers = text.get(numbers_start(text)..).unwrap_or(&[]);
        Constants::new(numbers).take(LINE).collect(self.alloc)
    }

    // The state with the field changed that a text names.
    fn changed(&self, text: &[u8]) -> Result<State, AllocError> {
        let (name, _) = split_part(text, b' ');
        let n = self.numbers(text)?;
        let mut state = self.state.clone()?;
        fields::set_field(&mut state, name, &n);
        Ok(state)
    }

    // A command with numbers alone.
    fn run_numbered<W: Write>(&mut self, word: &[u8], n: &[i32], out: &mut W) -> io::Result<()> {
        match word {
            b"OPEN" => self.open(n, out)?,
            b"LEND" => self.lend(n),
            b"ASK" => self.ask(n, out)?,
            b"DO" => self.update(n, out)?,
            b"FLUSH" => self.state = self.flush(self.state.clone()?, out)?,
            b"PROPOSE" => self.propose(n, out)?,
            b"COMMIT" => self.commit(out)?,
            b"WITHDRAW" => self.withdraw(out)?,
            b"ROW" => self.print_row(number(n, 0), out)?,
            b"SLOTS" => self.print_slots(out)?,
            _ => {}
        }
        Ok(())
    }
}

impl Program for Store {
    fn run<W: Write>(&mut self, line: &[u8], out: &mut W) -> io::Result<()> {
        let (word, text) = split_part(line, b' ');
        match word {
            b"ADD" => self.add(text, out)?,
            b"SET" => self.state = self.changed(text)?,
            b"SPOIL" => {
                self.flush(self.changed(text)?, out)?;
            }
            _ => {
                let n = self.numbers(text)?;
                self.run_numbered(word, &n, out)?;
            }
        }
        Ok(())
    }
}

fn main(rt: HostRuntime) -> io::Result<()> {
    script::run_script(&rt, &mut Store::new(rt.alloc())?)
}
