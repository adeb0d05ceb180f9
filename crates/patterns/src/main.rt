// The patterns of questions and updates. A line of standard input each: a TABLE text adds a table, a SELECT text is the question from then on, and of any other
// statement the patterns with that question are printed, a line each. A line that begins with a number sign is printed as it is.
// This program runs on a host and may use the heap.
#![tactic(auto)]

mod shown; // patterns, as they are printed

use pattern::Patterns;
use script::Program;
use shown::Shown;
use std::alloc::Global;
use std::io;
use std::io::Write;
use table::{Query, Statement, Table};

const CELLS: u32 = 32768;

// The tables so far, and the last question.
#[derive(Drop)]
struct Store {
    tables: Vec<Table>,
    query: Query,
}

impl Store {
    fn new(alloc: Global) -> Self {
        Store {
            tables: Vec::new(alloc),
            query: Query::default(),
        }
    }

    // Adds what a text says; of an update, prints its patterns. A refusal is printed in words of this program: the library has no output form, and a `Display` would make it
    // no shorter. Questions and updates are not counted, so a text is compiled beside 0 of each.
    fn add<W: Write>(&mut self, text: &[u8], out: &mut W) -> io::Result<()> {
        match script::compile(text, &self.tables, 0, 0, CELLS) {
            Err(refusal) => writeln!(out, "refused {}", refusal.number())?,
            Ok(Statement::Table(table)) => self.tables.push(table)?,
            Ok(Statement::Query(query)) => self.query = query,
            Ok(Statement::Update(update)) => {
                write!(out, "{}", Shown(&Patterns::of(&self.query, &update)))?;
            }
        }
        Ok(())
    }
}

impl Program for Store {
    fn run<W: Write>(&mut self, line: &[u8], out: &mut W) -> io::Result<()> {
        match line {
            [] => Ok(()),
            [b'#', ..] => {
                out.write_all(line)?;
                writeln!(out)
            }
            text => self.add(text, out),
        }
    }
}

fn main(rt: HostRuntime) -> io::Result<()> {
    script::run_script(&rt, &mut Store::new(rt.alloc()))
}
