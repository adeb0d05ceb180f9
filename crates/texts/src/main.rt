// Compiles statement texts, a line of standard input each, beside the tables that the lines before it made, and prints what each comes to. A line that is
// just an exclamation mark empties the store. There are 5,000 cells. This program runs on a host and may use the heap.
#![tactic(auto)]

mod shown; // what a statement says, as it is printed

use script::Program;
use shown::Shown;
use statement::{Statement, Table};
use std::alloc::Global;
use std::io;
use std::io::Write;

const CELLS: u32 = 5000;

// The tables so far, and how many questions and updates.
#[derive(Drop)]
struct Store {
    tables: Vec<Table>,
    queries: usize,
    updates: usize,
}

impl Store {
    fn new(alloc: Global) -> Self {
        Store {
            tables: Vec::new(alloc),
            queries: 0,
            updates: 0,
        }
    }

    fn clear(&mut self) {
        self.tables.clear();
        self.queries = 0;
        self.updates = 0;
    }

    // Compiles a text, prints what it comes to, and adds that. A refusal is printed in words of this program: the library has no output form, and a `Display` would make
    // it no shorter.
    fn add<W: Write>(&mut self, text: &[u8], out: &mut W) -> io::Result<()> {
        let tables = self.tables.as_slice();
        match script::compile(text, tables, self.queries, self.updates, CELLS) {
            Err(refusal) => writeln!(out, "refused {}", refusal.number())?,
            Ok(Statement::Table(table)) => {
                writeln!(out, "table {}{}", self.tables.len(), Shown(&table))?;
                self.tables.push(table)?;
            }
            Ok(Statement::Query(query)) => {
                writeln!(out, "query {}{}", self.queries, Shown(&query))?;
                self.queries = self.queries.saturating_add(1);
            }
            Ok(Statement::Update(update)) => {
                writeln!(out, "update {}{}", self.updates, Shown(&update))?;
                self.updates = self.updates.saturating_add(1);
            }
        }
        Ok(())
    }
}

impl Program for Store {
    fn run<W: Write>(&mut self, line: &[u8], out: &mut W) -> io::Result<()> {
        match line {
            b"!" => {
                self.clear();
                Ok(())
            }
            text => self.add(text, out),
        }
    }
}

fn main(rt: HostRuntime) -> io::Result<()> {
    script::run_script(&rt, &mut Store::new(rt.alloc()))
}
