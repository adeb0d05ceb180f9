// A store without kept answers: a line of standard input each is done on the tables that the lines before it made. There are 8,192 cells.
// `+TEXT` compiles a statement text, `?N v v ..` asks question N with these values, and `!N v v ..` makes update N with these; of a line 16 numbers are read.
// This program runs on a host and may use the heap.
#![tactic(auto)]

use script::{LINE, Program, Rows, TABLE_RECORD};
use std::alloc::{AllocError, Global};
use std::io;
use std::io::Write;
use table::{Query, Selected, Statement, Table, Update};

const CELLS: u16 = 8192;

#[derive(Drop)]
struct Store {
    alloc: Global,
    tables: Vec<Table>,
    queries: Vec<Query>,
    updates: Vec<Update>,
    cells: Vec<i32>,
    record: Vec<u8>,
}

impl Store {
    fn new(alloc: Global) -> Result<Self, AllocError> {
        Ok(Store {
            alloc,
            tables: Vec::new(alloc),
            queries: Vec::new(alloc),
            updates: Vec::new(alloc),
            cells: vec![in alloc; 0; usize::from(CELLS)]?,
            record: vec![in alloc; 0; TABLE_RECORD]?,
        })
    }

    // Table k, and where its area starts.
    fn placed(&self, k: u8) -> Option<(Table, usize)> {
        let table = self.tables.get(usize::from(k)).copied()?;
        let before = self.tables.iter().take(usize::from(k));
        let start = before.fold(0, |start: usize, table| start.saturating_add(table.cells()));
        Some((table, start))
    }

    // Compiles a text, and adds what it comes to. A refusal is printed in words of this program: the library has no output form, and a `Display` would make it no shorter.
    fn add<W: Write>(&mut self, text: &[u8], out: &mut W) -> io::Result<()> {
        let (queries, updates) = (self.queries.len(), self.updates.len());
        let tables = self.tables.as_slice();
        match script::compile(text, tables, queries, updates, u32::from(CELLS)) {
            Err(refusal) => writeln!(out, "refused {}", refusal.number())?,
            Ok(Statement::Table(table)) => {
                writeln!(out, "table {}", self.tables.len())?;
                self.tables.push(table)?;
            }
            Ok(Statement::Query(query)) => {
                writeln!(out, "query {queries}")?;
                self.queries.push(query)?;
            }
            Ok(Statement::Update(update)) => {
                writeln!(out, "update {updates}")?;
                self.updates.push(update)?;
            }
        }
        Ok(())
    }

    // Lists the rows of a question's table, or of its two tables; nothing where a table is not there, or the record is too long.
    fn list(&mut self, query: Query, values: &[i32]) -> Option<Selected> {
        let (table, start) = self.placed(query.table)?;
        let Some(second) = query.second_table() else {
            return table::select(query, table, start, &self.cells, values, &mut self.record).ok();
        };
        let (second, beside) = self.placed(second)?;
        table::select_pair(
            query,
            table,
            start,
            second,
            beside,
            &self.cells,
            values,
            &mut self.record,
        )
        .ok()
    }

    fn ask<W: Write>(&mut self, n: usize, values: &[i32], out: &mut W) -> io::Result<()> {
        let Some(query) = self.queries.get(n).copied() else {
            return Ok(());
        };
        self.list(query, values);
        writeln!(out, ":{}", Rows(&self.record))
    }

    fn update<W: Write>(&mut self, n: usize, values: &[i32], out: &mut W) -> io::Result<()> {
        let Some(update) = self.updates.get(n).copied() else {
            return Ok(());
        };
        if let Some((table, start)) = self.placed(update.table) {
            let changed = table::change(update, table, start, &mut self.cells, values);
            writeln!(out, "rows {}", changed.count)?;
            if let Some(table) = self.tables.get_mut(usize::from(update.table)) {
                table.rows = changed.rows;
                table.oldest = changed.oldest;
            }
        }
        Ok(())
    }
}

impl Program for Store {
    fn run<W: Write>(&mut self, line: &[u8], out: &mut W) -> io::Result<()> {
        match line {
            [] => Ok(()),
            [b'+', text @ ..] => self.add(text, out),
            [sign, text @ ..] => {
                let (n, mut values) = script::numbered(self.alloc, text)?;
                values.truncate(LINE - 1);
                if *sign == b'!' {
                    self.update(n, &values, out)
                } else {
                    self.ask(n, &values, out)
                }
            }
        }
    }
}

fn main(rt: HostRuntime) -> io::Result<()> {
    script::run_script(&rt, &mut Store::new(rt.alloc())?)
}
