// The store in a program of its own, as README.md shows it ("Embedding it"): the lines between the two marks are that page's, and tests/embedding holds the two together.
#![tactic(auto)]

use cache::{SealedState, Source};
use std::io;
use table::Refusal;

// What the calls gave: where both answers were from, the bytes of the row that is shown, the rows proposed, the answers that the commit invalidated.
#[derive(Clone, Copy)]
struct Told {
    first: Source,
    second: Source,
    row: usize,
    proposed: u16,
    invalidated: u8,
}

// Opens a store, adds statements, fills it, asks it twice, and looks at an update before it is made.
fn use_store(cells: &mut [i32], memory: &mut [u8], answer: &mut [u8]) -> Result<Told, Refusal> {
    // <!-- embedding -->
    let opened = SealedState::open(cells, memory, 4, 64); // 4 slots of 64 bytes
    opened.result?;
    let mut store = opened.state;
    store.add(cells, memory, b"TABLE stages (site, day, level) ROWS 512")?; // gives the kind and the number
    store.add(cells, memory, b"INSERT INTO stages VALUES (?, ?, ?)")?;
    store.add(cells, memory, b"UPDATE stages SET level = ? WHERE site = ?")?;
    store.add(cells, memory, b"SELECT level FROM stages WHERE site = ?")?;
    store.update(cells, memory, 0, &[7, 1, 120])?; // how many rows, and how many cached answers it invalidates
    let new = store.ask(cells, memory, 0, &[7], answer)?; // new or cached, rows scanned, the record's length
    let again = store.ask(cells, memory, 0, &[7], answer)?; // cached: no row is scanned
    let row = table::row(answer, 0); // row 0 as a part of the answer's own bytes
    let proposed = store.propose(cells, memory, 1, &[121, 7])?; // how many rows it would change: noted, not made
    let committed = store.commit(cells, memory)?; // makes it; `withdraw` would take the note away
    // <!-- end -->
    Ok(Told {
        first: new.source,
        second: again.source,
        row: row.len(),
        proposed: proposed.rows,
        invalidated: committed.invalidated,
    })
}

// Whether an answer was from the cache, in a word.
fn word(source: Source) -> &'static str {
    match source {
        Source::New => "new",
        Source::Cached => "cached",
    }
}

fn main(rt: HostRuntime) -> io::Result<()> {
    let mut cells = [0; 2048];
    let mut memory = [0; 256];
    let mut answer = [0; 64];
    match use_store(&mut cells, &mut memory, &mut answer) {
        Ok(told) => {
            println!(rt; "{} {}", word(told.first), word(told.second))?;
            println!(rt; "row of {} bytes", told.row)?;
            println!(rt; "rows {} dropped {}", told.proposed, told.invalidated)
        }
        Err(refusal) => println!(rt; "refused {}", refusal.number()),
    }
}
