// A statement text beside the tables that a script made so far.
ghost use Rattle.std.specs.Prelude.{◌≡◌, min, length};
ghost use Rattle.statement.specs.Compiled.{compiled, compiled_of};

use statement::{Refusal, Statement, Table};

// What a text says beside the first tables of a list, as many as a store may have, where there are so many questions and updates already, and so many cells.
pub fn compile(
    text: &[u8],
    tables: &[Table],
    queries: usize,
    updates: usize,
    cells: u32,
) -> Result<Statement, Refusal>
    ensures { compiled result ≡ compiled_of text.now tables.now (min (length tables.now) 8) (min queries 255) (min updates 255) cells }
{
    let queries = u8::try_from(queries).unwrap_or(u8::MAX);
    let updates = u8::try_from(updates).unwrap_or(u8::MAX);
    Statement::compile(text, tables, queries, updates, cells)
}
