// The tests of stored tables and statements: whether each is such as a text compiles to. They run at every call of a store, so names are compared as numbers,
// and of the tables a statement's test needs only how many columns each has.
#![tactic(auto)]

mod conditions; // steps and comparisons
mod names; // names, and tables by themselves
mod statements; // questions and updates by themselves

ghost use Rattle.std.specs.Prelude.{◌≡◌, [], ◌&&◌, map, leb, length};
ghost use Rattle.lists.specs.Lists.{all};
ghost use Rattle.statement.specs.Catalog.{schema_of};
ghost use Rattle.statement.specs.SoundTest.{sound_schemas, sound_query, sound_update};

use names::Digits;
use table::{Query, Table, Update};

// Whether tables are sound beside each other: not more than a store has places for, each sound by itself, no two of one name.
pub fn tables_are_sound(tables: &[Table]) -> bool
    ensures { result ≡ (leb (length tables.now) 8 && sound_schemas [] tables.now) }
{
    tables.len() <= Table::TABLES && Digits::new().are_apart(tables, Digits::table_code)
}

// Whether questions are sound beside these tables.
pub fn queries_are_sound(tables: &[Table], queries: &[Query]) -> bool
    ensures { result ≡ all (sound_query (map schema_of tables.now)) queries.now }
{
    queries.iter().all(|q| statements::query_fits(q, tables))
}

// Whether updates are sound beside these tables.
pub fn updates_are_sound(tables: &[Table], updates: &[Update]) -> bool
    ensures { result ≡ all (sound_update (map schema_of tables.now)) updates.now }
{
    updates.iter().all(|u| statements::update_fits(u, tables))
}
