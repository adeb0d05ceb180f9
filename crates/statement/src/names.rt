// Names: compared, found among columns and tables, and what is counted of those.
ghost use Rattle.std.specs.Prelude.{◌≡◌, ◌*◌, ◌≤◌, map, length};
ghost use Rattle.lists.specs.Lists.{repeats};
ghost use Rattle.meaning.specs.Limits.{most_tables, most_items};
ghost use Rattle.meaning.specs.Names.{same_name, position, pair_place};
ghost use Rattle.meaning.specs.Cells.{area_size, areas_size};
ghost use Rattle.statement.specs.Catalog.{name_of_struct, schema_of};
ghost use Rattle.statement.specs.Private.Built.{column_names, places_of, place_of, Finds, width_in, start_in, twice_in};
ghost use Rattle.statement.specs.Compiled.{padded};
ghost use Rattle.statement.specs.Same.{same_laws};

use super::sentences::Item;
use super::{Name, Table, fetching};

// Where a statement's columns are looked up: in one table, or, dotted, in two.
#[derive(Clone, Copy)]
pub enum Scope<'a> {
    One(&'a Table),
    Two(&'a Table, &'a Table),
}

// ---- names

impl Name {
    // The bytes of a name.
    fn text(&self) -> &[u8]
        ensures { result.now ≡ name_of_struct self.now }
    {
        lists::in_use(&self.bytes, usize::from(self.len))
    }
}

// By hand: bytes past `len` do not count, and a derived one compares them.
impl PartialEq for Name {
    ghost eq = { λ a b. same_name (name_of_struct a) (name_of_struct b) };

    ghost laws = { same_laws };

    fn eq(&self, other: &Name) -> bool {
        self.text() == other.text()
    }
}

// The first place of a name among others, or how many those are: that place is stored, and refused afterwards.
fn find(name: &Name, names: &[Name]) -> usize
    ensures is { result ≡ position (map name_of_struct names.now) (name_of_struct name.now) }
    ensures few { result ≤ length names.now }
{
    names
        .iter()
        .position(|x| *name == *x)
        .unwrap_or(names.len())
}

// Whether one of the names stands among them twice. (Of settings `soundness` asks the same and of slots `slots`: names are compared by their bytes in use, settings by their
// columns, slots by their keys. One function of these three tests would take a closure and ask that it may be called, and no public function asks anything.)
pub fn is_repeated(names: &[Name]) -> bool
    ensures { result ≡ repeats same_name (map name_of_struct names.now) }
{
    names
        .iter()
        .enumerate()
        .any(|(i, name)| names[..i].contains(name))
}

// ---- columns (a place or a count is `as u8`: it is at most 16, and `TryFrom` would test that again; u8 has no From of usize)

// The place of a column in a table, or how many columns that has, as `find` gives it.
pub fn find_column(name: &Name, t: &Table) -> u8
    ensures is { result ≡ position (column_names t.now) (name_of_struct name.now) }
    ensures few { result ≤ most_items }
{
    find(name, t.names()) as u8
}

// The same if `table` is its table's name, else how many columns that has.
fn find_in(table: &Name, name: &Name, t: &Table) -> u8
    ensures is { result ≡ place_of (name_of_struct t.now.name) (column_names t.now) (name_of_struct table.now, name_of_struct name.now) }
    ensures few { result ≤ most_items }
{
    if *table == t.name {
        find_column(name, t)
    } else {
        t.names().len() as u8
    }
}

// The places of these names among a table's columns.
pub fn positions(names: &[Name], t: &Table) -> [u8; Item::ITEMS]
    requires { length names.now ≤ most_items }
    ensures { result ≡ padded most_items 0 (places_of (column_names t.now) (map name_of_struct names.now)) }
{
    fetching::placed(names, 0, |name| find_column(name, t))
}

// The place of a dotted column in a pair of rows, or how many columns both tables have: stored, and refused afterwards.
pub fn find_dotted(table: &Name, name: &Name, t: &Table, u: &Table) -> u8
    ensures is { result ≡ pair_place (name_of_struct t.now.name) (column_names t.now) (name_of_struct u.now.name) (column_names u.now) (name_of_struct table.now, name_of_struct name.now) }
    ensures few { result ≤ 2 * most_items }
{
    let n = t.names().len() as u8;
    let i = find_in(table, name, t);
    if i < n {
        i
    } else {
        n + find_in(table, name, u)
    }
}

impl Scope<'_> {
    // How many columns there are.
    pub fn width(&self) -> usize
        ensures { result ≡ width_in self.now }
    {
        match self {
            Scope::One(t) => t.names().len(),
            Scope::Two(t, u) => t.names().len() + u.names().len(),
        }
    }

    // The position of the second table's first column; of one table 0, which is not read.
    pub fn start(&self) -> u8
        ensures { result ≡ start_in self.now }
    {
        match self {
            Scope::One(_) => 0,
            Scope::Two(t, _) => t.names().len() as u8,
        }
    }

    // Whether both tables have one name.
    pub fn is_twice(&self) -> bool
        ensures { result ≡ twice_in self.now }
    {
        match self {
            Scope::One(_) => false,
            Scope::Two(t, u) => t.name == u.name,
        }
    }
}

// ---- tables

// What a text is read beside: the tables that there are, how many questions and updates, and the cells.
#[derive(Clone, Copy)]
pub struct Catalog<'a> {
    pub tables: &'a [Table],
    pub queries: u8,
    pub updates: u8,
    pub cells: usize,
    ghost few: { length tables.now ≤ most_tables },
}

// The cells of a table's area: `Table::cells`, but by the columns that it has, and its count may be past those.
fn area(t: &Table) -> usize
    ensures is { result ≡ area_size (schema_of t.now) }
    ensures few { result ≤ 524280 }
{
    t.names().len() * usize::from(t.capacity)
}

// A table that was found, and its number.
#[derive(Clone, Copy)]
pub struct Found<'a> {
    pub number: u8,
    pub table: &'a Table,
}

impl Catalog<'_> {
    // The table of that name, if there is one.
    pub fn find(&self, name: &Name) -> Option<Found<'_>>
        ensures { Finds self.now.tables.now (name_of_struct name.now) result }
    {
        let i = self.tables.iter().position(|t| *name == t.name)?;
        Some(Found {
            number: i as u8,
            table: &self.tables[i],
        })
    }

    // The cells of the areas of all tables.
    pub fn areas(&self) -> usize
        ensures { result ≡ areas_size (map schema_of self.now.tables.now) }
    {
        self.tables.iter().map(area).sum()
    }
}
