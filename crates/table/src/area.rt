// A table's rows in the lent cells: they lie one after another from the start of the table's area on, and where a ring is full the oldest is any of them.
ghost use Rattle.std.specs.Prelude.{◌≡◌, ◌+◌, ◌-◌, ◌*◌, ◌≤◌, ◌<◌, leb, min, [], ◌∷◌, length, take, drop, get_or};

use statement::Table;

// Whether so many cells lie inside an array of `size`, from a place on.
pub fn is_inside(size: usize, start: usize, cells: usize) -> bool
    ensures { result ≡ leb (start + cells) size }
{
    cells <= size && start <= size - cells
}

// A table's rows: the cells from the first row's on, how many cells a row has, how many rows there are, and which is the oldest, counted as they lie.
#[derive(Clone, Copy)]
pub struct Rows<'a> {
    pub cells: &'a [i32],
    pub width: usize,
    pub count: u16,
    oldest: u16,
    ghost inside: { count * width ≤ length cells.now },
    ghost oldest_in: { oldest ≤ count },
    ghost few: { count ≤ 65535 },
}

impl<'a> Rows<'a> {
    ghost use Rattle.table.specs.Evaluated.{rows_paired, place_round};
    ghost use Rattle.table.specs.Rows.{area_rows, rows_used};
    ghost use Rattle.table.specs.Private.Scanned.{lying_in, rows_of};

    // None, in a table of so many columns.
    fn none(cells: &'a [i32], width: usize) -> Rows<'a>
        ensures rows { rows_of result ≡ [] }
        ensures width { result.width ≡ width }
    {
        Rows {
            cells,
            width,
            count: 0,
            oldest: 0,
        }
    }

    // So many, as they lie at the start of these cells.
    pub fn at_start(cells: &'a [i32], width: usize, count: u16) -> Rows<'a>
        requires { count * width ≤ length cells.now }
        ensures rows { lying_in result ≡ area_rows width count cells.now }
        ensures count { result.count ≡ count }
    {
        Rows {
            cells,
            width,
            count,
            oldest: 0,
        }
    }

    // Those of the table whose area starts there; a table whose rows do not lie inside the cells has none.
    pub fn of(table: &Table, start: usize, cells: &'a [i32]) -> Rows<'a>
        ensures rows { rows_of result ≡ rows_used table.now start cells.now }
        ensures width { result.width ≡ table.now.count }
    {
        let width = usize::from(table.count);
        if !is_inside(cells.len(), start, width * usize::from(table.rows)) {
            return Rows::none(cells, width);
        }
        Rows {
            cells: &cells[start..],
            width,
            count: table.rows,
            oldest: if table.oldest < table.rows {
                table.oldest
            } else {
                0
            },
        }
    }

    // The same in a pair of rows: a table of more than 8 columns has none.
    pub fn paired(table: &Table, start: usize, cells: &'a [i32]) -> Rows<'a>
        ensures rows { rows_of result ≡ rows_paired table.now start cells.now }
        ensures width { result.width ≤ 8 }
    {
        if Table::COLUMNS < usize::from(table.count) {
            return Rows::none(cells, 0);
        }
        Rows::of(table, start, cells)
    }

    // Where row i lies, counted from the oldest on and round.
    fn place(&self, i: usize) -> usize
        requires { i < self.now.count }
        ensures place { result ≡ place_round self.now.count self.now.oldest i }
        ensures inside { result < self.now.count }
    {
        let place = usize::from(self.oldest) + i;
        let count = usize::from(self.count);
        if place < count { place } else { place - count }
    }

    // Row i, counted so. (By number, where rows are read round; it is asked that the row is there, as of any index.)
    pub fn row(&self, i: usize) -> &'a [i32]
        requires { i < self.now.count }
        ensures row { result.now ≡ get_or (rows_of self.now) i [] }
        ensures width { length result.now ≡ self.now.width }
    {
        let at = self.place(i) * self.width;
        &self.cells[at..at + self.width]
    }

    // Row i as they lie.
    pub fn lying(&self, i: usize) -> &'a [i32]
        requires { i < self.now.count }
        ensures { result.now ≡ get_or (lying_in self.now) i [] }
    {
        let at = i * self.width;
        &self.cells[at..at + self.width]
    }

    // The rows from the oldest on, as they lie: two parts, so that a scan of them does not ask of each row where it lies.
    pub fn late(&self) -> Rows<'a>
        ensures { lying_in result ≡ drop self.now.oldest (lying_in self.now) }
    {
        Rows {
            cells: &self.cells[usize::from(self.oldest) * self.width..],
            width: self.width,
            count: self.count - self.oldest,
            oldest: 0,
        }
    }

    // And those before it.
    pub fn early(&self) -> Rows<'a>
        ensures { lying_in result ≡ take self.now.oldest (lying_in self.now) }
    {
        Rows {
            cells: self.cells,
            width: self.width,
            count: self.oldest,
            oldest: 0,
        }
    }

    // At most so many of the rows as a mask has bits, from row i on as they lie.
    pub fn block(&self, i: usize) -> Rows<'a>
        requires { i ≤ self.now.count }
        ensures rows { lying_in result ≡ take 64 (drop i (lying_in self.now)) }
        ensures count { result.count ≡ min 64 (self.now.count - i) }
        ensures width { result.width ≡ self.now.width }
    {
        let left = usize::from(self.count) - i;
        Rows {
            cells: &self.cells[i * self.width..],
            width: self.width,
            count: left.min(64) as u16,
            oldest: 0,
        }
    }
}
