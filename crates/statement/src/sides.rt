// A side of a comparison, as it is read.
ghost use Rattle.std.specs.Prelude.{◌≤◌};

// A side of a comparison, or a column of a list: whether it is past a limit (a flag, as in `Cursor`: it is there all the same), its question marks, where its first token starts and
// where the text goes on after it. (In a file of its own: the definitions that `conditions` cites name it, and its ghost field may not see those.)
#[derive(Clone, Copy)]
pub struct Side {
    pub over: bool,
    pub marks: u16,
    pub start: usize,
    pub next: usize,
    ghost few: { marks ≤ 1 },
}
