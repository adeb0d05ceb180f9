// Patterns, as they are printed.
use pattern::{Entry, Pattern, Patterns};
use std::fmt;

// A list of patterns, a pattern or one of its entries.
// `take`: `pattern` gives no slice of the entries, or of the patterns, in use, and this program does not see `lists`, which would.
// Programs have their own such type (`texts` too): a trait of std is written where the type is, and what is shown differs.
#[derive(Clone, Copy)]
pub struct Shown<'a, T>(pub &'a T);

impl fmt::Display for Shown<'_, Entry> {
    fn fmt<W: fmt::Write>(&self, f: &mut fmt::Formatter<W>) -> fmt::Result {
        match *self.0 {
            Entry::Constant(z) => write!(f, "{z}"),
            Entry::Parameter(k) => write!(f, "mark {}", u16::from(k) + 1),
            Entry::Any => write!(f, "any"),
        }
    }
}

impl fmt::Display for Shown<'_, Pattern> {
    fn fmt<W: fmt::Write>(&self, f: &mut fmt::Formatter<W>) -> fmt::Result {
        write!(f, "(")?;
        let entries = self.0.entries.iter().take(usize::from(self.0.count));
        for (i, entry) in entries.enumerate() {
            let comma = if i == 0 { "" } else { ", " };
            write!(f, "{comma}{}", Shown(entry))?;
        }
        write!(f, ")")
    }
}

// A line each.
impl fmt::Display for Shown<'_, Patterns> {
    fn fmt<W: fmt::Write>(&self, f: &mut fmt::Formatter<W>) -> fmt::Result {
        if self.0.count == 0 {
            return writeln!(f, "no pattern");
        }
        for pattern in self.0.items.iter().take(usize::from(self.0.count)) {
            writeln!(f, "{}", Shown(pattern))?;
        }
        Ok(())
    }
}
