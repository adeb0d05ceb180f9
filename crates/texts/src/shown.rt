// What a statement says, as it is printed.
use statement::{Comparison, Condition, Given, Operand, Query, Step, Table, Term, Update, Value};
use std::fmt;

// A part of a statement. A column is printed as `c` and its number, a parameter as `?` and its number from 1 on.
// Programs have their own such type (`patterns` too): a trait of std is written where the type is, and what is shown differs.
#[derive(Clone, Copy)]
pub struct Shown<'a, T>(pub &'a T);

impl fmt::Display for Shown<'_, Table> {
    fn fmt<W: fmt::Write>(&self, f: &mut fmt::Formatter<W>) -> fmt::Result {
        let table = self.0;
        let word = if table.ring { "ring" } else { "rows" };
        write!(f, " columns {} {word} {}", table.count, table.capacity)
    }
}

// ---- conditions

impl fmt::Display for Shown<'_, Operand> {
    fn fmt<W: fmt::Write>(&self, f: &mut fmt::Formatter<W>) -> fmt::Result {
        match self.0.read() {
            Term::Constant(number) => write!(f, "{number}"),
            Term::Parameter(k) => write!(f, "?{}", u16::from(k) + 1),
            Term::Column(i) => write!(f, "c{i}"),
        }
    }
}

fn operator_text(op: u8) -> &'static str {
    match op {
        Comparison::EQ => "=",
        Comparison::NE => "<>",
        Comparison::LT => "<",
        Comparison::LE => "<=",
        Comparison::GT => ">",
        Comparison::GE => ">=",
        Comparison::IS_NULL => "-is-null",
        _ => "-is-not-null",
    }
}

impl fmt::Display for Shown<'_, Comparison> {
    fn fmt<W: fmt::Write>(&self, f: &mut fmt::Formatter<W>) -> fmt::Result {
        let comparison = *self.0;
        let op = operator_text(comparison.op);
        write!(f, " {}{op}", Shown(&comparison.left_side()))?;
        if !Comparison::tests_null(comparison.op) {
            write!(f, "{}", Shown(&comparison.right_side()))?;
        }
        Ok(())
    }
}

// The steps of a condition, each comparison at its place.
impl fmt::Display for Shown<'_, Condition> {
    fn fmt<W: fmt::Write>(&self, f: &mut fmt::Formatter<W>) -> fmt::Result {
        if self.0.count == 0 {
            return Ok(());
        }
        write!(f, " if")?;
        let mut comparisons = self.0.comparisons.iter();
        for step in self.0.used_steps() {
            match *step {
                Step::COMPARISON => {
                    if let Some(comparison) = comparisons.next() {
                        write!(f, "{}", Shown(comparison))?;
                    }
                }
                Step::AND => write!(f, " and")?,
                _ => write!(f, " or")?,
            }
        }
        Ok(())
    }
}

// ---- questions and updates

impl fmt::Display for Shown<'_, Query> {
    fn fmt<W: fmt::Write>(&self, f: &mut fmt::Formatter<W>) -> fmt::Result {
        let query = self.0;
        write!(f, " on {}", query.table)?;
        if let Some(second) = query.second_table() {
            write!(f, " {second}")?;
        }
        write!(f, " selects")?;
        for column in query.used() {
            write!(f, " {column}")?;
        }
        write!(f, " marks {}{}", query.parameters, Shown(&query.condition))
    }
}

impl fmt::Display for Shown<'_, Value> {
    fn fmt<W: fmt::Write>(&self, f: &mut fmt::Formatter<W>) -> fmt::Result {
        match self.0.read() {
            Given::Constant(number) => write!(f, "{number}"),
            Given::Parameter(k) => write!(f, "?{}", u16::from(k) + 1),
        }
    }
}

// A row's new values, with their columns where an update sets them.
impl fmt::Display for Shown<'_, Update> {
    fn fmt<W: fmt::Write>(&self, f: &mut fmt::Formatter<W>) -> fmt::Result {
        let update = self.0;
        match update.form {
            Update::INSERT => write!(f, " insert {} values", update.table)?,
            Update::UPDATE => write!(f, " update {} sets", update.table)?,
            _ => write!(f, " delete {}", update.table)?,
        }
        for setting in update.used() {
            write!(f, " ")?;
            if update.form == Update::UPDATE {
                write!(f, "c{}=", setting.column)?;
            }
            write!(f, "{}", Shown(&setting.new_value()))?;
        }
        write!(
            f,
            " marks {}{}",
            update.parameters,
            Shown(&update.condition)
        )
    }
}
