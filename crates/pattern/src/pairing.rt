// The joint clauses of a query and an update (rules 3 to 5): how many they are, and the pattern of each.
ghost use Rattle.std.specs.Prelude.{◌≡◌, true, [], ◌++◌, ◌*◌, ◌≤◌, ◌<◌, get_or, replicate};
ghost use Rattle.meaning.specs.Pattern.{anything};
ghost use Rattle.statement.specs.Sound.{settings_read};
ghost use Rattle.pattern.specs.Stored.{entry_count, pattern_struct, clause_pattern, joint as joint_of};
ghost use Rattle.pattern.specs.Private.Flat.{chosen_of, Extended};
ghost use Rattle.pattern.specs.declared.joint.Role.TheVariants.{Given, Inserted};
ghost use Rattle.pattern.specs.Private.Pairs.{total_of, pair_at, Worked, Paired};

use super::joint::{Joined, Reading, Role};
use super::masks::Clauses;
use super::relevance::Pair;
use super::{Entry, Pattern, Patterns, labels, masks};
use table::{Condition, Query, Update};

// The clauses of both conditions, and how many joint clauses they make.
#[derive(Clone, Copy)]
pub struct Pairing {
    pub query: Clauses,
    pub update: Clauses,
    pub total: u16,
}

// How many joint clauses there are, by the form of the update (a number of the state) and how many clauses query and update have.
fn total_of(form: u8, f: u8, g: u8) -> u16
    requires { (f ≤ 18) × (g ≤ 18) }
    ensures { result ≡ total_of form f g }
{
    let product = u16::from(g) * u16::from(f);
    if form == Update::INSERT {
        return u16::from(f);
    }
    if form == Update::UPDATE {
        return product + product;
    }
    product
}

// How many entries a pattern of the query has.
fn entry_count(query: &Query) -> u8
    ensures { result ≡ entry_count query.now }
{
    query.parameters.min(Pattern::ENTRIES as u8)
}

// The pattern of all any.
pub fn all_any(query: &Query) -> Pattern
    ensures { result ≡ pattern_struct (replicate (entry_count query.now) anything) }
{
    Pattern {
        entries: [Entry::Any; Pattern::ENTRIES],
        count: entry_count(query),
    }
}

impl Pair<'_> {
    // The clauses of both, and how many joint clauses they make; none where these are not worked out.
    pub fn pairing(self) -> Option<Pairing>
        ensures { Paired self.entry.query.now self.entry.update.now result }
    {
        let query = masks::masks_of(&self.query.condition)?;
        let update = masks::masks_of(&self.update.condition)?;
        let total = total_of(self.update.form, query.count, update.count);
        if (Patterns::CLAUSES as u16) < total {
            return None;
        }
        Some(Pairing {
            query,
            update,
            total,
        })
    }

    // Adds the comparisons of a condition that a mask selects, its operands in a role.
    fn add(self, clause: &mut Joined, condition: &Condition, mask: u8, role: Role)
        requires { clause.old.count ≤ 8 }
        ensures { Extended clause.old.codes clause.old.ops clause.old.count (chosen_of role self.entry.from (settings_read self.entry.update.now) condition.now mask) clause.new }
    {
        let reading = Reading {
            role,
            from: self.from,
            settings: self.update.used(),
        };
        clause.add(condition, mask, reading);
    }

    // The pattern of a clause of an INSERT: the comparisons of the query that a mask selects.
    fn inserted(self, mask: u8) -> Option<Pattern>
        ensures { result ≡ clause_pattern (entry_count self.entry.query.now) (chosen_of Inserted self.entry.from (settings_read self.entry.update.now) self.entry.query.now.condition mask) }
    {
        let mut clause = Joined::empty();
        self.add(&mut clause, &self.query.condition, mask, Role::Inserted);
        labels::pattern_of(&clause, usize::from(entry_count(self.query)))
    }

    // The pattern of a clause of the update and one of the query.
    fn joined(self, given: u8, asked: u8, role: Role) -> Option<Pattern>
        ensures { result ≡ clause_pattern (entry_count self.entry.query.now) (chosen_of Given self.entry.from (settings_read self.entry.update.now) self.entry.update.now.condition given ++ chosen_of role self.entry.from (settings_read self.entry.update.now) self.entry.query.now.condition asked) }
    {
        let mut clause = Joined::empty();
        self.add(&mut clause, &self.update.condition, given, Role::Given);
        self.add(&mut clause, &self.query.condition, asked, role);
        labels::pattern_of(&clause, usize::from(entry_count(self.query)))
    }

    // The pattern of pair k, the update's clause outer.
    fn at(self, p: &Pairing, k: u16, role: Role) -> Option<Pattern>
        requires { Worked self.query.now self.update.now p.now × (k < p.now.update.count * p.now.query.count) }
        ensures { result ≡ clause_pattern (entry_count self.entry.query.now) (pair_at role self.entry.from self.entry.query.now self.entry.update.now k) }
    {
        let size = u16::from(p.query.count);
        let given = p.update.masks[usize::from(k / size)];
        let asked = p.query.masks[usize::from(k % size)];
        self.joined(given, asked, role)
    }

    // The pattern of joint clause i.
    pub fn clause_at(self, p: &Pairing, i: u8) -> Option<Pattern>
        requires { Worked self.query.now self.update.now p.now × (i < p.now.total) }
        ensures { result ≡ clause_pattern (entry_count self.entry.query.now) (get_or (joint_of self.entry.query.now self.entry.update.now) i []) }
    {
        if self.update.form == Update::INSERT {
            return self.inserted(p.query.masks[usize::from(i)]);
        }
        let size = u16::from(p.update.count) * u16::from(p.query.count);
        let k = u16::from(i);
        if k < size {
            return self.at(p, k, Role::Asked);
        }
        self.at(p, k - size, Role::Set)
    }
}
