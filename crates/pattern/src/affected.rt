// Whether an update with its values can change the answer of a key (A.7): whether some row is affected. A conjunction of a clause of the update's condition, one of the query's and one
// of what is not to be true is tried for each choice of the three.
ghost use Rattle.std.specs.Prelude.{◌≡◌, true, map, ◌++◌, ◌≤◌, length};
ghost use Rattle.lists.specs.Lists.{any};
ghost use Rattle.meaning.specs.Condition.{renamed};
ghost use Rattle.statement.specs.Terms.{used_selected};
ghost use Rattle.statement.specs.Sound.{used_settings, settings_read};
ghost use Rattle.pattern.specs.Stored.{reaches_stored};
ghost use Rattle.pattern.specs.Private.Masks.{comparisons_read};
ghost use Rattle.pattern.specs.Private.Deciding.{masks_in, trues_of, possible_code, clause_of, alternatives, some_beside, some_pair, FilledAs, altered_tests, Each, changed, operand_of, reached, IsDecided};
ghost use Rattle.pattern.specs.declared.joint.Role.TheVariants.{Set};

use super::filled::{self, Filled, Filling};
use super::joint::Role;
use super::labels::Compared;
use super::literals::Conjunction;
use super::masks::{self, Clauses};
use lists::in_use;
use table::{Condition, Query, Update};

// The clauses of a condition with its values, as masks of its comparisons.
#[derive(Clone, Copy)]
pub struct Alternatives<'a> {
    pub filled: &'a Filled,
    pub clauses: &'a Clauses,
}

impl<'a> Alternatives<'a> {
    // The masks of the clauses.
    fn masks(self) -> &'a [u8]
        ensures { result.now ≡ masks_in self.entry.clauses.now }
    {
        in_use(&self.clauses.masks, usize::from(self.clauses.count))
    }

    // Whether some row meets two lists of comparisons and a clause, whose comparisons are to be true or not true.
    fn clause_beside(
        self,
        mask: u8,
        first: &[Compared],
        second: &[Compared],
        want: bool,
        width: u8,
    ) -> bool
        ensures { result ≡ possible_code width (trues_of first.now ++ (trues_of second.now ++ clause_of want self.entry mask)) }
    {
        let clause = self.filled.chosen(mask);
        let conjunction = Conjunction {
            first,
            second,
            third: clause.used(),
            want,
        };
        conjunction.is_possible(width)
    }

    // Whether some row meets them and one of the clauses.
    fn some_beside(self, first: &[Compared], second: &[Compared], want: bool, width: u8) -> bool
        ensures { result ≡ some_beside width (trues_of first.now) (trues_of second.now) (alternatives want self.entry) }
    {
        self.masks().iter().any(|mask| self.clause_beside(*mask, first, second, want, width))
    }

    // Whether some row meets comparisons, a clause and one of others, whose comparisons are to be true or not true.
    fn pair_beside(
        self,
        mask: u8,
        first: &[Compared],
        others: Alternatives,
        want: bool,
        width: u8,
    ) -> bool
        ensures { result ≡ some_beside width (trues_of first.now) (clause_of true self.entry mask) (alternatives want others.entry) }
    {
        let clause = self.filled.chosen(mask);
        others.some_beside(first, clause.used(), want, width)
    }

    // Whether some row meets them, one of the clauses and one of the others.
    fn some_pair(self, first: &[Compared], others: Alternatives, want: bool, width: u8) -> bool
        ensures { result ≡ some_pair width (trues_of first.now) (alternatives true self.entry) (alternatives want others.entry) }
    {
        self.masks()
            .iter()
            .any(|mask| self.pair_beside(*mask, first, others, want, width))
    }
}

// The masks of n comparisons, each by itself.
fn each_of(n: usize) -> Clauses
    requires { n ≤ 8 }
    ensures { Each n result }
{
    Clauses {
        masks: [1, 2, 4, 8, 16, 32, 64, 128, 0, 0, 0, 0, 0, 0, 0, 0, 0, 0],
        count: n as u8,
    }
}

// ---- an UPDATE

// What is tried of an UPDATE beside a clause of its condition: the comparisons of the query's condition before and after it, with the clauses of it and of "not true"; and that each
// altered column holds what it becomes, each by itself.
#[derive(Clone, Copy)]
pub struct Changes<'a> {
    pub before: &'a Filled,
    pub after: &'a Filled,
    pub met: &'a Clauses,
    pub unmet: &'a Clauses,
    pub altered: &'a Filled,
    pub each: &'a Clauses,
}

impl Changes<'_> {
    // Whether some row that meets comparisons is taken and altered, leaves, or enters.
    fn some_beside(self, first: &[Compared], width: u8) -> bool
        ensures { result ≡ changed width self.entry (trues_of first.now) }
    {
        let before = Alternatives {
            filled: self.before,
            clauses: self.met,
        };
        let after = Alternatives {
            filled: self.after,
            clauses: self.met,
        };
        let not_before = Alternatives {
            filled: self.before,
            clauses: self.unmet,
        };
        let not_after = Alternatives {
            filled: self.after,
            clauses: self.unmet,
        };
        let altered = Alternatives {
            filled: self.altered,
            clauses: self.each,
        };
        before.some_pair(first, altered, false, width)
            || (before.some_pair(first, not_after, false, width)
                || after.some_pair(first, not_before, false, width))
    }

    // Whether one that meets a clause is.
    fn clause_beside(self, given: Alternatives, mask: u8, width: u8) -> bool
        ensures { result ≡ changed width self.entry (clause_of true given.entry mask) }
    {
        let clause = given.filled.chosen(mask);
        self.some_beside(clause.used(), width)
    }

    // Whether one that meets one of the clauses is.
    fn some_clause(self, given: Alternatives, width: u8) -> bool
        ensures { result ≡ any (changed width self.entry) (alternatives true given.entry) }
    {
        given
            .masks()
            .iter()
            .any(|mask| self.clause_beside(given, *mask, width))
    }
}

// ---- a query and an update

// A query and an update of a table with so many columns, with their values.
#[derive(Clone, Copy)]
pub struct Case<'a> {
    pub query: &'a Query,
    pub update: &'a Update,
    pub width: u8,
    pub given: &'a [i32],
    pub asked: &'a [i32],
}

impl<'a> Case<'a> {
    // How operands are read.
    fn filling(self, role: Role) -> Filling<'a>
        ensures role { result.role ≡ role }
        ensures settings { result.settings.now ≡ used_settings self.entry.update.now }
        ensures few { length result.settings.now ≤ 8 }
        ensures given { result.given.now ≡ self.entry.given.now }
        ensures asked { result.asked.now ≡ self.entry.asked.now }
    {
        Filling {
            role,
            settings: self.update.used(),
            given: self.given,
            asked: self.asked,
        }
    }

    // The comparisons of the query's condition or the update's, by whose they are.
    fn fill(self, role: Role, condition: &Condition) -> Filled
        ensures { FilledAs (map (renamed (operand_of self.entry role)) (comparisons_read condition.now)) result }
    {
        self.filling(role).fill(condition)
    }

    // What an UPDATE alters in selected columns.
    fn alterations(self) -> Filled
        ensures { FilledAs (altered_tests self.entry.width (used_selected self.entry.query.now) (settings_read self.entry.update.now) (operand_of self.entry Set)) result }
    {
        self.filling(Role::Set)
            .alterations(self.query.used(), self.width)
    }

    // Whether an INSERT, an UPDATE or a DELETE can change the answer, where A.7 decides.
    fn insert_reaches(self) -> bool
        requires { IsDecided self }
        ensures { result ≡ reached 0 self.entry }
    {
        let asked = &self.query.condition;
        let inserted = Alternatives {
            filled: &self.fill(Role::Inserted, asked),
            clauses: &masks::formed_masks(asked),
        };
        inserted.some_beside(&[], &[], true, self.width)
    }

    fn update_reaches(self) -> bool
        requires { IsDecided self }
        ensures { result ≡ reached 1 self.entry }
    {
        let asked = &self.query.condition;
        let given = &self.update.condition;
        let altered = self.alterations();
        let changes = Changes {
            before: &self.fill(Role::Asked, asked),
            after: &self.fill(Role::Set, asked),
            met: &masks::formed_masks(asked),
            unmet: &filled::not_masks(asked),
            altered: &altered,
            each: &each_of(altered.used().len()),
        };
        let tested = Alternatives {
            filled: &self.fill(Role::Given, given),
            clauses: &masks::formed_masks(given),
        };
        changes.some_clause(tested, self.width)
    }

    fn delete_reaches(self) -> bool
        requires { IsDecided self }
        ensures { result ≡ reached 2 self.entry }
    {
        let given = &self.update.condition;
        let asked = &self.query.condition;
        let tested = Alternatives {
            filled: &self.fill(Role::Given, given),
            clauses: &masks::formed_masks(given),
        };
        let taken = Alternatives {
            filled: &self.fill(Role::Asked, asked),
            clauses: &masks::formed_masks(asked),
        };
        tested.some_pair(&[], taken, true, self.width)
    }

    // The same by the update's form (a number of the state).
    fn decide(self) -> bool
        requires { IsDecided self }
        ensures { result ≡ reached self.entry.update.now.form self.entry }
    {
        match self.update.form {
            Update::INSERT => self.insert_reaches(),
            Update::UPDATE => self.update_reaches(),
            _ => self.delete_reaches(),
        }
    }
}

// Whether, as far as A.7 says, an update with its values can change the answer of a query with the values of a key; their table has `width` columns.
pub fn reaches(query: &Query, update: &Update, width: u8, values: &[i32], asked: &[i32]) -> bool
    ensures { result ≡ reaches_stored width query.now update.now values.now asked.now }
{
    let case = Case {
        query,
        update,
        width,
        given: values,
        asked,
    };
    !filled::is_separate(query, update, width) || case.decide()
}
