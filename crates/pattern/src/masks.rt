// The clauses of a stored condition (rule 4), as masks: bit j of a mask says that comparison j is in the clause. One pass over the steps.
ghost use Rattle.std.specs.Prelude.{◌≡◌, true, map, ◌+◌, ◌*◌, ◌≤◌, ◌<◌, length};
ghost use Rattle.lists.specs.Lists.{All, written};
ghost use Rattle.pattern.specs.Stored.{is_formed};
ghost use Rattle.pattern.specs.Private.Masks.{sums, no_stack, pushed_of, either_of, both_of, stepped_of, Pushes, Joins, Steps, Masked, MasksOf};

use table::{Condition, Step};

// The masks of a condition's clauses, the first `count`. (An array and a count: there is no heap.)
#[derive(Clone, Copy)]
pub struct Clauses {
    pub masks: [u8; Clauses::MOST],
    pub count: u8,
}

impl Clauses {
    // The most clauses of eight comparisons.
    pub const MOST: usize = 18;
}

// Lists of masks, one after another, and how long each of them is, the top last; `bit` is that of the next comparison. (Arrays and counts: there is no heap.)
#[derive(Clone, Copy)]
pub struct Stack {
    pub masks: [u8; Clauses::MOST],
    pub lengths: [u8; Condition::COMPARISONS],
    pub depth: usize,
    pub total: usize,
    pub bit: u16,
}

// Whether a condition may come from a text: few enough comparisons, each AND and OR finds two values, and one value is left.
// (`soundness` has another test, `steps_are_sound`, which refuses a step of no kind: here that is an OR, since every condition has patterns.)
pub fn is_formed(condition: &Condition) -> bool
    ensures formed { result ≡ is_formed condition.now }
    ensures size { length condition.now.comparisons ≡ 8 }
    ensures steps { length condition.now.steps ≡ 15 }
{
    let comparisons = condition.used();
    let steps = condition.used_steps();
    if comparisons.len() < usize::from(condition.count) {
        return false;
    }
    if comparisons.is_empty() {
        return true;
    }
    let mut depth: usize = 0;
    for step in steps {
        if *step == Step::COMPARISON {
            depth += 1;
        } else {
            if depth < 2 {
                return false;
            }
            depth -= 1;
        }
    }
    depth == 1
}

// Puts the sums of a mask and each of other masks at a place. (By number: with `iter_mut` and `zip` the proof is about the borrow of each place.)
fn put_sums(out: &mut [u8; Clauses::MOST], at: usize, mask: u8, masks: &[u8])
    requires { (at + length masks.now ≤ 18) × (length out.old ≡ 18) × All (λ b. mask + b < 256) masks.now }
    ensures { out.new ≡ written out.old at (map (λ b. mask + b) masks.now) }
{
    for (j, other) in masks.iter().enumerate() {
        out[at + j] = mask + *other;
    }
}

// Puts at a place each sum of a mask of the first and one of the second. (`at` and no chunks: `chunks_exact_mut` fails for length 0, and no premise says that
// the second has a mask.)
fn put_products(out: &mut [u8; Clauses::MOST], start: usize, lefts: &[u8], rights: &[u8])
    requires { (start + length lefts.now * length rights.now ≤ 18) × (length out.old ≡ 18) × All (λ a. All (λ b. a + b < 256) rights.now) lefts.now }
    ensures { out.new ≡ written out.old start (sums lefts.now rights.now) }
{
    let mut at = start;
    for mask in lefts {
        put_sums(out, at, *mask, rights);
        at += rights.len();
    }
}

impl Stack {
    // No step taken yet.
    fn empty() -> Stack
        ensures { result ≡ no_stack }
    {
        Stack {
            masks: [0; Clauses::MOST],
            lengths: [0; Condition::COMPARISONS],
            depth: 0,
            total: 0,
            bit: 1,
        }
    }

    // Puts a list of the next comparison alone on top.
    fn push(&mut self)
        requires { Pushes self.old }
        ensures { self.new ≡ pushed_of self.old }
    {
        self.masks[self.total] = self.bit as u8;
        self.lengths[self.depth] = 1;
        self.depth += 1;
        self.total += 1;
        self.bit *= 2;
    }

    // OR: the two lists on top become one.
    fn either(&mut self)
        requires { Joins self.old }
        ensures { self.new ≡ either_of self.old }
    {
        let depth = self.depth;
        self.lengths[depth - 2] += self.lengths[depth - 1];
        self.depth -= 1;
    }

    // AND: each clause of the left list with each of the right one.
    fn both(&mut self)
        requires { Joins self.old }
        ensures { self.new ≡ both_of self.old }
    {
        let depth = self.depth;
        let left = usize::from(self.lengths[depth - 2]);
        let right = usize::from(self.lengths[depth - 1]);
        let start = self.total - (left + right);
        let middle = start + left;
        let old = self.masks;
        put_products(
            &mut self.masks,
            start,
            &old[start..middle],
            &old[middle..middle + right],
        );
        self.lengths[depth - 2] = (left * right) as u8;
        self.depth -= 1;
        self.total = start + left * right;
    }

    // Takes a step: a comparison, AND or OR. (Steps are numbers of the state.)
    fn step(&mut self, step: u8)
        requires { Steps step self.old }
        ensures { self.new ≡ stepped_of step self.old }
    {
        match step {
            Step::COMPARISON => self.push(),
            Step::AND => self.both(),
            _ => self.either(),
        }
    }
}

// The clauses of a condition that may come from a text.
pub fn formed_masks(condition: &Condition) -> Clauses
    requires { is_formed condition.now ≡ true }
    ensures { Masked condition.now result }
{
    if condition.used().is_empty() {
        return Clauses {
            masks: [0; Clauses::MOST],
            count: 1,
        };
    }
    let mut s = Stack::empty();
    for step in condition.used_steps() {
        s.step(*step);
    }
    Clauses {
        masks: s.masks,
        count: s.total as u8,
    }
}

// The clauses of a condition, if it may come from a text.
pub fn masks_of(condition: &Condition) -> Option<Clauses>
    ensures { MasksOf condition.now result }
{
    if !is_formed(condition) {
        return None;
    }
    Some(formed_masks(condition))
}
