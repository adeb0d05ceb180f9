// A condition: its steps are a postfix order, its comparisons name columns of the table, and its parameters are numbered in order.
ghost use Rattle.std.specs.Prelude.{◌≡◌, true, reverse, ◌-◌, ◌*◌, ◌≤◌, ◌<◌, length, take};
ghost use Rattle.statement.specs.SoundTest.{sound_predicate, sound_condition_on};
ghost use Rattle.soundness.specs.Private.Parts.{depth_after, steps_on, mark_fits, marks_after, need_after, outer_on, Ordered, outer_fits, after_side, after_comparison, after_all};

use table::{Comparison, Condition, Operand, Statement, Step};

// ---- steps (They and operators are numbers and no enums: a state is plain numbers that any caller may fill in, and here it is tested.)

// How many values are on the stack after a step, if it fits: AND and OR find two values.
fn stepped(depth: u8, step: u8) -> Option<u8>
    requires { depth < 255 }
    ensures { result ≡ depth_after depth step }
{
    if step == Step::COMPARISON {
        return Some(depth + 1);
    }
    if (step < Step::KINDS) & (2 <= depth) {
        Some(depth - 1)
    } else {
        None
    }
}

// Whether the steps are none, or leave one value. (`pattern`, which also lies above `table`, counts so in `is_formed`. It says nothing of a step that is none of the three, and any
// number but a comparison's joins there; with a pass of its own for the kinds before a count that both share this would be no plainer.)
fn steps_are_sound(steps: &[u8]) -> bool
    requires { length steps.now ≤ 15 }
    ensures { result ≡ steps_on 0 steps.now }
{
    let mut depth = 0u8;
    for s in steps {
        let Some(after) = stepped(depth, *s) else {
            return false;
        };
        depth = after;
    }
    depth <= 1
}

// ---- A.6: marks of outer comparisons, a binary digit for each comparison: the last digit is the last comparison's (a number of the state, like steps)

// Whether a step may have the last of these marks: a comparison in a part that an AND or OR joins has none.
fn mark_fits(need: u8, marks: u8, step: u8) -> bool
    ensures { result ≡ mark_fits need marks step }
{
    (step != Step::COMPARISON) | (need == 0) | (marks % 2 != 1)
}

// The marks that are left before a step.
fn marks_after(marks: u8, step: u8) -> u8
    ensures { result ≡ marks_after marks step }
{
    if step == Step::COMPARISON {
        marks / 2
    } else {
        marks
    }
}

// How many parts are still to be read of one that an AND or OR joins, before a step; `ending`: the step is one of the ANDs at the end.
fn need_after(ending: bool, need: u8, step: u8) -> u8
    requires { need < 255 }
    ensures { result ≡ need_after ending need step }
{
    if need == 0 {
        return if (step == Step::COMPARISON) | ending {
            0
        } else {
            2
        };
    }
    if step == Step::COMPARISON {
        need - 1
    } else {
        need + 1
    }
}

// Whether the marks fit the steps, which are read from the last one on.
fn marks_fit(steps: &[u8], outer: u8) -> bool
    requires { length steps.now ≤ 15 }
    ensures { result ≡ outer_on true 0 outer (reverse steps.now) }
{
    let mut ending = true;
    let mut need = 0u8;
    let mut marks = outer;
    for s in steps.iter().rev() {
        if !mark_fits(need, marks, *s) {
            return false;
        }
        ending &= *s == Step::AND;
        need = need_after(ending, need, *s);
        marks = marks_after(marks, *s);
    }
    true
}

// Whether each comparison that is marked may be outer in a text.
pub fn outer_is_sound(c: &Condition, outer: u8) -> bool
    requires { Ordered c.now }
    ensures { result ≡ outer_fits c.now outer }
{
    marks_fit(c.used_steps(), outer)
}

// ---- comparisons, by the number of the next parameter, if they fit

// The next number behind a side, if it is a column of the table, a constant, or the parameter m.
fn after_side(o: Operand, columns: u8, m: u8) -> Option<u8>
    ensures { result ≡ after_side columns m o }
{
    // By its code: read as a `Term` the test of a state takes 5 to 8 percent more instructions (11,173 and 41,327 against 10,604 and 38,196, in one build).
    let place = o.code / 2;
    if o.code % 2 == 1 {
        return (place == m).then_some(place + 1);
    }
    (place <= columns).then_some(m)
}

// Whether a comparison's operator fits its sides: one of the six, or a null test (A.5) with one column on both sides. (By codes, as above: a column's is even and not 0.)
fn operator_fits(c: &Comparison) -> bool
    ensures { result ≡ sound_predicate c.now }
{
    if c.op < Comparison::IS_NULL {
        return true;
    }
    (c.op < Comparison::OPERATORS) & (c.left == c.right) & (c.left != 0) & (c.left % 2 == 0)
}

// The next number behind a comparison, if it fits.
#[tactic(auto, unfolding(crate::specs::Private::Parts::after_comparison))]
fn after_comparison(c: &Comparison, columns: u8, m: u8) -> Option<u8>
    ensures { result ≡ after_comparison columns m c.now }
{
    let left = after_side(c.left_side(), columns, m)?;
    let right = after_side(c.right_side(), columns, left)?;
    operator_fits(c).then_some(right)
}

// The next number behind comparisons, if each fits.
fn after_comparisons(comparisons: &[Comparison], columns: u8, m: u8) -> Option<u8>
    ensures { result ≡ after_all columns m comparisons.now }
{
    let mut next = m;
    for c in comparisons {
        next = after_comparison(c, columns, next)?;
    }
    Some(next)
}

// Whether a condition is sound, where m parameters stand before it and there are so many in all.
pub fn is_sound(c: &Condition, columns: u8, m: u8, parameters: u8) -> bool
    ensures sound { result ≡ sound_condition_on columns m parameters c.now }
    ensures ordered { result ≡ true → Ordered c.now }
{
    let n = usize::from(c.count);
    if Condition::COMPARISONS < n {
        return false;
    }
    let steps = c.used_steps();
    (u16::from(parameters) <= Statement::MARKS)
        & steps_are_sound(steps)
        & (Some(parameters) == after_comparisons(c.used(), columns, m))
}
