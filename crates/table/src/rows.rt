// The test of a row: a condition prepared once a question as numbers alone, and then run for each row from comparison to comparison, up to the first that decides.
ghost use Rattle.std.specs.Prelude.{◌≡◌, cond, ◌+◌, ◌-◌, ◌*◌, ◌≤◌, ◌<◌, eqb, pos, length, min, get_or, map, set};
ghost use Rattle.statement.specs.Operators.{order_of};
ghost use Rattle.statement.specs.Sound.{used_steps};
ghost use Rattle.table.specs.Tests.{met, target_place, Forward, Prepared};
ghost use Rattle.table.specs.Private.Testing.{unmet, right_tested, place_of, number_of};
ghost use Rattle.table.specs.Private.Linking.{exit as exit_to, target_put, targets_put, entry_of, led_on, Redirects, Links, Starts, Unlinked, Linked};

use lists::{filled, put};
use statement::{Comparison, Condition, Operand, Order, Step, Term};

// The number at a place; past the end, that other one.
pub fn number_or(numbers: &[i32], i: usize, other: i32) -> i32
    ensures { result ≡ get_or numbers.now i other }
{
    numbers.get(i).copied().unwrap_or(other)
}

// ---- prepared, once a question: numbers alone

// What the test of a row goes by. Comparison i has the sides 2 * i and 2 * i + 1: the cell at `places`, or where the row ends before that, the number at `numbers`. Its
// `targets` from 4 * i on say where to go on if the left side is less than, equal to and greater than the right one, and if one is null: at a later comparison, or at MET or
// UNMET.
// (Flat: with an array of structs, each its two sides and an array of four targets, calls on 512 rows by 8 comparisons take 3 to 5 % more instructions: an ask 163,088 in place of
// 158,701, an UPDATE 83,163 in place of 79,890, a DELETE 55,283 in place of 52,627.)
#[derive(Clone, Copy)]
pub struct Test {
    pub targets: [u8; Test::TARGETS],
    pub places: [u16; Test::SIDES],
    pub numbers: [i32; Test::SIDES],
    pub start: u8,
    ghost forward: { Forward targets },
}

// A side: a place in the row, and what it is where the row has no such place.
#[derive(Clone, Copy)]
struct Side {
    place: u16,
    number: i32,
}

impl Side {
    // The place of a side that is no column: no row reaches it. A number, so that the test of a row asks one thing of a side, whether the row reaches it.
    const FIXED: u16 = 65535;
}

fn side_of(o: Operand, values: &[i32]) -> Side
    ensures place { result.place ≡ place_of o }
    ensures number { result.number ≡ number_of values.now o }
{
    match o.read() {
        Term::Constant(number) => Side {
            place: Side::FIXED,
            number,
        },
        Term::Parameter(k) => Side {
            place: Side::FIXED,
            number: number_or(values, usize::from(k), 0),
        },
        Term::Column(i) => Side {
            place: u16::from(i),
            number: 0,
        },
    }
}

fn exit(holds: bool) -> u8
    ensures { result ≡ exit_to holds }
{
    if holds { Test::MET } else { Test::UNMET }
}

// The place of an order among the four targets of a comparison.
pub fn target_place(order: Order) -> usize
    ensures place { result ≡ target_place order }
    ensures few { result ≤ 3 }
{
    order as usize
}

// Puts the target of a comparison by itself for one order of its sides. (Here, below and in `next` i is one of eight comparisons: 4 * i has to fit its type, and in `next` and `side` a test of
// the place would be one more for each comparison of each row.)
fn put_target(targets: &mut [u8; Test::TARGETS], i: usize, op: u8, order: Order)
    requires { i < 8 }
    ensures { targets.new ≡ target_put targets.old i op order }
{
    targets[4 * i + target_place(order)] = exit(Comparison::truth(op, order));
}

// Puts its targets: where its left side is less, equal and greater, and where a side is null.
fn put_targets(targets: &mut [u8; Test::TARGETS], i: usize, op: u8)
    requires { i < 8 }
    ensures { targets.new ≡ targets_put targets.old i op }
{
    put_target(targets, i, op, Order::Less);
    put_target(targets, i, op, Order::Equal);
    put_target(targets, i, op, Order::Greater);
    put_target(targets, i, op, Order::Unknown);
}

// Puts side j. (Into two arrays, for the reason at `Test`.)
fn put_side(
    places: &mut [u16; Test::SIDES],
    numbers: &mut [i32; Test::SIDES],
    j: usize,
    o: Operand,
    values: &[i32],
)
    ensures place { places.new ≡ set places.old j (place_of o) }
    ensures number { numbers.new ≡ set numbers.old j (number_of values.now o) }
{
    let side = side_of(o, values);
    put(places, j, side.place);
    put(numbers, j, side.number);
}

// The right side of a comparison as a row is tested: a null test (A.5) looks at its left side alone.
fn right_tested(c: Comparison) -> Operand
    ensures { result ≡ right_tested c }
{
    if Comparison::tests_null(c.op) {
        return c.left_side();
    }
    c.right_side()
}

// The test of a condition's rows with the question marks' values filled in.
pub fn prepare(condition: &Condition, values: &[i32]) -> Test
    ensures { Prepared condition.now values.now result.targets result.places result.numbers result.start }
{
    let list = condition.used();
    let mut targets: [u8; Test::TARGETS] = filled(Test::UNMET);
    let mut places: [u16; Test::SIDES] = filled(0);
    let mut numbers: [i32; Test::SIDES] = filled(0);
    for (i, c) in list.iter().enumerate() {
        put_targets(&mut targets, i, c.op);
        put_side(&mut places, &mut numbers, 2 * i, c.left_side(), values);
        put_side(
            &mut places,
            &mut numbers,
            2 * i + 1,
            right_tested(*c),
            values,
        );
    }
    let start = link(&mut targets, condition);
    Test {
        targets,
        places,
        numbers,
        start,
    }
}

// ---- comparisons joined, by leading one part of the condition on to the next

// Where comparison `next` of n begins; one that is missing is met.
fn entry_of(next: u8, n: u8) -> u8
    ensures { result ≡ entry_of n next }
{
    if next < n { next } else { Test::MET }
}

// Leads targets that led to `from` on to b. (Crate `pattern` has the same loop over labels of 64 bits: one for both would promise by the type's own `==` what each promises by its numbers, and
// each caller would show that they are the same.)
fn lead_on(targets: &mut [u8], from: u8, b: u8)
    ensures { targets.new ≡ map (led_on from b) targets.old }
{
    for target in targets.iter_mut() {
        if *target == from {
            *target = b;
        }
    }
}

// Leads the comparisons from a up to b on to b where they led to `from`.
fn redirect(targets: &mut [u8; Test::TARGETS], a: u8, b: u8, from: u8)
    requires { (a ≤ 8) × (b ≤ 8) × (length targets.old ≡ 32) }
    ensures { Redirects a b from targets.old targets.new }
{
    if a < b {
        lead_on(
            &mut targets[4 * usize::from(a)..4 * usize::from(b)],
            from,
            b,
        );
    }
}

// A step: the next comparison begins a part of the condition, or the two parts on top are joined; none is left of fewer than two. Gives how many parts there are then.
// (Six parameters: what is lent, and a stack's depth. A struct that owns targets and starts would be built and taken apart again in `prepare`, where the targets become the test's.)
fn link_step(
    targets: &mut [u8; Test::TARGETS],
    starts: &mut [u8; Condition::STEPS],
    depth: usize,
    next: u8,
    n: u8,
    step: u8,
) -> usize
    requires { (depth < 15) × (length targets.old ≡ 32) × Starts starts.old }
    ensures { Links n step next depth starts.old targets.old result starts.new targets.new }
{
    if step == Step::COMPARISON {
        starts[depth] = entry_of(next, n);
        return depth + 1;
    }
    match &starts[..depth] {
        [.., a, b] => {
            redirect(targets, *a, *b, exit(step == Step::AND));
            depth - 1
        }
        _ => 0,
    }
}

// Where the part on top begins; where there is none, an absent WHERE is met.
fn start_of(starts: &[u8; Condition::STEPS], depth: usize) -> u8
    requires { depth ≤ 15 }
    ensures { result ≡ cond (eqb depth 0) 8 (get_or starts.now (depth - 1) 0) }
{
    match &starts[..depth] {
        [.., start] => *start,
        [] => Test::MET,
    }
}

// Joins the comparisons of a condition by its steps. Gives where to begin. (Where parts begin is a stack: an array and a depth, since there is no heap.)
fn link(targets: &mut [u8; Test::TARGETS], condition: &Condition) -> u8
    requires { Unlinked targets.old }
    ensures { Linked (used_steps condition.now) (min condition.now.count 8) targets.old targets.new result }
{
    let n = condition.used().len() as u8;
    let mut starts: [u8; Condition::STEPS] = filled(Test::MET);
    let mut depth: usize = 0;
    let mut next: u8 = 0;
    for step in condition.used_steps() {
        depth = link_step(targets, &mut starts, depth, next, n, *step);
        next += u8::from(*step == Step::COMPARISON);
    }
    start_of(&starts, depth)
}

// ---- a row

// How two numbers stand. The null is the least number, so one of two is null exactly if the lesser one is. (Crate `pattern` has the same of its constants' numbers, of 64 bits and with
// another null: what the two share is `Order::from`.)
pub fn order(a: i32, b: i32) -> Order
    ensures { result ≡ order_of a b }
{
    if a.min(b) == Operand::NULL {
        return Order::Unknown;
    }
    Order::from(a.cmp(&b))
}

impl Test {
    // Two sides and four targets a comparison.
    const SIDES: usize = 2 * Condition::COMPARISONS;

    const TARGETS: usize = 4 * Condition::COMPARISONS;

    // Behind the comparisons: the row meets the condition, or does not. Numbers beside those of the comparisons, so that a target is one byte.
    pub const MET: u8 = Condition::COMPARISONS as u8;

    pub const UNMET: u8 = Test::MET + 1;
}
