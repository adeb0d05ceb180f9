// The operators of comparisons: the opposite of each, and what it says of two sides by their order.
ghost use Rattle.std.specs.Prelude.{◌≡◌};
ghost use Rattle.statement.specs.Operators.{predicate_at, is_null_test, opposite_of, truth_by};

use super::{Comparison, Order, ToOrder};

// = <>, < >=, <= >, IS NULL and IS NOT NULL (`as usize`: a From can't be called for a constant)
const OPPOSITES: [u8; Comparison::OPERATORS as usize] = [
    Comparison::NE,
    Comparison::EQ,
    Comparison::GE,
    Comparison::GT,
    Comparison::LE,
    Comparison::LT,
    Comparison::IS_NOT_NULL,
    Comparison::IS_NULL,
];

// The comparison that is true where the other is false, and false where it is true.
#[tactic(auto, unfolding(crate::specs::Operators::opposite_of))]
pub fn opposite(op: u8) -> u8
    ensures { result ≡ opposite_of op }
{
    if op < Comparison::OPERATORS {
        OPPOSITES[usize::from(op)]
    } else {
        op
    }
}

impl Comparison {
    // Whether a comparison by this number tests for null (A.5): it looks at its left side alone.
    pub fn tests_null(op: u8) -> bool
        ensures { result ≡ is_null_test (predicate_at op) }
    {
        (Comparison::IS_NULL..Comparison::OPERATORS).contains(&op)
    }

    // Whether an operator is true of two sides in this order, which is an `Order` or its number. A number past the last operator is read as <>.
    pub fn truth<O: ToOrder>(op: u8, order: O) -> bool
        ensures { result ≡ truth_by (predicate_at op) (O.order order) }
    {
        let order = order.to_order();
        match op {
            Comparison::EQ => order == Order::Equal,
            Comparison::LT => order == Order::Less,
            Comparison::LE => matches!(order, Order::Less | Order::Equal),
            Comparison::GT => order == Order::Greater,
            Comparison::GE => matches!(order, Order::Equal | Order::Greater),
            Comparison::IS_NULL => order == Order::Unknown,
            Comparison::IS_NOT_NULL => order != Order::Unknown,
            _ => matches!(order, Order::Less | Order::Greater),
        }
    }
}
