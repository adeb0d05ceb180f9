// Definitions on lists and numbers (specs/) and their laws (proofs/), and what is done with any array: what is in use of it, an item put at a place, an array to begin with, numbers below a limit.
#![tactic(auto)]

ghost use Rattle.std.specs.Prelude.{◌≡◌, ℕ, ltb, length, take, set, replicate};
ghost use Rattle.lists.specs.Lists.{all};

// The items of an array that are in use: the first `count` of them.
pub fn in_use<T, const N: usize>(all: &[T; N], count: usize) -> &[T]
    ensures first { result.now ≡ take count all.now }
    ensures size { length all.now ≡ N }
{
    &all[..count.min(N)]
}

// An array to begin with, made in a function of its own: a loop's goals would print every entry.
pub fn filled<T: Copy, const N: usize>(value: T) -> [T; N]
    ensures { result ≡ replicate N value }
{
    [value; N]
}

// Puts an item at a place. Past the last place none is put.
pub fn put<T: Copy, const N: usize>(all: &mut [T; N], place: usize, item: T)
    ensures { all.new ≡ set all.old place item }
{
    if place < N {
        all[place] = item;
    }
}

// Whether all of these numbers are below `limit`.
pub fn are_below(numbers: &[u8], limit: usize) -> bool
    ensures { result ≡ all (λ (i : ℕ). ltb i limit) numbers.now }
{
    numbers.iter().all(|i| usize::from(*i) < limit)
}
