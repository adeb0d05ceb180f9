// The key of a cached answer, and the slot list: the order of use of the slots. Every function answers for every struct, also one that is not sound.
// Lengths and places become smaller numbers by casts: each is at most 64, and `try_from` would have an answer for a case that can't be.
#![tactic(auto)]

mod twice; // fingerprints of keys, and whether a key is held twice

ghost use Rattle.std.specs.Prelude.{◌≡◌, ◌&&◌, ◌≤◌, not, ℕ, ltb, eqb, length, take, drop, ◌++◌};
ghost use Rattle.lists.specs.Lists.{all, repeats, keep};
ghost use Rattle.slots.specs.Order.{sound_slots, open_of, front_of, taken_of, drop_of, clear_of, is_marked};
ghost use Rattle.slots.specs.Keys.{held_slots, key_of, values_of, same_key, slot_has, find_of};
ghost use Rattle.slots.specs.Same.{same_laws};

use std::array;
pub use twice::held_twice;

// A question's number with its values: the first `count`. What stands behind them is not looked at. (A key and the slots are parts of a state, which is plain numbers that any caller
// may fill in and has no heap: so arrays with counts beside them.)
#[repr(C)]
#[derive(Clone, Copy, Default)]
pub struct Key {
    pub query: u8,
    pub count: u8,
    pub values: [i32; Key::VALUES],
}

// The slots, the most recently used first: of the first `count` places the first `held` hold an answer. What stands behind `count` is no slot and stays.
#[repr(C)]
#[derive(Clone, Copy)]
pub struct SlotList {
    pub order: [u8; SlotList::SLOTS],
    pub held: u8,
    pub count: u8,
}

// The slot taken, and the list in which it has moved.
#[derive(Clone, Copy)]
pub struct Taken {
    pub slot: u8,
    pub slots: SlotList,
}

impl Key {
    pub const VALUES: usize = 8;

    // The key of a question and its first eight values.
    pub fn of(query: u8, values: &[i32]) -> Self
        ensures { result ≡ key_of query values.now }
    {
        let n = values.len().min(Self::VALUES);
        let mut first = [0i32; Self::VALUES];
        first[..n].copy_from_slice(&values[..n]);
        Self {
            query,
            count: n as u8,
            values: first,
        }
    }

    // The values in use.
    pub fn used(&self) -> &[i32]
        ensures { result.now ≡ values_of self.now }
    {
        lists::in_use(&self.values, usize::from(self.count))
    }
}

// Two keys are equal if they have the same number and the same values in use: derived, equality would look at what stands behind these too.
impl PartialEq for Key {
    ghost eq = { same_key };

    ghost laws = { same_laws };

    #[tactic(auto, unfolding(crate::specs::Keys::same_key))]
    fn eq(&self, other: &Key) -> bool {
        self.query == other.query && self.used() == other.used()
    }
}

impl SlotList {
    // How many slots there can be, and how many bytes a slot can have.
    pub const SLOTS: usize = 64;

    pub const LEAST_BYTES: usize = 8;

    pub const MOST_BYTES: usize = 4096;

    // The slots 0, 1, 2 and on, none held.
    pub fn open(count: u8) -> Self
        ensures { result ≡ open_of count }
    {
        Self {
            order: array::from_fn(|i| i as u8),
            held: 0,
            count,
        }
    }

    // The held slots.
    pub fn held_slots(&self) -> &[u8]
        ensures { result.now ≡ held_slots self.now }
    {
        lists::in_use(&self.order, usize::from(self.held))
    }

    // The slot at place p moves to the front; with no such place the list stays.
    pub fn move_to_front(self, p: u8) -> Self
        ensures { result ≡ front_of self p }
    {
        let at = usize::from(p);
        if Self::SLOTS <= at {
            return self;
        }
        let mut order = self.order;
        order[..at + 1].rotate_right(1);
        Self { order, ..self }
    }

    // The last slot moves to the front and is held.
    pub fn take_last(self) -> Option<Taken>
        ensures { result ≡ taken_of self }
    {
        let last = self.count.checked_sub(1)?;
        let slot = *self.order.get(usize::from(last))?;
        let mut slots = self.move_to_front(last);
        slots.held = self.held.saturating_add(1).min(self.count);
        Some(Taken { slot, slots })
    }

    // Of the held slots those that `gone` does not mark come first and stay held; the marked ones come behind them and are free. Each in the order they had.
    // (Two arrays filled as far as two counts say: there is no heap, and the library's sorts that keep an order need one.)
    pub fn drop(mut self, gone: &[bool; SlotList::SLOTS]) -> Self
        ensures { result ≡ drop_of self gone.now }
    {
        let mut free = [0u8; Self::SLOTS];
        let mut kept = 0;
        let mut dropped = 0;
        let from = self;
        for x in from.held_slots() {
            if is_marked(gone, *x) {
                free[dropped] = *x;
                dropped += 1;
            } else {
                self.order[kept] = *x;
                kept += 1;
            }
        }
        self.order[kept..kept + dropped].copy_from_slice(&free[..dropped]);
        self.held = kept as u8;
        self
    }

    // Every held slot is dropped: all are free, in the order they had.
    pub fn clear(mut self) -> Self
        ensures { result ≡ clear_of self }
    {
        self.held = 0;
        self
    }

    // Whether the list names each slot once, no more of them held than there are.
    #[tactic(auto, unfolding(crate::specs::Order::sound_slots))]
    pub fn is_sound(&self) -> bool
        ensures { result ≡ sound_slots self.now }
    {
        let n = usize::from(self.count);
        n <= Self::SLOTS && self.held <= self.count && names_once(&self.order[..n])
    }
}

// Whether a slot is marked; a number that is no slot is not.
fn is_marked(marks: &[bool; SlotList::SLOTS], x: u8) -> bool
    ensures { result ≡ is_marked marks.now x }
{
    marks.get(usize::from(x)).is_some_and(|marked| *marked)
}

// Whether each of as many slots as there are places is named once.
fn names_once(places: &[u8]) -> bool
    requires { length places.now ≤ 64 }
    ensures { result ≡ (all (λ (x : ℕ). ltb x (length places.now)) places.now && not (repeats eqb places.now)) }
{
    let mut seen = [false; SlotList::SLOTS];
    for x in places {
        let at = usize::from(*x);
        if places.len() <= at || seen[at] {
            return false;
        }
        seen[at] = true;
    }
    true
}

// Whether a slot has the key; a number that is no slot has none.
#[tactic(auto, unfolding(crate::specs::Keys::slot_has))]
fn has(keys: &[Key; SlotList::SLOTS], key: &Key, x: u8) -> bool
    ensures { result ≡ slot_has keys.now key.now x }
{
    keys.get(usize::from(x)).is_some_and(|k| k == key)
}

// The first held place whose slot has the key.
#[tactic(auto, unfolding(crate::specs::Keys::find_of))]
pub fn find(keys: &[Key; SlotList::SLOTS], slots: &SlotList, key: &Key) -> Option<u8>
    ensures { result ≡ find_of keys.now slots.now key.now }
{
    let place = slots.held_slots().iter().position(|x| has(keys, key, *x))?;
    Some(place as u8)
}
