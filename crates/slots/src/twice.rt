// Fingerprints of keys, and whether a key is held twice.
ghost use Rattle.std.specs.Prelude.{◌≡◌, map};
ghost use Rattle.lists.specs.Lists.{any, repeats};
ghost use Rattle.slots.specs.Keys.{key_read, same_key, slot_key, held_twice};
ghost use Rattle.slots.specs.Private.Fingerprints.{mixed, fingerprint, slot_print};

use super::{Key, SlotList};

// By how much fingerprints are divided: one is looked for among others only if one of them has the same remainder.
const REMAINDERS: usize = 1024;

// A fingerprint with a value more, which is counted from the lowest.
fn mix(h: u32, v: i32) -> u32
    ensures { result ≡ mixed h v }
{
    h.wrapping_mul(2654435761)
        .wrapping_add(v.abs_diff(i32::MIN))
}

// The fingerprint of a key: a number that is the same for the same keys.
#[tactic(auto, unfolding(crate::specs::Private::Fingerprints::fingerprint))]
fn print_of(key: &Key) -> u32
    ensures { result ≡ fingerprint (key_read key.now) }
{
    let values = key.used();
    let mut h = u32::from(key.query) * 16 + values.len() as u32;
    for v in values {
        h = mix(h, *v);
    }
    h
}

// The fingerprint of a slot's key, or of what stands for that of a number that is no slot.
#[tactic(auto, unfolding(crate::specs::Private::Fingerprints::fingerprint))]
fn print_at(keys: &[Key; SlotList::SLOTS], x: u8) -> u32
    ensures { result ≡ slot_print keys.now x }
{
    keys.get(usize::from(x)).map_or(0, print_of)
}

// The key of a slot, or what stands for that of a number that is no slot.
fn key_at(keys: &[Key; SlotList::SLOTS], x: u8) -> Key
    ensures { result ≡ slot_key keys.now x }
{
    keys.get(usize::from(x)).copied().unwrap_or_default()
}

// Whether one of the slots has the key of the slot x.
fn has_same(keys: &[Key; SlotList::SLOTS], slots: &[u8], x: u8) -> bool
    ensures { result ≡ any (same_key (slot_key keys.now x)) (map (slot_key keys.now) slots.now) }
{
    let key = key_at(keys, x);
    slots.iter().any(|y| key == key_at(keys, *y))
}

// Whether two of the slots have the same key. (No function of `lists` asks this for all: slots are compared by their keys, settings by column, names by their bytes in use, and of a
// closure a public function, which asks nothing, would have to ask that it gives a test's value.)
fn any_same(keys: &[Key; SlotList::SLOTS], slots: &[u8]) -> bool
    ensures { result ≡ repeats same_key (map (slot_key keys.now) slots.now) }
{
    slots
        .iter()
        .enumerate()
        .any(|(i, x)| has_same(keys, &slots[..i], *x))
}

// Whether a key is held twice. Keys with different fingerprints differ, so that keys are compared only where two fingerprints are equal. (The fingerprints stand in an array as far as
// they are known: there is no heap. `seen` spares most keys the look through them.)
pub fn held_twice(keys: &[Key; SlotList::SLOTS], slots: &SlotList) -> bool
    ensures { result ≡ held_twice keys.now slots.now }
{
    let held = slots.held_slots();
    let mut prints = [0u32; SlotList::SLOTS];
    let mut seen = [false; REMAINDERS];
    for (i, x) in held.iter().enumerate() {
        let print = print_at(keys, *x);
        // (a cast: a `usize` from a `u32` is no `From`, and `try_from` would answer for a case that can't be)
        let at = print as usize % REMAINDERS;
        if seen[at] && prints[..i].contains(&print) {
            return any_same(keys, held);
        }
        prints[i] = print;
        seen[at] = true;
    }
    false
}
