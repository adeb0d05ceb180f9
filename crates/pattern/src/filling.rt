// Patterns with the update's values, beside the values of a key.
ghost use Rattle.std.specs.Prelude.{◌≡◌, []};
ghost use Rattle.meaning.specs.Pattern.{agrees_at};
ghost use Rattle.pattern.specs.Stored.{filled_entry, entry_read};

use super::Entry;

// An entry with the update's values: a parameter becomes its value, 0 past the values. (`table` has a name for that look-up, `number_or`, which is private to it;
// it is one expression of the library's.)
pub fn filled(entry: Entry, values: &[i32]) -> Entry
    ensures { result ≡ filled_entry values.now entry }
{
    match entry {
        Entry::Constant(z) => Entry::Constant(z),
        Entry::Parameter(k) => { Entry::Constant(values.get(usize::from(k)).copied().unwrap_or(0)) }
        Entry::Any => Entry::Any,
    }
}

// Whether a value is what an entry asks for; a parameter that is not filled in counts as 0.
pub fn agrees(entry: Entry, value: i32) -> bool
    ensures { result ≡ agrees_at [] (entry_read entry) value }
{
    match entry {
        Entry::Constant(z) => z == value,
        Entry::Parameter(_) => 0 == value,
        Entry::Any => true,
    }
}
