// The patterns of a query and an update as a list without repeats (rule 7: "Equal patterns keep the first.").
ghost use Rattle.std.specs.Prelude.{◌≡◌, map, ◌<◌, cond, take};
ghost use Rattle.lists.specs.Lists.{any};
ghost use Rattle.lists.specs.Tests.{eq_list};
ghost use Rattle.meaning.specs.Pattern.{same_entry};
ghost use Rattle.pattern.specs.Stored.{entry_read};
ghost use Rattle.pattern.specs.Private.Flat.{same_struct, no_patterns, with_pattern};

use super::{Entry, Pattern, Patterns};

// Whether two patterns have the same entries, those past the count as well. (No `PartialEq` on `Pattern`, with `contains` below: what is promised leaves `count` out, and `==`
// would look at it too.)
fn same(a: &Pattern, b: &Pattern) -> bool
    ensures { result ≡ same_struct a.now b.now }
{
    a.entries == b.entries
}

// An empty list of patterns.
pub fn no_patterns() -> Patterns
    ensures { result ≡ no_patterns }
{
    let blank = Pattern {
        entries: [Entry::Any; Pattern::ENTRIES],
        count: 0,
    };
    Patterns {
        items: [blank; Patterns::CLAUSES],
        count: 0,
    }
}

// Puts a pattern behind those of a list, unless it is one of them.
pub fn add(list: &mut Patterns, p: Pattern)
    requires { list.old.count < 64 }
    ensures { list.new ≡ cond (any (λ x. same_struct x p) (take list.old.count list.old.items)) list.old (with_pattern list.old p) }
{
    let n = usize::from(list.count);
    if list.items[..n].iter().any(|other| same(other, &p)) {
        return;
    }
    list.items[n] = p;
    list.count += 1;
}
