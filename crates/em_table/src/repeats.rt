//! Whether something stands twice in a list.
ghost use Rattle.std.specs.Prelude.{◌≡◌};
ghost use Rattle.std.specs.List.{list_any};
ghost use Rattle.em_table.specs.Values as spec;

/// Whether the item is one of these.
pub fn is_among<T: PartialEq>(item: &T, others: &[T]) -> bool
    ensures { result ≡ list_any (T.eq item.now) others.now }
{
    others.iter().any(|other| item == other)
}

/// Whether an item of a list is the same as one after it.
pub fn has_repeat<T: PartialEq>(items: &[T]) -> bool
    ensures { result ≡ spec.has_repeat T.eq items.now }
{
    let mut rest = items;
    while let Some((first, others)) = rest.split_first() {
        if is_among(first, others) {
            return true;
        }
        rest = others;
    }
    false
}
