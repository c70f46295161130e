//! Vectors that have room.

ghost use Rattle.std.specs.Prelude.{◌≡◌, ◌<◌, ◌≤◌, ◌++◌, [], ◌∷◌, length, vec_capacity, if◌then◌else◌};

/// Puts an item at the end of a vector that has room for it.
pub fn push<T: Drop>(items: &mut Vec<T>, item: T)
    requires { length items.old.items < vec_capacity items.old }
    ensures items { items.new.items ≡ items.old.items ++ item ∷ [] }
    ensures room { vec_capacity items.old ≤ vec_capacity items.new }
{
    let Ok(()) = items.push(item) else {
        unreachable!();
    };
}

/// Puts an item there where it belongs there.
pub fn push_where<T: Drop>(belongs: bool, items: &mut Vec<T>, item: T)
    requires { length items.old.items < vec_capacity items.old }
    ensures items { items.new.items ≡ items.old.items ++ (if belongs then item ∷ [] else []) }
    ensures room { vec_capacity items.old ≤ vec_capacity items.new }
{
    if belongs {
        push(items, item);
    }
}
