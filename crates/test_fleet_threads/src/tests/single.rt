//! Values that find memory, or none.
ghost use Rattle.std.specs.Prelude.{◌≡◌, ◌∷◌, ◌++◌, [], IfSome};

use kr_base::{List, Shared, Text};
use std::alloc::Global;

/// A copy of the text.
pub fn text(alloc: Global, text: &str) -> Option<Text>
    ensures { IfSome result (λ copy. copy ≡ text.now) }
{
    Text::copy(alloc, text).ok()
}

/// A list of the item alone.
pub fn list_of_one<T: Drop>(alloc: Global, item: T) -> Option<List<T>>
    ensures { IfSome result (λ list. list.0 ≡ item ∷ []) }
{
    append_item(List::new(alloc), item)
}

/// The list with one more item at the end.
pub fn append_item<T: Drop>(list: List<T>, item: T) -> Option<List<T>>
    ensures { IfSome result (λ longer. longer.0 ≡ list.0 ++ item ∷ []) }
{
    let mut list = list;
    match list.push(item) {
        Ok(()) => Some(list),
        Err(_) => None,
    }
}

/// The value, to be shared.
pub fn shared<T: Drop>(alloc: Global, value: T) -> Option<Shared<T>>
    ensures { IfSome result (λ shared. shared ≡ value) }
{
    match Shared::new(alloc, value) {
        Ok(shared) => Some(shared),
        Err(_) => None,
    }
}

/// Both values, if both are there.
pub fn both_values<T: Drop>(first: Option<T>, second: Option<T>) -> Option<(T, T)> {
    let first = first?;
    Some((first, second?))
}
