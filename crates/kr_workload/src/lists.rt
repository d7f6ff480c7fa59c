//! Lists that grow by one item.
ghost use Rattle.std.specs.Prelude.{◌≡◌, OnOk, [], ◌∷◌, ◌++◌};

use kr_base::{List, NoMemory};

/// Puts the item at the end.
pub fn add<T: Drop>(list: &mut List<T>, item: T) -> Result<(), NoMemory>
    ensures { OnOk result (list.new.0 ≡ list.old.0 ++ item ∷ []) }
{
    match list.push(item) {
        Ok(()) => Ok(()),
        Err(_) => Err(NoMemory),
    }
}
