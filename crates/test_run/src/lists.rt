//! Lists of what may find no memory.
use kr_base::{List, NoMemory};

/// Puts an item that was made at the end.
pub fn add<T: Drop>(all: &mut List<T>, item: Result<T, NoMemory>) -> Result<(), NoMemory> {
    match item {
        Ok(item) => match all.push(item) {
            Ok(()) => Ok(()),
            Err(refused) => {
                drop(refused);
                Err(NoMemory)
            }
        },
        Err(NoMemory) => Err(NoMemory),
    }
}
