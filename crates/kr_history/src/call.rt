//! Why a call over a core is cut short.

use kr_base::Text;
use kr_kms::Field;
use kr_provider::ValueNo;

/// Why a call over a core was cut short. After each of these but `Spent` its seat holds nothing.
#[derive(Drop)]
pub enum CallNo {
    /// The data can't be sealed, or the row that was found reads so.
    Value(ValueNo),
    /// The plugin of this name failed; its link's count of faults tells so.
    PluginFailed {
        name: Text,
    },
    /// The bench's random source failed; its count of faults tells so.
    DiceFailed,
    /// The store's tape failed; the journal's counts tell so.
    StoreFailed,
    /// The store's file would have so many bytes.
    StoreFull {
        needed: u64,
    },
    /// The plugin of this name answered a status that shows it unhealthy by this field.
    Unhealthy {
        name: Text,
        field: Field,
        text: Text,
    },
    /// The replica has no current generation.
    Gone,
    /// The seat may add no more lines.
    Spent,
    /// There was no memory.
    NoMemory,
}
