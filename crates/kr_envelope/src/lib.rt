//! What a stored value says of itself: the prefix with the kind and name of the provider that wrote
//! it, and the object behind a KMS plugin's prefix.
#![tactic(auto)]

mod canonical;
mod item;
mod laws;
mod object;
mod partial;
mod prefix;
mod wire;

pub use canonical::{push_data_size, push_last_fields};
pub use laws::{canonical_length, one_reading, round_trip};
pub use object::{EncryptedObject, ObjectNo, SourceKind};
pub use prefix::{Kind, MARK, Tagged, provider_prefix, push_prefix, split};
