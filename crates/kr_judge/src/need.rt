//! What stored data need.
use kr_base::Text;
use kr_config::Who;

/// The data that stand at the path, of this resource, are read by this provider.
#[derive(Drop)]
pub struct Need {
    pub path: Text,
    pub resource: Text,
    pub who: Who,
}
