//! Objects as a watch shows them.
ghost use Rattle.std.specs.Prelude.{◌≡◌, IfOk, Some};
ghost use Rattle.kr_watch.specs.Noting.{at_revision};

use kr_base::{Bytes, NoMemory, Shared, Text};
use std::alloc::Global;

/// A live object.
#[derive(Drop)]
pub struct Item {
    pub path: Text,
    pub resource: Text,
    /// The revision of its row.
    pub revision: u64,
    /// Its data; nothing where its content isn't data.
    pub plain: Option<Bytes>,
}

impl Item {
    /// An object with copies of its path, resource and data.
    pub(crate) fn copy(
        alloc: Global,
        path: &str,
        resource: &str,
        revision: u64,
        plain: &[u8],
    ) -> Result<Item, NoMemory>
        ensures { IfOk result (λ item. item ≡ record {
          path = path.now;
          resource = resource.now;
          revision = revision;
          plain = Some plain.now;
        }) }
    {
        let path = Text::copy(alloc, path)?;
        let resource = Text::copy(alloc, resource)?;
        let plain = Bytes::copy(alloc, plain)?;
        Ok(Item {
            path,
            resource,
            revision,
            plain: Some(plain),
        })
    }

    /// A copy with the revision of another row.
    pub(crate) fn revised(&self, alloc: Global, revision: u64) -> Result<Item, NoMemory>
        ensures { IfOk result (λ item. item ≡ at_revision revision self.now) }
    {
        let path = Text::copy(alloc, self.path.as_str())?;
        let resource = Text::copy(alloc, self.resource.as_str())?;
        let plain = copy_plain(alloc, &self.plain)?;
        Ok(Item {
            path,
            resource,
            revision,
            plain,
        })
    }

    /// The first owner of the object.
    pub(crate) fn into_shared(self, alloc: Global) -> Result<Shared<Item>, NoMemory>
        ensures { IfOk result (λ item. item ≡ self) }
    {
        match Shared::new(alloc, self) {
            Ok(item) => Ok(item),
            Err(_) => Err(NoMemory),
        }
    }
}

/// A copy of the data, if there are any.
fn copy_plain(alloc: Global, plain: &Option<Bytes>) -> Result<Option<Bytes>, NoMemory>
    ensures { IfOk result (λ copy. copy ≡ plain.now) }
{
    match plain {
        Some(plain) => Ok(Some(Bytes::copy(alloc, plain.as_slice())?)),
        None => Ok(None),
    }
}
