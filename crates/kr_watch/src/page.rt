//! Pages of items.
ghost use Rattle.std.specs.Prelude.{◌≡◌, ◌≤◌, filter, IfOk, None};
ghost use Rattle.std.specs.List.{last_or};
ghost use Rattle.std.specs.Option.{option_map};
ghost use Rattle.kr_watch.specs.Pages.{IsFirstOf, has_resource};
ghost use Rattle.kr_watch.specs.inner.Keyed.{items_in};
ghost use Rattle.kr_watch.specs.declared.item.Item as shown;

use crate::item::Item;
use kr_base::{List, NoMemory, Shared, Text};
use std::alloc::Global;
use std::collections::btree_map::Range;

/// A page of items.
#[derive(Drop)]
pub struct Listing {
    /// The items, in the order of their paths.
    pub items: List<Shared<Item>>,
    /// The path of the last one, where more items stand behind it: the next page is behind this
    /// path.
    pub next: Option<Text>,
}

/// The first so many of the items that are of the resource.
pub(crate) fn first_page(
    alloc: Global,
    mut above: Range<'_, String, Shared<Item>>,
    resource: &str,
    limit: u32,
) -> Result<Listing, NoMemory>
    requires { 1 ≤ limit }
    ensures { IfOk result (λ page.
        IsFirstOf limit (filter (has_resource resource.now) (items_in above.entry)) page) }
{
    let mut items = List::new(alloc);
    while let Some((_path, item)) = above.next() {
        if has_resource(item.get(), resource) {
            if items.as_slice().len() == limit as usize {
                let next = last_path(alloc, items.as_slice())?;
                return Ok(Listing { items, next });
            }
            match items.push(item.share()?) {
                Ok(()) => {}
                Err(_) => return Err(NoMemory),
            }
        }
    }
    Ok(Listing { items, next: None })
}

/// Whether the item is of the resource.
fn has_resource(item: &Item, resource: &str) -> bool
    ensures { result ≡ has_resource resource.now item.now }
{
    item.resource.as_str() == resource
}

/// A copy of the last item's path.
fn last_path(alloc: Global, items: &[Shared<Item>]) -> Result<Option<Text>, NoMemory>
    ensures { IfOk result (λ path. path
        ≡ option_map (λ (item : shown.Item). item.path) (last_or None items.now)) }
{
    match items.last() {
        Some(item) => Ok(Some(Text::copy(alloc, item.get().path.as_str())?)),
        None => Ok(None),
    }
}
