//! Pages, taken one after another.
ghost use Rattle.std.specs.Prelude.{◌≡◌, ◌≤◌, ◌++◌, IfOk};
ghost use Rattle.kr_cmd_watch.specs.WatchTexts.{ShowsPages, page_text};

use crate::texts::add_item;
use kr_base::{NoMemory, Shared, Text};
use kr_cmd_messages::{add, add_number};
use kr_watch::{Item, Listing, Watch};
use std::alloc::Global;

/// The pages of the resource, one behind another, and the end.
pub(crate) fn pages_text(
    alloc: Global,
    watch: &Watch,
    resource: &str,
    limit: u32,
) -> Result<Vec<u8>, NoMemory>
    requires { 1 ≤ limit }
    ensures { IfOk result (λ text. ShowsPages resource.now limit watch.now.items text.items) }
{
    watch.known();
    let mut text = Vec::new(alloc);
    let mut after = Text::new(alloc);
    loop {
        let page = watch.list(resource, after.as_str(), limit)?;
        let Listing { items, next } = page;
        add_page(alloc, &mut text, items.as_slice())?;
        match next {
            Some(path) => after = path,
            None => {
                add(&mut text, "end\n")?;
                return Ok(text);
            }
        }
    }
}

/// Adds a page.
fn add_page(alloc: Global, text: &mut Vec<u8>, items: &[Shared<Item>]) -> Result<(), NoMemory>
    ensures { IfOk result (λ done. text.new.items ≡ text.old.items ++ page_text items.now) }
{
    add(text, "page ")?;
    add_number(text, items.len())?;
    add(text, "\n")?;
    for item in items {
        add_item(alloc, text, item.get())?;
    }
    Ok(())
}
