//! What is printed: a page or changes, a line each, behind a line that counts them.
use kr_base::{List, Shared};
use kr_watch::{Item, Listing, ObjectChange, SinceNo, What};
use std::alloc::Global;
use test_support::{Page, Wrong};

/// `page`, how many items it has and the path behind which the next one is, then the items.
pub fn page_lines(alloc: Global, listing: &Listing) -> Result<Vec<u8>, Wrong> {
    let mut page = Page::new(alloc);
    let items = listing.items.as_slice();
    page.counted("page", items.len() as u64);
    match &listing.next {
        Some(next) => page.word(next.as_str()),
        None => page.word(""),
    }
    page.end_line();
    for item in items {
        item_line(alloc, &mut page, item.get());
    }
    page.into_bytes()
}

/// `REVISION PATH RESOURCE HEX`.
fn item_line(alloc: Global, page: &mut Page, item: &Item) {
    page.number(item.revision);
    page.word(item.path.as_str());
    page.word(item.resource.as_str());
    match &item.plain {
        Some(plain) => page.digits(alloc, plain.as_slice()),
        None => page.word("?"),
    }
    page.end_line();
}

/// `changes` and how many there are, then the changes; or `gone`, or `ahead`, and a revision.
pub fn since_lines(
    alloc: Global,
    told: &Result<List<Shared<ObjectChange>>, SinceNo>,
) -> Result<Vec<u8>, Wrong> {
    let mut page = Page::new(alloc);
    match told {
        Ok(changes) => add_changes(&mut page, changes.as_slice()),
        Err(SinceNo::Gone { oldest }) => add_counted(&mut page, "gone", *oldest),
        Err(SinceNo::Ahead { newest }) => add_counted(&mut page, "ahead", *newest),
        Err(SinceNo::NoMemory) => page.lack(),
    }
    page.into_bytes()
}

fn add_counted(page: &mut Page, word: &str, number: u64) {
    page.counted(word, number);
    page.end_line();
}

fn add_changes(page: &mut Page, changes: &[Shared<ObjectChange>]) {
    add_counted(page, "changes", changes.len() as u64);
    for change in changes {
        change_line(page, change.get());
    }
}

/// `REVISION KIND PATH`.
fn change_line(page: &mut Page, change: &ObjectChange) {
    page.number(change.revision);
    page.word(match change.what {
        What::Put => "put",
        What::Delete => "delete",
        What::Replace => "replace",
    });
    page.word(change.path.as_str());
    page.end_line();
}
