//! What is printed of a store.
use kr_base::MemTape;
use kr_store::Store;
use test_support::{Checks, Page, add_row_lines};

/// The rows, and then how often the tape failed and whether a write is broken off.
pub fn add_rows(page: &mut Page, store: &Store<MemTape>) {
    add_row_lines(page, store, Checks::Untold);
    page.counted("faults", store.faults());
    page.word(if store.torn() { "torn" } else { "whole" });
    page.end_line();
}
