//! What is printed: a line for each question.
use kr_judge::{PathSet, Verdict};
use std::alloc::Global;
use test_support::{Page, Wrong};

/// The text of the verdict's copy.
pub fn verdict_line(alloc: Global, verdict: &Verdict) -> Result<Vec<u8>, Wrong> {
    let copy = verdict.copy(alloc)?;
    let mut page = Page::new(alloc);
    page.verdict(alloc, &copy);
    drop(copy);
    page.end_line();
    page.into_bytes()
}

/// `live`, and the numbers.
pub fn numbers_line(alloc: Global, numbers: &[u32]) -> Result<Vec<u8>, Wrong> {
    let mut page = Page::new(alloc);
    page.word("live");
    for number in numbers {
        page.number(*number as u64);
    }
    page.end_line();
    page.into_bytes()
}

/// `paths`, how many there are, and the first.
pub fn paths_line(alloc: Global, paths: Option<&PathSet>) -> Result<Vec<u8>, Wrong> {
    match paths {
        Some(paths) => first_line(alloc, paths.len(), paths.first()),
        None => first_line(alloc, 0, None),
    }
}

fn first_line(alloc: Global, count: usize, first: Option<&str>) -> Result<Vec<u8>, Wrong> {
    let mut page = Page::new(alloc);
    page.counted("paths", count as u64);
    if let Some(path) = first {
        page.word(path);
    }
    page.end_line();
    page.into_bytes()
}
