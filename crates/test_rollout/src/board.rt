//! The board of a store's rows and of replicas' settings, without a core.
ghost use Rattle.std.specs.Prelude.{IsTrue};
ghost use Rattle.kr_opening.specs.Replicas.{IsFirstIn};

use crate::line_text::add_refusal;
use kr_base::{List, MemTape, Shared};
use kr_config::Settings;
use kr_opening::make_opening_board;
use kr_store::Store;
use std::alloc::Global;
use test_support::{Page, Wrong};

/// Prints the numbers of the board's live generations, or why there is none. It has room for so
/// many generations.
pub fn add_board(
    alloc: Global,
    page: &mut Page,
    store: &Store<MemTape>,
    replicas: &List<Option<Shared<Settings>>>,
    room: u32,
) -> Result<(), Wrong> {
    let all = replicas.as_slice();
    if !has_first_replica(all) || all.len() > 16 || all.len() as u64 > room as u64 {
        return Err(Wrong::Form);
    }
    match make_opening_board(alloc, store, replicas, room) {
        Ok(board) => {
            add_live(page, board.live());
            drop(board);
        }
        Err(why) => add_refusal(alloc, page, why),
    }
    Ok(())
}

/// Whether the first replica is in.
fn has_first_replica(replicas: &[Option<Shared<Settings>>]) -> bool
    ensures { IsTrue result → IsFirstIn replicas.now }
{
    match replicas {
        [Some(_), ..] => true,
        _ => false,
    }
}

/// A line with the numbers of live generations.
pub fn add_live(page: &mut Page, numbers: &[u32]) {
    page.word("live");
    for number in numbers {
        page.number(*number as u64);
    }
    page.end_line();
}
