//! A watch: it is handed the live rows of an opening and then the lines of the journal, lists
//! objects in pages, and tells the changes since a revision.
#![tactic(auto)]

mod change;
mod change_list;
mod item;
mod item_list;
mod laws;
mod page;
mod since_no;
mod watch;

pub use change::{ObjectChange, What};
pub use item::Item;
pub use laws::{
    changes_are_last, changes_follow_each_other, follows_all, live_is_listed, next_line_is_next,
    noted_is_newest, one_shown, pages_are_all, pages_have_each, seeds_follow, seeds_stand,
    shown_are_above, shown_since_is_shown,
};
pub use page::Listing;
pub use since_no::SinceNo;
pub use watch::Watch;
