//! Which configuration a replica may take up: generations of settings, the needs of what is
//! stored, and the verdict on new settings.
#![tactic(auto)]

mod board;
mod class_walk;
mod first_dropped;
mod free_places;
mod generation;
mod generation_list;
mod holding;
mod judging;
mod laws;
mod laws_lack;
mod need;
mod need_index;
mod new_pairs;
mod pair;
mod pair_table;
mod path_set;
mod place_map;
mod proposal;
mod provider_lists;
mod verdict;
mod verdict_text;

pub use board::Board;
pub use laws::{
    judged_classes_are_the_table, needs_go_by_path, needs_stay_by_path, passes_exactly,
    providers_are_told_apart, scans_are_exact,
};
pub use laws_lack::{passes_where_all_fit, refuses_exactly};
pub use need::Need;
pub use path_set::PathSet;
pub use provider_lists::{has, is_same};
pub use verdict::Verdict;
pub use verdict_text::{class_words, who_words};
