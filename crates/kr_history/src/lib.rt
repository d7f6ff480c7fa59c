//! What callers of a core have: the acts of one seat, the stages of their calls, and the laws of
//! histories on which they stand.
#![tactic(auto)]

mod acts;
mod asking;
mod call;
mod holding;
mod laws_caller;
mod laws_calls;
mod laws_content;
mod laws_count;
mod laws_exchange;
mod laws_fit;
mod laws_keys;
mod laws_lack;
mod laws_line;
mod laws_parts;
mod laws_size;
mod outcome;
mod sealing;
mod solo;

pub use acts::Acts;
pub use asking::{delete, fetch, join, leave, look_above, put, reload, replace};
pub use call::CallNo;
pub use holding::{adopt, hand_back, let_go, take_up};
pub use laws_caller::{found_follows, holding_follows};
pub use laws_calls::{
    budget_follows, caller_follows, found_is_known, held_is_known, honesty_follows,
    rows_are_written,
};
pub use laws_content::{
    absent_is_nothing, content_without_plugin, found_is_live, found_reads, honest_at_each,
    honest_by_entries, honest_by_seats, honest_without_plugin, live_reads, live_was_put,
    no_names_no_plugin, nothing_is_absent, one_content, replaced_is_live, revisions_rise,
    some_content,
};
pub use laws_count::board_counts;
pub use laws_exchange::kept_seeds_open;
pub use laws_fit::{
    holding_is_live, judged_by_fit, judged_state_follows, legal_fits, live_is_readable,
    needs_are_live, one_cause, opening_fits, refresh_is_not_refused, refusal_is_exact,
    starts_where_it_fits, verdict_is_exact,
};
pub use laws_keys::keys_at_each_moment;
pub use laws_lack::{refused_exactly, verdict_refuses_exactly};
pub use laws_line::{faults_are_told, line_changes_content, line_changes_live, torn_is_told};
pub use laws_parts::{bounds_follow, parts_follow, parts_sum_to_whole};
pub use laws_size::full_is_exact;
pub use outcome::{Joining, Reloading, Replacing};
pub use sealing::{seal, seal_in_place, unseal};
pub use solo::Solo;
