//! Histories: one list of the entries of all threads, and whether it is one that containers of one
//! thread can have.
#![tactic(auto)]

mod account;
mod chronicles;
mod enough_tables;
mod equal;
mod judging;
mod laws;
mod memory;
mod merging;
mod numbers;
mod passing;
mod progress;
mod replies;
mod rules;
mod sizes;
mod state;
mod users;
mod verdict;
mod writers;

pub use chronicles::{put_in_order, sorted_chronicles_are_legal};
pub use enough_tables::enough_tables_never_run_out;
pub use judging::{judge, judge_with_world};
pub use laws::{
    each_end_matches_one_begin, kept_sections_are_untouched, legal_can_be_told, legal_is_unbroken,
    one_order, one_verdict, threads_keep_their_order, writes_are_numbered,
};
pub use merging::{history_order, merge};
pub use numbers::{
    legal_histories_are_numbered, numbered_entries_are_legal, numbered_lists_are_numbered,
    numbered_lists_grow, replies_ask_no_hands, right_entries_stay_right,
};
pub use verdict::{Judgement, Verdict};
