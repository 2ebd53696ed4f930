//! The ledger of a script's tables: which are free, which containers have, and which are given up and not free yet,
//! call by call. So it says where a MemoryError of a class stands.
#![tactic(auto)]

mod laws;
mod rows;

pub use laws::{
    collections_take_what_is_due, goals_are_write_numbers, ledger_errors_are_earned,
    own_tables_are_held_back, tables_add_up, tables_wait_for_all_threads,
    threads_leave_after_their_last_calls, turns_are_answered, write_numbers_count_tables,
};
pub use rows::{retired_tables_are_used_again, sixth_keys_retire_a_table};
