//! Calls on plain containers, by tables of what CPython replies to them. Beside the code of `ft_model`
//! these tests would have it proved a second time. Nothing stands on this crate.
#![tactic(auto)]

#[cfg(test)]
mod calls;
mod splits;

pub use splits::{
    clears_and_copies_end_it, deques_grow_like_lists, keys_in_order_stay_split,
    keys_out_of_order_take_tables, pairs_taken_out_take_tables, updates_that_add_take_tables,
};
