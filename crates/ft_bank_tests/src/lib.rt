//! Steps of the passes of one bank, in one thread and in threads of their own. Beside the bank's code these tests would have it proved a
//! second time. What other crates' tests begin with, and the rounds that `ft_bank_bench` times, stand here too.
#![tactic(auto)]

mod banks;
#[cfg(test)]
mod boxes;
mod rounds;
#[cfg(test)]
mod shapes;
#[cfg(test)]
mod steps;
#[cfg(test)]
mod tables;
#[cfg(test)]
mod threads;
mod workers;
mod writes;
#[cfg(test)]
mod writing;

pub use crate::banks::{bank_of, bank_of_two, pair_of, small_shape};
pub use crate::rounds::{go_round, go_round_with};
pub use crate::workers::{
    Tally, close_counted, take_once, work, work_in_four, work_in_two, write_once,
};
pub use crate::writes::reverse_bare;
