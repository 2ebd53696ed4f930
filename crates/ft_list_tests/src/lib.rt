//! Calls on lists of a bank, worked by hand: tables of calls that are made one after the other, and looks in the midst
//! of another pass's write. Beside the code these tests would have it proved a second time. Nothing stands on this
//! crate.
#![tactic(auto)]

#[cfg(test)]
mod banks;
#[cfg(test)]
mod calls;
#[cfg(test)]
mod edges;
#[cfg(test)]
mod growing;
#[cfg(test)]
mod python;
#[cfg(test)]
mod rows;
#[cfg(test)]
mod tables;
#[cfg(test)]
mod writing;
