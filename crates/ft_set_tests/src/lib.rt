//! Calls on sets of one bank, worked by hand. Beside the code of `ft_set` the tests would have it proved a second
//! time. Nothing stands on this crate.
#![tactic(auto)]

#[cfg(test)]
mod sets;
#[cfg(test)]
mod takes;
