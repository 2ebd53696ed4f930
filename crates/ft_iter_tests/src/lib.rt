//! The search for the entry that follows a serial, in a table written out by hand. Beside the code of `ft_iter` its
//! tests would have it proved a second time. Nothing stands on this crate.
#![tactic(auto)]

#[cfg(test)]
mod seeks;
