//! Words of a bank, worked by hand. Beside the code of `ft_layout` these tests would have it proved a
//! second time. Nothing stands on this crate.
#![tactic(auto)]

#[cfg(test)]
mod words;
