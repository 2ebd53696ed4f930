//! Searches and rebuilt tables over words in a list. Beside the code of `ft_keys` these tests would have it
//! proved a second time. Nothing stands on this crate.
#![tactic(auto)]

#[cfg(test)]
mod searches;
