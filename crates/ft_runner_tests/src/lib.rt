//! The tool on streams in memory. Beside the code of `ft_runner` these tests would have it proved a
//! second time. Nothing stands on this crate.
#![tactic(auto)]

#[cfg(test)]
mod tool;
