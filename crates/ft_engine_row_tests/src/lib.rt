//! Scripts and what their calls are answered by an engine, as the manual, the order of turns and the sizes of tables
//! say it, worked by hand: tests alone.
#![tactic(auto)]

#[cfg(test)]
mod boxed;
#[cfg(test)]
mod heaps;
#[cfg(test)]
mod keys;
#[cfg(test)]
mod lists;
#[cfg(test)]
mod sections;
#[cfg(test)]
mod sharing;
#[cfg(test)]
mod tables;
