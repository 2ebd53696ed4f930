//! Scripts with cursors, and what their calls are answered by an engine, worked by hand and with python3: tests alone.
#![tactic(auto)]

#[cfg(test)]
mod dicts;
#[cfg(test)]
mod lists_and_sets;
#[cfg(test)]
mod several;
