//! Scripts whose threads are threads, each with a caller of one engine: what all of them were answered is one history,
//! and it is legal. No crate stands on this one.
#![tactic(auto)]

#[cfg(test)]
mod awaiting;
#[cfg(test)]
mod legal;
#[cfg(test)]
mod scripts;
