//! Tests of scripts and transcripts as text, of histories and of streams: beside the code that they test
//! they would have it proved a second time. Nothing stands on this one.
#![tactic(auto)]

#[cfg(test)]
mod awaits;
#[cfg(test)]
mod chronicles;
#[cfg(test)]
mod generated;
#[cfg(test)]
mod heap_judging;
#[cfg(test)]
mod judging;
#[cfg(test)]
mod merging;
#[cfg(test)]
mod printing;
#[cfg(test)]
mod script_cuts;
#[cfg(test)]
mod script_limits;
#[cfg(test)]
mod scripts;
#[cfg(test)]
mod streams;
#[cfg(test)]
mod table_judging;
#[cfg(test)]
mod transcripts;
