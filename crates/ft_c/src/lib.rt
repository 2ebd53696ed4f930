//! The library for C: sessions of one engine and texts behind handles, and calls as plain structs. `c/rezunkai.h`
//! declares what is exported here, and is what C programs use: it tests pointers and handles before it calls.
//!
//! No export waits, and each keeps a handle what it was: a session between two calls, or texts.
#![tactic(auto)]

mod decoding;
mod encoding;
mod exports;
mod handle;
mod held;
mod opening;
mod status;
mod stepping;
mod texting;
mod wire;
