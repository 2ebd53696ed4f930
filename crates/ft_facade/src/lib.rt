//! Sessions: what an embedder makes calls with. A session is a caller of an engine together with the engine, which it
//! shares with the other sessions, so that it may go to a thread of its own and nothing else need be passed along. It
//! asks by itself whether a call may be made, and answers an error where it may not. It keeps no history.
#![tactic(auto)]

mod calling;
mod closing;
mod retrying;
mod session;
mod sizes;
mod stepping;

pub use crate::retrying::RETRIES;
pub use crate::session::{OpenFault, Session, open};
pub use crate::sizes::{MOST_CURSORS, Sizes};
pub use crate::stepping::Stepped;
pub use ft_engine::Refusal;
pub use ft_section::{Owner, Stamp};
