//! What a handle has.

use ft_facade::Session;
use ft_model::Reply;
use ft_texts::Texts;

/// A session with its last reply that has more than numbers, or texts.
#[derive(Drop)]
pub enum Held {
    Session(Session, Reply),
    Texts(Texts),
}
