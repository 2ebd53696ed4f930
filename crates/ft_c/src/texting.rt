//! Texts that are held.
ghost use Rattle.ft_c.specs.Handles.{IsKept};

use crate::held::Held;
use crate::status::Status;
use ft_model::Sym;

/// The number of a text, which gets the next one where it has none yet.
pub(crate) fn number(held: &mut Held, text: &[u8], number: &mut u32) -> Status
    requires { IsKept held.old }
    ensures { IsKept held.new }
{
    let Held::Texts(texts) = held else {
        return Status::NoHandle;
    };
    match texts.number(text) {
        Ok(sym) => {
            *number = sym.0;
            Status::Done
        }
        Err(fault) => Status::from(fault),
    }
}

/// Copies the bytes of the text with that number, as many as fit; how many it has goes to `length`.
pub(crate) fn copy_text(held: &Held, number: u32, bytes: &mut [u8], length: &mut u64) -> Status {
    let Held::Texts(texts) = held else {
        return Status::NoHandle;
    };
    let Some(text) = texts.text(Sym(number)) else {
        return Status::NoText;
    };
    for (slot, byte) in bytes.iter_mut().zip(text) {
        *slot = *byte;
    }
    *length = text.len() as u64;
    Status::Done
}
