//! Distinct texts with their numbers.
ghost use Rattle.std.specs.Str.{IsUtf8};
ghost use Rattle.ft_texts.specs.Faults.{IsFaultOf};
ghost use Rattle.ft_texts.specs.Numbered.{most_texts, text_place, with_text};
ghost use Rattle.std.specs.Prelude.{◌≡◌, ◌<◌, [], ◌∷◌, ◌++◌, length, None, Some, IfErr, IfNone, IfOk, IfSome, OnErr, OnOk, slice_get};

use ft_model::Sym;
use indexmap::IndexSet;
use std::alloc::{AllocError, Global};
use std::marker::Model;

/// How many texts there are at most: a bank has no more strings (profile).
pub const MOST_TEXTS: usize = 65536;

/// Distinct texts in UTF-8, at most 65,536, numbered from 0 in the order in which they came. A number is kept for good.
#[derive(Drop)]
pub struct Texts {
    alloc: Global,
    texts: IndexSet<Vec<u8>>,
}

/// Why a text has no number.
#[derive(Clone, Copy, Debug, PartialEq, Eq)]
pub enum TextFault {
    /// The bytes aren't UTF-8.
    NotUtf8,
    /// All numbers are given out.
    Full,
    /// Out of memory.
    Memory,
}

impl From<AllocError> for TextFault {
    ghost use Rattle.ft_texts.specs.declared.texts.TextFault.TheVariants as fault;

    ghost from_gives = { λ _ given. given ≡ fault.Memory };

    fn from(_fault: AllocError) -> TextFault {
        TextFault::Memory
    }
}

impl Model for Texts {
    ghost use Rattle.ft_texts.specs.Numbered.{most_texts};
    ghost use Rattle.std.specs.Prelude.{List, ℕ, ◌≤◌, length, map};

    ghost Value = { List (List ℕ) };

    ghost view = { λ s. map (λ text. text.items) s.texts.keys };

    ghost invariant = { λ s. length s.texts.keys ≤ most_texts };
}

impl Texts {
    /// No texts yet. It takes no memory.
    pub fn new(alloc: Global) -> Texts
        ensures { result ≡ [] }
    {
        Texts {
            alloc,
            texts: IndexSet::new(alloc),
        }
    }

    /// How many texts there are.
    pub fn len(&self) -> usize
        ensures { result ≡ length self.now }
    {
        self.texts.len()
    }

    /// The number of a text, where it has one.
    pub fn place_of(&self, text: &[u8]) -> Option<u32>
        ensures { result ≡ text_place self.now text.now }
    {
        let place = self.texts.get_index_of(text)?;
        Some(place as u32)
    }

    /// Adds a text, which has the next number.
    fn add(&mut self, text: &[u8]) -> Result<(), AllocError>
        requires new { text_place self.old text.now ≡ None }
        requires room { length self.old < most_texts }
        ensures ok { OnOk result (self.new ≡ self.old ++ text.now ∷ []) }
        ensures err { OnErr result (self.new ≡ self.old) }
    {
        let text = Vec::from_slice(self.alloc, text)?;
        self.texts.insert(text)?;
        Ok(())
    }

    /// The number of a text, which gets the next one where it has none yet.
    ///
    /// # Errors
    ///
    /// `NotUtf8`; `Full` where 65,536 texts have numbers; `Memory`. The texts are as before then.
    pub fn number(&mut self, text: &[u8]) -> Result<Sym, TextFault>
        ensures texts { OnOk result (self.new ≡ with_text self.old text.now) }
        ensures number { IfOk result (λ sym. text_place self.new text.now ≡ Some sym.0) }
        ensures valid { OnOk result (IsUtf8 text.now) }
        ensures fault { IfErr result (λ fault. IsFaultOf self.old text.now fault) }
        ensures same { OnErr result (self.new ≡ self.old) }
    {
        if str::from_utf8(text).is_err() {
            return Err(TextFault::NotUtf8);
        }
        if let Some(place) = self.place_of(text) {
            return Ok(Sym(place));
        }
        let next = self.len();
        if next >= MOST_TEXTS {
            return Err(TextFault::Full);
        }
        self.add(text)?;
        Ok(Sym(next as u32))
    }

    /// The bytes of the text with that number, where there is one.
    pub fn text(&self, sym: Sym) -> Option<&[u8]>
        ensures some { IfSome result (λ text. slice_get self.now sym.0 ≡ Some text.now) }
        ensures none { IfNone result (slice_get self.now sym.0 ≡ None) }
    {
        let text = self.texts.get_index(sym.0 as usize)?;
        Some(text.as_slice())
    }
}
