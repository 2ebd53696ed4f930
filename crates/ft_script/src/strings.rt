//! The distinct strings of a script, each with its number. There are never more than a script may
//! have, so each number fits 32 bits, and looking a string up takes no memory.
ghost use Rattle.ft_model.specs.Limits.{most_strings};
ghost use Rattle.ft_script.specs.Drafts.{text_place};
ghost use Rattle.std.specs.Prelude.{◌≡◌, ◌<◌, [], ◌∷◌, ◌++◌, length, None, IfOk, OnOk};

use ft_model::{Sequence, Text};
use indexmap::IndexSet;
use std::alloc::{AllocError, Global};
use std::marker::Model;

/// Distinct texts, no more than a script may have, numbered from 0 in the order in which they are first named.
#[derive(Drop)]
pub(crate) struct Strings {
    alloc: Global,
    texts: IndexSet<Vec<u8>>,
}

impl Model for Strings {
    ghost use Rattle.ft_model.specs.Limits.{most_strings};
    ghost use Rattle.std.specs.Prelude.{List, ℕ, ◌≤◌, length, map};

    ghost Value = { List (List ℕ) };

    ghost view = { λ s. map (λ text. text.items) s.texts.keys };

    ghost invariant = { λ s. length s.texts.keys ≤ most_strings };
}

impl Strings {
    /// No strings yet. It takes no memory.
    pub(crate) fn new(alloc: Global) -> Self
        ensures { result ≡ [] }
    {
        Strings {
            alloc,
            texts: IndexSet::new(alloc),
        }
    }

    /// How many strings there are.
    pub(crate) fn len(&self) -> usize
        ensures { result ≡ length self.now }
    {
        self.texts.len()
    }

    /// The text's number, where it has one.
    pub(crate) fn place_of(&self, text: &[u8]) -> Option<u32>
        ensures { result ≡ text_place self.now text.now }
    {
        let place = self.texts.get_index_of(text)?;
        Some(place as u32)
    }

    /// Adds a text, which has the next number.
    pub(crate) fn add(&mut self, text: &[u8]) -> Result<(), AllocError>
        requires new { text_place self.old text.now ≡ None }
        requires room { length self.old < most_strings }
        ensures { OnOk result (self.new ≡ self.old ++ text.now ∷ []) }
    {
        let text = Vec::from_slice(self.alloc, text)?;
        self.texts.insert(text)?;
        Ok(())
    }

    /// The strings by their numbers.
    pub(crate) fn into_texts(self) -> Result<Vec<Text>, AllocError>
        ensures { IfOk result (λ texts. texts.items ≡ self) }
    {
        let Strings { alloc, texts } = self;
        texts.into_iter().map(Sequence::from_vec).collect(alloc)
    }
}
