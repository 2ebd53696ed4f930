//! Reads the words after the word of a call.
ghost use Rattle.ft_model.specs.Names.{is_container_name};
ghost use Rattle.ft_script.specs.Arguments.{read_container, just_cursor, read_cursor, just_index_and_value, read_index_and_value, just_index, read_index, is_of_kind, just_key_and_value, read_key_and_value, just_key, read_key, kind_at, just_made_cursor, read_made_cursor, just_nothing, just_other, read_other, same_kind, just_section, just_some_index, read_symbol, read_two_containers, just_two_indices, read_two_indices, just_value, read_value};
ghost use Rattle.ft_script.specs.Internal.Outcomes.{Gives, GivesWithDraft, draft_of};
ghost use Rattle.std.specs.Prelude.{◌≡◌, Ok, map};

use crate::draft::Draft;
use crate::fault::{Fault, LineError, Which};
use crate::words::{integer_of, is_container_name, is_string, text_of};
use ft_model::{Key, Kind, MOST_CURSORS, MOST_STRING_BYTES, MOST_STRINGS, Sequence, Sym, Value};
use std::alloc::Global;

/// The integer that a word is.
#[tactic(auto, unfolding(crate::specs::Arguments::read_index))]
pub(crate) fn index_of(word: &[u8]) -> Result<i64, Fault>
    ensures { result ≡ read_index word.now }
{
    integer_of(word).ok_or(Fault::Number)
}

fn same_kind(one: Kind, other: Kind) -> bool
    ensures { result ≡ same_kind one other }
{
    matches!(
        (one, other),
        (Kind::Dict, Kind::Dict) | (Kind::List, Kind::List) | (Kind::Set, Kind::Set)
    )
}

impl Draft {
    /// The number of a string.
    #[tactic(auto, unfolding(crate::specs::Arguments::read_symbol))]
    fn symbol_of(&mut self, text: &[u8]) -> Result<u32, LineError>
        ensures { GivesWithDraft result (draft_of self.new) (read_symbol (draft_of self.old) text.now) }
    {
        if text.len() > MOST_STRING_BYTES {
            return Err(Fault::Limit(Which::StringBytes).into());
        }
        if let Some(place) = self.strings.place_of(text) {
            return Ok(place);
        }
        let number = self.strings.len();
        if number >= MOST_STRINGS {
            return Err(Fault::Limit(Which::Strings).into());
        }
        self.strings.add(text)?;
        Ok(number as u32)
    }

    /// The key that a word is.
    #[tactic(auto, unfolding(crate::specs::Arguments::read_key))]
    fn key_of(&mut self, alloc: Global, word: &[u8]) -> Result<Key, LineError>
        ensures { GivesWithDraft result (draft_of self.new) (read_key (draft_of self.old) word.now) }
    {
        if is_string(word) {
            let text = text_of(alloc, word)?;
            Ok(Key::Text(Sym(self.symbol_of(&text)?)))
        } else {
            Ok(Key::Int(index_of(word)?))
        }
    }

    /// The value that a word is.
    #[tactic(auto, unfolding(crate::specs::Arguments::read_value))]
    fn value_of(&mut self, alloc: Global, word: &[u8]) -> Result<Value, LineError>
        ensures { GivesWithDraft result (draft_of self.new) (read_value (draft_of self.old) word.now) }
    {
        if word == b"None".as_slice() {
            return Ok(Value::Nothing);
        }
        Ok(self.key_of(alloc, word)?.into_value())
    }

    /// The place of a container that stands above.
    #[tactic(auto, unfolding(crate::specs::Arguments::read_container))]
    pub(crate) fn container_of(&self, name: &[u8]) -> Result<u32, Fault>
        ensures { result ≡ read_container (draft_of self.now) name.now }
    {
        self.containers.place_of(name).ok_or(Fault::Name)
    }

    /// The place of a second container.
    #[tactic(auto, unfolding(crate::specs::Arguments::read_other))]
    fn other_of(&self, kind: Kind, name: &[u8]) -> Result<u32, Fault>
        ensures { result ≡ read_other (draft_of self.now) kind name.now }
    {
        let place = self.container_of(name)?;
        match self.kind_at(place) {
            Some(found) if same_kind(found, kind) => Ok(place),
            _ => Err(Fault::WrongKind),
        }
    }

    /// The kind of the container at a place.
    pub(crate) fn kind_at(&self, place: u32) -> Option<Kind>
        ensures { result ≡ kind_at (draft_of self.now) place }
    {
        let containers = self.containers.as_slice();
        let container = containers.get(place as usize)?;
        Some(container.start.kind)
    }

    /// The number of a cursor that stands above in the thread.
    #[tactic(auto, unfolding(crate::specs::Arguments::read_cursor))]
    fn cursor_of(&self, name: &[u8]) -> Result<u32, Fault>
        ensures { result ≡ read_cursor (draft_of self.now) name.now }
    {
        self.cursors.place_of(name).ok_or(Fault::Name)
    }

    /// The number of a cursor that is made, or made anew.
    #[tactic(auto, unfolding(crate::specs::Arguments::read_made_cursor))]
    fn made_cursor_of(&mut self, alloc: Global, name: &[u8]) -> Result<u32, LineError>
        ensures { GivesWithDraft result (draft_of self.new) (read_made_cursor (draft_of self.old) name.now) }
    {
        if !is_container_name(name) {
            return Err(Fault::Name.into());
        }
        if let Some(number) = self.cursors.place_of(name) {
            return Ok(number);
        }
        let number = self.cursors.len();
        if number >= MOST_CURSORS {
            return Err(Fault::Limit(Which::Cursors).into());
        }
        let name = Sequence::from_vec(Vec::from_slice(alloc, name)?);
        self.cursors.push(name)?;
        Ok(number as u32)
    }

    #[tactic(auto, unfolding(crate::specs::Arguments::just_key))]
    pub(crate) fn key_in(&mut self, alloc: Global, words: &[&[u8]]) -> Result<Key, LineError>
        ensures { GivesWithDraft result (draft_of self.new) (just_key (draft_of self.old) (map (λ word. word.now) words.now)) }
    {
        match words {
            [word] => self.key_of(alloc, word),
            _ => Err(Fault::WordCount.into()),
        }
    }

    #[tactic(auto, unfolding(crate::specs::Arguments::just_key_and_value))]
    pub(crate) fn key_and_value_in(
        &mut self,
        alloc: Global,
        words: &[&[u8]],
    ) -> Result<(Key, Value), LineError>
        ensures { GivesWithDraft result (draft_of self.new) (just_key_and_value (draft_of self.old) (map (λ word. word.now) words.now)) }
    {
        match words {
            [key, value] => self.key_and_value_of(alloc, key, value),
            _ => Err(Fault::WordCount.into()),
        }
    }

    #[tactic(auto, unfolding(crate::specs::Arguments::read_key_and_value))]
    fn key_and_value_of(
        &mut self,
        alloc: Global,
        key: &[u8],
        value: &[u8],
    ) -> Result<(Key, Value), LineError>
        ensures { GivesWithDraft result (draft_of self.new) (read_key_and_value (draft_of self.old) key.now value.now) }
    {
        let found = self.key_of(alloc, key)?;
        let stored = self.value_of(alloc, value)?;
        Ok((found, stored))
    }

    #[tactic(auto, unfolding(crate::specs::Arguments::read_index_and_value))]
    fn index_and_value_of(
        &mut self,
        alloc: Global,
        index: &[u8],
        value: &[u8],
    ) -> Result<(i64, Value), LineError>
        ensures { GivesWithDraft result (draft_of self.new) (read_index_and_value (draft_of self.old) index.now value.now) }
    {
        let place = index_of(index)?;
        let stored = self.value_of(alloc, value)?;
        Ok((place, stored))
    }

    #[tactic(auto, unfolding(crate::specs::Arguments::just_value))]
    pub(crate) fn value_in(&mut self, alloc: Global, words: &[&[u8]]) -> Result<Value, LineError>
        ensures { GivesWithDraft result (draft_of self.new) (just_value (draft_of self.old) (map (λ word. word.now) words.now)) }
    {
        match words {
            [word] => self.value_of(alloc, word),
            _ => Err(Fault::WordCount.into()),
        }
    }

    #[tactic(auto, unfolding(crate::specs::Arguments::just_index_and_value))]
    pub(crate) fn index_and_value_in(
        &mut self,
        alloc: Global,
        words: &[&[u8]],
    ) -> Result<(i64, Value), LineError>
        ensures { GivesWithDraft result (draft_of self.new) (just_index_and_value (draft_of self.old) (map (λ word. word.now) words.now)) }
    {
        match words {
            [index, value] => self.index_and_value_of(alloc, index, value),
            _ => Err(Fault::WordCount.into()),
        }
    }

    #[tactic(auto, unfolding(crate::specs::Arguments::just_other))]
    pub(crate) fn other_in(&self, kind: Kind, words: &[&[u8]]) -> Result<u32, Fault>
        ensures { result ≡ just_other (draft_of self.now) kind (map (λ word. word.now) words.now) }
    {
        match words {
            [name] => self.other_of(kind, name),
            _ => Err(Fault::WordCount),
        }
    }

    #[tactic(auto, unfolding(crate::specs::Arguments::just_made_cursor))]
    pub(crate) fn made_cursor_in(
        &mut self,
        alloc: Global,
        words: &[&[u8]],
    ) -> Result<u32, LineError>
        ensures { GivesWithDraft result (draft_of self.new) (just_made_cursor (draft_of self.old) (map (λ word. word.now) words.now)) }
    {
        match words {
            [name] => self.made_cursor_of(alloc, name),
            _ => Err(Fault::WordCount.into()),
        }
    }

    #[tactic(auto, unfolding(crate::specs::Arguments::just_cursor))]
    pub(crate) fn cursor_in(&self, words: &[&[u8]]) -> Result<u32, Fault>
        ensures { result ≡ just_cursor (draft_of self.now) (map (λ word. word.now) words.now) }
    {
        match words {
            [name] => self.cursor_of(name),
            _ => Err(Fault::WordCount),
        }
    }

    #[tactic(auto, unfolding(crate::specs::Arguments::just_section))]
    pub(crate) fn section_in(&self, words: &[&[u8]]) -> Result<(u32, Option<u32>), Fault>
        ensures { result ≡ just_section (draft_of self.now) (map (λ word. word.now) words.now) }
    {
        match words {
            [name] => Ok((self.container_of(name)?, None)),
            [name, other] => self.two_containers_of(name, other),
            _ => Err(Fault::WordCount),
        }
    }

    #[tactic(auto, unfolding(crate::specs::Arguments::read_two_containers))]
    fn two_containers_of(&self, name: &[u8], other: &[u8]) -> Result<(u32, Option<u32>), Fault>
        ensures { result ≡ read_two_containers (draft_of self.now) name.now other.now }
    {
        let first = self.container_of(name)?;
        let second = self.container_of(other)?;
        Ok((first, Some(second)))
    }
}

#[tactic(auto, unfolding(crate::specs::Arguments::just_nothing))]
pub(crate) fn nothing_in(words: &[&[u8]]) -> Result<(), Fault>
    ensures { result ≡ just_nothing (map (λ word. word.now) words.now) }
{
    match words {
        [] => Ok(()),
        _ => Err(Fault::WordCount),
    }
}

#[tactic(auto, unfolding(crate::specs::Arguments::just_index))]
pub(crate) fn index_in(words: &[&[u8]]) -> Result<i64, Fault>
    ensures { result ≡ just_index (map (λ word. word.now) words.now) }
{
    match words {
        [word] => index_of(word),
        _ => Err(Fault::WordCount),
    }
}

#[tactic(auto, unfolding(crate::specs::Arguments::just_some_index))]
pub(crate) fn some_index_in(words: &[&[u8]]) -> Result<Option<i64>, Fault>
    ensures { result ≡ just_some_index (map (λ word. word.now) words.now) }
{
    match words {
        [] => Ok(None),
        [word] => Ok(Some(index_of(word)?)),
        _ => Err(Fault::WordCount),
    }
}

#[tactic(auto, unfolding(crate::specs::Arguments::just_two_indices))]
pub(crate) fn two_indices_in(words: &[&[u8]]) -> Result<(i64, i64), Fault>
    ensures { result ≡ just_two_indices (map (λ word. word.now) words.now) }
{
    match words {
        [first, second] => two_indices_of(first, second),
        _ => Err(Fault::WordCount),
    }
}

#[tactic(auto, unfolding(crate::specs::Arguments::read_two_indices))]
fn two_indices_of(first: &[u8], second: &[u8]) -> Result<(i64, i64), Fault>
    ensures { result ≡ read_two_indices first.now second.now }
{
    let start = index_of(first)?;
    let end = index_of(second)?;
    Ok((start, end))
}
