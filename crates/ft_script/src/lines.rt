//! The lines of a text, and the words of a line.
ghost use Rattle.ft_script.specs.Drafts.{or_fault};
ghost use Rattle.ft_script.specs.Internal.Outcomes.{Gives};
ghost use Rattle.ft_script.specs.declared.fault.Fault.TheVariants as fault;
ghost use Rattle.ft_script.specs.declared.lines.Place.TheVariants as at;
ghost use Rattle.ft_script.specs.Lines.{lines_of, words_of, first_word, ends_thread, is_comment, is_word, place_after, word_ends, word_start};
ghost use Rattle.std.specs.Prelude.{◌≡◌, ◌≢◌, ◌↔◌, ◌<◌, [], ◌∷◌, ◌++◌, length, map, option_copied, IsTrue, OnOk, if◌then◌else◌};

use crate::fault::{Fault, LineError};
use std::alloc::{AllocError, Global};

/// Where a byte of a line stands.
#[derive(Clone, Copy)]
pub(crate) enum Place {
    /// Between two words.
    Between,
    /// In a word that is no string.
    Plain,
    /// In a string.
    String,
    /// In a string, after a backslash.
    Escape,
    /// After a string's end.
    Ended,
}

/// The first line of a text that isn't empty, and what stands below it.
pub(crate) fn next_line(text: &[u8]) -> (&[u8], &[u8])
    requires { 0 < length text.now }
    ensures line { lines_of text.now ≡ result.0.now ∷ lines_of result.1.now }
    ensures shorter { length result.1.now < length text.now }
{
    match text.iter().position(|b| *b == b'\n') {
        Some(end) => (&text[..end], &text[end + 1..]),
        None => (text, &text[text.len()..]),
    }
}

/// Whether the line is passed over.
pub(crate) fn is_comment(line: &[u8]) -> bool
    ensures { result ≡ is_comment line.now }
{
    matches!(line, [b'#', ..])
}

/// Whether the line ends the calls of the thread above it.
pub(crate) fn ends_thread(line: &[u8]) -> bool
    ensures { result ≡ ends_thread line.now }
{
    match first_word(line) {
        Some(word) => word == b"thread".as_slice() || word == b"order".as_slice(),
        None => false,
    }
}

fn first_word(line: &[u8]) -> Option<&[u8]>
    ensures { option_copied result ≡ first_word line.now }
{
    line.split(|b| *b == b' ').find(|word| !word.is_empty())
}

/// The place after a byte, where no string is broken.
fn place_after(place: Place, byte: u8) -> Option<Place>
    ensures { result ≡ place_after place byte }
{
    match (place, byte) {
        (Place::Between | Place::Plain | Place::Ended, b' ') => Some(Place::Between),
        (Place::Between, b'"') => Some(Place::String),
        (Place::Between | Place::Plain, _) => Some(Place::Plain),
        (Place::String, b'"') => Some(Place::Ended),
        (Place::String, b'\\') => Some(Place::Escape),
        (Place::String, 32..=126 | 128..=255) => Some(Place::String),
        (Place::Escape, b'"' | b'\\' | b'n' | b't') => Some(Place::String),
        (Place::String | Place::Escape | Place::Ended, _) => None,
    }
}

/// Whether a word ends between two places.
fn word_ends(place: Place, next: Place) -> bool
    ensures { result ≡ word_ends place next }
{
    match (place, next) {
        (Place::Between, _) => false,
        (_, Place::Between) => true,
        (_, _) => false,
    }
}

/// Whether the byte goes on with the plain word that it stands in.
fn goes_on(place: Place, byte: u8) -> bool
    ensures { IsTrue result ↔ ((place ≡ at.Plain) × (byte ≢ 32)) }
{
    matches!(place, Place::Plain) && byte != b' '
}

/// Room for the words of most lines, which is taken at once.
const USUAL_WORDS: usize = 4;

/// The words of a line.
pub(crate) fn words_of(alloc: Global, line: &[u8]) -> Result<Vec<&[u8]>, LineError>
    ensures { Gives (λ words. map (λ word. word.now) words.items) result (or_fault fault.String (words_of line.now)) }
{
    let mut words = Vec::with_capacity(alloc, USUAL_WORDS)?;
    let mut place = Place::Between;
    let mut start = 0;
    for (i, byte) in line.iter().enumerate() {
        if goes_on(place, *byte) {
            continue;
        }
        let Some(next) = place_after(place, *byte) else {
            return Err(Fault::String.into());
        };
        start = word_start(place, start, i);
        add_word(&mut words, &line[start..i], word_ends(place, next))?;
        place = next;
    }
    match place {
        Place::Between => Ok(words),
        Place::Plain | Place::Ended => {
            add_word(&mut words, &line[start..], true)?;
            Ok(words)
        }
        Place::String | Place::Escape => Err(Fault::String.into()),
    }
}

/// Where the word of a place begins, where one that begins at this byte begins here.
fn word_start(place: Place, start: usize, here: usize) -> usize
    ensures { result ≡ word_start place start here }
{
    match place {
        Place::Between => here,
        Place::Plain | Place::String | Place::Escape | Place::Ended => start,
    }
}

/// Adds a word, where it ends.
pub(crate) fn add_word<'a>(
    words: &mut Vec<&'a [u8]>,
    word: &'a [u8],
    ends: bool,
) -> Result<(), AllocError>
    ensures { OnOk result (map (λ word. word.now) words.new.items ≡ (if ends then map (λ word. word.now) words.old.items ++ word.now ∷ [] else map (λ word. word.now) words.old.items)) }
{
    if ends {
        words.push(word)?;
    }
    Ok(())
}
