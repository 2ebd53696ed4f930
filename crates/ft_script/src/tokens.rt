//! The tokens of the lines of transcripts.
ghost use Rattle.ft_script.specs.Internal.Tokens.{before_word, after_word, is_gap, is_mark, place_at, token_place_after, token_ends, token_start, tokens_of};
ghost use Rattle.ft_script.specs.declared.lines.Place.TheVariants as at;
ghost use Rattle.std.specs.Prelude.{◌≡◌, ◌↔◌, false, IfOk, IsTrue, map};

use crate::lines::{Place, add_word};
use std::alloc::{AllocError, Global};

/// Whether the byte stands between tokens.
fn is_gap(byte: u8) -> bool
    ensures { result ≡ is_gap byte }
{
    matches!(byte, b' ' | b',' | b'\n')
}

/// Whether the byte is a token by itself.
fn is_mark(byte: u8) -> bool
    ensures { result ≡ is_mark byte }
{
    matches!(byte, b':' | b'[' | b']' | b'{' | b'}')
}

/// Where a byte leads that goes on with no token.
fn place_at(byte: u8) -> Place
    ensures { result ≡ place_at byte }
{
    if is_gap(byte) {
        Place::Between
    } else if is_mark(byte) {
        Place::Ended
    } else if byte == b'"' {
        Place::String
    } else {
        Place::Plain
    }
}

/// Where a byte leads.
fn place_after(place: Place, byte: u8) -> Place
    ensures { result ≡ token_place_after place byte }
{
    match place {
        Place::Between | Place::Ended => place_at(byte),
        Place::Plain if is_gap(byte) => Place::Between,
        Place::Plain if is_mark(byte) => Place::Ended,
        Place::Plain => Place::Plain,
        Place::String if byte == b'"' => Place::Ended,
        Place::String if byte == b'\\' => Place::Escape,
        Place::String | Place::Escape => Place::String,
    }
}

/// Whether a token ends between two places.
fn token_ends(place: Place, next: Place) -> bool
    ensures { result ≡ token_ends place next }
{
    match (place, next) {
        (Place::Between, _) => false,
        (Place::Ended, _) | (Place::Plain, Place::Ended) | (_, Place::Between) => true,
        (_, _) => false,
    }
}

/// Where the token of a place begins, where one that begins at this byte begins here.
fn token_start(place: Place, ends: bool, start: usize, here: usize) -> usize
    ensures { result ≡ token_start place ends start here }
{
    match place {
        Place::Between => here,
        Place::Plain | Place::String | Place::Escape | Place::Ended => {
            if ends { here } else { start }
        }
    }
}

/// Whether the byte goes on with the plain token that it stands in.
fn goes_on(place: Place, byte: u8) -> bool
    ensures { IsTrue result ↔ ((place ≡ at.Plain) × (is_gap byte ≡ false) × (is_mark byte ≡ false)) }
{
    matches!(place, Place::Plain) && !is_gap(byte) && !is_mark(byte)
}

/// Room for the tokens of most lines, which is taken at once.
const USUAL_TOKENS: usize = 16;

/// The tokens of a line, which may have its line feed. A string that isn't closed is a token, too.
pub(crate) fn tokens_of(alloc: Global, line: &[u8]) -> Result<Vec<&[u8]>, AllocError>
    ensures { IfOk result (λ tokens. map (λ token. token.now) tokens.items ≡ tokens_of line.now) }
{
    let mut tokens = Vec::with_capacity(alloc, USUAL_TOKENS)?;
    let mut place = Place::Between;
    let mut start = 0;
    for (i, byte) in line.iter().enumerate() {
        if goes_on(place, *byte) {
            continue;
        }
        let next = place_after(place, *byte);
        let ends = token_ends(place, next);
        add_word(&mut tokens, &line[start..i], ends)?;
        start = token_start(place, ends, start, i);
        place = next;
    }
    add_word(&mut tokens, &line[start..], is_open(place))?;
    Ok(tokens)
}

/// Whether a token stands open at the end of a line.
fn is_open(place: Place) -> bool
    ensures { result ≡ token_ends place at.Between }
{
    !matches!(place, Place::Between)
}

/// The tokens before the first that is this word, or all, and those after it.
pub(crate) fn split_at_word<'a, 'b>(
    tokens: &'a [&'b [u8]],
    word: &[u8],
) -> (&'a [&'b [u8]], &'a [&'b [u8]])
    ensures before { map (λ token. token.now) result.0.now ≡ before_word word.now (map (λ token. token.now) tokens.now) }
    ensures after { map (λ token. token.now) result.1.now ≡ after_word word.now (map (λ token. token.now) tokens.now) }
{
    match tokens.iter().position(|token| *token == word) {
        Some(place) => (&tokens[..place], &tokens[place + 1..]),
        None => (tokens, &tokens[tokens.len()..]),
    }
}
