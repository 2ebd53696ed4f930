//! What the words of a line say.
ghost use Rattle.ft_model.specs.Names.{is_digit, is_container_byte, is_container_name, is_thread_byte, is_thread_name};
ghost use Rattle.ft_script.specs.LineWords.{integer_of, is_integer, is_positive, is_string, text_of, unescaped};
ghost use Rattle.std.specs.List.{after_first, before_first, list_all};
ghost use Rattle.std.specs.Str.Parse.{digits_value};
ghost use Rattle.std.specs.Prelude.{◌≡◌, ◌==◌, ◌<◌, ◌≤◌, ◌^◌, None, Some, IfOk, IfSome, if◌then◌else◌, length};

use std::alloc::{AllocError, Global};

/// Whether the word may name a container.
pub(crate) fn is_container_name(word: &[u8]) -> bool
    ensures { result ≡ is_container_name word.now }
{
    match word {
        [b'a'..=b'z', rest @ ..] => rest.iter().all(|b| is_container_byte(*b)) && rest.len() <= 31,
        _ => false,
    }
}

/// Whether the byte may stand in a container's name after the first.
fn is_container_byte(byte: u8) -> bool
    ensures { result ≡ is_container_byte byte }
{
    matches!(byte, b'a'..=b'z' | b'0'..=b'9' | b'_')
}

/// Whether the word may name a thread.
pub(crate) fn is_thread_name(word: &[u8]) -> bool
    ensures { result ≡ is_thread_name word.now }
{
    match word {
        [b'A'..=b'Z', rest @ ..] => rest.iter().all(|b| is_thread_byte(*b)) && rest.len() <= 31,
        _ => false,
    }
}

/// Whether the byte may stand in a thread's name after the first.
fn is_thread_byte(byte: u8) -> bool
    ensures { result ≡ is_thread_byte byte }
{
    matches!(byte, b'a'..=b'z' | b'A'..=b'Z' | b'0'..=b'9' | b'_')
}

/// Whether the word is a digit from 1 to 9, and then digits.
pub(crate) fn is_positive(word: &[u8]) -> bool
    ensures { result ≡ is_positive word.now }
{
    match word {
        [b'1'..=b'9', rest @ ..] => rest.iter().all(|b| b.is_ascii_digit()),
        _ => false,
    }
}

/// Whether the word is an integer in decimal, however large, as it would be printed.
fn is_integer(word: &[u8]) -> bool
    ensures { result ≡ is_integer word.now }
{
    match word {
        [b'0'] => true,
        [b'-', magnitude @ ..] => is_positive(magnitude),
        _ => is_positive(word),
    }
}

/// What stands before the first dot, or all, and what stands after it.
pub(crate) fn split_at_dot(token: &[u8]) -> (&[u8], &[u8])
    ensures before { result.0.now ≡ before_first (λ b. b == 46) token.now }
    ensures after { result.1.now ≡ after_first (λ b. b == 46) token.now }
{
    match token.iter().position(|b| *b == b'.') {
        Some(dot) => (&token[..dot], &token[dot + 1..]),
        None => (token, &token[token.len()..]),
    }
}

/// The number that up to 18 digits are; `None` where a byte is no digit.
pub(crate) fn short_value(digits: &[u8]) -> Option<u64>
    requires { length digits.now ≤ 18 }
    ensures value { result ≡ if list_all is_digit digits.now then Some (digits_value 10 digits.now) else None }
    ensures small { IfSome result (λ value. value < 10 ^ 18) }
{
    let mut value: u64 = 0;
    for byte in digits {
        if !byte.is_ascii_digit() {
            return None;
        }
        value = value * 10 + u64::from(*byte - b'0');
    }
    Some(value)
}

/// The integer that the word is, where an `i64` has it.
pub(crate) fn integer_of(word: &[u8]) -> Option<i64>
    ensures { result ≡ integer_of word.now }
{
    match word {
        [b'1'..=b'9', ..] if word.len() <= 18 => Some(short_value(word)? as i64),
        _ => any_integer_of(word),
    }
}

/// The same of a word of any length.
fn any_integer_of(word: &[u8]) -> Option<i64>
    ensures { result ≡ integer_of word.now }
{
    if !is_integer(word) {
        return None;
    }
    str::from_utf8(word).ok()?.parse().ok()
}

/// Whether the word is a string.
pub(crate) fn is_string(word: &[u8]) -> bool
    ensures { result ≡ is_string word.now }
{
    matches!(word, [b'"', ..])
}

/// What a string says: the bytes between its marks, each escape being one byte.
#[tactic(auto, unfolding(crate::specs::LineWords::text_of))]
pub(crate) fn text_of(alloc: Global, word: &[u8]) -> Result<Vec<u8>, AllocError>
    requires { 0 < length word.now }
    ensures { IfOk result (λ text. text.items ≡ text_of word.now) }
{
    let mut text = Vec::new(alloc);
    let mut after = false;
    let letters = &word[1..];
    for byte in letters {
        match (after, *byte) {
            (false, b'\\') => after = true,
            (false, b'"') => return Ok(text),
            (false, byte) => text.push(byte)?,
            (true, byte) => {
                text.push(unescaped(byte))?;
                after = false;
            }
        }
    }
    Ok(text)
}

/// The byte that stands after a backslash as this one.
fn unescaped(byte: u8) -> u8
    ensures { result ≡ unescaped byte }
{
    match byte {
        b'n' => b'\n',
        b't' => b'\t',
        _ => byte,
    }
}
