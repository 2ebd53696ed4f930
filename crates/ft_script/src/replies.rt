//! Reads the reply that some tokens may be.
ghost use Rattle.ft_script.specs.Internal.Candidates.{read_braced, but_last, read_class_error, counted_reply, read_each, first_reply, has_pairs, is_decimal, known_key, known_pair, known_value, read_memory_error, natural_in, read_pairs, read_reply, read_runtime_error, shown_reply, read_suspended, read_u32, read_u64, worded_reply};
ghost use Rattle.ft_script.specs.Internal.Outcomes.{Gives};
ghost use Rattle.std.specs.Prelude.{◌≡◌, map};

use crate::arguments::index_of;
use crate::fault::{Fault, LineError};
use crate::reply_words::{ReplyWord, reply_word_of};
use crate::strings::Strings;
use crate::words::{is_string, short_value, text_of};
use ft_model::{GREATEST_CLASS, Key, LEAST_CLASS, Raise, Reply, Sequence, Sym, Value};
use std::alloc::Global;

/// Whether the token is one or more digits.
fn is_decimal(token: &[u8]) -> bool
    ensures { result ≡ is_decimal token.now }
{
    match token {
        [] => false,
        [_, ..] => token.iter().all(|b| b.is_ascii_digit()),
    }
}

/// The number that digits are, where a `u64` has it.
fn natural_in(token: &[u8]) -> Option<u64>
    ensures { result ≡ natural_in token.now }
{
    match token {
        [_, ..] if token.len() <= 18 => short_value(token),
        _ => any_natural_in(token),
    }
}

/// The same of a token of any length.
fn any_natural_in(token: &[u8]) -> Option<u64>
    ensures { result ≡ natural_in token.now }
{
    if !is_decimal(token) {
        return None;
    }
    str::from_utf8(token).ok()?.parse().ok()
}

/// The number below 2^64 that digits are.
#[tactic(auto, unfolding(crate::specs::Internal::Candidates::read_u64))]
pub(crate) fn u64_of(token: &[u8]) -> Result<u64, Fault>
    ensures { result ≡ read_u64 token.now }
{
    natural_in(token).ok_or(Fault::Number)
}

/// The number below 2^32 that digits are.
#[tactic(auto, unfolding(crate::specs::Internal::Candidates::read_u32))]
pub(crate) fn u32_of(token: &[u8]) -> Result<u32, Fault>
    ensures { result ≡ read_u32 token.now }
{
    let number = u64_of(token)?;
    u32::try_from(number).map_err(|_| Fault::Number)
}

/// The key that a token is, of a string that has a number.
#[tactic(auto, unfolding(crate::specs::Internal::Candidates::known_key))]
fn known_key(alloc: Global, strings: &Strings, token: &[u8]) -> Result<Key, LineError>
    ensures { Gives (λ key. key) result (known_key strings.now token.now) }
{
    if is_string(token) {
        let text = text_of(alloc, token)?;
        let place = strings.place_of(&text).ok_or(Fault::String)?;
        Ok(Key::Text(Sym(place)))
    } else {
        Ok(Key::Int(index_of(token)?))
    }
}

/// The value that a token is.
#[tactic(auto, unfolding(crate::specs::Internal::Candidates::known_value))]
fn known_value(alloc: Global, strings: &Strings, token: &[u8]) -> Result<Value, LineError>
    ensures { Gives (λ value. value) result (known_value strings.now token.now) }
{
    if token == b"None".as_slice() {
        return Ok(Value::Nothing);
    }
    Ok(known_key(alloc, strings, token)?.into_value())
}

/// The pair that two tokens are.
#[tactic(auto, unfolding(crate::specs::Internal::Candidates::known_pair))]
fn known_pair(
    alloc: Global,
    strings: &Strings,
    first: &[u8],
    second: &[u8],
) -> Result<(Key, Value), LineError>
    ensures { Gives (λ pair. pair) result (known_pair strings.now first.now second.now) }
{
    let key = known_key(alloc, strings, first)?;
    let value = known_value(alloc, strings, second)?;
    Ok((key, value))
}

/// The keys that the tokens are.
fn keys_of(alloc: Global, strings: &Strings, tokens: &[&[u8]]) -> Result<Sequence<Key>, LineError>
    ensures { Gives (λ keys. keys) result (read_each (known_key strings.now) (map (λ token. token.now) tokens.now)) }
{
    let mut keys = Vec::new(alloc);
    for token in tokens {
        keys.push(known_key(alloc, strings, token)?)?;
    }
    Ok(Sequence::from_vec(keys))
}

/// The values that the tokens are.
fn values_of(
    alloc: Global,
    strings: &Strings,
    tokens: &[&[u8]],
) -> Result<Sequence<Value>, LineError>
    ensures { Gives (λ values. values) result (read_each (known_value strings.now) (map (λ token. token.now) tokens.now)) }
{
    let mut values = Vec::new(alloc);
    for token in tokens {
        values.push(known_value(alloc, strings, token)?)?;
    }
    Ok(Sequence::from_vec(values))
}

/// The pairs that the tokens are, each of three, whose second is a `:`.
fn pairs_of(
    alloc: Global,
    strings: &Strings,
    tokens: &[&[u8]],
) -> Result<Sequence<(Key, Value)>, LineError>
    ensures { Gives (λ pairs. pairs) result (read_pairs strings.now (map (λ token. token.now) tokens.now)) }
{
    let mut pairs = Vec::new(alloc);
    let mut rest = tokens;
    while let [first, _, second, after @ ..] = rest {
        pairs.push(known_pair(alloc, strings, first, second)?)?;
        rest = after;
    }
    if !rest.is_empty() {
        return Err(Fault::WordCount.into());
    }
    Ok(Sequence::from_vec(pairs))
}

#[tactic(auto, unfolding(crate::specs::Internal::Candidates::read_suspended))]
fn suspended_of(tokens: &[&[u8]]) -> Result<Reply, Fault>
    ensures { result ≡ read_suspended (map (λ token. token.now) tokens.now) }
{
    match tokens {
        [count, ..] => Ok(Reply::Suspended(u32_of(count)?)),
        [] => Err(Fault::WordCount),
    }
}

#[tactic(auto, unfolding(crate::specs::Internal::Candidates::read_runtime_error))]
fn runtime_error_of(tokens: &[&[u8]]) -> Result<Raise, Fault>
    ensures { result ≡ read_runtime_error (map (λ token. token.now) tokens.now) }
{
    match tokens {
        [cause, ..] if *cause == b"size".as_slice() => Ok(Raise::Size),
        [cause, ..] if *cause == b"keys".as_slice() => Ok(Raise::Keys),
        [_, ..] => Err(Fault::UnknownWord),
        [] => Err(Fault::WordCount),
    }
}

#[tactic(auto, unfolding(crate::specs::Internal::Candidates::read_memory_error))]
fn memory_error_of(tokens: &[&[u8]]) -> Result<Raise, Fault>
    ensures { result ≡ read_memory_error (map (λ token. token.now) tokens.now) }
{
    match tokens {
        [cause, ..] if *cause == b"over".as_slice() => Ok(Raise::Over),
        [cause, ..] if *cause == b"heap".as_slice() => Ok(Raise::Heap),
        [cause, ..] => class_error_of(cause),
        [] => Err(Fault::WordCount),
    }
}

#[tactic(auto, unfolding(crate::specs::Internal::Candidates::read_class_error))]
fn class_error_of(token: &[u8]) -> Result<Raise, Fault>
    ensures { result ≡ read_class_error token.now }
{
    match u32_of(token)? {
        class @ LEAST_CLASS..=GREATEST_CLASS => Ok(Raise::Memory(class)),
        _ => Err(Fault::Number),
    }
}

/// Whether the second token is a `:`, or there is none.
fn has_pairs(tokens: &[&[u8]]) -> bool
    ensures { result ≡ has_pairs (map (λ token. token.now) tokens.now) }
{
    match tokens {
        [] => true,
        [_, colon, ..] => *colon == b":".as_slice(),
        [_] => false,
    }
}

/// What stands between the braces of a dict or a set.
#[tactic(auto, unfolding(crate::specs::Internal::Candidates::read_braced))]
fn braced_of(alloc: Global, strings: &Strings, tokens: &[&[u8]]) -> Result<Reply, LineError>
    ensures { Gives (λ reply. reply) result (read_braced strings.now (map (λ token. token.now) tokens.now)) }
{
    if has_pairs(tokens) {
        Ok(Reply::Dict(pairs_of(alloc, strings, tokens)?))
    } else {
        Ok(Reply::Set(keys_of(alloc, strings, tokens)?))
    }
}

/// All but the last token.
fn but_last<'a, 'b>(tokens: &'a [&'b [u8]]) -> &'a [&'b [u8]]
    ensures { map (λ token. token.now) result.now ≡ but_last (map (λ token. token.now) tokens.now) }
{
    &tokens[..tokens.len().saturating_sub(1)]
}

/// The reply whose first token is this word.
#[tactic(auto, unfolding(crate::specs::Internal::Candidates::worded_reply))]
fn worded_reply(
    alloc: Global,
    strings: &Strings,
    word: ReplyWord,
    tokens: &[&[u8]],
) -> Result<Reply, LineError>
    ensures { Gives (λ reply. reply) result (worded_reply strings.now word (map (λ token. token.now) tokens.now)) }
{
    match word {
        ReplyWord::Done => Ok(Reply::Done),
        ReplyWord::True => Ok(Reply::Truth(true)),
        ReplyWord::False => Ok(Reply::Truth(false)),
        ReplyWord::Stop => Ok(Reply::Stop),
        ReplyWord::Entered => Ok(Reply::Entered),
        ReplyWord::Kept => Ok(Reply::Kept),
        ReplyWord::Suspended => Ok(suspended_of(tokens)?),
        ReplyWord::KeyError => Ok(Reply::Raised(Raise::NoKey)),
        ReplyWord::IndexError => Ok(Reply::Raised(Raise::NoIndex)),
        ReplyWord::ValueError => Ok(Reply::Raised(Raise::NoValue)),
        ReplyWord::RuntimeError => Ok(Reply::Raised(runtime_error_of(tokens)?)),
        ReplyWord::MemoryError => Ok(Reply::Raised(memory_error_of(tokens)?)),
        ReplyWord::NoElements => Ok(Reply::Set(Sequence::new(alloc))),
        ReplyWord::Brace => braced_of(alloc, strings, but_last(tokens)),
        ReplyWord::Bracket => Ok(Reply::List(values_of(alloc, strings, but_last(tokens))?)),
    }
}

/// An integer that isn't negative is a count where the call counts.
fn counted_reply(counted: bool, value: Value) -> Reply
    ensures { result ≡ counted_reply counted value }
{
    match value {
        Value::Int(number) if counted && number >= 0 => Reply::Count(number as u64),
        _ => Reply::Value(value),
    }
}

/// A value or a pair.
#[tactic(auto, unfolding(crate::specs::Internal::Candidates::shown_reply))]
fn shown_reply(
    alloc: Global,
    strings: &Strings,
    counted: bool,
    first: &[u8],
    tokens: &[&[u8]],
) -> Result<Reply, LineError>
    ensures { Gives (λ reply. reply) result (shown_reply strings.now counted first.now (map (λ token. token.now) tokens.now)) }
{
    match tokens {
        [_, second, ..] => {
            let (key, value) = known_pair(alloc, strings, first, second)?;
            Ok(Reply::Pair(key, value))
        }
        _ => Ok(counted_reply(counted, known_value(alloc, strings, first)?)),
    }
}

/// The reply that some tokens may be, to a call that counts or doesn't.
#[tactic(auto, unfolding(crate::specs::Internal::Candidates::read_reply, crate::specs::Internal::Candidates::first_reply))]
pub(crate) fn reply_of(
    alloc: Global,
    strings: &Strings,
    counted: bool,
    tokens: &[&[u8]],
) -> Result<Reply, LineError>
    ensures { Gives (λ reply. reply) result (read_reply strings.now counted (map (λ token. token.now) tokens.now)) }
{
    let [first, tokens @ ..] = tokens else {
        return Err(Fault::WordCount.into());
    };
    match reply_word_of(first) {
        None => shown_reply(alloc, strings, counted, first, tokens),
        Some(word) => worded_reply(alloc, strings, word, tokens),
    }
}
