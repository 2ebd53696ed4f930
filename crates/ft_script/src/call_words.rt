//! The words that calls begin with.
ghost use Rattle.ft_script.specs.CallWords.{call_word_of, call_word_text, operation_text};
ghost use Rattle.ft_script.specs.Internal.LikelyWords.{likely_word, word_of_length, word_of_2, word_of_3, word_of_4, word_of_5, word_of_6, word_of_7};
ghost use Rattle.std.specs.Prelude.{◌≡◌};

/// A call of a container.
#[derive(Clone, Copy)]
pub(crate) enum Operation {
    Get,
    GetOr,
    Set,
    Del,
    Pop,
    PopOr,
    PopItem,
    SetDefault,
    Has,
    Len,
    Items,
    Update,
    Clear,
    CopyTo,
    Eq,
    Iter,
    Append,
    Insert,
    Remove,
    Index,
    Count,
    Reverse,
    Extend,
    Slice,
    Add,
    Discard,
    Or,
    And,
    Sub,
    Xor,
    Subset,
    Disjoint,
}

/// The word that a call begins with.
#[derive(Clone, Copy)]
pub(crate) enum CallWord {
    Next,
    Begin,
    End,
    Quiesce,
    Await,
    /// A call whose next word names a container.
    On(Operation),
}

/// The word of a call that the bytes are.
pub(crate) fn call_word_of(bytes: &[u8]) -> Option<CallWord>
    ensures { result ≡ call_word_of bytes.now }
{
    let word = likely_word(bytes)?;
    if word.text() == bytes {
        Some(word)
    } else {
        None
    }
}

/// The one word of a call that has as many bytes and begins with the same ones, if there is one.
#[tactic(auto, unfolding(crate::specs::Internal::LikelyWords::likely_word))]
fn likely_word(bytes: &[u8]) -> Option<CallWord>
    ensures { result ≡ likely_word bytes.now }
{
    match bytes {
        [first, second, ..] => word_of_length(bytes.len(), *first, *second),
        _ => None,
    }
}

#[tactic(auto, unfolding(crate::specs::Internal::LikelyWords::word_of_length))]
fn word_of_length(count: usize, first: u8, second: u8) -> Option<CallWord>
    ensures { result ≡ word_of_length count first second }
{
    match count {
        2 => word_of_2(first),
        3 => word_of_3(first, second),
        4 => word_of_4(first),
        5 => word_of_5(first, second),
        6 => word_of_6(first),
        7 => word_of_7(first),
        8 => Some(CallWord::On(Operation::Disjoint)),
        10 => Some(CallWord::On(Operation::SetDefault)),
        _ => None,
    }
}

#[tactic(auto, unfolding(crate::specs::Internal::LikelyWords::word_of_2))]
fn word_of_2(first: u8) -> Option<CallWord>
    ensures { result ≡ word_of_2 first }
{
    match first {
        b'e' => Some(CallWord::On(Operation::Eq)),
        b'o' => Some(CallWord::On(Operation::Or)),
        _ => None,
    }
}

#[tactic(auto, unfolding(crate::specs::Internal::LikelyWords::word_of_3))]
fn word_of_3(first: u8, second: u8) -> Option<CallWord>
    ensures { result ≡ word_of_3 first second }
{
    match (first, second) {
        (b'e', _) => Some(CallWord::End),
        (b'g', _) => Some(CallWord::On(Operation::Get)),
        (b's', b'e') => Some(CallWord::On(Operation::Set)),
        (b's', _) => Some(CallWord::On(Operation::Sub)),
        (b'd', _) => Some(CallWord::On(Operation::Del)),
        (b'p', _) => Some(CallWord::On(Operation::Pop)),
        (b'h', _) => Some(CallWord::On(Operation::Has)),
        (b'l', _) => Some(CallWord::On(Operation::Len)),
        (b'a', b'd') => Some(CallWord::On(Operation::Add)),
        (b'a', _) => Some(CallWord::On(Operation::And)),
        (b'x', _) => Some(CallWord::On(Operation::Xor)),
        (_, _) => None,
    }
}

#[tactic(auto, unfolding(crate::specs::Internal::LikelyWords::word_of_4))]
fn word_of_4(first: u8) -> Option<CallWord>
    ensures { result ≡ word_of_4 first }
{
    match first {
        b'n' => Some(CallWord::Next),
        b'g' => Some(CallWord::On(Operation::GetOr)),
        b'p' => Some(CallWord::On(Operation::PopOr)),
        b'i' => Some(CallWord::On(Operation::Iter)),
        _ => None,
    }
}

#[tactic(auto, unfolding(crate::specs::Internal::LikelyWords::word_of_5))]
fn word_of_5(first: u8, second: u8) -> Option<CallWord>
    ensures { result ≡ word_of_5 first second }
{
    match (first, second) {
        (b'b', _) => Some(CallWord::Begin),
        (b'i', b't') => Some(CallWord::On(Operation::Items)),
        (b'i', _) => Some(CallWord::On(Operation::Index)),
        (b'c', b'l') => Some(CallWord::On(Operation::Clear)),
        (b'c', _) => Some(CallWord::On(Operation::Count)),
        (b's', _) => Some(CallWord::On(Operation::Slice)),
        (b'a', _) => Some(CallWord::Await),
        (_, _) => None,
    }
}

#[tactic(auto, unfolding(crate::specs::Internal::LikelyWords::word_of_6))]
fn word_of_6(first: u8) -> Option<CallWord>
    ensures { result ≡ word_of_6 first }
{
    match first {
        b'u' => Some(CallWord::On(Operation::Update)),
        b'c' => Some(CallWord::On(Operation::CopyTo)),
        b'a' => Some(CallWord::On(Operation::Append)),
        b'i' => Some(CallWord::On(Operation::Insert)),
        b'r' => Some(CallWord::On(Operation::Remove)),
        b'e' => Some(CallWord::On(Operation::Extend)),
        b's' => Some(CallWord::On(Operation::Subset)),
        _ => None,
    }
}

#[tactic(auto, unfolding(crate::specs::Internal::LikelyWords::word_of_7))]
fn word_of_7(first: u8) -> Option<CallWord>
    ensures { result ≡ word_of_7 first }
{
    match first {
        b'q' => Some(CallWord::Quiesce),
        b'p' => Some(CallWord::On(Operation::PopItem)),
        b'r' => Some(CallWord::On(Operation::Reverse)),
        b'd' => Some(CallWord::On(Operation::Discard)),
        _ => None,
    }
}

impl CallWord {
    fn text(self) -> &'static [u8]
        ensures { result.now ≡ call_word_text self }
    {
        match self {
            CallWord::Next => b"next",
            CallWord::Begin => b"begin",
            CallWord::End => b"end",
            CallWord::Quiesce => b"quiesce",
            CallWord::Await => b"await",
            CallWord::On(operation) => operation.text(),
        }
    }
}

impl Operation {
    fn text(self) -> &'static [u8]
        ensures { result.now ≡ operation_text self }
    {
        match self {
            Operation::Get => b"get",
            Operation::GetOr => b"getd",
            Operation::Set => b"set",
            Operation::Del => b"del",
            Operation::Pop => b"pop",
            Operation::PopOr => b"popd",
            Operation::PopItem => b"popitem",
            Operation::SetDefault => b"setdefault",
            Operation::Has => b"has",
            Operation::Len => b"len",
            Operation::Items => b"items",
            Operation::Update => b"update",
            Operation::Clear => b"clear",
            Operation::CopyTo => b"copyto",
            Operation::Eq => b"eq",
            Operation::Iter => b"iter",
            Operation::Append => b"append",
            Operation::Insert => b"insert",
            Operation::Remove => b"remove",
            Operation::Index => b"index",
            Operation::Count => b"count",
            Operation::Reverse => b"reverse",
            Operation::Extend => b"extend",
            Operation::Slice => b"slice",
            Operation::Add => b"add",
            Operation::Discard => b"discard",
            Operation::Or => b"or",
            Operation::And => b"and",
            Operation::Sub => b"sub",
            Operation::Xor => b"xor",
            Operation::Subset => b"subset",
            Operation::Disjoint => b"disjoint",
        }
    }
}
