//! The words that replies begin with.
ghost use Rattle.ft_script.specs.Internal.Candidates.{read_reply_word, reply_word_text};
ghost use Rattle.std.specs.Prelude.{◌≡◌};

/// The first token of a reply that isn't a value or a pair.
#[derive(Clone, Copy)]
pub(crate) enum ReplyWord {
    Done,
    True,
    False,
    Stop,
    Entered,
    Kept,
    Suspended,
    KeyError,
    IndexError,
    ValueError,
    RuntimeError,
    MemoryError,
    /// An empty set.
    NoElements,
    /// What a dict's pairs or a set's elements stand after.
    Brace,
    /// What a list's items stand after.
    Bracket,
}

const REPLY_WORDS: [ReplyWord; 15] = [
    ReplyWord::Done,
    ReplyWord::True,
    ReplyWord::False,
    ReplyWord::Stop,
    ReplyWord::Entered,
    ReplyWord::Kept,
    ReplyWord::Suspended,
    ReplyWord::KeyError,
    ReplyWord::IndexError,
    ReplyWord::ValueError,
    ReplyWord::RuntimeError,
    ReplyWord::MemoryError,
    ReplyWord::NoElements,
    ReplyWord::Brace,
    ReplyWord::Bracket,
];

/// The word of a reply that a token is.
pub(crate) fn reply_word_of(token: &[u8]) -> Option<ReplyWord>
    ensures { result ≡ read_reply_word token.now }
{
    REPLY_WORDS
        .iter()
        .copied()
        .find(|word| word.text() == token)
}

impl ReplyWord {
    fn text(self) -> &'static [u8]
        ensures { result.now ≡ reply_word_text self }
    {
        match self {
            ReplyWord::Done => b"ok",
            ReplyWord::True => b"True",
            ReplyWord::False => b"False",
            ReplyWord::Stop => b"StopIteration",
            ReplyWord::Entered => b"entered",
            ReplyWord::Kept => b"kept",
            ReplyWord::Suspended => b"suspended",
            ReplyWord::KeyError => b"KeyError",
            ReplyWord::IndexError => b"IndexError",
            ReplyWord::ValueError => b"ValueError",
            ReplyWord::RuntimeError => b"RuntimeError",
            ReplyWord::MemoryError => b"MemoryError",
            ReplyWord::NoElements => b"set()",
            ReplyWord::Brace => b"{",
            ReplyWord::Bracket => b"[",
        }
    }
}
