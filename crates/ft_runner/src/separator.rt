//! The line that parts a script from a transcript.
ghost use Rattle.std.specs.Prelude.{◌≡◌, ◌+◌, ◌<◌, drop, length, MatchBool};
ghost use Rattle.ft_runner.specs.Checking.{begins_line, is_separator, is_separator_at, IsSeparatorOf, IsScriptPart};
ghost use Rattle.ft_runner.specs.Internal.Filling.{is_begun, is_open_at, HasOpenLine, HasNoOpenLine};
ghost use Rattle.ft_runner.specs.Transfers.{script_limit};

use crate::limits::SCRIPT_LIMIT;

/// Where the first line that is `---` begins.
pub(crate) fn separator_of(bytes: &[u8]) -> Option<usize>
    ensures { IsSeparatorOf bytes.now result }
{
    for place in 0..bytes.len() {
        if is_separator_at(bytes, place) {
            return Some(place);
        }
    }
    None
}

/// Whether a line that is `---` begins at a place.
fn is_separator_at(bytes: &[u8], place: usize) -> bool
    requires { place < length bytes.now }
    ensures { result ≡ is_separator_at bytes.now place }
{
    let rest = &bytes[place..];
    begins_line(bytes, place) && is_separator(&rest[..rest.len().min(4)])
}

/// Whether a line begins at a place.
fn begins_line(bytes: &[u8], place: usize) -> bool
    requires { place < length bytes.now }
    ensures { result ≡ begins_line bytes.now place }
{
    place == 0 || bytes[place - 1] == b'\n'
}

/// Whether bytes are `---` to the letter, with a line feed or without one.
fn is_separator(line: &[u8]) -> bool
    ensures { result ≡ is_separator line.now }
{
    line == b"---\n".as_slice() || line == b"---".as_slice()
}

/// Whether a line that has begun within a script's limit, and hasn't ended, can become `---`.
pub(crate) fn is_open(bytes: &[u8]) -> bool
    requires { script_limit < length bytes.now }
    ensures { MatchBool result (HasOpenLine bytes.now) (HasNoOpenLine bytes.now) }
{
    for place in bytes.len() - 3..SCRIPT_LIMIT + 1 {
        if is_open_at(bytes, place) {
            return true;
        }
    }
    false
}

/// Whether a line that has begun there, and hasn't ended, can become `---`.
fn is_open_at(bytes: &[u8], place: usize) -> bool
    requires { place < length bytes.now }
    ensures { result ≡ is_open_at bytes.now place }
{
    begins_line(bytes, place) && is_begun(&bytes[place..])
}

/// Whether bytes are those of `---` that have come, one at least.
fn is_begun(rest: &[u8]) -> bool
    ensures { result ≡ is_begun rest.now }
{
    rest == b"-".as_slice() || rest == b"--".as_slice() || rest == b"---".as_slice()
}

/// What stands before the line, or all where there is none.
pub(crate) fn before_separator(bytes: &[u8], separator: Option<usize>) -> &[u8]
    requires { IsSeparatorOf bytes.now separator }
    ensures { IsScriptPart bytes.now result.now }
{
    match separator {
        Some(place) => &bytes[..place],
        None => bytes,
    }
}

/// What stands after the line that begins at a place.
pub(crate) fn after_separator(bytes: &[u8], place: usize) -> &[u8]
    requires { place < length bytes.now }
    ensures { result.now ≡ drop (place + 4) bytes.now }
{
    &bytes[bytes.len().min(place + 4)..]
}
