//! Reading all of the input, and no more once it is too long.
ghost use Rattle.std.specs.Prelude.{◌≡◌, ◌≤◌, ◌+◌, [], length, IfOk, MatchBool};
ghost use Rattle.ft_runner.specs.Checking.{IsSeparatorOf, IsScriptFew, IsScriptLong, ReadsInput};
ghost use Rattle.ft_runner.specs.Internal.Filling.{Fills, ReadsScript, TakesPiece};
ghost use Rattle.ft_runner.specs.Transfers.{input_limit, piece_limit, ReadsAll};

use crate::limits::{INPUT_LIMIT, PIECE, SCRIPT_LIMIT};
use crate::separator::{is_open, separator_of};
use ft_io::{Failed, Source};
use std::alloc::{AllocError, Global};

/// Why reading stopped before the end.
#[derive(Clone, Copy)]
pub(crate) enum ReadFault {
    /// The source failed.
    Failed,
    /// Memory ran out.
    Memory,
    /// More came than is taken.
    TooLong,
}

/// What `check` reads, and where the first line of it that is `---` begins.
#[derive(Drop)]
pub(crate) struct Input {
    pub(crate) bytes: Vec<u8>,
    pub(crate) separator: Option<usize>,
}

/// Reads all there is. It stops as soon as more came than a script may have.
pub(crate) fn read_all<S: Source>(alloc: Global, source: &mut S) -> Result<Vec<u8>, ReadFault>
    ensures { ReadsAll (S.stream source.old) result (S.stream source.new) }
{
    let Ok(mut buffer) = zeros(alloc, PIECE) else {
        return Err(ReadFault::Memory);
    };
    let mut bytes = Vec::new(alloc);
    for _ in 0..=SCRIPT_LIMIT {
        let count = match source.take(&mut buffer) {
            Ok(count) => count,
            Err(Failed) => return Err(ReadFault::Failed),
        };
        if count == 0 {
            return Ok(bytes);
        }
        if count > SCRIPT_LIMIT - bytes.len() {
            return Err(ReadFault::TooLong);
        }
        let Ok(()) = bytes.extend_from_slice(&buffer[..count]) else {
            return Err(ReadFault::Memory);
        };
    }
    unreachable!()
}

/// Reads a script, a line `---` and a transcript: all there is. It asks for no more once more came than
/// they may have, whatever follows.
pub(crate) fn read_input<S: Source>(alloc: Global, source: &mut S) -> Result<Input, ReadFault>
    ensures { ReadsInput (S.stream source.old) result (S.stream source.new) }
{
    let Ok(mut room) = zeros(alloc, PIECE) else {
        return Err(ReadFault::Memory);
    };
    let buffer = room.as_mut_slice();
    let mut bytes = Vec::new(alloc);
    let ended = read_script_part(source, buffer, &mut bytes)?;
    let separator = separator_of(&bytes);
    if !is_script_few(&bytes, separator) {
        return Err(ReadFault::TooLong);
    }
    if ended {
        return Ok(Input { bytes, separator });
    }
    if fill(source, buffer, &mut bytes, INPUT_LIMIT)? {
        Ok(Input { bytes, separator })
    } else {
        Err(ReadFault::TooLong)
    }
}

/// Reads from the beginning, until the source ends or it is settled whether a line `---` begins within
/// a script's limit. It answers whether the source has ended.
fn read_script_part<S: Source>(
    source: &mut S,
    buffer: &mut [u8],
    bytes: &mut Vec<u8>,
) -> Result<bool, ReadFault>
    requires room { length buffer.old ≡ piece_limit }
    requires start { bytes.old.items ≡ [] }
    ensures { ReadsScript (S.stream source.old) result bytes.new.items (S.stream source.new) }
{
    if fill(source, buffer, bytes, SCRIPT_LIMIT)? {
        return Ok(true);
    }
    while is_open(bytes) {
        if take_piece(source, buffer, bytes)? {
            return Ok(true);
        }
    }
    Ok(false)
}

/// Whether the bytes before the line `---`, or all where there is none, are no more than a script
/// may have.
fn is_script_few(bytes: &[u8], separator: Option<usize>) -> bool
    requires { IsSeparatorOf bytes.now separator }
    ensures { MatchBool result (IsScriptFew bytes.now) (IsScriptLong bytes.now) }
{
    if bytes.len() <= SCRIPT_LIMIT {
        return true;
    }
    match separator {
        Some(place) => place <= SCRIPT_LIMIT,
        None => false,
    }
}

/// Reads on, until the source ends or more than that many bytes are there. It answers whether it has
/// ended.
fn fill<S: Source>(
    source: &mut S,
    buffer: &mut [u8],
    bytes: &mut Vec<u8>,
    most: usize,
) -> Result<bool, ReadFault>
    requires room { length buffer.old ≡ piece_limit }
    requires few { length bytes.old.items ≤ most + piece_limit }
    requires most { most ≤ input_limit }
    ensures { Fills (S.stream source.old) bytes.old.items most result bytes.new.items (S.stream source.new) }
{
    while bytes.len() <= most {
        if take_piece(source, buffer, bytes)? {
            return Ok(true);
        }
    }
    Ok(false)
}

/// Reads one piece more. It answers whether the source has ended.
fn take_piece<S: Source>(
    source: &mut S,
    buffer: &mut [u8],
    bytes: &mut Vec<u8>,
) -> Result<bool, ReadFault>
    requires room { length buffer.old ≡ piece_limit }
    ensures { TakesPiece (S.stream source.old) bytes.old.items result bytes.new.items (S.stream source.new) }
{
    let count = match source.take(buffer) {
        Ok(count) => count,
        Err(Failed) => return Err(ReadFault::Failed),
    };
    let Ok(()) = bytes.extend_from_slice(&buffer[..count]) else {
        return Err(ReadFault::Memory);
    };
    Ok(count == 0)
}

fn zeros(alloc: Global, len: usize) -> Result<Vec<u8>, AllocError>
    ensures { IfOk result (λ bytes. length bytes.items ≡ len) }
{
    vec![in alloc; 0; len]
}
