//! Makes large scripts from a number, the same each time: for whoever measures or compares runs.
//! Each call comes from a number of its own, and each number from the one before it.
ghost use Rattle.std.specs.Prelude.{◌≡◌, ◌<◌, ◌+◌, ◌∷◌, [], ◌++◌, OnOk, IfOk};
ghost use Rattle.std.specs.List.{flat_map};
ghost use Rattle.std.specs.Fmt.{decimal};
ghost use Rattle.ft_script.specs.Generator.{drawn_after, number_at, made_head, made_call, made_calls, share, thread_words, made_text};
ghost use Rattle.ft_script.specs.Texts.{line, call_words};

use crate::shown::push_integer;
use std::alloc::{AllocError, Global};

/// How many threads a script has that is made.
const THREADS: u32 = 4;

/// What each script declares that is made.
const HEAD: &[u8] = b"heap 4096\ntables 12 16\ndict d\nlist l\nset s\n";

/// Makes the text of a script with this number of calls of a dict, a list and a set, dealt to four threads.
///
/// The same number gives the same text. `parse` reads it where it has at most 500,000 calls.
///
/// # Errors
///
/// Where memory runs out.
pub fn make_script(alloc: Global, calls: u32) -> Result<Vec<u8>, AllocError>
    ensures { IfOk result (λ text. text.items ≡ made_text calls) }
{
    let mut text = Vec::new(alloc);
    text.extend_from_slice(HEAD)?;
    let mut number = u64::from(calls);
    for thread in 0..THREADS {
        number = push_thread(&mut text, thread, share(calls, thread), number)?;
    }
    Ok(text)
}

/// How many calls the thread at a place has.
fn share(calls: u32, thread: u32) -> u32
    ensures { result ≡ share calls thread }
{
    calls / THREADS + u32::from(thread < calls % THREADS)
}

/// Adds the lines of the thread at a place, whose numbers come after this one, and answers the last
/// number that was drawn.
fn push_thread(out: &mut Vec<u8>, thread: u32, calls: u32, first: u64) -> Result<u64, AllocError>
    requires { thread < 4 }
    ensures lines { OnOk result (out.new.items ≡ out.old.items ++ flat_map line (thread_words (record { name = (65 + thread) ∷ []; cursors = []; calls = made_calls first calls }))) }
    ensures number { IfOk result (λ number. number ≡ number_at first calls) }
{
    out.extend_from_slice(b"thread ")?;
    out.push(b'A' + thread as u8)?;
    out.push(b'\n')?;
    let mut number = first;
    for _ in 0..calls {
        number = drawn_after(number);
        push_call(out, number)?;
    }
    Ok(number)
}

/// The number that is drawn after another.
fn drawn_after(number: u64) -> u64
    ensures { result ≡ drawn_after number }
{
    number
        .wrapping_mul(6_364_136_223_846_793_005)
        .wrapping_add(1_442_695_040_888_963_407)
}

/// Adds the line of the call that a number gives.
fn push_call(out: &mut Vec<u8>, number: u64) -> Result<(), AllocError>
    ensures { OnOk result (out.new.items ≡ out.old.items ++ line (call_words made_head 0 (made_call number))) }
{
    let upper = number >> 33;
    let key = upper / 8 % 1000;
    match upper % 8 {
        0 => push_line(out, b"set d", &[key, key]),
        1 => push_line(out, b"get d", &[key]),
        2 => push_line(out, b"del d", &[key]),
        3 => push_line(out, b"append l", &[key]),
        4 => push_line(out, b"get l", &[key]),
        5 => push_line(out, b"add s", &[key]),
        6 => push_line(out, b"discard s", &[key]),
        _ => push_line(out, b"quiesce", &[]),
    }
}

/// Adds a line of these words and then these numbers.
pub(crate) fn push_line(out: &mut Vec<u8>, words: &[u8], numbers: &[u64]) -> Result<(), AllocError>
    ensures { OnOk result (out.new.items ≡ out.old.items ++ (words.now ++ flat_map (λ number. 32 ∷ decimal number) numbers.now ++ 10 ∷ [])) }
{
    out.extend_from_slice(words)?;
    for number in numbers {
        out.push(b' ')?;
        push_integer(out, *number)?;
    }
    out.push(b'\n')?;
    Ok(())
}
