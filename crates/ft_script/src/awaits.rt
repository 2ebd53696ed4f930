//! Reads the awaits of scripts: the calls of other threads that they name.
ghost use Rattle.ft_model.specs.Limits.{most_threads};
ghost use Rattle.ft_script.specs.Arguments.{just_awaited, read_awaited, read_call_index};
ghost use Rattle.ft_script.specs.Awaits.{has_awaited, has_awaits, is_await};
ghost use Rattle.ft_script.specs.Internal.Outcomes.{draft_of};
ghost use Rattle.ft_script.specs.LineWords.{is_positive};
ghost use Rattle.std.specs.List.{list_any};
ghost use Rattle.std.specs.Prelude.{◌≡◌, ◌≤◌, true, length, map};

use crate::declarations::thread_place;
use crate::draft::Draft;
use crate::fault::Fault;
use crate::replies::u32_of;
use crate::words::{is_positive, is_thread_name, split_at_dot};
use ft_model::{Call, Thread};

/// Whether the call is an `await`.
fn is_await(call: &Call) -> bool
    ensures { result ≡ is_await call.now }
{
    matches!(call, Call::Await { .. })
}

/// Whether a thread awaits another.
pub(crate) fn has_awaits(threads: &[Thread]) -> bool
    ensures { result ≡ has_awaits threads.now }
{
    threads.iter().any(|thread| thread_awaits(thread))
}

/// Whether a thread awaits one.
fn thread_awaits(thread: &Thread) -> bool
    ensures { result ≡ list_any is_await thread.now.calls }
{
    thread.calls.as_slice().iter().any(|call| is_await(call))
}

/// Whether the thread that an `await` names is one of these, and has that call.
pub(crate) fn has_awaited(threads: &[Thread], call: &Call) -> bool
    ensures { result ≡ has_awaited threads.now call.now }
{
    match call {
        Call::Await { thread, index } => match threads.get(*thread as usize) {
            Some(named) => *index as usize <= named.calls.len(),
            None => false,
        },
        _ => true,
    }
}

/// The index below 2^32 that digits are.
fn call_index(digits: &[u8]) -> Result<u32, Fault>
    requires { is_positive digits.now ≡ true }
    ensures { result ≡ read_call_index digits.now }
{
    match u32_of(digits) {
        Ok(index) => Ok(index),
        Err(_) => Err(Fault::Await),
    }
}

impl Draft {
    /// The call that a word names, of a thread that stands above.
    #[tactic(auto, unfolding(crate::specs::Arguments::read_awaited))]
    fn awaited_of(&self, word: &[u8]) -> Result<(u32, u32), Fault>
        requires { length self.now.threads ≤ most_threads }
        ensures { result ≡ read_awaited (draft_of self.now) word.now }
    {
        let (name, digits) = split_at_dot(word);
        if !is_thread_name(name) || !is_positive(digits) {
            return Err(Fault::Name);
        }
        let thread = thread_place(self.threads.as_slice(), name).ok_or(Fault::Await)?;
        let index = call_index(digits)?;
        Ok((thread, index))
    }

    /// The call that all words after `await` name.
    #[tactic(auto, unfolding(crate::specs::Arguments::just_awaited))]
    pub(crate) fn awaited_in(&self, words: &[&[u8]]) -> Result<(u32, u32), Fault>
        requires { length self.now.threads ≤ most_threads }
        ensures { result ≡ just_awaited (draft_of self.now) (map (λ word. word.now) words.now) }
    {
        match words {
            [word] => self.awaited_of(word),
            _ => Err(Fault::WordCount),
        }
    }
}
