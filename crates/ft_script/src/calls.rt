//! Reads the lines of calls.
ghost use Rattle.ft_model.specs.Limits.{most_calls, most_threads};
ghost use Rattle.ft_script.specs.ScriptLines.{call_at, call_line, read_call, container_call, counted_call, depth_after, dict_call, limit_fault, list_call, set_call};
ghost use Rattle.ft_script.specs.Internal.Outcomes.{LeavesDraft, GivesWithDraft, limit_error, draft_of};
ghost use Rattle.std.specs.Prelude.{◌≡◌, ◌<◌, ◌≤◌, length, map};

use crate::arguments::{index_in, nothing_in, some_index_in, two_indices_in};
use crate::awaits::has_awaited;
use crate::call_words::{CallWord, Operation};
use crate::draft::Draft;
use crate::fault::{Fault, LineError, Which};
use ft_model::{Call, DictCall, Kind, ListCall, MOST_CALLS, MOST_SECTIONS, SetCall};
use std::alloc::Global;

impl Draft {
    /// A call of a dict.
    #[tactic(auto, unfolding(crate::specs::ScriptLines::dict_call))]
    fn dict_call(
        &mut self,
        alloc: Global,
        operation: Operation,
        words: &[&[u8]],
    ) -> Result<DictCall, LineError>
        ensures { GivesWithDraft result (draft_of self.new) (dict_call (draft_of self.old) operation (map (λ word. word.now) words.now)) }
    {
        match operation {
            Operation::Get => Ok(DictCall::Get {
                key: self.key_in(alloc, words)?,
            }),
            Operation::GetOr => {
                let (key, default) = self.key_and_value_in(alloc, words)?;
                Ok(DictCall::GetOr { key, default })
            }
            Operation::Set => {
                let (key, value) = self.key_and_value_in(alloc, words)?;
                Ok(DictCall::Set { key, value })
            }
            Operation::Del => Ok(DictCall::Del {
                key: self.key_in(alloc, words)?,
            }),
            Operation::Pop => Ok(DictCall::Pop {
                key: self.key_in(alloc, words)?,
            }),
            Operation::PopOr => {
                let (key, default) = self.key_and_value_in(alloc, words)?;
                Ok(DictCall::PopOr { key, default })
            }
            Operation::PopItem => {
                nothing_in(words)?;
                Ok(DictCall::PopItem)
            }
            Operation::SetDefault => {
                let (key, default) = self.key_and_value_in(alloc, words)?;
                Ok(DictCall::SetDefault { key, default })
            }
            Operation::Has => Ok(DictCall::Has {
                key: self.key_in(alloc, words)?,
            }),
            Operation::Len => {
                nothing_in(words)?;
                Ok(DictCall::Len)
            }
            Operation::Items => {
                nothing_in(words)?;
                Ok(DictCall::Items)
            }
            Operation::Update => Ok(DictCall::Update {
                other: self.other_in(Kind::Dict, words)?,
            }),
            Operation::Clear => {
                nothing_in(words)?;
                Ok(DictCall::Clear)
            }
            Operation::CopyTo => Ok(DictCall::CopyTo {
                other: self.other_in(Kind::Dict, words)?,
            }),
            Operation::Eq => Ok(DictCall::Eq {
                other: self.other_in(Kind::Dict, words)?,
            }),
            Operation::Iter => Ok(DictCall::Iter {
                cursor: self.made_cursor_in(alloc, words)?,
            }),
            Operation::Append
            | Operation::Insert
            | Operation::Remove
            | Operation::Index
            | Operation::Count
            | Operation::Reverse
            | Operation::Extend
            | Operation::Slice
            | Operation::Add
            | Operation::Discard
            | Operation::Or
            | Operation::And
            | Operation::Sub
            | Operation::Xor
            | Operation::Subset
            | Operation::Disjoint => Err(Fault::WrongKind.into()),
        }
    }

    /// A call of a list.
    #[tactic(auto, unfolding(crate::specs::ScriptLines::list_call))]
    fn list_call(
        &mut self,
        alloc: Global,
        operation: Operation,
        words: &[&[u8]],
    ) -> Result<ListCall, LineError>
        ensures { GivesWithDraft result (draft_of self.new) (list_call (draft_of self.old) operation (map (λ word. word.now) words.now)) }
    {
        match operation {
            Operation::Append => Ok(ListCall::Append {
                value: self.value_in(alloc, words)?,
            }),
            Operation::Insert => {
                let (index, value) = self.index_and_value_in(alloc, words)?;
                Ok(ListCall::Insert { index, value })
            }
            Operation::Get => Ok(ListCall::Get {
                index: index_in(words)?,
            }),
            Operation::Set => {
                let (index, value) = self.index_and_value_in(alloc, words)?;
                Ok(ListCall::Set { index, value })
            }
            Operation::Del => Ok(ListCall::Del {
                index: index_in(words)?,
            }),
            Operation::Pop => Ok(ListCall::Pop {
                index: some_index_in(words)?,
            }),
            Operation::Remove => Ok(ListCall::Remove {
                value: self.value_in(alloc, words)?,
            }),
            Operation::Index => Ok(ListCall::Index {
                value: self.value_in(alloc, words)?,
            }),
            Operation::Count => Ok(ListCall::Count {
                value: self.value_in(alloc, words)?,
            }),
            Operation::Has => Ok(ListCall::Has {
                value: self.value_in(alloc, words)?,
            }),
            Operation::Reverse => {
                nothing_in(words)?;
                Ok(ListCall::Reverse)
            }
            Operation::Extend => Ok(ListCall::Extend {
                other: self.other_in(Kind::List, words)?,
            }),
            Operation::Slice => {
                let (start, end) = two_indices_in(words)?;
                Ok(ListCall::Slice { start, end })
            }
            Operation::Clear => {
                nothing_in(words)?;
                Ok(ListCall::Clear)
            }
            Operation::Len => {
                nothing_in(words)?;
                Ok(ListCall::Len)
            }
            Operation::Items => {
                nothing_in(words)?;
                Ok(ListCall::Items)
            }
            Operation::Eq => Ok(ListCall::Eq {
                other: self.other_in(Kind::List, words)?,
            }),
            Operation::Iter => Ok(ListCall::Iter {
                cursor: self.made_cursor_in(alloc, words)?,
            }),
            Operation::GetOr
            | Operation::PopOr
            | Operation::PopItem
            | Operation::SetDefault
            | Operation::Update
            | Operation::CopyTo
            | Operation::Add
            | Operation::Discard
            | Operation::Or
            | Operation::And
            | Operation::Sub
            | Operation::Xor
            | Operation::Subset
            | Operation::Disjoint => Err(Fault::WrongKind.into()),
        }
    }

    /// A call of a set.
    #[tactic(auto, unfolding(crate::specs::ScriptLines::set_call))]
    fn set_call(
        &mut self,
        alloc: Global,
        operation: Operation,
        words: &[&[u8]],
    ) -> Result<SetCall, LineError>
        ensures { GivesWithDraft result (draft_of self.new) (set_call (draft_of self.old) operation (map (λ word. word.now) words.now)) }
    {
        match operation {
            Operation::Add => Ok(SetCall::Add {
                key: self.key_in(alloc, words)?,
            }),
            Operation::Discard => Ok(SetCall::Discard {
                key: self.key_in(alloc, words)?,
            }),
            Operation::Remove => Ok(SetCall::Remove {
                key: self.key_in(alloc, words)?,
            }),
            Operation::Pop => {
                nothing_in(words)?;
                Ok(SetCall::Pop)
            }
            Operation::Has => Ok(SetCall::Has {
                key: self.key_in(alloc, words)?,
            }),
            Operation::Len => {
                nothing_in(words)?;
                Ok(SetCall::Len)
            }
            Operation::Items => {
                nothing_in(words)?;
                Ok(SetCall::Items)
            }
            Operation::Eq => Ok(SetCall::Eq {
                other: self.other_in(Kind::Set, words)?,
            }),
            Operation::Or => Ok(SetCall::Or {
                other: self.other_in(Kind::Set, words)?,
            }),
            Operation::And => Ok(SetCall::And {
                other: self.other_in(Kind::Set, words)?,
            }),
            Operation::Sub => Ok(SetCall::Sub {
                other: self.other_in(Kind::Set, words)?,
            }),
            Operation::Xor => Ok(SetCall::Xor {
                other: self.other_in(Kind::Set, words)?,
            }),
            Operation::Subset => Ok(SetCall::Subset {
                other: self.other_in(Kind::Set, words)?,
            }),
            Operation::Disjoint => Ok(SetCall::Disjoint {
                other: self.other_in(Kind::Set, words)?,
            }),
            Operation::Clear => {
                nothing_in(words)?;
                Ok(SetCall::Clear)
            }
            Operation::Iter => Ok(SetCall::Iter {
                cursor: self.made_cursor_in(alloc, words)?,
            }),
            Operation::Get
            | Operation::GetOr
            | Operation::Set
            | Operation::Del
            | Operation::PopOr
            | Operation::PopItem
            | Operation::SetDefault
            | Operation::Update
            | Operation::CopyTo
            | Operation::Append
            | Operation::Insert
            | Operation::Index
            | Operation::Count
            | Operation::Reverse
            | Operation::Extend
            | Operation::Slice => Err(Fault::WrongKind.into()),
        }
    }

    /// A call of the container that the first word names.
    #[tactic(auto, unfolding(crate::specs::ScriptLines::container_call))]
    fn container_call(
        &mut self,
        alloc: Global,
        operation: Operation,
        words: &[&[u8]],
    ) -> Result<Call, LineError>
        ensures { GivesWithDraft result (draft_of self.new) (container_call (draft_of self.old) operation (map (λ word. word.now) words.now)) }
    {
        let [name, words @ ..] = words else {
            return Err(Fault::WordCount.into());
        };
        let container = self.container_of(name)?;
        let kind = self.kind_at(container);
        self.call_at(alloc, container, operation, words, kind)
    }

    /// A call of the container at a place, which is of a kind.
    #[tactic(auto, unfolding(crate::specs::ScriptLines::call_at))]
    fn call_at(
        &mut self,
        alloc: Global,
        container: u32,
        operation: Operation,
        words: &[&[u8]],
        kind: Option<Kind>,
    ) -> Result<Call, LineError>
        ensures { GivesWithDraft result (draft_of self.new) (call_at (draft_of self.old) container operation (map (λ word. word.now) words.now) kind) }
    {
        match kind {
            None => Err(Fault::Name.into()),
            Some(Kind::Dict) => {
                let call = self.dict_call(alloc, operation, words)?;
                Ok(Call::Dict { container, call })
            }
            Some(Kind::List) => {
                let call = self.list_call(alloc, operation, words)?;
                Ok(Call::List { container, call })
            }
            Some(Kind::Set) => {
                let call = self.set_call(alloc, operation, words)?;
                Ok(Call::Set { container, call })
            }
            Some(Kind::Deque(_)) => Err(Fault::WrongKind.into()),
        }
    }

    /// The call that a word and those after it are.
    #[tactic(auto, unfolding(crate::specs::ScriptLines::read_call))]
    pub(crate) fn call_of(
        &mut self,
        alloc: Global,
        word: CallWord,
        words: &[&[u8]],
    ) -> Result<Call, LineError>
        requires { length self.old.threads ≤ most_threads }
        ensures { GivesWithDraft result (draft_of self.new) (read_call (draft_of self.old) word (map (λ word. word.now) words.now)) }
    {
        match word {
            CallWord::Next => Ok(Call::Next {
                cursor: self.cursor_in(words)?,
            }),
            CallWord::Begin => {
                let (first, second) = self.section_in(words)?;
                Ok(Call::Begin { first, second })
            }
            CallWord::End => {
                nothing_in(words)?;
                Ok(Call::End)
            }
            CallWord::Quiesce => {
                nothing_in(words)?;
                Ok(Call::Quiesce)
            }
            CallWord::Await if !self.awaits => Err(Fault::UnknownWord.into()),
            CallWord::Await => {
                let (thread, index) = self.awaited_in(words)?;
                Ok(Call::Await { thread, index })
            }
            CallWord::On(operation) => self.container_call(alloc, operation, words),
        }
    }

    /// Reads the line of a call.
    #[tactic(auto, using(crate::proofs::CallLemmas::limit_reported), unfolding(crate::specs::ScriptLines::call_line))]
    pub(crate) fn call_line(
        &mut self,
        alloc: Global,
        word: CallWord,
        words: &[&[u8]],
    ) -> Result<(), LineError>
        requires { length self.old.threads ≤ most_threads }
        ensures { LeavesDraft result (draft_of self.new) (call_line (draft_of self.old) word (map (λ word. word.now) words.now)) }
    {
        if self.called >= MOST_CALLS {
            return Err(limit_error(self.call_of(alloc, word, words)));
        }
        self.counted_call(alloc, word, words)
    }

    /// Reads the line of a call that isn't one too many.
    #[tactic(auto, unfolding(crate::specs::ScriptLines::counted_call))]
    fn counted_call(
        &mut self,
        alloc: Global,
        word: CallWord,
        words: &[&[u8]],
    ) -> Result<(), LineError>
        requires room { self.old.called < most_calls }
        requires threads { length self.old.threads ≤ most_threads }
        ensures { LeavesDraft result (draft_of self.new) (counted_call (draft_of self.old) word (map (λ word. word.now) words.now)) }
    {
        let (called, depth) = (self.called, self.depth);
        let call = self.call_of(alloc, word, words)?;
        self.depth = depth_after(depth, &call)?;
        if !has_awaited(self.threads.as_slice(), &call) {
            return Err(Fault::Await.into());
        }
        self.calls.push(call)?;
        self.called = called + 1;
        Ok(())
    }
}

/// What is reported of a call that is one too many.
fn limit_error(read: Result<Call, LineError>) -> LineError
    ensures { result ≡ limit_error read }
{
    match read {
        Ok(_) => LineError::Fault(Fault::Limit(Which::Calls)),
        Err(LineError::Memory) => LineError::Memory,
        Err(LineError::Fault(fault)) => LineError::Fault(limit_fault(fault)),
    }
}

fn limit_fault(fault: Fault) -> Fault
    ensures { result ≡ limit_fault fault }
{
    match fault {
        Fault::UnknownWord => Fault::UnknownWord,
        Fault::WordCount => Fault::WordCount,
        Fault::Encoding
        | Fault::Number
        | Fault::String
        | Fault::Name
        | Fault::NameTwice
        | Fault::WrongKind
        | Fault::EndWithoutBegin
        | Fault::BeginWithoutEnd
        | Fault::TooDeep
        | Fault::Limit(_)
        | Fault::OrderName
        | Fault::Await => Fault::Limit(Which::Calls),
    }
}

/// How many sections are open after a call.
#[tactic(auto, unfolding(crate::specs::ScriptLines::depth_after))]
fn depth_after(depth: u32, call: &Call) -> Result<u32, Fault>
    ensures { result ≡ depth_after depth call.now }
{
    match call {
        Call::Begin { .. } if depth >= MOST_SECTIONS => Err(Fault::TooDeep),
        Call::Begin { .. } => Ok(depth + 1),
        Call::End if depth == 0 => Err(Fault::EndWithoutBegin),
        Call::End => Ok(depth - 1),
        Call::Await { .. } if depth != 0 => Err(Fault::Await),
        Call::Dict { .. }
        | Call::List { .. }
        | Call::Set { .. }
        | Call::Deque { .. }
        | Call::Next { .. }
        | Call::Quiesce
        | Call::Await { .. }
        | Call::Dump => Ok(depth),
    }
}
