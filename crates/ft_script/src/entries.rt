//! Reads the lines of entries and contents.
ghost use Rattle.ft_model.specs.Limits.{most_cursors, most_strings};
ghost use Rattle.ft_script.specs.declared.fault.Fault.TheVariants as fault;
ghost use Rattle.ft_script.specs.Internal.Candidates.{read_content, read_entry, read_numbered, only_call, read_stamp, thread_call, read_thread, read_waited};
ghost use Rattle.ft_model.specs.Scripts.{IsScript};
ghost use Rattle.ft_script.specs.Drafts.{container_place, draft_at, only_named, or_fault};
ghost use Rattle.ft_script.specs.Internal.Outcomes.{Gives, draft_of};
ghost use Rattle.ft_script.specs.ScriptLines.{read_call};
ghost use Rattle.ft_script.specs.Internal.Readers.{AddsNothing, IsReaderOf, IsUnchanged};
ghost use Rattle.ft_script.specs.Internal.Tokens.{before_word};
ghost use Rattle.ft_script.specs.Transcripts.{counts, counts_dict, counts_list, counts_set, counts_deque};
ghost use Rattle.std.specs.Prelude.{◌≡◌, ◌≢◌, ◌==◌, ◌<◌, ◌≤◌, All, AllPairs, IfOk, OnOk, codes, drop, length, map};

use crate::awaits::has_awaits;
use crate::call_words::{CallWord, call_word_of};
use crate::declarations::{CursorNames, Declarations, container_place, thread_place};
use crate::draft::Draft;
use crate::fault::{Fault, LineError};
use crate::replies::{reply_of, u32_of, u64_of};
use crate::strings::Strings;
use crate::tokens::split_at_word;
use crate::words::split_at_dot;
use ft_model::{
    Call, Declaration, DequeCall, DictCall, Entry, ListCall, Reply, ScriptParts, Sequence, SetCall,
    Start, Text, Thread,
};
use std::alloc::{AllocError, Global};
use std::mem;

/// Whether the call's reply is a count.
fn counts(call: &Call) -> bool
    ensures { result ≡ counts call.now }
{
    match call {
        Call::Dict { call, .. } => counts_dict(call),
        Call::List { call, .. } => counts_list(call),
        Call::Set { call, .. } => counts_set(call),
        Call::Deque { call, .. } => counts_deque(call),
        Call::Next { .. }
        | Call::Begin { .. }
        | Call::End
        | Call::Quiesce
        | Call::Await { .. }
        | Call::Dump => false,
    }
}

fn counts_dict(call: &DictCall) -> bool
    ensures { result ≡ counts_dict call.now }
{
    match call {
        DictCall::Len => true,
        DictCall::Get { .. }
        | DictCall::GetOr { .. }
        | DictCall::Set { .. }
        | DictCall::Del { .. }
        | DictCall::Pop { .. }
        | DictCall::PopOr { .. }
        | DictCall::PopItem
        | DictCall::SetDefault { .. }
        | DictCall::Has { .. }
        | DictCall::Items
        | DictCall::Update { .. }
        | DictCall::Clear
        | DictCall::CopyTo { .. }
        | DictCall::Eq { .. }
        | DictCall::Iter { .. }
        | DictCall::KeysAnd { .. }
        | DictCall::KeysSub { .. }
        | DictCall::KeysOr { .. }
        | DictCall::KeysXor { .. }
        | DictCall::ItemsHas { .. }
        | DictCall::Reversed { .. } => false,
    }
}

fn counts_list(call: &ListCall) -> bool
    ensures { result ≡ counts_list call.now }
{
    match call {
        ListCall::Index { .. } | ListCall::Count { .. } | ListCall::Len => true,
        ListCall::Append { .. }
        | ListCall::Insert { .. }
        | ListCall::Get { .. }
        | ListCall::Set { .. }
        | ListCall::Del { .. }
        | ListCall::Pop { .. }
        | ListCall::Remove { .. }
        | ListCall::Has { .. }
        | ListCall::Reverse
        | ListCall::Extend { .. }
        | ListCall::Slice { .. }
        | ListCall::Clear
        | ListCall::Items
        | ListCall::Eq { .. }
        | ListCall::Iter { .. }
        | ListCall::Reversed { .. } => false,
    }
}

fn counts_set(call: &SetCall) -> bool
    ensures { result ≡ counts_set call.now }
{
    match call {
        SetCall::Len => true,
        SetCall::Add { .. }
        | SetCall::Discard { .. }
        | SetCall::Remove { .. }
        | SetCall::Pop
        | SetCall::Has { .. }
        | SetCall::Items
        | SetCall::Eq { .. }
        | SetCall::Or { .. }
        | SetCall::And { .. }
        | SetCall::Sub { .. }
        | SetCall::Xor { .. }
        | SetCall::Subset { .. }
        | SetCall::Disjoint { .. }
        | SetCall::Clear
        | SetCall::Iter { .. } => false,
    }
}

fn counts_deque(call: &DequeCall) -> bool
    ensures { result ≡ counts_deque call.now }
{
    match call {
        DequeCall::Len => true,
        DequeCall::Append { .. }
        | DequeCall::AppendLeft { .. }
        | DequeCall::Pop
        | DequeCall::PopLeft
        | DequeCall::Extend { .. }
        | DequeCall::ExtendLeft { .. }
        | DequeCall::Rotate { .. }
        | DequeCall::Clear
        | DequeCall::Get { .. }
        | DequeCall::Items
        | DequeCall::Has { .. }
        | DequeCall::Iter { .. } => false,
    }
}

/// The thread of that name.
#[tactic(auto, unfolding(crate::specs::Internal::Candidates::read_thread))]
fn thread_of(script: &ScriptParts, name: &[u8]) -> Result<u32, Fault>
    requires { IsScript script.now }
    ensures { result ≡ read_thread script.now name.now }
{
    thread_place(script.threads.as_slice(), name).ok_or(Fault::Name)
}

/// The thread and the index that a dot parts.
#[tactic(auto, unfolding(crate::specs::Internal::Candidates::read_numbered))]
fn numbered_of(script: &ScriptParts, token: &[u8]) -> Result<(u32, u32), Fault>
    requires { IsScript script.now }
    ensures { result ≡ read_numbered script.now token.now }
{
    let (name, digits) = split_at_dot(token);
    let thread = thread_of(script, name)?;
    let index = u32_of(digits)?;
    Ok((thread, index))
}

/// Whether a `w` stands there, and the number after it.
#[tactic(auto, unfolding(crate::specs::Internal::Candidates::read_stamp))]
fn stamp_of(token: &[u8]) -> Result<(bool, u64), Fault>
    ensures { result ≡ read_stamp token.now }
{
    let [letter, digits @ ..] = token else {
        return Err(Fault::WordCount);
    };
    Ok((*letter == b'w', u64_of(digits)?))
}

/// The thread that the first token names, if there is one.
#[tactic(auto, unfolding(crate::specs::Internal::Candidates::read_waited))]
fn waited_of(script: &ScriptParts, tokens: &[&[u8]]) -> Result<Option<u32>, Fault>
    requires { IsScript script.now }
    ensures { result ≡ read_waited script.now (map (λ token. token.now) tokens.now) }
{
    match tokens {
        [name, ..] => Ok(Some(thread_of(script, name)?)),
        [] => Ok(None),
    }
}

/// A copy of a list of names.
fn copied_names(alloc: Global, names: &[Text]) -> Result<Sequence<Text>, AllocError>
    ensures { IfOk result (λ copied. copied ≡ names.now) }
{
    let mut copied = Vec::new(alloc);
    for name in names {
        copied.push(copied_name(alloc, name)?)?;
    }
    Ok(Sequence::from_vec(copied))
}

fn copied_name(alloc: Global, name: &Text) -> Result<Text, AllocError>
    ensures { IfOk result (λ copied. copied ≡ name.now) }
{
    Ok(Sequence::from_vec(Vec::from_slice(alloc, name.as_slice())?))
}

/// A copy of some declarations.
fn copied_containers(
    alloc: Global,
    containers: &[Declaration],
) -> Result<Sequence<Declaration>, AllocError>
    ensures { IfOk result (λ copied. copied ≡ containers.now) }
{
    let mut copied = Vec::new(alloc);
    for container in containers {
        copied.push(copied_container(alloc, container)?)?;
    }
    Ok(Sequence::from_vec(copied))
}

fn copied_container(alloc: Global, container: &Declaration) -> Result<Declaration, AllocError>
    ensures { IfOk result (λ copied. copied ≡ container.now) }
{
    let keys = Sequence::from_vec(Vec::from_slice(alloc, container.start.keys.as_slice())?);
    let name = copied_name(alloc, &container.name)?;
    Ok(Declaration {
        start: Start {
            kind: container.start.kind,
            keys,
        },
        name,
    })
}

/// The threads by their names, without their cursors and calls.
fn named_threads(alloc: Global, threads: &[Thread]) -> Result<Sequence<Thread>, AllocError>
    ensures { IfOk result (λ named. named ≡ map only_named threads.now) }
{
    let mut named = Vec::new(alloc);
    for thread in threads {
        named.push(only_named(alloc, thread)?)?;
    }
    Ok(Sequence::from_vec(named))
}

fn only_named(alloc: Global, thread: &Thread) -> Result<Thread, AllocError>
    ensures { IfOk result (λ named. named ≡ only_named thread.now) }
{
    Ok(Thread {
        name: copied_name(alloc, &thread.name)?,
        cursors: Sequence::new(alloc),
        calls: Sequence::new(alloc),
    })
}

/// The strings, each with its number.
pub(crate) fn numbered_strings(alloc: Global, texts: &[Text]) -> Result<Strings, AllocError>
    requires differ { AllPairs (λ a b. a ≢ b) texts.now }
    requires few { length texts.now ≤ most_strings }
    ensures { IfOk result (λ strings. strings ≡ texts.now) }
{
    let mut strings = Strings::new(alloc);
    for text in texts {
        strings.add(text.as_slice())?;
    }
    Ok(strings)
}

/// What a script declares, in the form by which calls are read.
#[derive(Drop)]
pub(crate) struct Reader {
    /// The containers, the names of the threads, and the strings.
    pub draft: Draft,
    /// The cursors of each thread.
    pub cursors: Vec<CursorNames>,
}

impl Reader {
    /// The reader of a script's transcripts.
    pub(crate) fn new(alloc: Global, script: &ScriptParts) -> Result<Self, AllocError>
        requires { IsScript script.now }
        ensures { IfOk result (λ reader. IsReaderOf script.now (draft_of reader.draft) reader.cursors.items) }
    {
        let mut draft = Draft::empty(alloc);
        let containers = copied_containers(alloc, script.containers.as_slice())?;
        draft.awaits = has_awaits(script.threads.as_slice());
        draft.containers = Declarations::from_sequence(containers);
        draft.threads = named_threads(alloc, script.threads.as_slice())?;
        draft.strings = numbered_strings(alloc, script.strings.as_slice())?;
        let cursors = all_cursors(alloc, script.threads.as_slice())?;
        Ok(Reader { draft, cursors })
    }

    /// The call of a thread that some words may be. An `Err` may leave other cursors or strings.
    #[tactic(auto, unfolding(crate::specs::Internal::Candidates::thread_call, crate::specs::ScriptLines::just_call))]
    fn thread_call(
        &mut self,
        alloc: Global,
        script: &ScriptParts,
        thread: u32,
        words: &[&[u8]],
    ) -> Result<Call, LineError>
        requires script { IsScript script.now }
        requires reader { IsReaderOf script.now (draft_of self.old.draft) self.old.cursors.items }
        requires declared { thread < length script.now.threads }
        ensures read { Gives (λ call. call) result (thread_call script.now thread (map (λ word. word.now) words.now)) }
        ensures kept { OnOk result (AddsNothing script.now thread (map (λ word. word.now) words.now) → IsReaderOf script.now (draft_of self.new.draft) self.new.cursors.items) }
    {
        let [word, words @ ..] = words else {
            return Err(Fault::WordCount.into());
        };
        let word = call_word_of(word).ok_or(Fault::UnknownWord)?;
        self.call_by(alloc, script, thread, word, words)
    }

    /// The call of a thread that a word and those after it may be.
    fn call_by(
        &mut self,
        alloc: Global,
        script: &ScriptParts,
        thread: u32,
        word: CallWord,
        words: &[&[u8]],
    ) -> Result<Call, LineError>
        requires script { IsScript script.now }
        requires reader { IsReaderOf script.now (draft_of self.old.draft) self.old.cursors.items }
        requires declared { thread < length script.now.threads }
        ensures read { Gives (λ call. call) result (only_call (read_call (draft_at script.now thread) word (map (λ word. word.now) words.now))) }
        ensures kept { OnOk result (IsUnchanged (draft_at script.now thread) (read_call (draft_at script.now thread) word (map (λ word. word.now) words.now)) → IsReaderOf script.now (draft_of self.new.draft) self.new.cursors.items) }
    {
        let cursors = &mut self.cursors[thread as usize];
        mem::swap(&mut self.draft.cursors, cursors);
        let read = self.draft.call_of(alloc, word, words);
        mem::swap(&mut self.draft.cursors, cursors);
        read
    }

    /// The entry whose line some tokens may be. An `Err` may leave other cursors or strings.
    #[tactic(auto, unfolding(crate::specs::Internal::Candidates::read_entry))]
    pub(crate) fn entry_of(
        &mut self,
        alloc: Global,
        script: &ScriptParts,
        strings: &Strings,
        tokens: &[&[u8]],
    ) -> Result<Entry, LineError>
        requires script { IsScript script.now }
        requires reader { IsReaderOf script.now (draft_of self.old.draft) self.old.cursors.items }
        requires strings { strings.now ≡ script.now.strings }
        ensures read { Gives (λ entry. entry) result (read_entry script.now (map (λ token. token.now) tokens.now)) }
        ensures kept { IfOk result (λ entry. AddsNothing script.now entry.thread (before_word (codes "=") (drop 2 (map (λ token. token.now) tokens.now))) → IsReaderOf script.now (draft_of self.new.draft) self.new.cursors.items) }
    {
        let [place, stamp, words @ ..] = tokens else {
            return Err(Fault::WordCount.into());
        };
        let (thread, index) = numbered_of(script, place)?;
        let (wrote, stamp) = stamp_of(stamp)?;
        let (words, after) = split_at_word(words, b"=");
        let (said, mark) = split_at_word(after, b"waited");
        let call = self.thread_call(alloc, script, thread, words)?;
        let reply = reply_of(alloc, strings, counts(&call), said)?;
        let waited = waited_of(script, mark)?;
        Ok(Entry {
            thread,
            index,
            stamp,
            wrote,
            call,
            reply,
            waited,
        })
    }
}

/// The container and the content whose line some tokens may be.
#[tactic(auto, unfolding(crate::specs::Internal::Candidates::read_content))]
pub(crate) fn content_of(
    alloc: Global,
    script: &ScriptParts,
    strings: &Strings,
    tokens: &[&[u8]],
) -> Result<(u32, Reply), LineError>
    requires script { IsScript script.now }
    requires strings { strings.now ≡ script.now.strings }
    ensures { Gives (λ content. content) result (read_content script.now (map (λ token. token.now) tokens.now)) }
{
    let [name, _, tokens @ ..] = tokens else {
        return Err(Fault::WordCount.into());
    };
    let container = container_of(script, name)?;
    let content = reply_of(alloc, strings, false, tokens)?;
    Ok((container, content))
}

/// The container of that name.
fn container_of(script: &ScriptParts, name: &[u8]) -> Result<u32, Fault>
    requires { IsScript script.now }
    ensures { result ≡ or_fault fault.Name (container_place script.now.containers name.now) }
{
    container_place(script.containers.as_slice(), name).ok_or(Fault::Name)
}

/// The cursors of each thread.
fn all_cursors(alloc: Global, threads: &[Thread]) -> Result<Vec<CursorNames>, AllocError>
    requires { All (λ thread. length thread.cursors ≤ most_cursors) threads.now }
    ensures { IfOk result (λ cursors. cursors.items ≡ map (λ thread. thread.cursors) threads.now) }
{
    let mut cursors = Vec::new(alloc);
    for thread in threads {
        let names = copied_names(alloc, thread.cursors.as_slice())?;
        cursors.push(CursorNames::from_sequence(names))?;
    }
    Ok(cursors)
}
