//! Reads the lines of a script.
ghost use Rattle.ft_model.specs.Classes.{class_count};
ghost use Rattle.ft_model.specs.Limits.{most_threads};
ghost use Rattle.ft_script.specs.Internal.Outcomes.{HasFewThreads, LeavesDraft, LeavesAlways, draft_of};
ghost use Rattle.ft_script.specs.ScriptLines.{read_class, class_place, container_line, declaration, first_line, heap_line, is_first, open_line, order_line, other_statement, read_line, statement, tables_at, tables_line, tables_by_words, thread_line, thread_statement, read_turn, read_turns, version_line, words_line};
ghost use Rattle.std.specs.List.{list_any};
ghost use Rattle.std.specs.Prelude.{◌≡◌, ◌<◌, ◌≤◌, IfOk, IfSome, OnOk, is_some, length, map};

use crate::arguments::index_of;
use crate::call_words::call_word_of;
use crate::declarations::thread_place;
use crate::draft::Draft;
use crate::fault::{Fault, LineError, Which};
use crate::lines::{ends_thread, is_comment, words_of};
use crate::words::{is_container_name, is_thread_name};
use ft_model::{
    Declaration, GREATEST_CLASS, HEAP_STEP, Kind, LEAST_CLASS, MOST_CONTAINERS, MOST_HEAP,
    MOST_TABLES, MOST_THREADS, MOST_TURNS, Sequence, Start,
};
use std::alloc::Global;

/// The place of a class among those from 3 to 16.
fn class_place(class: i64) -> Option<usize>
    ensures place { result ≡ class_place class }
    ensures small { IfSome result (λ place. place < class_count) }
{
    if (i64::from(LEAST_CLASS)..=i64::from(GREATEST_CLASS)).contains(&class) {
        Some(class as usize - LEAST_CLASS as usize)
    } else {
        None
    }
}

#[tactic(auto, unfolding(crate::specs::ScriptLines::read_class))]
fn class_of(word: &[u8]) -> Result<usize, Fault>
    ensures class { result ≡ read_class word.now }
    ensures small { IfOk result (λ place. place < class_count) }
{
    let class = index_of(word)?;
    class_place(class).ok_or(Fault::Limit(Which::Class))
}

/// Whether a line names the number of tables of a class.
fn names_tables(counts: &[Option<u32>]) -> bool
    ensures { result ≡ list_any is_some counts.now }
{
    counts.iter().any(|count| count.is_some())
}

impl Draft {
    /// Reads the line of a container.
    #[tactic(auto, unfolding(crate::specs::ScriptLines::container_line))]
    fn container_line(
        &mut self,
        alloc: Global,
        kind: Kind,
        words: &[&[u8]],
    ) -> Result<(), LineError>
        ensures { LeavesDraft result (draft_of self.new) (container_line (draft_of self.old) kind (map (λ word. word.now) words.now)) }
    {
        let [name] = words else {
            return Err(Fault::WordCount.into());
        };
        if !is_container_name(name) {
            return Err(Fault::Name.into());
        }
        if self.containers.place_of(name).is_some() {
            return Err(Fault::NameTwice.into());
        }
        if self.containers.as_slice().len() >= MOST_CONTAINERS {
            return Err(Fault::Limit(Which::Containers).into());
        }
        let name = Sequence::from_vec(Vec::from_slice(alloc, name)?);
        let start = Start {
            kind,
            keys: Sequence::new(alloc),
        };
        self.containers.push(Declaration { start, name })?;
        Ok(())
    }

    /// Reads the line of a class's tables.
    #[tactic(auto, unfolding(crate::specs::ScriptLines::tables_line))]
    fn tables_line(&mut self, words: &[&[u8]]) -> Result<(), Fault>
        ensures { LeavesAlways result (draft_of self.new) (tables_line (draft_of self.old) (map (λ word. word.now) words.now)) }
    {
        match words {
            [class, count] => self.tables_by_words(class, count),
            _ => Err(Fault::WordCount),
        }
    }

    #[tactic(auto, unfolding(crate::specs::ScriptLines::tables_by_words))]
    fn tables_by_words(&mut self, class: &[u8], count: &[u8]) -> Result<(), Fault>
        ensures { LeavesAlways result (draft_of self.new) (tables_by_words (draft_of self.old) class.now count.now) }
    {
        let place = class_of(class)?;
        self.tables_at(place, count)
    }

    #[tactic(auto, unfolding(crate::specs::ScriptLines::tables_at))]
    fn tables_at(&mut self, place: usize, count: &[u8]) -> Result<(), Fault>
        requires { place < class_count }
        ensures { LeavesAlways result (draft_of self.new) (tables_at (draft_of self.old) place count.now) }
    {
        if self.tables[place].is_some() {
            return Err(Fault::NameTwice);
        }
        let number = index_of(count)?;
        if !(1..=i64::from(MOST_TABLES)).contains(&number) {
            return Err(Fault::Limit(Which::Tables));
        }
        self.tables[place] = Some(number as u32);
        Ok(())
    }

    /// Reads the line of the heap.
    #[tactic(auto, unfolding(crate::specs::ScriptLines::heap_line))]
    fn heap_line(&mut self, words: &[&[u8]]) -> Result<(), Fault>
        ensures { LeavesAlways result (draft_of self.new) (heap_line (draft_of self.old) (map (λ word. word.now) words.now)) }
    {
        let [count] = words else {
            return Err(Fault::WordCount);
        };
        if self.heap.is_some() {
            return Err(Fault::NameTwice);
        }
        let count = index_of(count)?;
        if !(i64::from(HEAP_STEP)..=i64::from(MOST_HEAP)).contains(&count)
            || count % i64::from(HEAP_STEP) != 0
        {
            return Err(Fault::Limit(Which::Heap));
        }
        self.heap = Some(count as u32);
        Ok(())
    }

    /// Whether no line above says anything.
    fn is_first(&self) -> bool
        ensures { result ≡ is_first (draft_of self.now) }
    {
        !self.awaits
            && self.containers.as_slice().is_empty()
            && !names_tables(&self.tables)
            && self.heap.is_none()
    }

    /// Reads the line of the version.
    #[tactic(auto, unfolding(crate::specs::ScriptLines::version_line))]
    fn version_line(&mut self, words: &[&[u8]]) -> Result<(), Fault>
        ensures { LeavesAlways result (draft_of self.new) (version_line (draft_of self.old) (map (λ word. word.now) words.now)) }
    {
        let [word] = words else {
            return Err(Fault::WordCount);
        };
        if *word != b"2".as_slice() {
            return Err(Fault::Number);
        }
        self.awaits = true;
        Ok(())
    }

    /// Reads a line that isn't a declaration: it says the version, if it is the first that says
    /// anything.
    #[tactic(auto, unfolding(crate::specs::ScriptLines::first_line))]
    fn first_line(&mut self, word: &[u8], words: &[&[u8]]) -> Result<(), Fault>
        ensures { LeavesAlways result (draft_of self.new) (first_line (draft_of self.old) word.now (map (λ word. word.now) words.now)) }
    {
        if word == b"version".as_slice() && self.is_first() {
            self.version_line(words)
        } else {
            Err(Fault::UnknownWord)
        }
    }

    /// Reads a line above all threads.
    #[tactic(auto, unfolding(crate::specs::ScriptLines::declaration))]
    fn declaration(&mut self, alloc: Global, word: &[u8], words: &[&[u8]]) -> Result<(), LineError>
        ensures { LeavesDraft result (draft_of self.new) (declaration (draft_of self.old) word.now (map (λ word. word.now) words.now)) }
    {
        if word == b"dict".as_slice() {
            self.container_line(alloc, Kind::Dict, words)
        } else if word == b"list".as_slice() {
            self.container_line(alloc, Kind::List, words)
        } else if word == b"set".as_slice() {
            self.container_line(alloc, Kind::Set, words)
        } else if word == b"tables".as_slice() {
            Ok(self.tables_line(words)?)
        } else if word == b"heap".as_slice() {
            Ok(self.heap_line(words)?)
        } else {
            Ok(self.first_line(word, words)?)
        }
    }

    /// Reads the line of a thread.
    #[tactic(auto, unfolding(crate::specs::ScriptLines::thread_line))]
    fn thread_line(&mut self, alloc: Global, words: &[&[u8]]) -> Result<(), LineError>
        requires { length self.old.threads ≤ most_threads }
        ensures { LeavesDraft result (draft_of self.new) (thread_line (draft_of self.old) (map (λ word. word.now) words.now)) }
    {
        let [name] = words else {
            return Err(Fault::WordCount.into());
        };
        if !is_thread_name(name) {
            return Err(Fault::Name.into());
        }
        if thread_place(self.threads.as_slice(), name).is_some() {
            return Err(Fault::NameTwice.into());
        }
        if self.threads.len() >= MOST_THREADS {
            return Err(Fault::Limit(Which::Threads).into());
        }
        self.name = Some(Sequence::from_vec(Vec::from_slice(alloc, name)?));
        self.depth = 0;
        Ok(())
    }

    /// Reads a name of an `order` line.
    #[tactic(auto, unfolding(crate::specs::ScriptLines::read_turn))]
    fn turn(&mut self, name: &[u8]) -> Result<(), LineError>
        requires { length self.old.threads ≤ most_threads }
        ensures read { LeavesDraft result (draft_of self.new) (read_turn (draft_of self.old) name.now) }
        ensures threads { OnOk result (self.new.threads ≡ self.old.threads) }
    {
        if !is_thread_name(name) {
            return Err(Fault::Name.into());
        }
        let thread = thread_place(self.threads.as_slice(), name).ok_or(Fault::OrderName)?;
        if self.order.len() >= MOST_TURNS {
            return Err(Fault::Limit(Which::Order).into());
        }
        self.order.push(thread)?;
        Ok(())
    }

    /// Reads an `order` line.
    #[tactic(auto, unfolding(crate::specs::ScriptLines::order_line))]
    fn order_line(&mut self, words: &[&[u8]]) -> Result<(), LineError>
        requires { length self.old.threads ≤ most_threads }
        ensures { LeavesDraft result (draft_of self.new) (order_line (draft_of self.old) (map (λ word. word.now) words.now)) }
    {
        if words.is_empty() {
            return Err(Fault::WordCount.into());
        }
        self.turns(words)
    }

    fn turns(&mut self, names: &[&[u8]]) -> Result<(), LineError>
        requires { length self.old.threads ≤ most_threads }
        ensures { LeavesDraft result (draft_of self.new) (read_turns (draft_of self.old) (map (λ word. word.now) names.now)) }
    {
        for name in names {
            self.turn(name)?;
        }
        Ok(())
    }

    /// Reads a line by its words.
    #[tactic(auto, unfolding(crate::specs::ScriptLines::statement))]
    fn statement(&mut self, alloc: Global, words: &[&[u8]]) -> Result<(), LineError>
        requires { length self.old.threads ≤ most_threads }
        ensures { LeavesDraft result (draft_of self.new) (statement (draft_of self.old) (map (λ word. word.now) words.now)) }
    {
        let [word, words @ ..] = words else {
            return Ok(());
        };
        if *word == b"order".as_slice() {
            self.order_line(words)
        } else {
            self.other_statement(alloc, word, words)
        }
    }

    /// Reads a line that isn't an `order` line: after one it may not stand, and after a `thread` line no declaration may.
    #[tactic(auto, unfolding(crate::specs::ScriptLines::other_statement, crate::specs::ScriptLines::unordered_statement, crate::specs::ScriptLines::plain_statement))]
    fn other_statement(
        &mut self,
        alloc: Global,
        word: &[u8],
        words: &[&[u8]],
    ) -> Result<(), LineError>
        requires { length self.old.threads ≤ most_threads }
        ensures { LeavesDraft result (draft_of self.new) (other_statement (draft_of self.old) word.now (map (λ word. word.now) words.now)) }
    {
        if self.order.len() != 0 {
            Err(Fault::UnknownWord.into())
        } else if word == b"thread".as_slice() {
            self.thread_line(alloc, words)
        } else if self.name.is_some() {
            self.thread_statement(alloc, word, words)
        } else {
            self.declaration(alloc, word, words)
        }
    }

    /// Reads a line of a thread.
    #[tactic(auto, unfolding(crate::specs::ScriptLines::thread_statement))]
    fn thread_statement(
        &mut self,
        alloc: Global,
        word: &[u8],
        words: &[&[u8]],
    ) -> Result<(), LineError>
        requires { length self.old.threads ≤ most_threads }
        ensures { LeavesDraft result (draft_of self.new) (thread_statement (draft_of self.old) word.now (map (λ word. word.now) words.now)) }
    {
        let found = call_word_of(word).ok_or(Fault::UnknownWord)?;
        self.call_line(alloc, found, words)
    }

    /// Reads a line.
    #[tactic(auto, unfolding(crate::specs::ScriptLines::read_line))]
    pub(crate) fn read_line(&mut self, alloc: Global, line: &[u8]) -> Result<(), LineError>
        requires { HasFewThreads (draft_of self.old) }
        ensures { LeavesDraft result (draft_of self.new) (read_line (draft_of self.old) line.now) }
    {
        if is_comment(line) {
            Ok(())
        } else {
            self.open_line(alloc, line)
        }
    }

    #[tactic(auto, unfolding(crate::specs::ScriptLines::open_line))]
    fn open_line(&mut self, alloc: Global, line: &[u8]) -> Result<(), LineError>
        requires { HasFewThreads (draft_of self.old) }
        ensures { LeavesDraft result (draft_of self.new) (open_line (draft_of self.old) line.now) }
    {
        if ends_thread(line) {
            self.end_thread(alloc)?;
            self.words_line(alloc, line)
        } else {
            self.words_line(alloc, line)
        }
    }

    #[tactic(auto, unfolding(crate::specs::ScriptLines::words_line))]
    fn words_line(&mut self, alloc: Global, line: &[u8]) -> Result<(), LineError>
        requires { length self.old.threads ≤ most_threads }
        ensures { LeavesDraft result (draft_of self.new) (words_line (draft_of self.old) line.now) }
    {
        let words = words_of(alloc, line)?;
        self.statement(alloc, &words)
    }
}
