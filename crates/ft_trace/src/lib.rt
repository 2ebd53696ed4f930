//! What passes may do to the words of a bank of containers, as plain data: actions, what a pass
//! knows, and laws on every order in which passes may act.
//!
//! A trace is the list of the events of a bank, newest first. Nothing of it is kept while a program
//! runs: the bank's rule says that there is a trace which gives the words and what each pass knows.
//!
//! ```text
//!     events, newest first                      what they give
//!
//!     did 1 (ReadCounter 7)   ──── run ───▶     words   0      1       2..   66..    80..    304..   then    then
//!     did 0 (StopWrite d)                              ┌──────┬───────┬─────┬──────┬───────┬───────┬───────┬────────┐
//!     did 0 (Commit ..)                                │ coun-│ write │ an- │ free │ free  │ block │ heap  │ tables │
//!     did 1 (ReadTable ..)                             │ ter  │ number│noun-│ table│ tables│ of a  │ of a  │ class  │
//!     did 0 (PutTable ..)                              │      │       │ ced │ count│ by bit│ cont. │ pass  │ by cl. │
//!     did 0 (StartWrite d)                             └──────┴───────┴─────┴──────┴───────┴───────┴───────┴────────┘
//!     did 0 (Lock d)
//!     forked 0                ──── run ───▶     views   of pass 0, of pass 1: number, log of its own actions,
//!     (the start)                                       entries, how many passes it stands for, calls left
//! ```
//!
//! Each action is one atomic step on one word. An event is valid where its condition (`May`) held at
//! the moment of the event, and a trace is valid where each of its events was. So what holds of each
//! valid trace holds of the bank between any two steps of any passes. The conditions are what the
//! bank asks of its callers; the laws are what it gives them.
//!
//! A new kind of step is one more action with the word that it is about, what it leaves there, and
//! its condition; each law is then proved for it, mostly by the clause for all actions that leave
//! the words of that law alone.
#![tactic(auto)]

use ft_model::{Call, Cursor, Reply, Start};
use std::collections::LinkedList;

/// What stood in the bank at one moment: its words, and the writes before it, newest first.
pub struct Snap {
    /// The words, by address.
    pub words: LinkedList<u64>,
    /// The writes, newest first.
    pub calls: LinkedList<Call>,
}

/// One atomic action of a pass, with the number that it found where it reports that.
pub enum Act {
    /// Takes the lock of a container where it is free: the container, what was found.
    Lock(u64, u64, Snap),
    /// Lets go of the lock of a container.
    Unlock(u64),
    /// Makes the version of a container odd.
    StartWrite(u64, u64),
    /// Puts a word of a container's block that isn't its root: the container, the word among words 2
    /// to 7 of the block, from 0 on, and what it becomes.
    PutBlock(u64, u64, u64),
    /// Puts a root: the container, its new root and the old one.
    PutRoot(u64, u64, u64),
    /// Puts a word of the table of a container: the container, its table, the word and what it becomes.
    PutTable(u64, u64, u64, u64),
    /// Puts a word of a table that stood in no root yet: the table, the word and what it becomes.
    PutFresh(u64, u64, u64),
    /// Puts the goal of a table that the pass retired into the table's header.
    PutHeader(u64, u64),
    /// Loads the goal in the header of a table.
    ReadHeader(u64, u64),
    /// Raises the counter, which is the write: the call, its reply, its number.
    Commit(Call, Reply, u64, Snap),
    /// Makes the version of a container even.
    StopWrite(u64, u64),
    /// Loads the version of a container.
    Version(u64, u64),
    /// Loads a word of a container's block, as `PutBlock` names it.
    ReadBlock(u64, u64, u64),
    /// Loads a root, by a pass that is online.
    ReadRoot(u64, u64),
    /// Loads a word of a table.
    ReadTable(u64, u64, u64),
    /// Loads the counter.
    ReadCounter(u64),
    /// Gives the reply of a call that isn't a write, with its stamp; the load of the counter that
    /// comes with it tells nothing.
    Answer(Call, Reply, u64),
    /// Gives the reply of an `iter` or a `next` in the same way: the call, its reply, its stamp, the
    /// number of its cursor, the cursor that the pass had under it, and the one that the call leaves.
    AnswerCursor(Call, Reply, u64, u64, Option<Cursor>, Cursor),
    /// Lowers the count of a class: the class, the count that it is lowered from, and what was found.
    LowerCount(u64, u64, u64),
    /// Raises the count of a class.
    RaiseCount(u64, u64),
    /// Loads the count of a class.
    ReadCount(u64, u64),
    /// Loads a free word.
    ReadFree(u64, u64),
    /// Clears the bit of a table: the table, the free word that was found.
    TakeTable(u64, u64, Snap),
    /// Sets the bit of a table.
    GiveTable(u64),
    /// Raises the write number: the table that is retired, the write number that was found.
    Retire(u64, u64),
    /// Puts a pass's announced number: the pass, what it announces, 0 for offline.
    Announce(u64, u64),
    /// Loads the announced number of a pass.
    ReadAnnounced(u64, u64),
    /// Loads the write number.
    WriteNumber(u64),
    /// Loads the counter and keeps what stands in the bank, by a pass that has all tokens.
    TakeFloor(u64, Snap),
    /// Loads a word of the bits of a heap: the pass whose heap it is, which word, what was found.
    ReadFreePlaces(u64, u64, u64),
    /// Clears the bit of a place: the box, the word of bits that was found.
    TakePlace(u64, u64),
    /// Puts the kind, the payload or the local count of a box that is being made: the box, which word, what it
    /// becomes.
    PutBox(u64, u64, u64),
    /// Puts 0 into the shared word of a box that was made.
    PublishBox(u64),
    /// Loads a word of a box: the box, which word, what was found.
    ReadBox(u64, u64, u64),
    /// Raises the local count of a box: the box, what it becomes.
    RaiseLocal(u64, u64),
    /// Lowers the local count of a box: the box, what it becomes.
    DropLocal(u64, u64),
    /// Puts 0 into the local count of a box, which begins a merge.
    ClearLocal(u64),
    /// Adds to the shared word of a box what was taken out of its local count, and 3: the box, what is added, what
    /// was found.
    MergeCounts(u64, u64, u64),
    /// Raises the shared count of a box: the box, the shared word that it is raised from, and what was found.
    RaiseShared(u64, u64, u64),
    /// Raises the shared count of a box that is kept: the box, what was found.
    RaiseKept(u64, u64),
    /// Lowers the shared count of a box: the box, what was found.
    DropShared(u64, u64),
    /// Sets the bit of a place.
    GivePlace(u64),
    /// No step of its own: what the pass got when it took in another, the tables that the other kept
    /// retired, the locks that it has had, the owners that it has found, and what it was told.
    TookOver(LinkedList<Handed>, LinkedList<Owner>, LinkedList<Owner>, LinkedList<Told>),
}

/// A retired table that goes from one pass to another.
pub struct Handed {
    /// The table.
    pub table: u64,
    /// Its goal: the number that all must have announced before it is given back.
    pub goal: u64,
}

/// Whether a pass has been online from before its first entry until after its last.
pub enum Presence {
    /// It was never online, and has made no entry.
    Before,
    /// It has been online since before its first entry.
    Online,
    /// It was online from before its first entry until after its last, and has been offline since then.
    Over,
    /// It made an entry while it was offline, or came online a second time.
    Broken,
}

/// What was told of a pass: the entries that it had made, newest first, how many writes it had seen, and whether it was
/// online all the while.
pub struct Told {
    /// The pass: its number as lock words say it.
    pub pass: u64,
    /// How many writes it had seen.
    pub seen: u64,
    /// The entries that it had made, newest first.
    pub entries: LinkedList<Entry>,
    /// Whether it was online while it made them.
    pub presence: Presence,
}

/// A pass that had the lock of a container.
pub struct Owner {
    /// The container.
    pub container: u64,
    /// The pass: its number as lock words say it.
    pub pass: u64,
}

/// A call with its reply and its stamp.
pub struct Entry {
    /// The call.
    pub call: Call,
    /// What it was answered.
    pub reply: Reply,
    /// Its own number, if it is a write; else how many writes come before it.
    pub stamp: u64,
    /// Whether it is a write.
    pub wrote: bool,
}

/// How large the bank is.
pub struct Shape {
    /// How each container starts.
    pub starts: LinkedList<Start>,
    /// The hash of each string.
    pub texts: LinkedList<u64>,
    /// How many tables there are of each class, the least class first.
    pub tables: LinkedList<u64>,
    /// How many places for boxes each pass has.
    pub heap: u64,
    /// How many passes there are.
    pub passes: u64,
    /// How many calls each pass may make.
    pub calls: u64,
}

/// What a pass knows: its actions and its entries, newest first. No value of it is made.
pub struct View {
    /// What a lock word says that the pass holds: its number plus 1; 0 where the pass is spent.
    pub number: u64,
    /// The number of the next pass plus 1, or 0.
    pub next: u64,
    /// How many passes it stands for.
    pub parts: u64,
    /// The calls that it may still make.
    pub left: u64,
    /// The bank's shape.
    pub shape: Shape,
    /// What it did, newest first.
    pub log: LinkedList<Act>,
    /// Its own entries, newest first.
    pub entries: LinkedList<Entry>,
    /// The entries of each pass that it took in, a list for each, newest first; a note has none.
    pub lists: LinkedList<LinkedList<Entry>>,
    /// How many of the bank's tokens it has, of which there are as many as passes. A pass with none
    /// takes no step, so one with all of them is alone.
    pub tokens: u64,
    /// How many writes it knows of from notes and from passes that it took in; of a note, how many its
    /// maker had seen.
    pub learnt: u64,
    /// Whether it has kept all tokens since it took the floor.
    pub has_floor: bool,
    /// The words of the bank, where a note that it learnt with all tokens had them, and it has done
    /// nothing since.
    pub floor: LinkedList<u64>,
    /// Of a note, what it tells of its maker.
    pub told: LinkedList<Told>,
}

pub mod boxes;
pub mod laws;
pub mod notes;
pub mod order;
