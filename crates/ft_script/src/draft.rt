//! What the lines above a place say.
ghost use Rattle.ft_model.specs.Limits.{most_threads};
ghost use Rattle.ft_script.specs.Drafts.{empty_draft, script_of, end_thread};
ghost use Rattle.ft_script.specs.Internal.Outcomes.{HasFewThreads, LeavesDraft, draft_of};
ghost use Rattle.ft_model.specs.Scripts.{default_tables};
ghost use Rattle.std.specs.List.{zip};
ghost use Rattle.std.specs.Option.{unwrap_or};
ghost use Rattle.std.specs.Prelude.{◌≡◌, ◌≤◌, IfOk, OnOk, length, map};

use crate::declarations::{CursorNames, Declarations};
use crate::fault::{Fault, LineError};
use crate::strings::Strings;
use ft_model::{CLASS_COUNT, Call, ScriptParts, Sequence, Text, Thread};
use std::alloc::{AllocError, Global};

/// How many tables a class has where no line names their number: 4 of each class to 12, 1 of each
/// above.
const DEFAULT_TABLES: [u32; CLASS_COUNT] = [4, 4, 4, 4, 4, 4, 4, 4, 4, 4, 1, 1, 1, 1];

/// How many places each heap has where no line names their number.
const DEFAULT_HEAP: u32 = 64;

/// What the lines above a place say.
#[derive(Drop)]
pub(crate) struct Draft {
    /// Whether `version 2` stands above, so that threads may await others.
    pub awaits: bool,
    /// The containers that are declared.
    pub containers: Declarations,
    /// The numbers of tables that lines name, from class 3 on.
    pub tables: [Option<u32>; CLASS_COUNT],
    /// The number of heap places that a line names.
    pub heap: Option<u32>,
    /// The threads whose calls have ended.
    pub threads: Sequence<Thread>,
    /// The name of the thread whose calls stand here.
    pub name: Option<Text>,
    /// Its cursors.
    pub cursors: CursorNames,
    /// Its calls.
    pub calls: Sequence<Call>,
    /// How many of its sections are open.
    pub depth: u32,
    /// How many calls all threads have.
    pub called: u32,
    /// The distinct strings.
    pub strings: Strings,
    /// The threads that `order` lines name.
    pub order: Sequence<u32>,
}

impl Draft {
    /// Nothing is declared.
    pub(crate) fn empty(alloc: Global) -> Self
        ensures { draft_of result ≡ empty_draft }
    {
        Draft {
            awaits: false,
            containers: Declarations::new(alloc),
            tables: [None; CLASS_COUNT],
            heap: None,
            threads: Sequence::new(alloc),
            name: None,
            cursors: CursorNames::new(alloc),
            calls: Sequence::new(alloc),
            depth: 0,
            called: 0,
            strings: Strings::new(alloc),
            order: Sequence::new(alloc),
        }
    }

    /// Ends the calls of the thread, if one's calls stand here.
    #[tactic(auto, unfolding(crate::specs::Drafts::end_thread))]
    pub(crate) fn end_thread(&mut self, alloc: Global) -> Result<(), LineError>
        ensures read { LeavesDraft result (draft_of self.new) (end_thread (draft_of self.old)) }
        ensures few { OnOk result (HasFewThreads (draft_of self.old) → length self.new.threads ≤ most_threads) }
    {
        let Some(name) = self.name.take() else {
            return Ok(());
        };
        if self.depth != 0 {
            return Err(Fault::BeginWithoutEnd.into());
        }
        let cursors = std::mem::replace(&mut self.cursors, CursorNames::new(alloc));
        let calls = std::mem::replace(&mut self.calls, Sequence::new(alloc));
        self.threads.push(Thread {
            name,
            cursors: cursors.into_sequence(),
            calls,
        })?;
        Ok(())
    }

    /// The script of all lines.
    pub(crate) fn into_parts(self, alloc: Global) -> Result<ScriptParts, AllocError>
        ensures { IfOk result (λ parts. parts ≡ script_of (draft_of self)) }
    {
        let tables = table_counts(alloc, &self.tables)?;
        Ok(ScriptParts {
            shared: Sequence::new(alloc),
            containers: self.containers.into_sequence(),
            threads: self.threads,
            strings: Sequence::from_vec(self.strings.into_texts()?),
            tables: Sequence::from_vec(tables),
            heap: self.heap.unwrap_or(DEFAULT_HEAP),
            order: self.order,
        })
    }
}

/// How many tables each class has, where these are the numbers that lines name.
fn table_counts(alloc: Global, named: &[Option<u32>]) -> Result<Vec<u32>, AllocError>
    ensures { IfOk result (λ counts. counts.items ≡ map (λ both. unwrap_or both.0 both.1) (zip named.now default_tables)) }
{
    named
        .iter()
        .zip(DEFAULT_TABLES.iter())
        .map(|(count, default)| count.unwrap_or(*default))
        .collect(alloc)
}
