//! What a call comes to under its locks that may take a table, and the MemoryErrors that it answers.
ghost use Rattle.std.specs.Prelude.{◌≡◌, ◌<◌, List, ◌∷◌, true, false, Some};
ghost use Rattle.ft_model.specs.TableUses.{StoredWorld, CanLackMemory, takes_in, would_pass};
ghost use Rattle.ft_model.specs.declared.reply.Raise.TheVariants as raise;
ghost use Rattle.ft_model.specs.declared.reply.Reply.TheVariants as reply;
ghost use Rattle.ft_trace.specs.declared.Act.{Act};
ghost use Rattle.ft_trace.specs.declared.Act.TheVariants.{ReadCount};
ghost use Rattle.ft_trace.specs.Acts.{owes};
ghost use Rattle.ft_trace.specs.Causes.{CanLackPlace, HeapIsFull};
ghost use Rattle.ft_bank.specs.Answered.{Answered};
ghost use Rattle.ft_bank.specs.Passes.{view, IsPassOf};
ghost use Rattle.ft_bank.specs.PassSections.{stack_of};
ghost use Rattle.ft_bank.specs.WriteSteps.{MayHave};

use ft_bank::{Bank, Pass};
use ft_model::{Call, Raise, Reply};
use ft_search::answer_held;
use ft_section::Stamp;

/// What a call comes to under its locks that may take a table.
#[derive(Clone, Copy, Debug, PartialEq, Eq)]
pub enum Added {
    /// The write was made, with this stamp.
    Made(Stamp),
    /// No table of this class was free: the entry of a MemoryError, with this stamp.
    NoTable(u32, Stamp),
    /// The container would have more than the largest table holds: the entry of a MemoryError, with this stamp.
    Over(Stamp),
    /// No place of the pass's heap was free: the entry of a MemoryError, with this stamp.
    NoPlace(Stamp),
    /// Other passes took or gave tables of the class meanwhile: a word was the first number and then the
    /// second. The same call comes next.
    Moved(u64, u64),
}

impl Added {
    /// The same, taken apart and put together again. A function that has answered into room in memory isn't in the way
    /// then of arms whose answer is known.
    #[inline(always)]
    pub fn anew(self) -> Added
        ensures { result ≡ self }
    {
        match self {
            Added::Made(stamp) => Added::Made(stamp),
            Added::NoTable(class, stamp) => Added::NoTable(class, stamp),
            Added::Over(stamp) => Added::Over(stamp),
            Added::NoPlace(stamp) => Added::NoPlace(stamp),
            Added::Moved(first, second) => Added::Moved(first, second),
        }
    }
}

/// Raises a MemoryError of a class whose count was found 0 just now, in the place of a call that would take a
/// table of it: its entry, at a load of the counter.
pub fn answer_no_table(bank: &Bank, pass: &mut Pass, called: &Call, class: u32) -> Stamp
    requires pass { IsPassOf bank.now pass.old }
    requires empty { (rest : List Act) × ((view pass.old).log ≡ ReadCount class 0 ∷ rest) × (owes rest ≡ 0) }
    requires left { 0 < (view pass.old).left }
    requires lacks { (stored : StoredWorld) → MayHave (view pass.old) stored → CanLackMemory stored.world called.now
        × (would_pass stored.world called.now ≡ false) × (takes_in stored called.now ≡ Some class) }
    ensures pass { IsPassOf bank.now pass.new }
    ensures stack { stack_of pass.new ≡ stack_of pass.old }
    ensures wrote { result.wrote ≡ false }
    ensures answered { Answered called.now (reply.Raised (raise.Memory class)) result.number (view pass.old) (view pass.new) }
{
    let said = Reply::Raised(Raise::Memory(class));
    let (_, stamp) = answer_held(bank, pass, called, said);
    stamp
}

/// Raises a MemoryError in the place of a call that would leave more than the largest table holds: its entry,
/// at a load of the counter.
pub fn answer_over(bank: &Bank, pass: &mut Pass, called: &Call) -> Stamp
    requires pass { IsPassOf bank.now pass.old }
    requires left { 0 < (view pass.old).left }
    requires over { (stored : StoredWorld) → MayHave (view pass.old) stored → CanLackMemory stored.world called.now
        × (would_pass stored.world called.now ≡ true) }
    ensures pass { IsPassOf bank.now pass.new }
    ensures stack { stack_of pass.new ≡ stack_of pass.old }
    ensures wrote { result.wrote ≡ false }
    ensures answered { Answered called.now (reply.Raised raise.Over) result.number (view pass.old) (view pass.new) }
{
    let said = Reply::Raised(Raise::Over);
    let (_, stamp) = answer_held(bank, pass, called, said);
    stamp
}

/// Raises a MemoryError of a heap in the place of a call that would put a value in a box, by a pass that found its own
/// heap full just now: its entry, at a load of the counter.
pub fn answer_full(bank: &Bank, pass: &mut Pass, called: &Call) -> Stamp
    requires pass { IsPassOf bank.now pass.old }
    requires left { 0 < (view pass.old).left }
    requires full { HeapIsFull (view pass.old).shape (view pass.old).number (view pass.old).log }
    requires lacks { (stored : StoredWorld) → MayHave (view pass.old) stored → CanLackPlace stored.world called.now
        × (would_pass stored.world called.now ≡ false) }
    ensures pass { IsPassOf bank.now pass.new }
    ensures stack { stack_of pass.new ≡ stack_of pass.old }
    ensures wrote { result.wrote ≡ false }
    ensures answered { Answered called.now (reply.Raised raise.Heap) result.number (view pass.old) (view pass.new) }
{
    let said = Reply::Raised(Raise::Heap);
    let (_, stamp) = answer_held(bank, pass, called, said);
    stamp
}
