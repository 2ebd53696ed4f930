//! Callers that meet: a pass makes a note of what it has seen, and another pass of the bank learns it. So the
//! two stand in one history that begins with what each had seen.
ghost use Rattle.std.specs.Prelude.{◌≡◌, ◌≤◌, ℕ};
ghost use Rattle.ft_trace.specs.declared.Act.TheVariants.{ReadCounter};
ghost use Rattle.ft_trace.specs.Acts.{own_told, shown, view_after};
ghost use Rattle.ft_bank.specs.Notes.{says, told_by, writes_seen, knowing, IsNoteOf};

use crate::bank::Bank;
use crate::note::Note;
use crate::pass::Pass;
use crate::rule::Notes;
use crate::tokens::Resting;
use std::marker::Brand;

impl Bank {
    ghost use Rattle.ft_bank.specs.Passes.{view, IsPassOf, DidNothing};
    ghost use Rattle.ft_bank.specs.PassSections.{stack_of};
    ghost use Rattle.ft_bank.specs.Floors.{rests, IsRestingOf, stack_at_rest};

    /// Makes a note of how many writes the pass has seen, and of the entries that it has made.
    pub fn note(&self, pass: &mut Pass) -> Note
        requires pass { IsPassOf self.now pass.old }
        ensures pass { DidNothing pass.old pass.new }
        ensures note { IsNoteOf self.now result }
        ensures says { says result ≡ writes_seen pass.old }
        ensures told { told_by result ≡ own_told (view pass.old) }
    {
        let seat = self.table.shared.split_seat::<Notes>(&mut pass.seat);
        Note { seat }
    }

    /// Makes a note of a pass that rests, as [`Bank::note`] does. The pass goes on resting.
    pub fn note_resting(&self, resting: &mut Resting) -> Note
        requires resting { IsRestingOf self.now resting.old }
        ensures resting { IsRestingOf self.now resting.new × (rests resting.new ≡ rests resting.old) }
        ensures sections { stack_at_rest resting.new ≡ stack_at_rest resting.old }
        ensures note { IsNoteOf self.now result }
        ensures says { says result ≡ shown (rests resting.old).log }
        ensures told { told_by result ≡ own_told (rests resting.old) }
    {
        let seat = self.table.shared.split_seat::<Notes>(&mut resting.seat);
        Note { seat }
    }

    /// Learns a note of a pass of this bank, and loads the counter: the pass has then seen all that the
    /// note's maker had, so each number that the counter gives it from now on is at least that.
    pub fn learn(&self, pass: &mut Pass, note: Note)
        requires pass { IsPassOf self.now pass.old }
        requires note { IsNoteOf self.now note }
        ensures pass { IsPassOf self.now pass.new }
        ensures sections { stack_of pass.new ≡ stack_of pass.old }
        ensures view { (n : ℕ) × (view pass.new ≡ view_after (ReadCounter n) (knowing (says note) (told_by note) (view pass.old)))
            × (says note ≤ n) × (writes_seen pass.old ≤ n) }
        ensures seen { (says note ≤ writes_seen pass.new) × (writes_seen pass.old ≤ writes_seen pass.new) }
    {
        let Note { seat } = note;
        self.settle_as::<Brand>(&mut pass.seat, seat);
    }
}
