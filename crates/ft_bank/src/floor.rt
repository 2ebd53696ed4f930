//! The floor, for one caller that holds all passes of a bank: while one of them has all tokens no other can
//! take a step, so it knows every word, and what each of its steps finds. The others rest.
ghost use Rattle.std.specs.Prelude.{◌≡◌, ◌≢◌, ◌<◌, ℕ, true, []};
ghost use Rattle.ft_trace.specs.declared.Act.TheVariants.{ReadCounter, TakeFloor};
ghost use Rattle.ft_trace.specs.declared.Snap.{Snap};
ghost use Rattle.ft_trace.specs.Acts.{view_after, both, sender, note, floor_words};
ghost use Rattle.ft_trace.specs.Traces.{IsFree, IsQuiet};
ghost use Rattle.ft_bank.specs.Retired.{TakesOver};
ghost use Rattle.ft_bank.specs.Floors.{rests, carried, IsRestingOf, AreTokensOf, stack_at_rest};

use crate::bank::Bank;
use crate::pass::Pass;
use crate::retired::merge;
use crate::rule::{Floor, Gives, Keeps, Shares};
use crate::tokens::{Resting, Tokens};
use std::marker::Brand;

impl Bank {
    ghost use Rattle.ft_bank.specs.Passes.{shape_of, view, IsPassOf, Did};
    ghost use Rattle.ft_bank.specs.PassSections.{stack_of};

    /// Gives all tokens of a pass away, which rests from then on: it writes no container, has no fresh table in
    /// hand, and is in the midst of no taking or giving.
    pub fn rest(&self, pass: Pass) -> (Resting, Tokens)
        requires pass { IsPassOf self.now pass }
        requires quiet { IsQuiet (view pass) }
        ensures resting { IsRestingOf self.now result.0 × (rests result.0 ≡ sender (view pass).tokens (view pass)) }
        ensures sections { stack_at_rest result.0 ≡ stack_of pass }
        ensures tokens { AreTokensOf self.now result.1 × (carried result.1 ≡ note (view pass).tokens (view pass)) }
    {
        let Pass {
            number,
            next,
            left,
            sections,
            own,
            mark,
            retired,
            heap_word,
            mut seat,
        } = pass;
        let tokens = self.table.shared.split_seat::<Gives>(&mut seat);
        let resting = Resting {
            number,
            next,
            left,
            sections,
            own,
            mark,
            retired,
            heap_word,
            seat,
        };
        (resting, Tokens { seat: tokens })
    }

    /// Gives the tokens of another pass to this one, which loads the counter.
    pub fn gather(&self, pass: &mut Pass, tokens: Tokens)
        requires pass { IsPassOf self.now pass.old }
        requires tokens { AreTokensOf self.now tokens }
        ensures pass { IsPassOf self.now pass.new }
        ensures sections { stack_of pass.new ≡ stack_of pass.old }
        ensures view { (n : ℕ) × (view pass.new ≡ view_after (ReadCounter n) (both (view pass.old) (carried tokens))) }
    {
        let Tokens { seat } = tokens;
        self.settle_as::<Brand>(&mut pass.seat, seat);
    }

    /// Takes the floor, by a pass that has all tokens: it knows all words from then on.
    pub fn take_floor(&self, pass: &mut Pass)
        requires pass { IsPassOf self.now pass.old }
        requires all { (view pass.old).tokens ≡ (shape_of self.now).passes }
        ensures did { (n : ℕ) × (s : Snap) × Did (TakeFloor n s) pass.old pass.new }
    {
        self.table.shared.load::<Keeps<Floor>>(&mut pass.seat, 0);
    }

    /// Gives all tokens to a pass that rests, and the floor. Where the tokens bring the words, it knows the
    /// same words.
    pub fn wake(&self, resting: Resting, tokens: Tokens) -> Pass
        requires resting { IsRestingOf self.now resting }
        requires tokens { AreTokensOf self.now tokens }
        requires all { (carried tokens).tokens ≡ (shape_of self.now).passes }
        ensures pass { IsPassOf self.now result }
        ensures sections { stack_of result ≡ stack_at_rest resting }
        ensures view { (n : ℕ) × (s : Snap) × (view result ≡ view_after (TakeFloor n s) (both (rests resting) (carried tokens)))
            × ((carried tokens).floor ≢ [] → s.words ≡ (carried tokens).floor) }
    {
        let Resting {
            number,
            next,
            left,
            sections,
            own,
            mark,
            retired,
            heap_word,
            mut seat,
        } = resting;
        let Tokens { seat: tokens } = tokens;
        self.table.shared.join_seat::<Shares>(&mut seat, tokens);
        self.table.shared.load::<Keeps<Floor>>(&mut seat, 0);
        Pass {
            number,
            next,
            left,
            sections,
            own,
            mark,
            retired,
            heap_word,
            seat,
        }
    }

    /// Takes in a pass that rests, as `join` takes in another.
    pub fn join_resting(&self, pass: &mut Pass, other: Resting)
        requires pass { IsPassOf self.now pass.old }
        requires other { IsRestingOf self.now other }
        requires last { (rests other).next ≡ 0 }
        requires free { IsFree (rests other) }
        requires sections { (stack_at_rest other).sections ≡ [] }
        ensures pass { IsPassOf self.now pass.new }
        ensures sections { stack_of pass.new ≡ stack_of pass.old }
        ensures view { (n : ℕ) × (view pass.new ≡ view_after (ReadCounter n) (both (view pass.old) (rests other))) }
        ensures tables { TakesOver (view pass.old) (rests other) (view pass.new) }
    {
        let Resting {
            number: _,
            next: _,
            left,
            sections: _,
            own: _,
            mark: _,
            retired,
            heap_word: _,
            seat,
        } = other;
        self.settle_as::<Brand>(&mut pass.seat, seat);
        merge(&mut *pass.retired, &*retired);
        pass.left += left;
    }
}
