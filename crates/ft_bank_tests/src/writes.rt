//! The smallest whole write, for tests that need writes and no table: a list that has nothing is reversed.
ghost use Rattle.std.specs.Prelude.{◌≡◌, ℕ, ◌<◌, IfSome, None};
ghost use Rattle.ft_model.specs.declared.call.Call.TheVariants as call;
ghost use Rattle.ft_model.specs.declared.call.ListCall.TheVariants as list;
ghost use Rattle.ft_model.specs.declared.reply.Reply.TheVariants as reply;
ghost use Rattle.ft_trace.specs.Boxes.{HasMergedBoxes};
ghost use Rattle.ft_trace.specs.Pictures.{root_in};
ghost use Rattle.ft_trace.specs.Holds.{held_words};
ghost use Rattle.ft_bank.specs.Passes.{shape_of, view, IsPassOf};
ghost use Rattle.ft_bank.specs.PassSections.{stack_of};
ghost use Rattle.ft_bank.specs.SameBoxes.{times_raised};
ghost use Rattle.ft_bank.specs.Whole.{OnlyLoaded, Wrote};
ghost use Rattle.ft_bank_tests.specs.SmallestWrites.{MayReverse, Reversed};

use ft_bank::{Bank, Pass};
use ft_model::{Call, ListCall, Reply};

/// `l.reverse()` of a list whose root is 0, as one whole write. Answers its number.
fn reverse(bank: &Bank, pass: &mut Pass, l: u32) -> u64
    requires pass { IsPassOf bank.now pass.old }
    requires may { MayReverse (shape_of bank.now) l (view pass.old) }
    requires bare { root_in (held_words l (view pass.old)) ≡ 0 }
    ensures pass { IsPassOf bank.now pass.new }
    ensures stack { stack_of pass.new ≡ stack_of pass.old }
    ensures wrote { Wrote (call.List l list.Reverse) reply.Done result (view pass.old) (view pass.new) }
    ensures still_bare { root_in (held_words l (view pass.new)) ≡ 0 }
    ensures merged { HasMergedBoxes (view pass.old).log → HasMergedBoxes (view pass.new).log }
    ensures raised { (b : ℕ) → times_raised b (view pass.new).log ≡ times_raised b (view pass.old).log }
{
    let called = Call::List {
        container: l,
        call: ListCall::Reverse,
    };
    bank.start_write(pass, l);
    let number = bank.commit(pass, &called, &Reply::Done);
    bank.stop_write(pass, l);
    number
}

/// `l.reverse()` under the lock, where the list's root is 0: one whole write, whose number is answered. Where the
/// root names a table the pass has only loaded it, and nothing is answered.
pub fn reverse_bare(bank: &Bank, pass: &mut Pass, l: u32) -> Option<u64>
    requires pass { IsPassOf bank.now pass.old }
    requires may { MayReverse (shape_of bank.now) l (view pass.old) }
    ensures pass { IsPassOf bank.now pass.new }
    ensures stack { stack_of pass.new ≡ stack_of pass.old }
    ensures reversed { IfSome result (λ number. Reversed l number (view pass.old) (view pass.new)) }
    ensures none { result ≡ None → OnlyLoaded (view pass.old) (view pass.new) }
{
    if bank.read_block(pass, l, 0) != 0 {
        return None;
    }
    Some(reverse(bank, pass, l))
}
