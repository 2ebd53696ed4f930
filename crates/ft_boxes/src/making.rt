//! Boxes are made: a free place of the pass's own heap is taken, the value and the local count are put there, and the
//! shared word last.
ghost use Rattle.std.specs.Prelude.{◌≡◌, ◌≢◌, ℕ, ◌/◌, ◌<◌, false, IfSome, IfNone};
ghost use Rattle.ft_layout.specs.declared.slot.Stored.TheVariants.{Plain};
ghost use Rattle.ft_layout.specs.Words.{FitsStored};
ghost use Rattle.ft_model.specs.declared.data.Value.TheVariants as values;
ghost use Rattle.ft_trace.specs.Acts.{is_writing};
ghost use Rattle.ft_trace.specs.Boxes.{IsSettled};
ghost use Rattle.ft_bank.specs.BoxSteps.{IsBoxIn, IsMaking};
ghost use Rattle.ft_bank.specs.Passes.{shape_of, view, IsPassOf};
ghost use Rattle.ft_bank.specs.PassSections.{stack_of};
ghost use Rattle.ft_bank.specs.SameBoxes.{HoldsFew, SameBoxes};
ghost use Rattle.ft_bank.specs.Whole.{OnlyBoxed};
ghost use Rattle.ft_boxes.specs.Internal.Places.{FoundWordFull, HasFilled, HasTakenPlace};
ghost use Rattle.ft_boxes.specs.Making.{FoundFull, FoundHeapFull, Makes};
ghost use Rattle.ft_boxes.specs.References.{KeepsValues};

use crate::held::{Held, Made};
use ft_bank::{Bank, Pass};
use ft_layout::{Ref, Stored, item_words};
use ft_model::Value;

/// How many places a word of bits has.
pub(crate) const BITS: u32 = 64;
/// Which words of a box the kind, the payload and the local count are.
const KIND: u64 = 1;

const PAYLOAD: u64 = 2;

const LOCAL: u64 = 3;

/// Makes a box of a value that isn't `None`, at a free place of the pass's own heap, while the pass writes no container:
/// it holds the box's one reference. It looks first at the word of bits in which it took the last place, and where that
/// has no free place at all words from the first on, up to one that has; it takes the first place that is free there by
/// one locked step, and puts four words.
///
/// `HeapFull` comes only where each word of bits of the heap was 0 when this call loaded it, and no place was taken.
pub fn make(bank: &Bank, pass: &mut Pass, value: Value) -> Made
    requires pass { IsPassOf bank.now pass.old }
    requires settled { IsSettled (view pass.old).log }
    requires few { HoldsFew (view pass.old) }
    requires idle { (o : ℕ) → is_writing o (view pass.old).log ≡ false }
    requires value { value ≢ values.Nothing }
    ensures pass { IsPassOf bank.now pass.new }
    ensures sections { stack_of pass.new ≡ stack_of pass.old }
    ensures settled { IsSettled (view pass.new).log }
    ensures only { OnlyBoxed (view pass.old) (view pass.new) }
    ensures made { Makes value (view pass.old) (view pass.new) result }
    ensures values { KeepsValues (view pass.old) (view pass.new) }
{
    match take_free(bank, pass) {
        Some(b) => {
            value_fits(value);
            fill(bank, pass, b, value);
            Made::Up(Held { at: b })
        }
        None => Made::HeapFull,
    }
}

/// Takes a free place of the pass's own heap, if there is one: in the word of bits in which it took the last one, or else
/// the first.
fn take_free(bank: &Bank, pass: &mut Pass) -> Option<Ref>
    requires pass { IsPassOf bank.now pass.old }
    requires settled { IsSettled (view pass.old).log }
    requires idle { (o : ℕ) → is_writing o (view pass.old).log ≡ false }
    ensures pass { IsPassOf bank.now pass.new }
    ensures sections { stack_of pass.new ≡ stack_of pass.old }
    ensures only { OnlyBoxed (view pass.old) (view pass.new) }
    ensures taken { IfSome result (λ b. HasTakenPlace b (view pass.old) (view pass.new)) }
    ensures full { IfNone result (FoundHeapFull (view pass.old) (view pass.new)
        × SameBoxes (view pass.old) (view pass.new)) }
    ensures values { KeepsValues (view pass.old) (view pass.new) }
{
    let word = pass.heap_word();
    if word >= bank.heap() / BITS {
        return take_first(bank, pass);
    }
    match take_in(bank, pass, word) {
        Some(b) => Some(b),
        None => take_first(bank, pass),
    }
}

/// Takes the first free place of the pass's own heap, if there is one, and notes its word of bits.
fn take_first(bank: &Bank, pass: &mut Pass) -> Option<Ref>
    requires pass { IsPassOf bank.now pass.old }
    requires settled { IsSettled (view pass.old).log }
    requires idle { (o : ℕ) → is_writing o (view pass.old).log ≡ false }
    ensures pass { IsPassOf bank.now pass.new }
    ensures sections { stack_of pass.new ≡ stack_of pass.old }
    ensures only { OnlyBoxed (view pass.old) (view pass.new) }
    ensures taken { IfSome result (λ b. HasTakenPlace b (view pass.old) (view pass.new)) }
    ensures full { IfNone result (FoundFull ((shape_of bank.now).heap / 64) (view pass.old) (view pass.new)
        × SameBoxes (view pass.old) (view pass.new)) }
    ensures values { KeepsValues (view pass.old) (view pass.new) }
{
    for word in 0..bank.heap() / BITS {
        match take_in(bank, pass, word) {
            Some(b) => {
                pass.put_heap_word(word);
                return Some(b);
            }
            None => {}
        }
    }
    None
}

/// Takes the first free place that a word of bits of the pass's own heap has, if it has one.
fn take_in(bank: &Bank, pass: &mut Pass, word: u32) -> Option<Ref>
    requires pass { IsPassOf bank.now pass.old }
    requires settled { IsSettled (view pass.old).log }
    requires idle { (o : ℕ) → is_writing o (view pass.old).log ≡ false }
    requires word { word < (shape_of bank.now).heap / 64 }
    ensures pass { IsPassOf bank.now pass.new }
    ensures sections { stack_of pass.new ≡ stack_of pass.old }
    ensures only { OnlyBoxed (view pass.old) (view pass.new) }
    ensures taken { IfSome result (λ b. HasTakenPlace b (view pass.old) (view pass.new)) }
    ensures full { IfNone result (FoundWordFull word (view pass.old) (view pass.new)
        × SameBoxes (view pass.old) (view pass.new)) }
    ensures values { KeepsValues (view pass.old) (view pass.new) }
{
    let maker = pass.number();
    let free = bank.read_free_places(pass, maker, word);
    if free == 0 {
        return None;
    }
    let b = Ref {
        pass: maker,
        place: BITS * word + free.trailing_zeros(),
    };
    bank.take_place(pass, b);
    Some(b)
}

/// A value's integer has 64 bits, and its string's number 32, so that words can represent it.
fn value_fits(value: Value)
    ensures { FitsStored (Plain value) }
{
    match value {
        Value::Nothing => {}
        Value::Int(integer) => {
            let _word = integer;
        }
        Value::Text(sym) => {
            let _number = sym.0;
        }
    }
}

/// Puts the value and the local count 1 into a box that the pass makes, and then the shared word.
fn fill(bank: &Bank, pass: &mut Pass, b: Ref, value: Value)
    requires pass { IsPassOf bank.now pass.old }
    requires name { IsBoxIn (shape_of bank.now) b }
    requires making { IsMaking b (view pass.old) }
    requires few { HoldsFew (view pass.old) }
    requires value { value ≢ values.Nothing }
    requires fits { FitsStored (Plain value) }
    ensures pass { IsPassOf bank.now pass.new }
    ensures sections { stack_of pass.new ≡ stack_of pass.old }
    ensures only { OnlyBoxed (view pass.old) (view pass.new) }
    ensures filled { HasFilled b value (view pass.old) (view pass.new) }
{
    let [_, kind, payload, _] = item_words(Stored::Plain(value));
    bank.put_box(pass, b, KIND, kind);
    bank.put_box(pass, b, PAYLOAD, payload);
    bank.put_box(pass, b, LOCAL, 1);
    bank.publish_box(pass, b);
}
