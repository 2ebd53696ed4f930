//! Values that stand in boxes: what their words read, a put over one, the drop of a reference that no word has any
//! longer, and one more for a box that another container names.
ghost use Rattle.std.specs.Prelude.{◌≡◌, ◌≢◌, ℕ, ◌+◌, ◌/◌, ◌^◌, ◌<◌, ◌==◌, List, cond, slice_index};
ghost use Rattle.ft_trace.specs.declared.Act.{Act};
ghost use Rattle.ft_trace.specs.Addresses.{class_of, maker_of, place_in, IsBoxName};
ghost use Rattle.ft_trace.specs.Boxes.{names_box, references_held, IsSettled, KeepsBox};
ghost use Rattle.ft_trace.specs.BoxWords.{box_kind};
ghost use Rattle.ft_trace.specs.Holds.{held_words, held_unboxed};
ghost use Rattle.ft_bank.specs.BoxSteps.{kind_read, payload_read, HasReferenceFor, IsOpenValue};
ghost use Rattle.ft_bank.specs.Passes.{shape_of, view, IsPassOf};
ghost use Rattle.ft_bank.specs.PassSections.{stack_of};
ghost use Rattle.ft_bank.specs.SameBoxes.{GainsRaised, HoldsFew, SameReferences, TakesNoPlace};
ghost use Rattle.ft_bank.specs.Series.{DidAll};
ghost use Rattle.ft_bank.specs.TableNames.{table_id, IsPlaceOf};
ghost use Rattle.ft_bank.specs.Whole.{OnlyBoxed, OnlyLoaded, OnlyPut, OnlyWritten};
ghost use Rattle.ft_bank.specs.WriteSteps.{with_table};
ghost use Rattle.ft_boxes.specs.References.{KeepsValues};
ghost use Rattle.ft_search.specs.Boxed.{IsKnownBox, NamedAreKnown, SeesKnown, SeesValue, StandsBut, WritesTable, box_acts};
ghost use Rattle.ft_search.specs.KeyLooks.{AreLooks};
ghost use Rattle.ft_search.specs.SearchCosts.{index_reads};

use ft_bank::{Bank, Pass, Table};
use ft_boxes::{keep, raise_kept, taken};
use ft_layout::Ref;

/// The kind of a value that stands in a box.
pub(crate) const BOX_KIND: u64 = 4;
/// The kind, the payload: which words of a box they are.
const KIND: u64 = 1;

const PAYLOAD: u64 = 2;
/// The step between the names of two passes' first boxes.
const NAMES: u64 = 65536;

/// The box that a payload names.
pub(crate) fn box_of(payload: u64) -> Ref
    requires { payload / 65536 < 2 ^ 32 }
    ensures maker { result.pass ≡ maker_of payload }
    ensures place { result.place ≡ place_in payload }
{
    Ref {
        pass: (payload / NAMES) as u32,
        place: (payload % NAMES) as u32,
    }
}

/// Whoever has the lock of a container knows the value in each box that its table names.
pub fn named_boxes_are_known(pass: &Pass)
    ensures { NamedAreKnown (view pass.now) }
{
    let _ = pass;
}

/// What a value reads that has these words: one that names a box, whose value the pass knows, has the kind and the
/// payload that stand there.
pub fn read_value(bank: &Bank, pass: &mut Pass, kind: u64, payload: u64) -> (u64, u64)
    requires pass { IsPassOf bank.now pass.old }
    requires known { kind ≡ box_kind → IsKnownBox (view pass.old) payload }
    ensures pass { IsPassOf bank.now pass.new }
    ensures looks { (part : List Act) × AreLooks part × DidAll part pass.old pass.new × ((t : ℕ) → index_reads t part ≡ 0) }
    ensures only { OnlyLoaded (view pass.old) (view pass.new) }
    ensures kind { result.0 ≡ kind_read (view pass.old) kind payload }
    ensures payload { result.1 ≡ payload_read (view pass.old) kind payload }
{
    if kind != BOX_KIND {
        return (kind, payload);
    }
    let b = box_of(payload);
    let kind = bank.read_box(pass, b, KIND);
    let value = bank.read_box(pass, b, PAYLOAD);
    (kind, value)
}

/// What a value was read as that has certain words.
#[derive(Clone, Copy)]
pub struct SeenValue {
    /// Whether it was read in a box.
    pub boxed: bool,
    /// The kind that was read.
    pub kind: u64,
    /// The payload that was read.
    pub value: u64,
}

/// Reads the value that has these words, for whoever may not have the lock: in the box that they name, where the bank
/// has it, and else in place. Without the lock nobody keeps the box, so what was read counts only where the words stood
/// meanwhile.
#[inline(always)]
pub fn see_value(bank: &Bank, pass: &mut Pass, kind: u64, payload: u64) -> SeenValue
    requires pass { IsPassOf bank.now pass.old }
    ensures pass { IsPassOf bank.now pass.new }
    ensures stack { stack_of pass.new ≡ stack_of pass.old }
    ensures did { DidAll (box_acts result.boxed payload result.kind result.value) pass.old pass.new }
    ensures sees { SeesValue (shape_of bank.now) kind payload result }
    ensures known { SeesKnown (view pass.old) payload result }
{
    let in_place = SeenValue {
        boxed: false,
        kind,
        value: payload,
    };
    if kind != BOX_KIND {
        return in_place;
    }
    let passes = u64::from(bank.passes());
    let maker = payload / NAMES;
    if passes <= maker {
        return in_place;
    }
    let heap = u64::from(bank.heap());
    let place = payload % NAMES;
    if heap <= place {
        return in_place;
    }
    let b = box_of(payload);
    let found = bank.read_box(pass, b, KIND);
    let value = bank.read_box(pass, b, PAYLOAD);
    SeenValue {
        boxed: true,
        kind: found,
        value,
    }
}

/// Drops a reference that the pass holds for a box; who brings the box to its end gives the place back.
pub fn release(bank: &Bank, pass: &mut Pass, payload: u64)
    requires pass { IsPassOf bank.now pass.old }
    requires name { IsBoxName (shape_of bank.now) payload }
    requires held { 0 < references_held (shape_of bank.now) payload (view pass.old).log }
    requires settled { IsSettled (view pass.old).log }
    ensures pass { IsPassOf bank.now pass.new }
    ensures stack { stack_of pass.new ≡ stack_of pass.old }
    ensures only { OnlyBoxed (view pass.old) (view pass.new) }
    ensures settled { IsSettled (view pass.new).log }
    ensures places { TakesNoPlace (view pass.old) (view pass.new) }
    ensures values { KeepsValues (view pass.old) (view pass.new) }
    ensures references { (b : ℕ) → references_held (shape_of bank.now) b (view pass.old).log ≡
        references_held (shape_of bank.now) b (view pass.new).log + cond (b == payload) 1 0 }
{
    let held = taken(bank, pass, box_of(payload));
    ft_boxes::release(bank, pass, held);
}

/// Raises the count of the box with this name, which a container names whose lock the pass has, or for which the pass
/// holds a reference: it holds one more, which it is about to put into a word of a container.
pub fn raise_named(bank: &Bank, pass: &mut Pass, payload: u64)
    requires pass { IsPassOf bank.now pass.old }
    requires name { IsBoxName (shape_of bank.now) payload }
    requires kept { KeepsBox (shape_of bank.now) payload (view pass.old).log }
    requires settled { IsSettled (view pass.old).log }
    requires few { HoldsFew (view pass.old) }
    ensures pass { IsPassOf bank.now pass.new }
    ensures stack { stack_of pass.new ≡ stack_of pass.old }
    ensures only { OnlyBoxed (view pass.old) (view pass.new) }
    ensures settled { IsSettled (view pass.new).log }
    ensures places { TakesNoPlace (view pass.old) (view pass.new) }
    ensures values { KeepsValues (view pass.old) (view pass.new) }
    ensures gains { GainsRaised (view pass.old) (view pass.new) }
    ensures references { (b : ℕ) → references_held (shape_of bank.now) b (view pass.new).log ≡
        references_held (shape_of bank.now) b (view pass.old).log + cond (b == payload) 1 0 }
{
    let held = raise_kept(bank, pass, box_of(payload));
    let _ = keep(bank, pass, held);
}

/// Puts a value over that of an entry or item whose version is odd, whose kind lies at this word of the table: the value
/// itself, or what names the box in which it stands, for which the pass holds a reference and whose value it knows. That
/// reference is the words' then. Where the old value names a box its reference is dropped. `start` is where the table's
/// words lie.
#[inline(always)]
pub fn put_over(
    bank: &Bank,
    pass: &mut Pass,
    o: u32,
    table: Table,
    start: u64,
    word: u64,
    kind: u64,
    payload: u64,
)
    requires pass { IsPassOf bank.now pass.old }
    requires writes { WritesTable (shape_of bank.now) o table (view pass.old) }
    requires start { IsPlaceOf (shape_of bank.now) table start }
    requires open { IsOpenValue (view pass.old) o (table_id table) word }
    requires own { HasReferenceFor (view pass.old) kind payload }
    ensures pass { IsPassOf bank.now pass.new }
    ensures stack { stack_of pass.new ≡ stack_of pass.old }
    ensures writes { WritesTable (shape_of bank.now) o table (view pass.new) }
    ensures only { OnlyWritten o (view pass.old) (view pass.new) }
    ensures raw { (slice_index (held_words o (view pass.new)).table word ≡ kind)
        × (slice_index (held_words o (view pass.new)).table (word + 1) ≡ payload) }
    ensures stands { StandsBut o word (view pass.old) (view pass.new) }
    ensures words { held_unboxed o (view pass.new) ≡
        with_table (with_table (held_unboxed o (view pass.old)) word (kind_read (view pass.old) kind payload))
        (word + 1) (payload_read (view pass.old) kind payload) }
    ensures references { (b : ℕ) →
        references_held (shape_of bank.now) b (view pass.new).log + names_box b kind payload ≡
        references_held (shape_of bank.now) b (view pass.old).log }
    ensures values { KeepsValues (view pass.old) (view pass.new) }
{
    let old = bank.read_word(pass, table, start, word);
    if old == kind && kind != BOX_KIND {
        bank.put_payload(pass, o, table, start, word, payload);
        return;
    }
    let named = bank.read_word(pass, table, start, word + 1);
    bank.put_value(pass, o, table, start, word, kind, payload);
    if old != BOX_KIND {
        return;
    }
    release(bank, pass, named);
}

/// Exchanges the value of an entry or item whose version is odd, whose kind lies at this word of the table, for another
/// one: a kind and a payload that are the value itself, or what names the box in which it stands, for which the pass
/// holds a reference and whose value it knows. That reference is the words' then. Answers the kind and the payload that
/// stood there; the reference of a box that they name is the pass's, which knows the value in it.
#[inline(always)]
pub fn exchange(
    bank: &Bank,
    pass: &mut Pass,
    o: u32,
    table: Table,
    word: u64,
    value: (u64, u64),
) -> (u64, u64)
    requires pass { IsPassOf bank.now pass.old }
    requires writes { WritesTable (shape_of bank.now) o table (view pass.old) }
    requires open { IsOpenValue (view pass.old) o (table_id table) word }
    requires own { HasReferenceFor (view pass.old) value.0 value.1 }
    ensures pass { IsPassOf bank.now pass.new }
    ensures stack { stack_of pass.new ≡ stack_of pass.old }
    ensures writes { HoldsFew (view pass.new) → WritesTable (shape_of bank.now) o table (view pass.new) }
    ensures only { OnlyPut o (view pass.old) (view pass.new) }
    ensures stood { (result.0 ≡ slice_index (held_words o (view pass.old)).table word)
        × (result.1 ≡ slice_index (held_words o (view pass.old)).table (word + 1)) }
    ensures raw { held_words o (view pass.new) ≡
        with_table (with_table (held_words o (view pass.old)) word value.0) (word + 1) value.1 }
    ensures words { held_unboxed o (view pass.new) ≡
        with_table (with_table (held_unboxed o (view pass.old)) word (kind_read (view pass.old) value.0 value.1))
        (word + 1) (payload_read (view pass.old) value.0 value.1) }
    ensures references { (b : ℕ) →
        references_held (shape_of bank.now) b (view pass.new).log + names_box b value.0 value.1 ≡
        references_held (shape_of bank.now) b (view pass.old).log + names_box b result.0 result.1 }
    ensures own { HasReferenceFor (view pass.new) result.0 result.1 }
    ensures reads { (kind_read (view pass.new) result.0 result.1 ≡ slice_index (held_unboxed o (view pass.old)).table word)
        × (payload_read (view pass.new) result.0 result.1 ≡
        slice_index (held_unboxed o (view pass.old)).table (word + 1)) }
{
    let start = bank.cell_of(table);
    let kind = bank.read_word(pass, table, start, word);
    let payload = bank.read_word(pass, table, start, word + 1);
    bank.put_value(pass, o, table, start, word, value.0, value.1);
    (kind, payload)
}

/// Puts the value of an entry or item whose version is odd in its place, where it stands in a box, and drops the
/// reference: the words read the same. What the value reads names no box.
#[inline(always)]
pub fn put_unboxed(bank: &Bank, pass: &mut Pass, o: u32, table: Table, start: u64, word: u64)
    requires pass { IsPassOf bank.now pass.old }
    requires writes { WritesTable (shape_of bank.now) o table (view pass.old) }
    requires start { IsPlaceOf (shape_of bank.now) table start }
    requires open { IsOpenValue (view pass.old) o (table_id table) word }
    requires plain { slice_index (held_unboxed o (view pass.old)).table word ≢ box_kind }
    ensures pass { IsPassOf bank.now pass.new }
    ensures stack { stack_of pass.new ≡ stack_of pass.old }
    ensures writes { WritesTable (shape_of bank.now) o table (view pass.new) }
    ensures only { OnlyWritten o (view pass.old) (view pass.new) }
    ensures raw { slice_index (held_words o (view pass.new)).table word ≢ box_kind }
    ensures stands { StandsBut o word (view pass.old) (view pass.new) }
    ensures words { held_unboxed o (view pass.new) ≡ held_unboxed o (view pass.old) }
    ensures references { SameReferences (view pass.old) (view pass.new) }
    ensures values { KeepsValues (view pass.old) (view pass.new) }
{
    let old = bank.read_word(pass, table, start, word);
    if old != BOX_KIND {
        return;
    }
    let named = bank.read_word(pass, table, start, word + 1);
    let read = read_value(bank, pass, old, named);
    put_over(bank, pass, o, table, start, word, read.0, read.1);
}
