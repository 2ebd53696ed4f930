//! A dict that gets a copy of another one, or of itself: its pairs in their order, with new serials.
ghost use Rattle.std.specs.Prelude.{◌≡◌, ◌+◌, ◌^◌, ◌<◌, ◌≤◌, false, Some};
ghost use Rattle.ft_model.specs.declared.content.Content.TheVariants as content;
ghost use Rattle.ft_model.specs.declared.reply.Reply.TheVariants as reply;
ghost use Rattle.ft_model.specs.declared.script.Kind.TheVariants as kind;
ghost use Rattle.ft_model.specs.Classes.{IsClass};
ghost use Rattle.ft_model.specs.Contents.{DictContent, dict_copy};
ghost use Rattle.ft_model.specs.TableUses.{copy_takes};
ghost use Rattle.ft_model.specs.Worlds.{length_of, serial_of};
ghost use Rattle.ft_trace.specs.Acts.{flight, stage, used};
ghost use Rattle.ft_trace.specs.Addresses.{class_of};
ghost use Rattle.ft_trace.specs.Holds.{hand_unboxed, held_unboxed, held_words, in_hand, known_state};
ghost use Rattle.ft_trace.specs.Kinds.{rows};
ghost use Rattle.ft_trace.specs.ContainerStates.{kind_in};
ghost use Rattle.ft_bank.specs.Passes.{shape_of, view, IsPassOf};
ghost use Rattle.ft_bank.specs.PassSections.{stack_of};
ghost use Rattle.ft_bank.specs.TableNames.{table_id, IsTableIn};
ghost use Rattle.ft_table_calls.specs.Adding.{IsAdded, OnlyFilled, WasMade};
ghost use Rattle.ft_search.specs.OneEntryWrites.{MayWriteEntries};
ghost use Rattle.ft_new_keys.specs.Fresh.{IsFilledWith};
ghost use Rattle.ft_new_keys.specs.KeyGrowth.{KnowsKeyed, MayAddKey};
ghost use Rattle.ft_new_keys.specs.Placing.{AreCounts};
ghost use Rattle.ft_replacing.specs.Replacing.{IsReplaced, Replaces, copied};
ghost use Rattle.ft_replacing.specs.Sharing.{NamesLocked, SharesEntries, SharesPairs};

use crate::numbering::renumber;
use crate::sharing::{Copying, share_copy};
use crate::swapping::swap_table;
use ft_bank::{Bank, Pass, Table, Took};
use ft_keys::Way;
use ft_layout::words_are_of_one_content;
use ft_model::{Call, taken_by_copy};
use ft_new_keys::{Counts, fill, read_counts};
use ft_qsbr::take;
use ft_section::Stamp;
use ft_table_calls::{Added, answer_no_table, retire_old};
use ft_whole_tables::{clear_keyed, root_table};

/// Fills a table that is fresh in hand with the pairs of a dict, which get serials from this one on.
fn fill_copy(
    bank: &Bank,
    pass: &mut Pass,
    d: u32,
    from: Option<Table>,
    counts: Counts,
    table: Table,
    next: u64,
)
    requires pass { IsPassOf bank.now pass.old }
    requires keyed { KnowsKeyed (shape_of bank.now) d from (view pass.old) }
    requires dict { kind_in (shape_of bank.now).starts d ≡ kind.Dict }
    requires counts { AreCounts (held_unboxed d (view pass.old)).block counts }
    requires table { IsTableIn (shape_of bank.now) table }
    requires fresh { stage (table_id table) (view pass.old).log ≡ 1 }
    requires room { counts.count ≤ rows kind.Dict (class_of (table_id table)) }
    requires serials { next + counts.count < 2 ^ 63 }
    ensures pass { IsPassOf bank.now pass.new }
    ensures stack { stack_of pass.new ≡ stack_of pass.old }
    ensures only { OnlyFilled (view pass.old) (view pass.new) }
    ensures filled { (pairs given : DictContent) → (known_state d (view pass.old)).content ≡ content.Dict pairs →
        given.next ≡ next → IsFilledWith (shape_of bank.now).texts (class_of (table_id table))
        (content.Dict (dict_copy given pairs.pairs)) (in_hand (table_id table) (view pass.new)) }
{
    words_are_of_one_content();
    fill(bank, pass, d, Way::Dict, from, table, counts.fill);
    renumber(bank, pass, table, counts.count, next);
}

/// Fills a table that is fresh in hand with the pairs of the dict d for the dict e, with new serials. The values have the
/// boxes in which they stand.
fn fill_for(bank: &Bank, pass: &mut Pass, d: u32, e: u32, from: Option<Table>, copying: &Copying)
    requires pass { IsPassOf bank.now pass.old }
    requires keyed { KnowsKeyed (shape_of bank.now) d from (view pass.old) }
    requires dict { kind_in (shape_of bank.now).starts d ≡ kind.Dict }
    requires other_dict { kind_in (shape_of bank.now).starts e ≡ kind.Dict }
    requires counts { AreCounts (held_unboxed d (view pass.old)).block copying.now.counts }
    requires table { IsTableIn (shape_of bank.now) copying.now.table }
    requires fresh { stage (table_id copying.now.table) (view pass.old).log ≡ 1 }
    requires room { copying.now.counts.count ≤ rows kind.Dict (class_of (table_id copying.now.table)) }
    requires serials { copying.now.next + copying.now.counts.count < 2 ^ 63 }
    ensures pass { IsPassOf bank.now pass.new }
    ensures stack { stack_of pass.new ≡ stack_of pass.old }
    ensures only { OnlyFilled (view pass.old) (view pass.new) }
    ensures filled { (pairs given : DictContent) → (known_state d (view pass.old)).content ≡ content.Dict pairs →
        given.next ≡ copying.now.next →
        IsFilledWith (shape_of bank.now).texts (class_of (table_id copying.now.table))
        (content.Dict (dict_copy given pairs.pairs)) (hand_unboxed e (table_id copying.now.table) (view pass.new)) }
    ensures named { NamesLocked (shape_of bank.now) e (table_id copying.now.table) (view pass.new) }
    ensures shares { (own : Table) → from ≡ Some own →
        SharesEntries (shape_of bank.now).texts copying.now.next (class_of (table_id own))
        (held_words d (view pass.old)).table (class_of (table_id copying.now.table))
        (in_hand (table_id copying.now.table) (view pass.new)) }
{
    match from {
        Some(own) => share_copy(bank, pass, d, e, own, copying),
        None => {
            fill_copy(
                bank,
                pass,
                d,
                from,
                copying.counts,
                copying.table,
                copying.next,
            );
        }
    }
}

/// Takes a table of a class for a dict and copies another one there, as the write of the call; the table that it had is
/// retired. Both dicts have the boxes of the values then.
fn copy_in_taken(
    bank: &Bank,
    pass: &mut Pass,
    d: u32,
    e: u32,
    from: Option<Table>,
    old: Option<Table>,
    class: u32,
    counts: Counts,
    next: u64,
    called: &Call,
) -> Added
    requires pass { IsPassOf bank.now pass.old }
    requires keyed { KnowsKeyed (shape_of bank.now) d from (view pass.old) }
    requires may { MayAddKey (shape_of bank.now) e old (view pass.old) }
    requires dict { kind_in (shape_of bank.now).starts d ≡ kind.Dict }
    requires other_dict { kind_in (shape_of bank.now).starts e ≡ kind.Dict }
    requires counts { AreCounts (held_unboxed d (view pass.old)).block counts }
    requires next { next ≡ serial_of (known_state e (view pass.old)).content }
    requires serials { next + counts.count < 2 ^ 63 }
    requires class { IsClass class }
    requires takes { copy_takes counts.count ≡ Some class }
    requires replaces { Replaces e called.now
        (copied (known_state e (view pass.old)).content (known_state d (view pass.old)).content) (Some class) (view pass.old) }
    ensures pass { IsPassOf bank.now pass.new }
    ensures stack { stack_of pass.new ≡ stack_of pass.old }
    ensures added { IsAdded (shape_of bank.now) (Some class) false called.now reply.Done (view pass.old) (view pass.new)
        result }
    ensures shares { WasMade result → SharesPairs (shape_of bank.now) d e (view pass.old) (view pass.new) }
{
    words_are_of_one_content();
    match take(bank, pass, class) {
        Took::Taken(table) => {
            let copying = Copying {
                counts,
                table,
                next,
            };
            fill_for(bank, pass, d, e, from, &copying);
            let count = counts.count;
            let number = swap_table(
                bank,
                pass,
                e,
                Way::Dict,
                old,
                table,
                count,
                next + count,
                called,
            );
            retire_old(bank, pass, old);
            Added::Made(Stamp {
                number,
                wrote: true,
            })
        }
        Took::AllTaken => Added::NoTable(class, answer_no_table(bank, pass, called, class)),
        Took::Moved(first, second) => Added::Moved(first, second),
    }
}

/// Copies a dict to another one, or to itself, by a pass that has the locks of both: it gets the pairs in their order,
/// with new serials, in a table of the class for that many, and none where there are no pairs. What the dict had is
/// gone, and its table retired. A value that stands in a box stands in that box in both dicts then; those of a dict that
/// is copied to itself stay in their boxes.
///
/// # Errors
///
/// `NoTable` where the count of the class was 0; `Moved` where two steps found a word of the class's free tables
/// changed. It is never `Over`.
pub fn copy_into(bank: &Bank, pass: &mut Pass, d: u32, e: u32, called: &Call) -> Added
    requires pass { IsPassOf bank.now pass.old }
    requires may { MayWriteEntries (shape_of bank.now) d (view pass.old) }
    requires other { MayWriteEntries (shape_of bank.now) e (view pass.old) }
    requires dict { kind_in (shape_of bank.now).starts d ≡ kind.Dict }
    requires other_dict { kind_in (shape_of bank.now).starts e ≡ kind.Dict }
    requires used { used (view pass.old).log ≡ false }
    requires idle { flight (view pass.old).log ≡ 0 }
    requires replaces { Replaces e called.now
        (copied (known_state e (view pass.old)).content (known_state d (view pass.old)).content)
        (copy_takes (length_of (known_state d (view pass.old)).content)) (view pass.old) }
    ensures pass { IsPassOf bank.now pass.new }
    ensures stack { stack_of pass.new ≡ stack_of pass.old }
    ensures replaced { IsReplaced (shape_of bank.now) (copy_takes (length_of (known_state d (view pass.old)).content))
        called.now (view pass.old) (view pass.new) result }
    ensures shares { WasMade result → SharesPairs (shape_of bank.now) d e (view pass.old) (view pass.new) }
{
    words_are_of_one_content();
    let from = root_table(bank, pass, d);
    let counts = read_counts(bank, pass, d);
    let old = root_table(bank, pass, e);
    let next = read_counts(bank, pass, e).next;
    match taken_by_copy(counts.count) {
        Some(class) => copy_in_taken(bank, pass, d, e, from, old, class, counts, next, called),
        None => Added::Made(clear_keyed(bank, pass, e, Way::Dict, called)),
    }
}
