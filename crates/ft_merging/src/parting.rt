//! The elements that two sets have both go out of the first one, and those of the other one that it hasn't are put
//! there, in the table that it has, as one whole write.
ghost use Rattle.std.specs.Prelude.{◌≡◌, ◌≢◌, ◌+◌, ◌^◌, ◌<◌, ◌≤◌, false, Some, None};
ghost use Rattle.ft_model.specs.declared.content.Content.TheVariants as content;
ghost use Rattle.ft_model.specs.declared.reply.Reply.TheVariants as reply;
ghost use Rattle.ft_model.specs.declared.script.Kind.TheVariants as kind;
ghost use Rattle.ft_model.specs.TableUses.{passes_cap};
ghost use Rattle.ft_trace.specs.Holds.{held_unboxed, known_state};
ghost use Rattle.ft_trace.specs.Pictures.{root_in};
ghost use Rattle.ft_trace.specs.ContainerStates.{kind_in};
ghost use Rattle.ft_bank.specs.Passes.{shape_of, view, IsPassOf};
ghost use Rattle.ft_bank.specs.PassSections.{stack_of};
ghost use Rattle.ft_bank.specs.SameBoxes.{SameReferences};
ghost use Rattle.ft_bank.specs.Whole.{OnlyLoaded, Wrote};
ghost use Rattle.ft_search.specs.OneEntryWrites.{MayWriteEntries};
ghost use Rattle.ft_new_keys.specs.KeyGrowth.{KnowsKeyed, MayAddKey};
ghost use Rattle.ft_merging.specs.Joining.{new_keys};
ghost use Rattle.ft_merging.specs.Merging.{MayMerge};
ghost use Rattle.ft_merging.specs.Parting.{PartsSets, part_takes, parted};

use crate::closing::finish_entries;
use crate::counting::count_new;
use crate::merging::Merge;
use crate::putting::join_all;
use crate::thinning::thin_all;
use ft_bank::{Bank, Pass, Table};
use ft_keys::Way;
use ft_layout::{used_entries_follow_a_dict, used_entries_follow_a_set, words_are_of_one_content};
use ft_model::{Call, Reply};
use ft_section::Object;

/// How many elements of a set, which has this table with that many used entries, another set lacks.
pub fn count_lacking(
    bank: &Bank,
    pass: &mut Pass,
    s: Object,
    t: Object,
    table: Table,
    fill: u64,
) -> u64
    requires pass { IsPassOf bank.now pass.old }
    requires may { MayWriteEntries (shape_of bank.now) s (view pass.old) }
    requires other { KnowsKeyed (shape_of bank.now) t (Some table) (view pass.old) }
    requires set { kind_in (shape_of bank.now).starts s ≡ kind.Set }
    requires other_set { kind_in (shape_of bank.now).starts t ≡ kind.Set }
    requires fill { fill ≡ (known_state t (view pass.old)).table.fill }
    ensures pass { IsPassOf bank.now pass.new }
    ensures stack { stack_of pass.new ≡ stack_of pass.old }
    ensures only { OnlyLoaded (view pass.old) (view pass.new) }
    ensures few { result ≤ fill }
    ensures count { result ≡ new_keys (known_state s (view pass.old)).content (known_state t (view pass.old)).content }
{
    used_entries_follow_a_dict();
    used_entries_follow_a_set();
    count_new(bank, pass, s, Way::Set, t, table, fill)
}

/// Parts two sets in the table that the first one has, which has room for its new elements: as the write of the call.
/// Answers its number. The version of each entry that is put or whose key goes is odd while it is written, and no other.
pub fn part_here(bank: &Bank, pass: &mut Pass, own: Table, merge: &Merge, called: &Call) -> u64
    requires pass { IsPassOf bank.now pass.old }
    requires merge { MayMerge (shape_of bank.now) kind.Set merge.now (view pass.old) }
    requires may { MayAddKey (shape_of bank.now) merge.now.o (Some own) (view pass.old) }
    requires few { passes_cap (content.Set
        (parted (known_state merge.now.o (view pass.old)).content (known_state merge.now.t (view pass.old)).content))
        ≡ false }
    requires parts { PartsSets merge.now.o merge.now.t called.now (view pass.old) }
    requires room { part_takes (known_state merge.now.o (view pass.old))
        (known_state merge.now.t (view pass.old)).content ≡ None }
    ensures pass { IsPassOf bank.now pass.new }
    ensures stack { stack_of pass.new ≡ stack_of pass.old }
    ensures wrote { Wrote called.now reply.Done result (view pass.old) (view pass.new) }
    ensures references { SameReferences (view pass.old) (view pass.new) }
    ensures root { root_in (held_unboxed merge.now.o (view pass.new))
        ≡ root_in (held_unboxed merge.now.o (view pass.old)) }
{
    used_entries_follow_a_dict();
    used_entries_follow_a_set();
    words_are_of_one_content();
    bank.start_write(pass, merge.o);
    let end = merge.counts.fill + merge.more;
    join_all(
        bank,
        pass,
        merge.o,
        Way::Set,
        own,
        merge.t,
        merge.table,
        merge.others,
        end,
        merge.counts,
    );
    thin_all(bank, pass, merge.o, own, merge.t, false, merge.counts.fill);
    finish_entries(bank, pass, merge.o, own, end, called, &Reply::Done)
}
