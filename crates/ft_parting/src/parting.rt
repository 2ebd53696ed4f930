//! Two sets are parted: in the table that the first one has, or in another one that is filled with what it has then. It
//! is known before the first word is put that there is a table. A set that is named twice is empty then.
ghost use Rattle.std.specs.Prelude.{◌≡◌, ◌≢◌, ◌+◌, ◌^◌, ◌<◌, ◌≤◌, length, false, Some, None};
ghost use Rattle.ft_model.specs.declared.content.Content.TheVariants as content;
ghost use Rattle.ft_model.specs.declared.reply.Reply.TheVariants as reply;
ghost use Rattle.ft_model.specs.declared.script.Kind.TheVariants as kind;
ghost use Rattle.ft_model.specs.Classes.{IsClass};
ghost use Rattle.ft_model.specs.Contents.{those_not_in};
ghost use Rattle.ft_model.specs.TableUses.{passes_cap};
ghost use Rattle.ft_model.specs.Worlds.{serial_of, set_of};
ghost use Rattle.ft_trace.specs.Acts.{flight, used};
ghost use Rattle.ft_trace.specs.Holds.{known_state};
ghost use Rattle.ft_trace.specs.ContainerStates.{kind_in};
ghost use Rattle.ft_bank.specs.Passes.{shape_of, view, IsPassOf};
ghost use Rattle.ft_bank.specs.PassSections.{stack_of};
ghost use Rattle.ft_bank.specs.Whole.{OnlyLoaded};
ghost use Rattle.ft_table_calls.specs.Adding.{IsAdded};
ghost use Rattle.ft_search.specs.OneEntryWrites.{MayWriteEntries};
ghost use Rattle.ft_new_keys.specs.KeyGrowth.{KnowsKeyed, MayAddKey};
ghost use Rattle.ft_merging.specs.Joining.{new_keys};
ghost use Rattle.ft_merging.specs.Merging.{MayMerge};
ghost use Rattle.ft_merging.specs.Parting.{PartsBy, PartsSets, part_takes, parted};

use crate::choosing::fill_parted;
use ft_bank::{Bank, Pass, Table, Took};
use ft_keys::Way;
use ft_layout::{used_entries_follow_a_dict, used_entries_follow_a_set, words_are_of_one_content};
use ft_merging::{Merge, count_lacking, own_table, part_here, thin_by};
use ft_model::Call;
use ft_new_keys::{Counts, class_wanted, most_keys, read_counts};
use ft_qsbr::take;
use ft_replacing::swap_table;
use ft_search::written;
use ft_section::Object;
use ft_table_calls::{Added, answer_no_table, answer_over, retire_old};

/// How many elements of a set, which has this table or none, another set hasn't.
fn count_staying(
    bank: &Bank,
    pass: &mut Pass,
    s: Object,
    old: Option<Table>,
    fill: u64,
    t: Object,
) -> u64
    requires pass { IsPassOf bank.now pass.old }
    requires keyed { KnowsKeyed (shape_of bank.now) s old (view pass.old) }
    requires other { MayWriteEntries (shape_of bank.now) t (view pass.old) }
    requires set { kind_in (shape_of bank.now).starts s ≡ kind.Set }
    requires other_set { kind_in (shape_of bank.now).starts t ≡ kind.Set }
    requires fill { fill ≡ (known_state s (view pass.old)).table.fill }
    ensures pass { IsPassOf bank.now pass.new }
    ensures stack { stack_of pass.new ≡ stack_of pass.old }
    ensures only { OnlyLoaded (view pass.old) (view pass.new) }
    ensures few { result ≤ fill }
    ensures count { result ≡ length (those_not_in (set_of (known_state t (view pass.old)).content).elements
        (set_of (known_state s (view pass.old)).content).elements) }
{
    match old {
        Some(own) => count_lacking(bank, pass, t, s, own, fill),
        None => 0,
    }
}

/// Parts a set with another one that has no element that is new to it: those that both have go.
fn part_thin(bank: &Bank, pass: &mut Pass, s: Object, t: Object, called: &Call) -> Added
    requires pass { IsPassOf bank.now pass.old }
    requires may { MayWriteEntries (shape_of bank.now) s (view pass.old) }
    requires other { MayWriteEntries (shape_of bank.now) t (view pass.old) }
    requires set { kind_in (shape_of bank.now).starts s ≡ kind.Set }
    requires other_set { kind_in (shape_of bank.now).starts t ≡ kind.Set }
    requires none { new_keys (known_state s (view pass.old)).content (known_state t (view pass.old)).content ≡ 0 }
    requires parts { PartsSets s t called.now (view pass.old) }
    ensures pass { IsPassOf bank.now pass.new }
    ensures stack { stack_of pass.new ≡ stack_of pass.old }
    ensures added { IsAdded (shape_of bank.now) (part_takes (known_state s (view pass.old)) (known_state t (view pass.old)).content)
        (passes_cap (content.Set (parted (known_state s (view pass.old)).content (known_state t (view pass.old)).content))) called.now
        reply.Done (view pass.old) (view pass.new) result }
{
    used_entries_follow_a_dict();
    used_entries_follow_a_set();
    Added::Made(written(thin_by(bank, pass, s, t, false, called)))
}

/// Takes a table of a class for a set and puts there what it has once it is parted with another one, as the write of the
/// call; the table that it had is retired.
fn part_in_taken(
    bank: &Bank,
    pass: &mut Pass,
    old: Option<Table>,
    class: u32,
    merge: &Merge,
    count: u64,
    called: &Call,
) -> Added
    requires pass { IsPassOf bank.now pass.old }
    requires merge { MayMerge (shape_of bank.now) kind.Set merge.now (view pass.old) }
    requires may { MayAddKey (shape_of bank.now) merge.now.o old (view pass.old) }
    requires count { count ≡ length
        (parted (known_state merge.now.o (view pass.old)).content (known_state merge.now.t (view pass.old)).content).elements }
    requires few { passes_cap (content.Set
        (parted (known_state merge.now.o (view pass.old)).content (known_state merge.now.t (view pass.old)).content)) ≡ false }
    requires parts { PartsSets merge.now.o merge.now.t called.now (view pass.old) }
    requires class { IsClass class }
    requires takes { part_takes (known_state merge.now.o (view pass.old)) (known_state merge.now.t (view pass.old)).content
        ≡ Some class }
    ensures pass { IsPassOf bank.now pass.new }
    ensures stack { stack_of pass.new ≡ stack_of pass.old }
    ensures added { IsAdded (shape_of bank.now) (Some class) false called.now reply.Done (view pass.old) (view pass.new)
        result }
{
    words_are_of_one_content();
    match take(bank, pass, class) {
        Took::Taken(new) => {
            let counts = merge.counts;
            fill_parted(
                bank,
                pass,
                merge.o,
                old,
                counts,
                merge.t,
                merge.table,
                merge.others,
                new,
            );
            let next = counts.next + merge.more;
            let number = swap_table(bank, pass, merge.o, Way::Set, old, new, count, next, called);
            retire_old(bank, pass, old);
            Added::Made(written(number))
        }
        Took::AllTaken => Added::NoTable(class, answer_no_table(bank, pass, called, class)),
        Took::Moved(first, second) => Added::Moved(first, second),
    }
}

/// Parts a set, which has this table or none and needs no other one, with another set.
fn part_in_old(
    bank: &Bank,
    pass: &mut Pass,
    old: Option<Table>,
    merge: &Merge,
    called: &Call,
) -> Added
    requires pass { IsPassOf bank.now pass.old }
    requires merge { MayMerge (shape_of bank.now) kind.Set merge.now (view pass.old) }
    requires may { MayAddKey (shape_of bank.now) merge.now.o old (view pass.old) }
    requires few { passes_cap (content.Set
        (parted (known_state merge.now.o (view pass.old)).content (known_state merge.now.t (view pass.old)).content)) ≡ false }
    requires parts { PartsSets merge.now.o merge.now.t called.now (view pass.old) }
    requires room { part_takes (known_state merge.now.o (view pass.old)) (known_state merge.now.t (view pass.old)).content ≡ None }
    ensures pass { IsPassOf bank.now pass.new }
    ensures stack { stack_of pass.new ≡ stack_of pass.old }
    ensures added { IsAdded (shape_of bank.now) None false called.now reply.Done (view pass.old) (view pass.new) result }
{
    words_are_of_one_content();
    match old {
        Some(own) => Added::Made(written(part_here(bank, pass, own, merge, called))),
        None => part_thin(bank, pass, merge.o, merge.t, called),
    }
}

/// Parts a set, which has this table or none, with another one, where that many of its elements stay.
fn part_more(
    bank: &Bank,
    pass: &mut Pass,
    old: Option<Table>,
    merge: &Merge,
    stay: u64,
    called: &Call,
) -> Added
    requires pass { IsPassOf bank.now pass.old }
    requires merge { MayMerge (shape_of bank.now) kind.Set merge.now (view pass.old) }
    requires may { MayAddKey (shape_of bank.now) merge.now.o old (view pass.old) }
    requires stay { stay ≡ length (those_not_in (set_of (known_state merge.now.t (view pass.old)).content).elements
        (set_of (known_state merge.now.o (view pass.old)).content).elements) }
    requires few { stay + merge.now.more < 2 ^ 63 }
    requires parts { PartsSets merge.now.o merge.now.t called.now (view pass.old) }
    ensures pass { IsPassOf bank.now pass.new }
    ensures stack { stack_of pass.new ≡ stack_of pass.old }
    ensures added { IsAdded (shape_of bank.now)
        (part_takes (known_state merge.now.o (view pass.old)) (known_state merge.now.t (view pass.old)).content)
        (passes_cap (content.Set
        (parted (known_state merge.now.o (view pass.old)).content (known_state merge.now.t (view pass.old)).content)))
        called.now reply.Done (view pass.old) (view pass.new) result }
{
    words_are_of_one_content();
    let count = stay + merge.more;
    if count > most_keys(Way::Set) {
        return Added::Over(answer_over(bank, pass, called));
    }
    let staying = Counts {
        count: stay,
        fill: merge.counts.fill,
        next: merge.counts.next,
    };
    match class_wanted(Way::Set, old, staying, merge.more) {
        Some(class) => part_in_taken(bank, pass, old, class, merge, count, called),
        None => part_in_old(bank, pass, old, merge, called),
    }
}

/// Parts a set with another one, which has this table.
fn part_from(
    bank: &Bank,
    pass: &mut Pass,
    s: Object,
    t: Object,
    table: Table,
    called: &Call,
) -> Added
    requires pass { IsPassOf bank.now pass.old }
    requires two { s ≢ t }
    requires may { MayWriteEntries (shape_of bank.now) s (view pass.old) }
    requires other_may { MayWriteEntries (shape_of bank.now) t (view pass.old) }
    requires other { KnowsKeyed (shape_of bank.now) t (Some table) (view pass.old) }
    requires used { used (view pass.old).log ≡ false }
    requires idle { flight (view pass.old).log ≡ 0 }
    requires set { kind_in (shape_of bank.now).starts s ≡ kind.Set }
    requires other_set { kind_in (shape_of bank.now).starts t ≡ kind.Set }
    requires serials { serial_of (known_state s (view pass.old)).content + 65536 < 2 ^ 63 }
    requires parts { PartsSets s t called.now (view pass.old) }
    ensures pass { IsPassOf bank.now pass.new }
    ensures stack { stack_of pass.new ≡ stack_of pass.old }
    ensures added { PartsBy (shape_of bank.now) s t called.now (view pass.old) (view pass.new) result }
{
    used_entries_follow_a_dict();
    used_entries_follow_a_set();
    words_are_of_one_content();
    let others = read_counts(bank, pass, t);
    let counts = read_counts(bank, pass, s);
    let old = own_table(bank, pass, s);
    let more = count_lacking(bank, pass, s, t, table, others.fill);
    let stay = count_staying(bank, pass, s, old, counts.fill, t);
    let merge = Merge {
        o: s,
        t,
        table,
        others: others.fill,
        counts,
        more,
    };
    part_more(bank, pass, old, &merge, stay, called)
}

/// Takes those elements out of a set that another set has too, and puts those of the other one there that it hasn't, in
/// their order: as the write of the call, by a pass that has the locks of both. A set that is named twice is empty then.
/// The version of each entry that is put or whose key goes is odd while it is written, and no other. Where the set needs
/// another table, its root names none from before the counter is raised until after it.
///
/// # Errors
///
/// `NoTable` where the set needs another table, of the class for its new size, and the count of the class was 0;
/// `Over` where it would have more than the largest table holds; `Moved` where two steps found a word of the class's
/// free tables changed. No word is put then.
pub fn part_by(bank: &Bank, pass: &mut Pass, s: Object, t: Object, called: &Call) -> Added
    requires pass { IsPassOf bank.now pass.old }
    requires may { MayWriteEntries (shape_of bank.now) s (view pass.old) }
    requires other { MayWriteEntries (shape_of bank.now) t (view pass.old) }
    requires used { used (view pass.old).log ≡ false }
    requires idle { flight (view pass.old).log ≡ 0 }
    requires set { kind_in (shape_of bank.now).starts s ≡ kind.Set }
    requires other_set { kind_in (shape_of bank.now).starts t ≡ kind.Set }
    requires serials { serial_of (known_state s (view pass.old)).content + 65536 < 2 ^ 63 }
    requires parts { PartsSets s t called.now (view pass.old) }
    ensures pass { IsPassOf bank.now pass.new }
    ensures stack { stack_of pass.new ≡ stack_of pass.old }
    ensures added { PartsBy (shape_of bank.now) s t called.now (view pass.old) (view pass.new) result }
{
    if s == t {
        return part_thin(bank, pass, s, t, called);
    }
    match own_table(bank, pass, t) {
        Some(table) => part_from(bank, pass, s, t, table, called),
        None => part_thin(bank, pass, s, t, called),
    }
}
