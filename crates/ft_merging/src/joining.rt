//! The keys of one dict or set are put into another one: as one whole write, in the table that it has, or in another
//! one that is filled with what it has. It is known before the first key is put that there is a table. A container that
//! is named twice is read as it stood before.
ghost use Rattle.std.specs.Prelude.{◌≡◌, ◌≢◌, ◌+◌, ◌^◌, ◌<◌, ◌≤◌, false, Some, None, suc};
ghost use Rattle.ft_model.specs.declared.reply.Reply.TheVariants as reply;
ghost use Rattle.ft_model.specs.declared.script.Kind.TheVariants as kind;
ghost use Rattle.ft_model.specs.declared.data.Key.{Key};
ghost use Rattle.ft_model.specs.Classes.{IsClass};
ghost use Rattle.ft_model.specs.TableUses.{passes_cap};
ghost use Rattle.ft_model.specs.Worlds.{length_of, serial_of};
ghost use Rattle.ft_layout.specs.declared.slot.Ref.{Ref};
ghost use Rattle.ft_layout.specs.Words.{FitsKey};
ghost use Rattle.ft_trace.specs.Acts.{flight, used};
ghost use Rattle.ft_trace.specs.Addresses.{class_of};
ghost use Rattle.ft_trace.specs.Holds.{held_unboxed, known_state};
ghost use Rattle.ft_trace.specs.Pictures.{root_in};
ghost use Rattle.ft_trace.specs.ContainerStates.{kind_in};
ghost use Rattle.ft_bank.specs.Passes.{shape_of, view, IsPassOf};
ghost use Rattle.ft_bank.specs.PassSections.{stack_of};
ghost use Rattle.ft_bank.specs.TableNames.{table_id};
ghost use Rattle.ft_bank.specs.SameBoxes.{SameReferences};
ghost use Rattle.ft_bank.specs.Whole.{Wrote};
ghost use Rattle.ft_table_calls.specs.Adding.{IsAdded, WasMade};
ghost use Rattle.ft_search.specs.HeldValues.{NamesBoxAt};
ghost use Rattle.ft_search.specs.Rounds.{kind_by};
ghost use Rattle.ft_search.specs.OneEntryWrites.{MayWriteEntries};
ghost use Rattle.ft_new_keys.specs.KeyGrowth.{KnowsKeyed, MayAddKey, MayGrowKeyed};
ghost use Rattle.ft_merging.specs.Joining.{HaveEqual, JoinsBy, JoinsKeys, SharesValues, join_takes, joined};
ghost use Rattle.ft_merging.specs.Merging.{MayMerge};

use crate::counting::count_new;
use crate::merging::Merge;
use crate::putting::join_table;
use crate::reading::own_table;
use ft_bank::{Bank, Pass, Table, Took};
use ft_keys::Way;
use ft_layout::{used_entries_follow_a_dict, used_entries_follow_a_set, words_are_of_one_content};
use ft_model::{Call, Reply};
use ft_new_keys::{
    Counts, Growth, begin_in, class_wanted, most_keys, move_entries, put_counts, read_counts,
};
use ft_qsbr::take;
use ft_search::{write_nothing, written};
use ft_section::Object;
use ft_table_calls::{Added, answer_no_table, answer_over, retire_old};

/// Puts the keys of another container into one whose table has room for those that are new.
fn join_here(
    bank: &Bank,
    pass: &mut Pass,
    way: Way,
    own: Table,
    merge: &Merge,
    called: &Call,
) -> Added
    requires pass { IsPassOf bank.now pass.old }
    requires merge { MayMerge (shape_of bank.now) (kind_by way) merge.now (view pass.old) }
    requires may { MayAddKey (shape_of bank.now) merge.now.o (Some own) (view pass.old) }
    requires few { passes_cap
        (joined (known_state merge.now.o (view pass.old)).content (known_state merge.now.t (view pass.old)).content)
        ≡ false }
    requires joins { JoinsKeys merge.now.o merge.now.t called.now (view pass.old) }
    requires room { join_takes (known_state merge.now.o (view pass.old))
        (known_state merge.now.t (view pass.old)).content ≡ None }
    ensures pass { IsPassOf bank.now pass.new }
    ensures stack { stack_of pass.new ≡ stack_of pass.old }
    ensures added { IsAdded (shape_of bank.now) None false called.now reply.Done (view pass.old) (view pass.new)
        result }
    ensures shares { kind_by way ≡ kind.Dict → SharesValues merge.now.o merge.now.t (view pass.old) (view pass.new) }
{
    used_entries_follow_a_dict();
    used_entries_follow_a_set();
    words_are_of_one_content();
    bank.start_write(pass, merge.o);
    let end = merge.counts.fill + merge.more;
    let number = join_table(
        bank,
        pass,
        merge.o,
        way,
        own,
        merge.t,
        merge.table,
        merge.others,
        end,
        merge.counts,
        called,
    );
    Added::Made(written(number))
}

/// Puts the keys of another container into one that gets this table. Answers the number of the write.
fn join_in_new(
    bank: &Bank,
    pass: &mut Pass,
    way: Way,
    old: Option<Table>,
    new: Table,
    merge: &Merge,
    called: &Call,
) -> u64
    requires pass { IsPassOf bank.now pass.old }
    requires merge { MayMerge (shape_of bank.now) (kind_by way) merge.now (view pass.old) }
    requires may { MayGrowKeyed (shape_of bank.now) merge.now.o old new (view pass.old) }
    requires apart { root_in (held_unboxed merge.now.o (view pass.old)) ≢ suc (table_id new) }
    requires few { passes_cap
        (joined (known_state merge.now.o (view pass.old)).content (known_state merge.now.t (view pass.old)).content)
        ≡ false }
    requires joins { JoinsKeys merge.now.o merge.now.t called.now (view pass.old) }
    requires takes { join_takes (known_state merge.now.o (view pass.old))
        (known_state merge.now.t (view pass.old)).content
        ≡ Some (class_of (table_id new)) }
    ensures pass { IsPassOf bank.now pass.new }
    ensures stack { stack_of pass.new ≡ stack_of pass.old }
    ensures wrote { Wrote called.now reply.Done result (view pass.old) (view pass.new) }
    ensures references { SameReferences (view pass.old) (view pass.new) }
    ensures root { root_in (held_unboxed merge.now.o (view pass.new)) ≡ suc (table_id new) }
    ensures shares { kind_by way ≡ kind.Dict → SharesValues merge.now.o merge.now.t (view pass.old) (view pass.new) }
{
    used_entries_follow_a_dict();
    used_entries_follow_a_set();
    words_are_of_one_content();
    let counts = merge.counts;
    let growth = Growth {
        way,
        old,
        table: new,
        fill: counts.fill,
    };
    move_entries(bank, pass, merge.o, &growth);
    begin_in(bank, pass, merge.o, way, old, new);
    put_counts(
        bank,
        pass,
        merge.o,
        new,
        counts.count,
        counts.count,
        counts.next,
    );
    let all = Counts {
        count: counts.count,
        fill: counts.count,
        next: counts.next,
    };
    let end = counts.count + merge.more;
    join_table(
        bank,
        pass,
        merge.o,
        way,
        new,
        merge.t,
        merge.table,
        merge.others,
        end,
        all,
        called,
    )
}

/// Takes a table of a class for a container and puts the keys of another one there too; the table that it had is
/// retired.
fn join_in_taken(
    bank: &Bank,
    pass: &mut Pass,
    way: Way,
    old: Option<Table>,
    class: u32,
    merge: &Merge,
    called: &Call,
) -> Added
    requires pass { IsPassOf bank.now pass.old }
    requires merge { MayMerge (shape_of bank.now) (kind_by way) merge.now (view pass.old) }
    requires may { MayAddKey (shape_of bank.now) merge.now.o old (view pass.old) }
    requires few { passes_cap
        (joined (known_state merge.now.o (view pass.old)).content (known_state merge.now.t (view pass.old)).content)
        ≡ false }
    requires joins { JoinsKeys merge.now.o merge.now.t called.now (view pass.old) }
    requires class { IsClass class }
    requires takes { join_takes (known_state merge.now.o (view pass.old))
        (known_state merge.now.t (view pass.old)).content
        ≡ Some class }
    ensures pass { IsPassOf bank.now pass.new }
    ensures stack { stack_of pass.new ≡ stack_of pass.old }
    ensures added { IsAdded (shape_of bank.now) (Some class) false called.now reply.Done (view pass.old) (view pass.new)
        result }
    ensures shares { kind_by way ≡ kind.Dict → WasMade result →
        SharesValues merge.now.o merge.now.t (view pass.old) (view pass.new) }
{
    match take(bank, pass, class) {
        Took::Taken(new) => {
            let number = join_in_new(bank, pass, way, old, new, merge, called);
            retire_old(bank, pass, old);
            Added::Made(written(number))
        }
        Took::AllTaken => Added::NoTable(class, answer_no_table(bank, pass, called, class)),
        Took::Moved(first, second) => Added::Moved(first, second),
    }
}

/// Puts the keys of another container, which has none that is new, into one that has this table or none.
fn join_in_old(
    bank: &Bank,
    pass: &mut Pass,
    way: Way,
    old: Option<Table>,
    merge: &Merge,
    called: &Call,
) -> Added
    requires pass { IsPassOf bank.now pass.old }
    requires merge { MayMerge (shape_of bank.now) (kind_by way) merge.now (view pass.old) }
    requires may { MayAddKey (shape_of bank.now) merge.now.o old (view pass.old) }
    requires few { passes_cap
        (joined (known_state merge.now.o (view pass.old)).content (known_state merge.now.t (view pass.old)).content)
        ≡ false }
    requires joins { JoinsKeys merge.now.o merge.now.t called.now (view pass.old) }
    requires room { join_takes (known_state merge.now.o (view pass.old))
        (known_state merge.now.t (view pass.old)).content ≡ None }
    ensures pass { IsPassOf bank.now pass.new }
    ensures stack { stack_of pass.new ≡ stack_of pass.old }
    ensures added { IsAdded (shape_of bank.now) None false called.now reply.Done (view pass.old) (view pass.new)
        result }
    ensures shares { kind_by way ≡ kind.Dict → WasMade result →
        SharesValues merge.now.o merge.now.t (view pass.old) (view pass.new) }
{
    used_entries_follow_a_dict();
    used_entries_follow_a_set();
    words_are_of_one_content();
    match old {
        Some(own) => join_here(bank, pass, way, own, merge, called),
        None => Added::Made(written(write_nothing(bank, pass, merge.o, called, &Reply::Done))),
    }
}

/// Puts the keys of another container into one that has this table or none.
fn join_more(
    bank: &Bank,
    pass: &mut Pass,
    way: Way,
    old: Option<Table>,
    merge: &Merge,
    called: &Call,
) -> Added
    requires pass { IsPassOf bank.now pass.old }
    requires merge { MayMerge (shape_of bank.now) (kind_by way) merge.now (view pass.old) }
    requires may { MayAddKey (shape_of bank.now) merge.now.o old (view pass.old) }
    requires few { merge.now.counts.count + merge.now.more < 2 ^ 63 }
    requires joins { JoinsKeys merge.now.o merge.now.t called.now (view pass.old) }
    ensures pass { IsPassOf bank.now pass.new }
    ensures stack { stack_of pass.new ≡ stack_of pass.old }
    ensures added { IsAdded (shape_of bank.now)
        (join_takes (known_state merge.now.o (view pass.old)) (known_state merge.now.t (view pass.old)).content)
        (passes_cap (joined (known_state merge.now.o (view pass.old)).content
        (known_state merge.now.t (view pass.old)).content))
        called.now reply.Done (view pass.old) (view pass.new) result }
    ensures shares { kind_by way ≡ kind.Dict → WasMade result →
        SharesValues merge.now.o merge.now.t (view pass.old) (view pass.new) }
{
    used_entries_follow_a_dict();
    used_entries_follow_a_set();
    words_are_of_one_content();
    if merge.counts.count + merge.more > most_keys(way) {
        return Added::Over(answer_over(bank, pass, called));
    }
    match class_wanted(way, old, merge.counts, merge.more) {
        Some(class) => join_in_taken(bank, pass, way, old, class, merge, called),
        None => join_in_old(bank, pass, way, old, merge, called),
    }
}

/// Puts the keys of another container, which has this table, into one.
fn join_from(
    bank: &Bank,
    pass: &mut Pass,
    o: Object,
    way: Way,
    t: Object,
    table: Table,
    called: &Call,
) -> Added
    requires pass { IsPassOf bank.now pass.old }
    requires two { o ≢ t }
    requires may { MayWriteEntries (shape_of bank.now) o (view pass.old) }
    requires other { KnowsKeyed (shape_of bank.now) t (Some table) (view pass.old) }
    requires used { used (view pass.old).log ≡ false }
    requires idle { flight (view pass.old).log ≡ 0 }
    requires way { kind_in (shape_of bank.now).starts o ≡ kind_by way }
    requires other_way { kind_in (shape_of bank.now).starts t ≡ kind_by way }
    requires serials { serial_of (known_state o (view pass.old)).content + 65536 < 2 ^ 63 }
    requires joins { JoinsKeys o t called.now (view pass.old) }
    ensures pass { IsPassOf bank.now pass.new }
    ensures stack { stack_of pass.new ≡ stack_of pass.old }
    ensures added { JoinsBy (shape_of bank.now) o t called.now (view pass.old) (view pass.new) result }
{
    used_entries_follow_a_dict();
    used_entries_follow_a_set();
    words_are_of_one_content();
    let others = read_counts(bank, pass, t);
    let counts = read_counts(bank, pass, o);
    let more = count_new(bank, pass, o, way, t, table, others.fill);
    let old = own_table(bank, pass, o);
    let merge = Merge {
        o,
        t,
        table,
        others: others.fill,
        counts,
        more,
    };
    join_more(bank, pass, way, old, &merge, called)
}

/// Makes a call that joins no new keys, as a write that changes nothing.
fn join_nothing(bank: &Bank, pass: &mut Pass, o: Object, t: Object, called: &Call) -> Added
    requires pass { IsPassOf bank.now pass.old }
    requires may { MayWriteEntries (shape_of bank.now) o (view pass.old) }
    requires joins { JoinsKeys o t called.now (view pass.old) }
    requires same { joined (known_state o (view pass.old)).content (known_state t (view pass.old)).content
        ≡ (known_state o (view pass.old)).content }
    requires equal { kind_in (shape_of bank.now).starts t ≡ kind.Dict → (key : Key) (b : Ref) → FitsKey key →
        NamesBoxAt t key b (view pass.old) → HaveEqual o t key (view pass.old) }
    ensures pass { IsPassOf bank.now pass.new }
    ensures stack { stack_of pass.new ≡ stack_of pass.old }
    ensures added { IsAdded (shape_of bank.now)
        (join_takes (known_state o (view pass.old)) (known_state t (view pass.old)).content)
        (passes_cap (joined (known_state o (view pass.old)).content (known_state t (view pass.old)).content))
        called.now reply.Done
        (view pass.old) (view pass.new) result }
    ensures shares { kind_in (shape_of bank.now).starts t ≡ kind.Dict →
        SharesValues o t (view pass.old) (view pass.new) }
{
    used_entries_follow_a_dict();
    used_entries_follow_a_set();
    Added::Made(written(write_nothing(bank, pass, o, called, &Reply::Done)))
}

/// Puts the keys of a dict or a set into another one of the same kind, as the write of the call, by a pass that has the
/// locks of both: those that are new in their order, after the others, and in a dict its values at those that are there.
/// One that is named twice stays as it is. A value of a dict that stands in a box stands in that box in both then; where
/// an equal value is at the key already, that one stays. The version of each entry that is written is odd meanwhile, and
/// no other.
///
/// # Errors
///
/// `NoTable` where it needs another table, of the class for its new size, and the count of the class was 0;
/// `Over` where it would have more than the largest table holds; `Moved` where two steps found a word of the class's
/// free tables changed. Nothing is put then.
pub fn join_by(bank: &Bank, pass: &mut Pass, o: Object, t: Object, way: Way, called: &Call) -> Added
    requires pass { IsPassOf bank.now pass.old }
    requires may { MayWriteEntries (shape_of bank.now) o (view pass.old) }
    requires other { MayWriteEntries (shape_of bank.now) t (view pass.old) }
    requires used { used (view pass.old).log ≡ false }
    requires idle { flight (view pass.old).log ≡ 0 }
    requires way { kind_in (shape_of bank.now).starts o ≡ kind_by way }
    requires other_way { kind_in (shape_of bank.now).starts t ≡ kind_by way }
    requires serials { serial_of (known_state o (view pass.old)).content + 65536 < 2 ^ 63 }
    requires joins { JoinsKeys o t called.now (view pass.old) }
    ensures pass { IsPassOf bank.now pass.new }
    ensures stack { stack_of pass.new ≡ stack_of pass.old }
    ensures added { JoinsBy (shape_of bank.now) o t called.now (view pass.old) (view pass.new) result }
{
    used_entries_follow_a_dict();
    if o == t {
        return join_nothing(bank, pass, o, t, called);
    }
    let Some(table) = own_table(bank, pass, t) else {
        return join_nothing(bank, pass, o, t, called);
    };
    join_from(bank, pass, o, way, t, table, called)
}
