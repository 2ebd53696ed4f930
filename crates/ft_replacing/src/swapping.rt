//! The write of a call that puts another table in the place of the one that a dict or a set has. The references of
//! boxes that the values of that one had are dropped, and the counts of those raised that the values of the new one name.
ghost use Rattle.std.specs.Prelude.{◌≡◌, ◌≢◌, suc, ◌<◌, true, Option, Some};
ghost use Rattle.ft_model.specs.declared.content.Content.{Content};
ghost use Rattle.ft_model.specs.declared.reply.Reply.TheVariants as reply;
ghost use Rattle.ft_model.specs.Worlds.{kind_of, length_of, serial_of};
ghost use Rattle.ft_trace.specs.Acts.{is_writing};
ghost use Rattle.ft_trace.specs.Addresses.{container_count, class_of};
ghost use Rattle.ft_trace.specs.Holds.{hand_unboxed, held_unboxed, held_words, in_hand};
ghost use Rattle.ft_trace.specs.Pictures.{root_in};
ghost use Rattle.ft_trace.specs.ContainerStates.{kind_in};
ghost use Rattle.ft_bank.specs.Passes.{shape_of, view, IsPassOf};
ghost use Rattle.ft_bank.specs.PassSections.{stack_of};
ghost use Rattle.ft_bank.specs.TableNames.{table_id};
ghost use Rattle.ft_bank.specs.SameBoxes.{SameReferences};
ghost use Rattle.ft_bank.specs.Whole.{OnlyPut, Wrote};
ghost use Rattle.ft_search.specs.Rounds.{kind_by};
ghost use Rattle.ft_new_keys.specs.Fresh.{IsFilledWith};
ghost use Rattle.ft_new_keys.specs.KeyGrowth.{MayGrowKeyed};
ghost use Rattle.ft_new_keys.specs.Placing.{counted};
ghost use Rattle.ft_replacing.specs.Replacing.{Replaces};
ghost use Rattle.ft_replacing.specs.Sharing.{NamesLocked};

use crate::raising::{raise_values, value_places};
use ft_bank::{Bank, Pass, Table};
use ft_keys::Way;
use ft_layout::{used_entries_follow_a_dict, used_entries_follow_a_set, words_are_of_one_content};
use ft_model::{Call, Reply};
use ft_new_keys::{COUNT, FILL, NEXT, drop_old};

/// Puts into the block how many pairs or elements there are, each in an entry, and the next serial.
fn put_counts(bank: &Bank, pass: &mut Pass, o: u32, count: u64, next: u64)
    requires pass { IsPassOf bank.now pass.old }
    requires container { o < container_count (shape_of bank.now) }
    requires odd { is_writing o (view pass.old).log ≡ true }
    ensures pass { IsPassOf bank.now pass.new }
    ensures stack { stack_of pass.new ≡ stack_of pass.old }
    ensures only { OnlyPut o (view pass.old) (view pass.new) }
    ensures words { held_unboxed o (view pass.new) ≡ record {
      block = counted (held_unboxed o (view pass.old)).block count count next;
      table = (held_unboxed o (view pass.old)).table;
    } }
    ensures raw { (held_words o (view pass.new)).table ≡ (held_words o (view pass.old)).table }
{
    bank.put_block(pass, o, COUNT, count);
    bank.put_block(pass, o, FILL, count);
    bank.put_block(pass, o, NEXT, next);
}

/// Gives a dict or a set this table, which has what it gets, as the write of the call. Where a value of the table stands
/// in a box, a container names the box whose lock the pass has, this one or another: the new words get a reference of
/// their own, before the old ones lose theirs. Answers the number of the write.
pub fn swap_table(
    bank: &Bank,
    pass: &mut Pass,
    o: u32,
    way: Way,
    old: Option<Table>,
    table: Table,
    count: u64,
    next: u64,
    called: &Call,
) -> u64
    requires pass { IsPassOf bank.now pass.old }
    requires may { MayGrowKeyed (shape_of bank.now) o old table (view pass.old) }
    requires kind { kind_in (shape_of bank.now).starts o ≡ kind_by way }
    requires other { root_in (held_unboxed o (view pass.old)) ≢ suc (table_id table) }
    requires gets { (left : Content) × (kind_of left ≡ kind_in (shape_of bank.now).starts o)
        × (count ≡ length_of left) × (next ≡ serial_of left)
        × IsFilledWith (shape_of bank.now).texts (class_of (table_id table)) left
        (hand_unboxed o (table_id table) (view pass.old))
        × Replaces o called.now left (Some (class_of (table_id table))) (view pass.old) }
    requires named { NamesLocked (shape_of bank.now) o (table_id table) (view pass.old) }
    ensures pass { IsPassOf bank.now pass.new }
    ensures stack { stack_of pass.new ≡ stack_of pass.old }
    ensures wrote { Wrote called.now reply.Done result (view pass.old) (view pass.new) }
    ensures references { SameReferences (view pass.old) (view pass.new) }
    ensures root { root_in (held_unboxed o (view pass.new)) ≡ suc (table_id table) }
    ensures raw { (held_words o (view pass.new)).table ≡ in_hand (table_id table) (view pass.old) }
{
    words_are_of_one_content();
    used_entries_follow_a_dict();
    used_entries_follow_a_set();
    bank.start_write(pass, o);
    bank.put_root(pass, o, None);
    let places = value_places(way, table.class);
    raise_values(bank, pass, o, table, places);
    drop_old(bank, pass, o, way, old);
    let number = bank.commit(pass, called, &Reply::Done);
    bank.put_root(pass, o, Some(table));
    put_counts(bank, pass, o, count, next);
    bank.stop_write(pass, o);
    number
}
