//! Another root of a list that a pass writes. The references of the table that the list had are dropped right after its
//! root is put: no words name their boxes any longer.
ghost use Rattle.std.specs.Prelude.{◌≡◌, ◌≢◌, ℕ, false, Option, Some};
ghost use Rattle.ft_trace.specs.declared.Act.TheVariants.{StartWrite};
ghost use Rattle.ft_trace.specs.Acts.{is_writing, view_after};
ghost use Rattle.ft_trace.specs.Boxes.{named_in_root, IsSettled};
ghost use Rattle.ft_trace.specs.ContainerStates.{kind_in};
ghost use Rattle.ft_trace.specs.Holds.{held_unboxed};
ghost use Rattle.ft_bank.specs.Passes.{shape_of, view, IsPassOf};
ghost use Rattle.ft_bank.specs.PassSections.{stack_of};
ghost use Rattle.ft_bank.specs.SameBoxes.{SameReferences};
ghost use Rattle.ft_bank.specs.TableNames.{root_for, words_for, IsTableIn};
ghost use Rattle.ft_bank.specs.WriteSteps.{MayPutRoot, with_unboxed_root};
ghost use Rattle.ft_bank.specs.declared.table.Table.{Table};
ghost use Rattle.ft_table_calls.specs.Dropping.{AreValuePlaces};
ghost use Rattle.ft_model.specs.declared.script.Kind.TheVariants as kind;
ghost use Rattle.ft_model.specs.Classes.{IsClass};
ghost use Rattle.ft_list.specs.Internal.NewListTables.{HasRooted, KnowsList};

use ft_bank::{Bank, Pass, Table};
use ft_layout::{item_word, list_items};
use ft_table_calls::{ValuePlaces, drop_values};

/// The words of an item.
const ITEM: u64 = item_word::VALUE + 2;

/// Where the values lie in a table of a list, which is of this class.
fn item_places(class: u32) -> ValuePlaces
    requires { IsClass class }
    ensures { AreValuePlaces kind.List class result }
{
    ValuePlaces {
        first: item_word::VALUE_KIND,
        step: ITEM,
        rows: list_items(class),
    }
}

/// Makes the version of a list odd and puts another root, of a table that names no box or of none; the references of
/// the table that the list had are dropped.
pub(crate) fn put_other_root(
    bank: &Bank,
    pass: &mut Pass,
    o: u32,
    old: Option<Table>,
    root: Option<Table>,
)
    requires pass { IsPassOf bank.now pass.old }
    requires list { KnowsList (shape_of bank.now) o old (view pass.old) }
    requires even { (p : ℕ) → is_writing p (view pass.old).log ≡ false }
    requires settled { IsSettled (view pass.old).log }
    requires table { (t : Table) → root ≡ Some t → IsTableIn (shape_of bank.now) t }
    requires other { root_for old ≢ root_for root }
    requires plain { (b : ℕ) → named_in_root b (kind_in (view pass.old).shape.starts o) (root_for root) (words_for root (view pass.old)) ≡ 0 }
    requires may { (f : ℕ) → MayPutRoot (view_after (StartWrite o f) (view pass.old)) o root }
    ensures pass { IsPassOf bank.now pass.new }
    ensures stack { stack_of pass.new ≡ stack_of pass.old }
    ensures rooted { HasRooted o (root_for root) (view pass.old) (view pass.new) }
    ensures settled { IsSettled (view pass.new).log }
    ensures references { SameReferences (view pass.old) (view pass.new) }
    ensures words { held_unboxed o (view pass.new) ≡
        with_unboxed_root (held_unboxed o (view pass.old)) o root (view pass.old) }
{
    bank.start_write(pass, o);
    bank.put_root(pass, o, root);
    match old {
        Some(table) => drop_values(bank, pass, o, table, item_places(table.class)),
        None => {}
    }
}
