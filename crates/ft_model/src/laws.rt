//! What holds of the worlds of every history. The functions do nothing: their contracts are the laws.
ghost use Rattle.std.specs.List.{sum_by, range_with_len};
ghost use Rattle.std.specs.Prelude.{◌≡◌, ◌≢◌, ◌≤◌, ℕ, List, Option, Some, length, slice_get, take, All, false};
ghost use Rattle.ft_model.specs.declared.call.Call.{Call};
ghost use Rattle.ft_model.specs.declared.content.Content.{Content};
ghost use Rattle.ft_model.specs.declared.cursor.Cursor.{Cursor};
ghost use Rattle.ft_model.specs.declared.entry.Entry.{Entry};
ghost use Rattle.ft_model.specs.declared.entry.Storage.TheVariants.{Tables};
ghost use Rattle.ft_model.specs.declared.script.Start.{Start};
ghost use Rattle.ft_model.specs.declared.script.ScriptParts.{ScriptParts};
ghost use Rattle.ft_model.specs.Worlds.{IsDeclared, HasRoom};
ghost use Rattle.ft_model.specs.Answers.{answer, world_by};
ghost use Rattle.ft_model.specs.Classes.{least_class, class_count};
ghost use Rattle.ft_model.specs.TableUses.{StoredWorld, empty_stored, after_stored, stored_after, takes_by, passes_cap, would_pass};
ghost use Rattle.ft_model.specs.Histories.{writes, IsLegal};
ghost use Rattle.ft_model.specs.Scripts.{IsScript};
ghost use Rattle.ft_model.specs.TablesInOrder.{changed_by, AreTablesInOrder};
ghost use Rattle.ft_model.specs.Serials.{IsContent, HasFewSerials};

/// Whatever calls are made, each container keeps the rule of its kind: keys and elements are
/// distinct, and serials rise and are below the next one.
pub fn worlds_keep_their_rule()
    ensures call { (world : List Content) (hands : List (Option Cursor)) (called : Call) →
        All IsContent world → All IsContent (answer world hands called).world }
    ensures calls { (starts : List Start) (calls : List Call) → All IsContent (world_by starts calls) }
{}

/// From the start on a container has no more keys than calls were made, and has drawn no more
/// serials than the square of their number.
pub fn serials_are_few()
    ensures { (starts : List Start) (calls : List Call) → All (HasFewSerials (length calls)) (world_by starts calls) }
{}

/// As many calls as a script may have leave serials for the next one.
pub fn calls_have_room()
    ensures { (starts : List Start) (calls : List Call) (hands : List (Option Cursor)) (called : Call) →
        length calls ≤ 500000 → IsDeclared (world_by starts calls) hands called →
        HasRoom (world_by starts calls) called }
{}

/// A call changes one container at most, and the table of that one alone. The others have what they
/// had, in the tables that they had.
pub fn others_are_untouched()
    ensures contents { (world : List Content) (hands : List (Option Cursor)) (called : Call) (place : ℕ) →
        changed_by called ≢ Some place → slice_get (answer world hands called).world place ≡ slice_get world place }
    ensures tables { (stored : StoredWorld) (called : Call) (place : ℕ) →
        changed_by called ≢ Some place →
        slice_get (after_stored stored called).tables place ≡ slice_get stored.tables place }
    ensures as_many_contents { (world : List Content) (hands : List (Option Cursor)) (called : Call) →
        length (answer world hands called).world ≡ length world }
    ensures as_many_tables { (stored : StoredWorld) (called : Call) →
        length (after_stored stored called).tables ≡ length stored.tables }
{}

/// Tables that are in order stay so at each write that passes no cap, and are so at the start. Where
/// they are in order, no container has more than the largest table holds.
pub fn tables_stay_in_order()
    ensures start { (starts : List Start) → AreTablesInOrder (empty_stored starts) }
    ensures write { (stored : StoredWorld) (hands : List (Option Cursor)) (called : Call) →
        IsDeclared stored.world hands called → would_pass stored.world called ≡ false →
        AreTablesInOrder stored → AreTablesInOrder (after_stored stored called) }
    ensures caps { (stored : StoredWorld) → AreTablesInOrder stored →
        All (λ content. passes_cap content ≡ false) stored.world }
{}

/// At each place of a legal history on tables the tables are in order, and so no container has more
/// than the largest table holds.
pub fn tables_are_in_order()
    ensures { (script : ScriptParts) (entries : List Entry) (place : ℕ) →
        IsScript script → IsLegal Tables script entries →
        AreTablesInOrder (stored_after script (writes (take place entries))) }
{}

/// A write takes one table at most, whether it names one container or two: no class is taken more
/// often than there are writes, nor are all classes together.
pub fn a_write_takes_one_table()
    ensures class { (starts : List Start) (class : ℕ) (calls : List Call) → takes_by starts class calls ≤ length calls }
    ensures all { (starts : List Start) (calls : List Call) →
        sum_by (λ class. takes_by starts class calls) (range_with_len least_class class_count) ≤ length calls }
{}
