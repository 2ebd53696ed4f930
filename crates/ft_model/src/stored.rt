//! What containers and their tables come to by a list of writes is the same whichever end of the
//! list one begins at, and what tables they take has room for what they then have. The functions do
//! nothing: their contracts are the laws, for whoever goes by writes and not by whole histories.
ghost use Rattle.std.specs.Prelude.{◌≡◌, ◌≤◌, ◌<◌, ℕ, List, reverse, true, false};
ghost use Rattle.ft_model.specs.declared.call.Call.{Call};
ghost use Rattle.ft_model.specs.declared.script.Start.{Start};
ghost use Rattle.ft_model.specs.Answers.{answer, world_by, is_raised};
ghost use Rattle.ft_model.specs.Calls.{can_add};
ghost use Rattle.ft_model.specs.Classes.{IsClass, dict_entries, set_entries, list_items, most_pairs, most_elements, most_items, class_for, dict_class, set_class, list_class};
ghost use Rattle.ft_model.specs.TableUses.{stored_by, stored_newest, takes_by, takes_newest};
ghost use Rattle.ft_model.specs.Worlds.{WorldContent, HandsContent};

/// What writes leave, and how many tables of a class they take, is the same by the newest write
/// first.
pub fn newest_first_is_the_same()
    ensures stored { (starts : List Start) (calls : List Call) → stored_newest starts calls ≡ stored_by starts (reverse calls) }
    ensures takes { (starts : List Start) (class : ℕ) (calls : List Call) → takes_newest starts class calls ≡ takes_by starts class (reverse calls) }
{}

/// Tables change nothing of what containers have: that is what the writes leave without any.
pub fn tables_leave_contents_alone()
    ensures { (starts : List Start) (calls : List Call) → (stored_by starts calls).world ≡ world_by starts calls }
{}

/// A call that can put something new into a container raises nothing but a MemoryError.
pub fn adding_raises_nothing_else()
    ensures { (world : WorldContent) (hands : HandsContent) (called : Call) → can_add called ≡ true → is_raised (answer world hands called).reply ≡ false }
{}

/// The class for a number of slots is the least one that has as many, where there is one.
pub fn class_is_the_least()
    ensures range { (slots : ℕ) → IsClass (class_for slots) }
    ensures room { (slots : ℕ) → slots ≤ most_items → slots ≤ list_items (class_for slots) }
    ensures least { (slots class : ℕ) → IsClass class → slots ≤ list_items class → class_for slots ≤ class }
{}

/// A new table has room for all that its container has, up to what the largest table holds.
pub fn new_tables_have_room()
    ensures pairs { (count : ℕ) → count ≤ most_pairs → count ≤ dict_entries (dict_class count) }
    ensures elements { (count : ℕ) → count ≤ most_elements → count ≤ set_entries (set_class count) }
    ensures items { (count : ℕ) → count ≤ most_items → count ≤ list_items (list_class count) }
{}
