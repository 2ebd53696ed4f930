//! What holds of the entries of each pass by itself, for whoever makes one history of all of them: laws on every
//! valid trace.
ghost use Rattle.ft_trace.specs.HeapErrors.{HeapErrorsAreEarned};
ghost use Rattle.ft_trace.specs.OwnOrder.{OwnEntriesAreInOrder, KeptSectionsAreUntouched, OwnOrderStays};

/// Stamps of a pass rise from entry to entry, and where an `end` says kept, each write on the section's containers
/// from the stamp of its `begin` on is the pass's own; also of the passes that another took in.
pub fn own_entries_are_in_order()
    ensures { OwnEntriesAreInOrder }
{}

/// While a pass has a section open and has had its locks since the load of the counter that gave the stamp of the
/// `begin`, no other pass writes on the section's containers.
pub fn kept_sections_are_untouched()
    ensures { KeptSectionsAreUntouched }
{}

/// Entries that are in their pass's order stay so when writes come after those that their stamps count.
pub fn own_order_stays()
    ensures { OwnOrderStays }
{}

/// A pass answers a MemoryError of a heap only after as many writes that put a value in a box as its heap has places.
pub fn heap_errors_are_earned()
    ensures { HeapErrorsAreEarned }
{}
