//! What a pass with the floor finds where it looks at an item without the lock.
ghost use Rattle.ft_list.specs.Floors.{FloorItemsStand};

/// While a pass has the floor and writes nothing itself, nothing stops its look at an item: no version of the item, none
/// of the list, and no count of a box that the item names.
pub fn floor_items_stand()
    ensures { FloorItemsStand }
{}
