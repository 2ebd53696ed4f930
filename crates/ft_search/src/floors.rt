//! What a pass with the floor finds where it looks without a lock.
ghost use Rattle.ft_search.specs.Floors.{FloorEntriesStand, FloorVersionsStand};

/// While a pass has the floor and writes nothing itself, nothing stops its look: no version, neither that of a container
/// nor that of an entry of the table that its root names, and no count of a box that such an entry names.
pub fn floor_looks_stand()
    ensures versions { FloorVersionsStand }
    ensures entries { FloorEntriesStand }
{}
