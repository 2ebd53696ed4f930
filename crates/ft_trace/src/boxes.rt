//! What holds of boxes in every valid trace, and which steps with boxes may be taken. A box has two counts:
//! its maker writes one alone, all passes share the other.
ghost use Rattle.ft_trace.specs.BoxLaws.{ReferencesAreCounted, DeadBoxesHaveNoReference, PlacesAreGivenBackOnce, PlacesInUseWereStored, SeenBoxesWereStored, TakenPlacesAreTheMakers, RaisesAreOfLiveBoxes, LocalCountsAreTheMakers, ReferencedValuesStay, HeldValuesStay, BoxesHaveValues, OthersLeaveWhatIsRead, WordsStandThroughBoxes, HoldersKnowWhatIsRead, QuietBoxesStay};
ghost use Rattle.ft_trace.specs.HeapPlaces.{FullWordsHaveNoFreePlace, OwnFreePlacesStay};
ghost use Rattle.ft_trace.specs.QuietEntries.{QuietEntriesKeepBoxes};
ghost use Rattle.ft_trace.specs.HeldReads.{HeldHitsAreRight, HeldItemsAreRight};
ghost use Rattle.ft_trace.specs.OddValues.{OddValuesMayBeAny};
ghost use Rattle.ft_trace.specs.BoxPuts.{PutsHaveReferences};
ghost use Rattle.ft_trace.specs.BoxGrowths.{GrowthsMoveReferences};
ghost use Rattle.ft_trace.specs.BoxGrants.{BoxesMayBeMade};

/// The local count of a box, its shared count and what a merge has taken out of the local one add up to its
/// references: the words that name it, and those that passes hold. Where there is no box there is none.
pub fn references_are_counted()
    ensures { ReferencesAreCounted }
{}

/// A dead box has no reference, and a merged box without one is dead.
pub fn dead_boxes_have_no_reference()
    ensures { DeadBoxesHaveNoReference }
{}

/// A merged box with a reference keeps its place; of one without, one pass has the place to give back, and
/// the place is given back once.
pub fn places_are_given_back_once()
    ensures { PlacesAreGivenBackOnce }
{}

/// A place that isn't free is one in which a write of its maker has put a value, or its maker has taken it and has
/// neither given it back nor stored it by a write.
pub fn places_in_use_were_stored()
    ensures { PlacesInUseWereStored }
{}

/// A box whose name was read in a container, between two equal even loads of a version, was stored by a write of its
/// maker.
pub fn seen_boxes_were_stored()
    ensures { SeenBoxesWereStored }
{}

/// A box that no write has stored has no reference where its maker holds none and writes no container.
pub fn taken_places_are_the_makers()
    ensures { TakenPlacesAreTheMakers }
{}

/// A raise of the shared count never succeeds on a dead box.
pub fn raises_are_of_live_boxes()
    ensures { RaisesAreOfLiveBoxes }
{}

/// No pass but its maker writes the local count of a box.
pub fn local_counts_are_the_makers()
    ensures { LocalCountsAreTheMakers }
{}

/// A box for which there is a reference keeps its value.
pub fn referenced_values_stay()
    ensures { ReferencedValuesStay }
{}

/// A box keeps its value as long as a pass holds a reference for it.
pub fn held_values_stay()
    ensures { HeldValuesStay }
{}

/// A box that was published has a value, an integer or a string, until its place is given back.
pub fn boxes_have_values()
    ensures { BoxesHaveValues }
{}

/// What the words of a container read through boxes is changed by who writes the container alone.
pub fn others_leave_what_is_read()
    ensures { OthersLeaveWhatIsRead }
{}

/// While a container's version is even its words, read through boxes, stand for its content at the counter.
pub fn words_stand_through_boxes()
    ensures { WordsStandThroughBoxes }
{}

/// A pass with the lock of a container knows what its words read through boxes.
pub fn holders_know_what_is_read()
    ensures { HoldersKnowWhatIsRead }
{}

/// While an even version of a container stays, so do the values in the boxes that its words name.
pub fn quiet_boxes_stay()
    ensures { QuietBoxesStay }
{}

/// While an entry or item of a current table keeps an even version, so does the value in the box that it names.
pub fn quiet_entries_keep_boxes()
    ensures { QuietEntriesKeepBoxes }
{}

/// What was read in a box, under a reference that was held since before the counter was loaded, is the content's
/// at the stamp, if an entry or item that was looked up named the box.
pub fn held_boxes_are_right()
    ensures entries { HeldHitsAreRight }
    ensures items { HeldItemsAreRight }
{}

/// What holds of a table for readers without the lock holds whatever a value reads whose version is odd.
pub fn odd_values_may_be_any()
    ensures { OddValuesMayBeAny }
{}

/// A word of bits that is found 0 has no free place; a place of its own heap that a pass finds free stays free
/// until the pass takes it.
pub fn bits_of_heaps_tell()
    ensures full { FullWordsHaveNoFreePlace }
    ensures own { OwnFreePlacesStay }
{}

/// A put of a word of a current table may be made with a reference for the box that its value names then, and
/// without any where it names none.
pub fn puts_have_references()
    ensures { PutsHaveReferences }
{}

/// A root may be put to a table with the values of the one before: no count changes, and the pass holds the
/// references that it held.
pub fn growths_move_references()
    ensures { GrowthsMoveReferences }
{}

/// A pass whose heap has a free place may make a box there, drop it and give the place back, whatever others do.
pub fn boxes_may_be_made()
    ensures { BoxesMayBeMade }
{}
