//! What notes, joins and the floor give: laws on every valid trace, for callers that meet and for one caller
//! that holds all passes.
ghost use Rattle.ft_trace.specs.SeenWrites.{SeenIsLow, SeenIsHandedOn, LoadsSeeAll};
ghost use Rattle.ft_trace.specs.ToldEntries.{ToldEntriesAreSeen, AwaitsWereTold, AwaitedEntriesAreKnown, AwaitsMayBeAnswered};
ghost use Rattle.ft_trace.specs.Presences.{PresencesTell, PresencesAreSo};
ghost use Rattle.ft_trace.specs.Floors.{TokensAreAll, AllTokensAreAlone, FloorStands, FloorTells, OwnersStay, KnownOwnersStay, RestingPassesAreQuiet, FloorVersionsAreEven, KnownVersionsAreEven};

/// A pass has seen no more writes than the counter says: its next load of the counter, and its next write,
/// gives at least what it has seen.
pub fn seen_is_low()
    ensures { SeenIsLow }
{}

/// A note says all that its maker has seen, and who takes in a note or a pass has seen what the other had.
pub fn seen_is_handed_on()
    ensures { SeenIsHandedOn }
{}

/// Each load of the counter gives at least the number of writes that the pass had seen by itself.
pub fn loads_see_all()
    ensures { LoadsSeeAll }
{}

/// There are as many tokens as passes.
pub fn tokens_are_all()
    ensures { TokensAreAll }
{}

/// While one view has all tokens no other pass takes a step.
pub fn all_tokens_are_alone()
    ensures { AllTokensAreAlone }
{}

/// Who has the floor knows every word of the bank by its own log.
pub fn floor_stands()
    ensures { FloorStands }
{}

/// Who has the floor knows what each of its steps finds.
pub fn floor_tells()
    ensures { FloorTells }
{}

/// Whoever else has a lock has had it since the floor was taken.
pub fn owners_stay()
    ensures traces { OwnersStay }
    ensures passes { KnownOwnersStay }
{}

/// A pass with no token writes no container, has no fresh table in hand, and is in the midst of no taking or
/// giving.
pub fn resting_passes_are_quiet()
    ensures { RestingPassesAreQuiet }
{}

/// Who has the floor finds each version even but those that it has made odd itself.
pub fn floor_versions_are_even()
    ensures traces { FloorVersionsAreEven }
    ensures passes { KnownVersionsAreEven }
{}

/// What the presence of a pass says: of a pass that was never online, that it made no entry; of one that is online, that
/// it has been so since before its first entry; and of one whose presence is over, that it was online from before its
/// first entry until after its last, and then went offline. The log of each such pass has this presence.
pub fn presences_tell_who_was_online()
    ensures tells { PresencesTell }
    ensures are { PresencesAreSo }
{}

/// The entries that a note tells of are the first of its maker, and stand before as many writes as it says.
pub fn told_entries_are_seen()
    ensures seen { ToldEntriesAreSeen }
    ensures known { AwaitedEntriesAreKnown }
{}

/// Whoever made an await was told of the call that it names.
pub fn awaits_were_told()
    ensures { AwaitsWereTold }
{}

/// An await may be answered by a pass that was told of the call that it names.
pub fn awaits_may_be_answered()
    ensures { AwaitsMayBeAnswered }
{}
