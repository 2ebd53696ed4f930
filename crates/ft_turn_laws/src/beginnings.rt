//! Callers before the first turn, and the floor on its way from one caller to the next. The functions do nothing: their
//! contracts are laws.
ghost use Rattle.ft_turn_laws.specs.Beginnings.{FloorsAreHandedOn, FreshCallersAreNobody, LocksOfNobodyAreFree, NewCallersAreInStep, OneMoreOwnsNone, RestingCallersStand, WokenCallersHaveFloor};

/// A caller of a new engine is in no call and in no section, and was answered nothing.
pub fn fresh_callers_are_nobody()
    ensures { FreshCallersAreNobody }
{}

/// Where no caller has made a call, and no lock is taken, the callers stand as the threads of the machine do before the
/// first turn.
pub fn new_callers_are_in_step()
    ensures { NewCallersAreInStep }
{}

/// A caller that is woken by the tokens of one that had the floor knows the words as that one knew them.
pub fn woken_callers_have_floor()
    ensures { WokenCallersHaveFloor }
{}

/// A caller that has handed its tokens on, or taken some, stands as before.
pub fn resting_callers_stand()
    ensures { RestingCallersStand }
{}

/// Where the floor is handed on, the callers stand as before.
pub fn floors_are_handed_on()
    ensures { FloorsAreHandedOn }
{}

/// A caller that has been given the floor, and has no lock, knows that of one thread more than the caller before it.
pub fn one_more_owns_none()
    ensures { OneMoreOwnsNone }
{}

/// Where none of the bank's passes has a lock, no lock is taken.
pub fn locks_of_nobody_are_free()
    ensures { LocksOfNobodyAreFree }
{}
