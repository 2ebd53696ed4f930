//! One try of a caller that has the floor, and a turn of a thread that awaits. The functions do nothing: their contracts
//! are laws.
ghost use Rattle.ft_turn_laws.specs.Turns.{LearnsAreTurns, SpentTurnsChangeNothing, TriesAreTurns};

/// One try of the next call of a caller that has the floor is one turn of its thread in the machine: the same locks are
/// taken and let go, the same call gets its answer or waits with the same mark, and each answer knows of all writes
/// before it.
pub fn tries_are_turns()
    ensures { TriesAreTurns }
{}

/// An await whose named call has finished, answered to a caller that has the floor, is one turn of its thread in the
/// machine.
pub fn learns_are_turns()
    ensures { LearnsAreTurns }
{}

/// A turn of a thread that awaits a call which has not finished, or has no call left, changes nothing.
pub fn spent_turns_change_nothing()
    ensures { SpentTurnsChangeNothing }
{}
