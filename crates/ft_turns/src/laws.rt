//! Laws of the order of turns. The functions do nothing: their contracts are the laws.

ghost use Rattle.ft_model.specs.declared.script.ScriptParts.{ScriptParts};
ghost use Rattle.ft_model.specs.Scripts.{IsScript};
ghost use Rattle.ft_turns.specs.Chronicling.{AllFinish};
ghost use Rattle.ft_turns.specs.Ends.{TurnsGoOn};
ghost use Rattle.ft_turns.specs.AwaitedFirst.{AwaitedCallsComeFirst};

/// In any two rounds of turns that follow each other some call has its answer fixed or finishes,
/// unless no call is left. So after the turns of a script every call has finished, and the answer of
/// each was fixed once, each thread's in the order of its calls. (A thread that waits has at most the
/// lower of two locks, so from lock to holder to the lock that the holder waits for the numbers rise.)
pub fn turns_go_on()
    ensures { (script : ScriptParts) → IsScript script → TurnsGoOn script }
{}

/// In the turns of a script every call of every thread finishes.
pub fn all_calls_finish()
    ensures { (script : ScriptParts) → IsScript script → AllFinish script }
{}

/// In the turns of a script each call that is awaited has its answer before the call that awaits it.
pub fn awaited_calls_come_first()
    ensures { AwaitedCallsComeFirst }
{}
