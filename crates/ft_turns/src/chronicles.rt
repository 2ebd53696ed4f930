//! What the turns of every script come to. The functions do nothing: their contracts are the laws.
ghost use Rattle.std.specs.Prelude.{◌≡◌, ℕ, List, Some, fold};
ghost use Rattle.ft_model.specs.declared.call.Call.{Call};
ghost use Rattle.ft_model.specs.declared.script.ScriptParts.{ScriptParts};
ghost use Rattle.ft_model.specs.Scripts.{IsScript};
ghost use Rattle.ft_turns.specs.Orders.{thread_at, next_call};
ghost use Rattle.ft_turns.specs.AnsweredTurns.{start_progress, answered_turn, last_progress, answered_turns};
ghost use Rattle.ft_turns.specs.Chronicling.{IsChronicleOfTurns, IsAnswerable};

/// The calls of a script, answered in the order of its turns as the plain containers of one thread
/// answer them then, are a chronicle of the script, with the marks that the turns give.
pub fn turns_make_a_chronicle()
    ensures { (script : ScriptParts) → IsScript script → IsChronicleOfTurns script (answered_turns script) (last_progress script).world }
{}

/// After any turns the next call of a thread can be answered: what it names is declared and of its
/// kind, and the cursor that it moves was made.
pub fn next_calls_are_answerable()
    ensures { (script : ScriptParts) → IsScript script → (turns : List ℕ) (thread : ℕ) (called : Call) → next_call script thread (thread_at (fold (answered_turn script) (start_progress script) turns).machine thread) ≡ Some called → IsAnswerable (fold (answered_turn script) (start_progress script) turns) thread called }
{}
