//! Laws of the ledger. The functions do nothing: their contracts are the laws.
ghost use Rattle.std.specs.Prelude.{◌≡◌, ◌+◌, ◌≤◌, ℕ, List, length, take, All};
ghost use Rattle.ft_model.specs.declared.entry.Entry.{Entry};
ghost use Rattle.ft_model.specs.declared.entry.Storage.TheVariants.{Tables};
ghost use Rattle.ft_model.specs.declared.reply.Reply.TheVariants.{Raised};
ghost use Rattle.ft_model.specs.declared.reply.Raise.TheVariants.{Memory};
ghost use Rattle.ft_model.specs.declared.script.ScriptParts.{ScriptParts};
ghost use Rattle.ft_model.specs.Histories.{EachAt, IsEarnedAt, IsWhole};
ghost use Rattle.ft_model.specs.Scripts.{IsScript};
ghost use Rattle.ft_ledger.specs.Ledgers.{HasLedgerErrors, Ledger, collected, ledger_after};
ghost use Rattle.ft_turns.specs.AnsweredTurns.{answered_turns};
ghost use Rattle.ft_ledger.specs.LedgerLaws.{AddUp, AreAnswered, Changes, Collects, CollectsDue, CountsClasses, EarnsElse, HasReached, HoldsBackOwn, IsFound, LeavesAfterLast, RisesWithTables};

/// After any entries the goal of each retired table is a write number that was reached, and not the
/// first one, and no thread has announced one that was not reached.
pub fn goals_are_write_numbers()
    ensures { (script : ScriptParts) (entries : List Entry) → HasReached (ledger_after script entries) }
{}

/// An entry gives back a retired table only where it is its thread's, and each thread that has calls
/// left has announced the table's goal or a later number. It retires tables of its own thread alone,
/// and a thread announces the write number at its quiescent points and not elsewhere.
pub fn tables_wait_for_all_threads()
    ensures { (script : ScriptParts) (entries : List Entry) → EachAt entries (λ place entry. Changes script entry (ledger_after script (take place entries)) (ledger_after script (take (place + 1) entries))) }
{}

/// After an entry at which its thread collects, each retired table of the thread that is left has a
/// goal that some announced number other than 0 is below.
pub fn own_tables_are_held_back()
    ensures { (script : ScriptParts) (entries : List Entry) → IsWhole script entries → EachAt entries (λ place entry. Collects script (take place entries) entry → HoldsBackOwn entry.thread (ledger_after script (take (place + 1) entries))) }
{}

/// A thread announces 0 with its last call and not before. So when all calls are made every
/// announced number is 0.
pub fn threads_leave_after_their_last_calls()
    ensures each { (script : ScriptParts) (entries : List Entry) (place thread : ℕ) → IsWhole script entries → place ≤ length entries → LeavesAfterLast script entries place thread }
    ensures all { (script : ScriptParts) (entries : List Entry) → IsWhole script entries → All (λ number. number ≡ 0) (ledger_after script entries).announced }
{}

/// A collection of a thread takes off just those of its own retired tables that no announced number
/// holds back, and each of them is a free table of its class again.
pub fn collections_take_what_is_due()
    ensures { (thread : ℕ) (ledger : Ledger) → CollectsDue thread ledger (collected thread ledger) }
{}

/// The calls of a script, answered in the order of its turns as the plain containers answer them, are
/// entries of which the laws below speak.
pub fn turns_are_answered()
    ensures { (script : ScriptParts) → IsScript script → AreAnswered script (answered_turns script) }
{}

/// Where each MemoryError of a class stands where the ledger says, each table of the script is at any
/// place free, or some container's, or retired: of each class the three add up to all tables.
pub fn tables_add_up()
    ensures classes { (script : ScriptParts) (entries : List Entry) (place : ℕ) → IsScript script → AreAnswered script entries → HasLedgerErrors script entries → CountsClasses (ledger_after script (take place entries)) }
    ensures sum { (script : ScriptParts) (entries : List Entry) (place : ℕ) → IsScript script → AreAnswered script entries → HasLedgerErrors script entries → AddUp script (take place entries) }
{}

/// Where each MemoryError of a class stands where the ledger says, the write number rises by one with
/// each table that a container gives up, and with nothing else.
pub fn write_numbers_count_tables()
    ensures { (script : ScriptParts) (entries : List Entry) → AreAnswered script entries → HasLedgerErrors script entries → EachAt entries (RisesWithTables script entries) }
{}

/// A MemoryError of a class stands only on a call that would take a table of that class, where each
/// of them is a container's or retired, so that earlier calls took as many as there are. So where
/// all other replies have their cause, each MemoryError has one.
pub fn ledger_errors_are_earned()
    ensures found { (script : ScriptParts) (entries : List Entry) → IsScript script → AreAnswered script entries → HasLedgerErrors script entries → EachAt entries (λ place entry. (class : ℕ) → entry.reply ≡ Raised (Memory class) → IsFound script (take place entries) entry class) }
    ensures earned { (script : ScriptParts) (entries : List Entry) → IsScript script → AreAnswered script entries → HasLedgerErrors script entries → EarnsElse script entries → EachAt entries (IsEarnedAt Tables script entries) }
{}
