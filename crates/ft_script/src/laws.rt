//! What holds of every script and transcript. The functions do nothing: their contracts are the laws.
ghost use Rattle.ft_model.specs.Limits.{most_calls};
ghost use Rattle.std.specs.Prelude.{◌≡◌, ◌≢◌, ◌<◌, ◌≤◌, ℕ, [], ◌∷◌, ◌++◌, All, IsUtf8, List, Ok, Some, length, option_map, true};
ghost use Rattle.ft_model.specs.declared.call.Call.{Call};
ghost use Rattle.ft_model.specs.declared.entry.Entry.{Entry};
ghost use Rattle.ft_model.specs.declared.script.ScriptParts.{ScriptParts};
ghost use Rattle.ft_model.specs.Histories.{cursors_of};
ghost use Rattle.ft_model.specs.Landed.{is_landed_call};
ghost use Rattle.ft_model.specs.Scripts.{IsCallOf, IsScript};
ghost use Rattle.ft_script.specs.Awaits.{MayAwait, has_awaits};
ghost use Rattle.ft_script.specs.Drafts.{draft_at};
ghost use Rattle.ft_script.specs.Generator.{made_script, made_text};
ghost use Rattle.ft_script.specs.Lines.{words_of};
ghost use Rattle.ft_script.specs.ScriptLines.{just_call};
ghost use Rattle.ft_script.specs.ReadScripts.{read_script};
ghost use Rattle.ft_script.specs.ScriptTexts.{HasText, SaysNothing, said_in, script_text};
ghost use Rattle.ft_script.specs.Texts.{call_words};
ghost use Rattle.ft_script.specs.Transcripts.{IsFirstBad, IsTranscript, IsWideCall};

/// What is read of a text is a script: it keeps the rule of names, kinds, cursors, sections and limits.
pub fn what_is_read_is_a_script()
    ensures { (bytes : List ℕ) (script : ScriptParts) → read_script bytes ≡ Ok script → IsScript script }
{}

/// Each integer of a script that is read is of 64 bits.
pub fn what_is_read_is_wide()
    ensures { (bytes : List ℕ) (script : ScriptParts) → read_script bytes ≡ Ok script
        → All (λ thread. All IsWideCall thread.calls) script.threads }
{}

/// A script that a text can be has a text of its own, which is read as that script.
pub fn scripts_have_texts()
    ensures { (script : ScriptParts) → HasText script → read_script (script_text script) ≡ Ok script }
{}

/// What is read of a text is a script that has a text: its strings and its cursors are numbered in the
/// order of first mention.
pub fn what_is_read_has_a_text()
    ensures { (bytes : List ℕ) (script : ScriptParts) → read_script bytes ≡ Ok script → HasText script }
{}

/// What is read of a text is what its lines say: a text in UTF-8 whose lines say the same is read as
/// the same script. Comments, lines without words, further spaces between words and a last line feed
/// say nothing.
pub fn only_words_are_read()
    ensures { (text other : List ℕ) (script : ScriptParts) → IsUtf8 other → said_in other ≡ said_in text → read_script text ≡ Ok script → read_script other ≡ Ok script }
{}

/// A comment, a line without words and a last line feed say nothing, and a further space parts no
/// words: the words of two pieces with a space between are those of the one and then of the other.
pub fn blanks_and_comments_say_nothing()
    ensures first { (passed after : List ℕ) → All (λ b. b ≢ 10) passed → SaysNothing passed → said_in (passed ++ 10 ∷ after) ≡ said_in after }
    ensures below { (before passed after : List ℕ) → All (λ b. b ≢ 10) passed → SaysNothing passed
        → said_in (before ++ 10 ∷ (passed ++ 10 ∷ after)) ≡ said_in (before ++ 10 ∷ after) }
    ensures feed { (text : List ℕ) → said_in (text ++ 10 ∷ []) ≡ said_in text }
    ensures spaces { (line more : List ℕ) (words : List (List ℕ)) → words_of line ≡ Some words → words_of (line ++ 32 ∷ more) ≡ option_map (λ others. words ++ others) (words_of more) }
{}

/// The words of a thread's call that is read yet, as they are printed, are read as that call where
/// what it names is declared above it, and they declare nothing new. An `await` is read where a thread
/// of the script has one.
pub fn calls_are_read_back()
    ensures { (script : ScriptParts) (thread : ℕ) (called : Call) → IsScript script → thread < length script.threads → IsCallOf script (cursors_of script thread) called → is_landed_call called ≡ true → IsWideCall called → MayAwait (has_awaits script.threads) (length script.threads) called → just_call (draft_at script thread) (call_words script thread called) ≡ Ok (called, draft_at script thread) }
{}

/// Bytes are the transcript of no more than one list of entries and one list of contents: what is
/// printed is read back as it was.
pub fn one_transcript()
    ensures { (script : ScriptParts) (bytes : List ℕ) (entries others : List Entry) (world lines : List (List ℕ)) → IsScript script → IsTranscript script bytes entries world → IsTranscript script bytes others lines → (entries ≡ others) × (world ≡ lines) }
{}

/// No bytes are a transcript and have a first bad line.
pub fn no_transcript_is_bad()
    ensures { (script : ScriptParts) (bytes : List ℕ) (entries : List Entry) (world : List (List ℕ)) (number : ℕ) → IsScript script → IsTranscript script bytes entries world → IsFirstBad script bytes number → ⊥ }
{}

/// The text that the generator makes for a number of calls is read as the script of that number,
/// so it is one.
pub fn made_scripts_are_read()
    ensures { (calls : ℕ) → calls ≤ most_calls → read_script (made_text calls) ≡ Ok (made_script calls) }
{}
