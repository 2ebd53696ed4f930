//! What follows of each report. The functions do nothing: their contracts are the laws, over what the
//! source has before the call.
ghost use Rattle.ft_history.specs.declared.verdict.Verdict.{Verdict};
ghost use Rattle.ft_history.specs.declared.verdict.Verdict.TheVariants as verdict;
ghost use Rattle.ft_history.specs.EnoughTables.{HasEnoughPlaces, HasEnoughTables, StaysWithinCaps};
ghost use Rattle.ft_io.specs.Streams.{added};
ghost use Rattle.ft_model.specs.declared.entry.Entry.{Entry};
ghost use Rattle.ft_model.specs.declared.script.ScriptParts.{ScriptParts};
ghost use Rattle.ft_model.specs.Answers.{is_memory};
ghost use Rattle.ft_model.specs.Histories.{IsLegal};
ghost use Rattle.ft_runner.specs.declared.command.Subcommand.{Subcommand};
ghost use Rattle.ft_runner.specs.declared.command.Subcommand.TheVariants as subcommand;
ghost use Rattle.ft_runner.specs.declared.report.Fault.TheVariants as fault;
ghost use Rattle.ft_runner.specs.declared.report.Report.{Report};
ghost use Rattle.ft_runner.specs.FaultCauses.{IsCause, IsReportOn};
ghost use Rattle.ft_runner.specs.Checking.{IsScriptPart, IsWithinLimits};
ghost use Rattle.ft_runner.specs.Commands.{runs_script};
ghost use Rattle.ft_runner.specs.Findings.{legal_line, stored, IsBadAt, IsInput, IsVerdictOn};
ghost use Rattle.ft_runner.specs.Transfers.{input_limit, script_limit};
ghost use Rattle.ft_runner.specs.Written.{checked_text, EndsLine, IsWritten};
ghost use Rattle.ft_runner.specs.Reports.{fault_of, refusal_of, reported_of};
ghost use Rattle.ft_script.specs.declared.fault.ScriptFault.{ScriptFault};
ghost use Rattle.ft_script.specs.Generator.{made_text};
ghost use Rattle.ft_script.specs.ReadScripts.{read_script};
ghost use Rattle.ft_script.specs.Texts.{transcript};
ghost use Rattle.std.specs.Prelude.{◌≡◌, ◌<◌, ◌≤◌, ◌⊎◌, ℕ, List, Ok, Err, All, true, false, length};

/// Each report has its cause in the text: a script's first fault, the first line that is none of a
/// transcript's, the first broken rule, or that it is too long. Memory may run out with any text.
pub fn reports_have_their_causes()
    ensures { (command : Subcommand) (text : List ℕ) (report : Report)
        → IsReportOn command text report → IsCause command text report.fault }
{}

/// A script within the limit is run, and all is done, or memory runs out.
pub fn scripts_are_run()
    ensures { (command : Subcommand) (text : List ℕ) (report : Report) (script : ScriptParts)
        → IsReportOn command text report → runs_script command ≡ true
        → length text ≤ script_limit → read_script text ≡ Ok script
        → (report.fault ≡ fault.Clean) ⊎ (report.fault ≡ fault.Memory) }
{}

/// Where a text within the limit is no script, its first fault is reported, and a longer text is too
/// long, or memory runs out.
pub fn scripts_are_refused()
    ensures faulty { (command : Subcommand) (text : List ℕ) (report : Report) (refused : ScriptFault)
        → IsReportOn command text report → runs_script command ≡ true
        → length text ≤ script_limit → read_script text ≡ Err refused
        → (report.fault ≡ fault_of (refusal_of refused)) ⊎ (report.fault ≡ fault.Memory) }
    ensures long { (command : Subcommand) (text : List ℕ) (report : Report)
        → IsReportOn command text report → runs_script command ≡ true
        → script_limit < length text
        → (report.fault ≡ fault.TooLong) ⊎ (report.fault ≡ fault.Memory) }
{}

/// Where a text within the limits begins with a script, its transcript is found legal, or not legal,
/// or no transcript, or memory runs out.
pub fn transcripts_are_checked()
    ensures { (text part : List ℕ) (report : Report) (script : ScriptParts)
        → IsReportOn subcommand.Check text report
        → IsWithinLimits text → IsScriptPart text part → read_script part ≡ Ok script
        → (report.status ≡ 0) ⊎ (report.status ≡ 5) ⊎ (report.status ≡ 7) ⊎ (report.status ≡ 8) }
{}

/// Where a text within the limits is a script, the line `---` and a transcript of the script, the
/// verdict on it is reported, or memory runs out: legal ones are reported legal, and no others.
pub fn verdicts_are_reported()
    ensures { (text : List ℕ) (report : Report) (script : ScriptParts) (entries : List Entry) (lines : List (List ℕ)) (found : Verdict)
        → IsReportOn subcommand.Check text report
        → IsWithinLimits text → IsInput text script entries lines → IsVerdictOn script entries lines found
        → (report.fault ≡ reported_of found) ⊎ (report.fault ≡ fault.Memory) }
{}

/// Where a text within the limits has a line that is none of a transcript's, that line is reported, as
/// there is one first such line, or memory runs out.
pub fn bad_lines_are_reported()
    ensures { (text : List ℕ) (report : Report) (line : ℕ)
        → IsReportOn subcommand.Check text report → IsWithinLimits text → IsBadAt text line
        → (report.fault ≡ fault.Transcript line) ⊎ (report.fault ≡ fault.Memory) }
{}

/// A legal history's text has its reading: after a script's text and the line `---` it is the
/// transcript of its entries and of the contents that they leave, and the verdict on it is legal.
pub fn legal_histories_are_read_back()
    ensures { (text : List ℕ) (script : ScriptParts) (history : List Entry)
        → read_script text ≡ Ok script → EndsLine text
        → IsLegal stored script history
        → (lines : List (List ℕ)) × IsInput (checked_text text (transcript script history)) script history lines
        × IsVerdictOn script history lines verdict.Legal }
{}

/// What a command writes that runs a script's text, `check` finds legal after that text and the line
/// `---`, and writes so, unless the whole is too long or memory runs out.
pub fn what_is_written_is_found_legal()
    ensures { (command : Subcommand) (text written : List ℕ) (report : Report)
        → runs_script command ≡ true → IsWritten command text written → EndsLine text
        → length (checked_text text written) ≤ input_limit
        → (on : IsReportOn subcommand.Check (checked_text text written) report)
        → ((report.fault ≡ fault.Clean) × (on.sink'.content ≡ added on.sink.content legal_line))
        ⊎ (report.fault ≡ fault.Memory) }
{}

/// Where a script has enough tables and places, and no call would leave a container with more than the
/// largest table holds, no MemoryError is written of it: of each class there are as many tables as the
/// script has calls that can add, and one more for each thread but one, and no thread makes more calls
/// that would put a value in a box than its heap has places. The same holds of a made script, of which
/// a summary is written.
pub fn enough_tables_never_run_out()
    ensures written { (command : Subcommand) (text written : List ℕ) (script : ScriptParts)
        → runs_script command ≡ true → (ran : IsWritten command text written) → read_script text ≡ Ok script
        → HasEnoughTables script → StaysWithinCaps script ran.report.history.items → HasEnoughPlaces script ran.report.history.items
        → All (λ entry. is_memory entry.reply ≡ false) ran.report.history.items }
    ensures made { (calls : ℕ) (text : List ℕ) (report : Report) (script : ScriptParts)
        → IsReportOn (subcommand.MakeTurns calls) text report → report.fault ≡ fault.Clean
        → read_script (made_text calls) ≡ Ok script
        → HasEnoughTables script → StaysWithinCaps script report.history.items → HasEnoughPlaces script report.history.items
        → All (λ entry. is_memory entry.reply ≡ false) report.history.items }
{}
