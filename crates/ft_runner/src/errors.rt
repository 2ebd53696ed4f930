//! The line of a fault, put in pieces without memory, so that it can be put also where memory ran
//! out.
ghost use Rattle.ft_runner.specs.declared.outcome.Outcome.TheVariants as outcome;
ghost use Rattle.std.specs.Prelude.{◌≡◌, ◌++◌, decimal, false};
ghost use Rattle.ft_runner.specs.Transfers.{PutsText, Reported};
ghost use Rattle.ft_runner.specs.Reports.{error_line, fault_of, has_line};

use crate::outcome::Outcome;
use crate::writing::put_all;
use ft_io::{Failed, Sink};
use ft_script::ScriptFault;
use itoa::Buffer;

/// Puts the line of what a call has come to, whole or as a prefix where the errors failed. Where it
/// has no line, the errors are left alone.
pub(crate) fn tell<E: Sink>(errors: &mut E, outcome: &Outcome)
    ensures reported { Reported (E.stream errors.old) (error_line outcome.now) (E.stream errors.new) }
    ensures untouched { has_line (fault_of outcome.now) ≡ false → errors.new ≡ errors.old }
{
    let _ = put_line(errors, outcome);
}

/// Puts the line of what a call has come to, where it has one.
fn put_line<E: Sink>(errors: &mut E, outcome: &Outcome) -> Result<(), Failed>
    ensures line { PutsText (E.stream errors.old) (error_line outcome.now) result (E.stream errors.new) }
    ensures untouched { has_line (fault_of outcome.now) ≡ false → errors.new ≡ errors.old }
{
    match outcome {
        Outcome::Clean(..) => Ok(()),
        Outcome::NotLegal(..) => Ok(()),
        Outcome::Script(refused) => put_refused(errors, refused),
        Outcome::Usage => put_all(
            errors,
            b"ftpy: usage: run | turns | check | make N [turns]\n",
        ),
        Outcome::Read => put_all(errors, b"ftpy: read fault\n"),
        Outcome::Write(..) => put_all(errors, b"ftpy: write fault\n"),
        Outcome::Memory => put_all(errors, b"ftpy: want of memory\n"),
        Outcome::TooLong => put_all(errors, b"ftpy: too long\n"),
        Outcome::Transcript(line) => {
            put_number(errors, b"ftpy: transcript line ", u64::from(*line), b"\n")
        }
    }
}

/// Puts the line of a script's fault.
fn put_refused<E: Sink>(errors: &mut E, refused: &ScriptFault) -> Result<(), Failed>
    ensures { PutsText (E.stream errors.old) (error_line (outcome.Script refused.now)) result (E.stream errors.new) }
{
    put_number(errors, b"ftpy: line ", u64::from(refused.line), b": ")?;
    put_number(errors, b"", u64::from(refused.kind), b" ")?;
    put_all(errors, refused.text().as_bytes())?;
    put_all(errors, b"\n")
}

/// Puts a number with what stands before it and after it.
pub(crate) fn put_number<E: Sink>(
    errors: &mut E,
    before: &[u8],
    number: u64,
    after: &[u8],
) -> Result<(), Failed>
    ensures { PutsText (E.stream errors.old) (before.now ++ decimal number ++ after.now) result (E.stream errors.new) }
{
    put_all(errors, before)?;
    let mut buffer = Buffer::new();
    put_all(errors, buffer.format(number).as_bytes())?;
    put_all(errors, after)
}
