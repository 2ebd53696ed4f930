//! Scripts with their histories, and whether the engine's are those.

use crate::turns::play;
use ft_history::{Verdict, judge, merge};
use ft_model::Storage;
use ft_script::{parse, read_transcript};
use std::alloc::Global;
use std::test::Fail;

/// A script, and the lines of the entries of its history.
#[derive(Clone, Copy)]
pub struct Case<'a> {
    /// The script's text.
    pub script: &'a str,
    /// The lines, in the order of a history.
    pub transcript: &'a str,
}

/// Whether the calls of the script are answered so, in its order of turns, and that is a legal history.
pub(crate) fn comes_out(alloc: Global, case: Case<'_>) -> Result<bool, Fail> {
    let script = parse(alloc, case.script.as_bytes())?;
    let expected = read_transcript(alloc, &script, case.transcript.as_bytes())?;
    let lists = play(alloc, &script, script.parts().order.as_slice())?;
    let history = merge(alloc, lists)?;
    let verdict = judge(alloc, Storage::Tables, &script, history.as_slice())?;
    Ok(verdict == Verdict::Legal && history.as_slice() == expected.entries.as_slice())
}

/// Each case comes out; else the failure is the script of the first that doesn't.
pub fn all_come_out(alloc: Global, cases: &[Case<'_>]) -> Result<(), Fail> {
    for case in cases {
        if !comes_out(alloc, *case)? {
            return Err(Fail::from(case.script));
        }
    }
    Ok(())
}
