//! Scripts after their first turns.
ghost use Rattle.std.specs.Prelude.{IfOk};
ghost use Rattle.ft_engine_tests.specs.TestCallers.{AreWorkersOf};

use crate::starting::start;
use crate::turns::ordered;
use crate::workers::Worker;
use ft_engine::Engine;
use ft_model::Script;
use ft_script::parse;
use std::alloc::Global;
use std::test::Fail;

/// The script of a text, and its engine and workers after the turns of an order.
pub(crate) fn after(
    alloc: Global,
    text: &str,
    order: &[u32],
) -> Result<(Script, Engine, Vec<Worker>), Fail>
    ensures { IfOk result (λ made. AreWorkersOf made.1 made.2.items) }
{
    let script = parse(alloc, text.as_bytes())?;
    let parts = script.parts();
    let (engine, mut workers) = start(alloc, parts)?;
    ordered(&engine, alloc, parts, workers.as_mut_slice(), order)?;
    Ok((script, engine, workers))
}
