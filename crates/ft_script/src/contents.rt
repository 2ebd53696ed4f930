//! Prints what all containers are shown to have, as a transcript ends.
ghost use Rattle.std.specs.Prelude.{◌≡◌, ◌++◌, length, All, OnOk};
ghost use Rattle.ft_model.specs.Parts.{IsShownOf};
ghost use Rattle.ft_script.specs.ShownLines.{shown_line, shown_lines};

use crate::shown::push_shown;
use ft_model::{Declaration, Script, ScriptParts, Shown};
use std::alloc::AllocError;

/// Adds a line for each container, in the order of declaration, with what it is shown to have. An
/// `Err` may leave some of them there.
pub fn push_contents(
    out: &mut Vec<u8>,
    script: &Script,
    contents: &[Shown],
) -> Result<(), AllocError>
    requires { All (IsShownOf (length script.now.strings)) contents.now }
    ensures { OnOk result (out.new.items ≡ out.old.items ++ shown_lines script.now contents.now) }
{
    push_shown_lines(out, script.parts(), contents)
}

fn push_shown_lines(
    out: &mut Vec<u8>,
    script: &ScriptParts,
    contents: &[Shown],
) -> Result<(), AllocError>
    requires { All (IsShownOf (length script.now.strings)) contents.now }
    ensures { OnOk result (out.new.items ≡ out.old.items ++ shown_lines script.now contents.now) }
{
    for (container, shown) in script.containers.as_slice().iter().zip(contents) {
        push_shown_line(out, script, container, shown)?;
    }
    Ok(())
}

/// Adds the line of a container, with what it is shown to have.
fn push_shown_line(
    out: &mut Vec<u8>,
    script: &ScriptParts,
    container: &Declaration,
    shown: &Shown,
) -> Result<(), AllocError>
    requires { IsShownOf (length script.now.strings) shown.now }
    ensures { OnOk result (out.new.items ≡ out.old.items ++ shown_line script.now container.now shown.now) }
{
    out.extend_from_slice(container.name.as_slice())?;
    out.extend_from_slice(b" = ")?;
    push_shown(out, script.strings.as_slice(), shown)?;
    out.push(b'\n')?;
    Ok(())
}
