//! Prints scripts.
ghost use Rattle.std.specs.Prelude.{◌≡◌, ◌<◌, ◌≤◌, [], ◌∷◌, ◌++◌, All, IfOk, OnOk, codes, length};
ghost use Rattle.std.specs.Fmt.{decimal};
ghost use Rattle.std.specs.List.{flat_map};
ghost use Rattle.ft_model.specs.Classes.{class_count, least_class};
ghost use Rattle.ft_model.specs.Histories.{cursors_of};
ghost use Rattle.ft_model.specs.Limits.{most_threads};
ghost use Rattle.ft_model.specs.Scripts.{IsCallOf, IsScript, IsThread};
ghost use Rattle.ft_script.specs.ScriptTexts.{container_words, kind_word, order_lines, script_text, tables_lines, thread_lines, threads_lines, version_lines};
ghost use Rattle.ft_script.specs.Texts.{call_words, line, thread_name};

use crate::awaits::has_awaits;
use crate::forms::{push_call, push_thread};
use crate::generator::push_line;
use ft_model::{Call, Declaration, Kind, LEAST_CLASS, Script, ScriptParts, Thread};
use std::alloc::{AllocError, Global};

/// The text of a script: a line `version 2` where a thread awaits another, and a line for each
/// container, for the tables of each class, for the places in each heap, for each thread and each of
/// its calls, and for the order, where there is one. `parse` reads it as that script, if a text can be
/// it.
///
/// # Errors
///
/// Where memory runs out.
pub fn print_script(alloc: Global, script: &Script) -> Result<Vec<u8>, AllocError>
    ensures { IfOk result (λ text. text.items ≡ script_text script.now) }
{
    let mut text = Vec::new(alloc);
    push_script(&mut text, script.parts())?;
    Ok(text)
}

/// Adds all lines of a script at the end of `out`.
fn push_script(out: &mut Vec<u8>, script: &ScriptParts) -> Result<(), AllocError>
    requires { IsScript script.now }
    ensures { OnOk result (out.new.items ≡ out.old.items ++ script_text script.now) }
{
    push_version(out, has_awaits(script.threads.as_slice()))?;
    push_containers(out, script.containers.as_slice())?;
    push_tables(out, script.tables.as_slice())?;
    push_line(out, b"heap", &[u64::from(script.heap)])?;
    push_threads(out, script)?;
    push_order(out, script)
}

/// Adds the line of the version, where a thread awaits another.
fn push_version(out: &mut Vec<u8>, awaits: bool) -> Result<(), AllocError>
    ensures { OnOk result (out.new.items ≡ out.old.items ++ flat_map line (version_lines awaits)) }
{
    if awaits {
        out.extend_from_slice(b"version 2\n")?;
    }
    Ok(())
}

/// The word that a container of a kind is declared with.
fn kind_word(kind: Kind) -> &'static [u8]
    ensures { result.now ≡ kind_word kind }
{
    match kind {
        Kind::Dict => b"dict",
        Kind::List => b"list",
        Kind::Set => b"set",
        Kind::Deque(_) => b"deque",
    }
}

/// Adds a line for each container.
fn push_containers(out: &mut Vec<u8>, containers: &[Declaration]) -> Result<(), AllocError>
    ensures { OnOk result (out.new.items ≡ out.old.items ++ flat_map (λ container. line (container_words container)) containers.now) }
{
    for container in containers {
        push_container(out, container)?;
    }
    Ok(())
}

/// Adds the line of a container.
fn push_container(out: &mut Vec<u8>, container: &Declaration) -> Result<(), AllocError>
    ensures { OnOk result (out.new.items ≡ out.old.items ++ line (container_words container.now)) }
{
    out.extend_from_slice(kind_word(container.start.kind))?;
    out.push(b' ')?;
    out.extend_from_slice(container.name.as_slice())?;
    out.push(b'\n')?;
    Ok(())
}

/// Adds a line for each class, with its number of tables.
fn push_tables(out: &mut Vec<u8>, counts: &[u32]) -> Result<(), AllocError>
    requires { length counts.now ≤ class_count }
    ensures { OnOk result (out.new.items ≡ out.old.items ++ flat_map line (tables_lines least_class counts.now)) }
{
    for place in 0..counts.len() {
        let class = u64::from(LEAST_CLASS) + place as u64;
        push_line(out, b"tables", &[class, u64::from(counts[place])])?;
    }
    Ok(())
}

/// Adds the lines of all threads.
fn push_threads(out: &mut Vec<u8>, script: &ScriptParts) -> Result<(), AllocError>
    requires { IsScript script.now }
    ensures { OnOk result (out.new.items ≡ out.old.items ++ flat_map line (threads_lines script.now 0 script.now.threads)) }
{
    let threads = script.threads.as_slice();
    for place in 0..threads.len() {
        push_thread_lines(out, script, place as u32, &threads[place])?;
    }
    Ok(())
}

/// Adds the line of the thread at a place, and a line for each of its calls.
fn push_thread_lines(
    out: &mut Vec<u8>,
    script: &ScriptParts,
    place: u32,
    thread: &Thread,
) -> Result<(), AllocError>
    requires { All (IsCallOf script.now (cursors_of script.now place)) thread.now.calls }
    ensures { OnOk result (out.new.items ≡ out.old.items ++ flat_map line (thread_lines script.now place thread.now)) }
{
    out.extend_from_slice(b"thread ")?;
    out.extend_from_slice(thread.name.as_slice())?;
    out.push(b'\n')?;
    push_calls(out, script, place, thread.calls.as_slice())
}

/// Adds a line for each of these calls of the thread at a place.
fn push_calls(
    out: &mut Vec<u8>,
    script: &ScriptParts,
    place: u32,
    calls: &[Call],
) -> Result<(), AllocError>
    requires { All (IsCallOf script.now (cursors_of script.now place)) calls.now }
    ensures { OnOk result (out.new.items ≡ out.old.items ++ flat_map (λ called. line (call_words script.now place called)) calls.now) }
{
    for call in calls {
        push_call_line(out, script, place, call)?;
    }
    Ok(())
}

/// Adds the line of a call of the thread at a place.
fn push_call_line(
    out: &mut Vec<u8>,
    script: &ScriptParts,
    place: u32,
    call: &Call,
) -> Result<(), AllocError>
    requires { IsCallOf script.now (cursors_of script.now place) call.now }
    ensures { OnOk result (out.new.items ≡ out.old.items ++ line (call_words script.now place call.now)) }
{
    push_call(out, script, place, call)?;
    out.push(b'\n')?;
    Ok(())
}

/// Adds the line of the order, where there is one.
fn push_order(out: &mut Vec<u8>, script: &ScriptParts) -> Result<(), AllocError>
    ensures { OnOk result (out.new.items ≡ out.old.items ++ flat_map line (order_lines script.now script.now.order)) }
{
    let turns = script.order.as_slice();
    if turns.is_empty() {
        return Ok(());
    }
    out.extend_from_slice(b"order")?;
    push_names(out, script, turns)?;
    out.push(b'\n')?;
    Ok(())
}

/// Adds the names of these threads, each after a space.
fn push_names(out: &mut Vec<u8>, script: &ScriptParts, turns: &[u32]) -> Result<(), AllocError>
    ensures { OnOk result (out.new.items ≡ out.old.items ++ flat_map (λ turn. 32 ∷ thread_name script.now turn) turns.now) }
{
    for turn in turns {
        out.push(b' ')?;
        push_thread(out, script, *turn)?;
    }
    Ok(())
}
