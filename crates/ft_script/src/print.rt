//! Prints transcripts.
ghost use Rattle.std.specs.Prelude.{◌≡◌, ◌<◌, ◌∷◌, ◌++◌, length, OnOk, IfOk};
ghost use Rattle.std.specs.List.{flat_map};
ghost use Rattle.ft_model.specs.Parts.{IsContentOf, IsEntryOf, IsWorldOf};
ghost use Rattle.ft_script.specs.Texts.{mark_words, place_word, stamp_word, entry_line, world_line, world_text};

use crate::forms::{push_call, push_call_place, push_thread};
use crate::shown::{push_content, push_integer, push_reply};
use ft_model::{Content, Declaration, Entry, Script, ScriptParts, World};
use std::alloc::{AllocError, Global};

/// The line of an entry.
pub fn print_entry(alloc: Global, script: &Script, entry: &Entry) -> Result<Vec<u8>, AllocError>
    requires { IsEntryOf script.now entry.now }
    ensures { IfOk result (λ text. text.items ≡ entry_line script.now entry.now) }
{
    let mut text = Vec::new(alloc);
    push_entry(&mut text, script, entry)?;
    Ok(text)
}

/// A line for each container, in the order of declaration, with what it has.
pub fn print_world(alloc: Global, script: &Script, world: &World) -> Result<Vec<u8>, AllocError>
    requires { IsWorldOf script.now world.now }
    ensures { IfOk result (λ text. text.items ≡ world_text script.now world.now) }
{
    let mut text = Vec::new(alloc);
    push_world(&mut text, script, world)?;
    Ok(text)
}

/// Adds an entry's line at the end of `out`. An `Err` may leave part of it there.
pub fn push_entry(out: &mut Vec<u8>, script: &Script, entry: &Entry) -> Result<(), AllocError>
    requires { IsEntryOf script.now entry.now }
    ensures { OnOk result (out.new.items ≡ out.old.items ++ entry_line script.now entry.now) }
{
    push_entry_line(out, script.parts(), entry)
}

/// Adds an entry's line at the end of `out`, by the parts of the script.
pub(crate) fn push_entry_line(
    out: &mut Vec<u8>,
    script: &ScriptParts,
    entry: &Entry,
) -> Result<(), AllocError>
    requires { IsEntryOf script.now entry.now }
    ensures { OnOk result (out.new.items ≡ out.old.items ++ entry_line script.now entry.now) }
{
    push_place(out, script, entry)?;
    out.push(b' ')?;
    push_stamp(out, entry)?;
    out.push(b' ')?;
    push_call(out, script, entry.thread, &entry.call)?;
    out.extend_from_slice(b" = ")?;
    push_reply(out, script, &entry.reply)?;
    push_mark(out, script, entry.waited)?;
    out.push(b'\n')?;
    Ok(())
}

/// Adds a line for each container, in the order of declaration, with what it has. An `Err` may
/// leave some of them there.
pub fn push_world(out: &mut Vec<u8>, script: &Script, world: &World) -> Result<(), AllocError>
    requires { IsWorldOf script.now world.now }
    ensures { OnOk result (out.new.items ≡ out.old.items ++ world_text script.now world.now) }
{
    push_world_lines(out, script.parts(), world)
}

fn push_world_lines(
    out: &mut Vec<u8>,
    script: &ScriptParts,
    world: &World,
) -> Result<(), AllocError>
    requires { IsWorldOf script.now world.now }
    ensures { OnOk result (out.new.items ≡ out.old.items ++ world_text script.now world.now) }
{
    for (container, content) in script.containers.as_slice().iter().zip(world.contents()) {
        push_world_line(out, script, container, content)?;
    }
    Ok(())
}

fn push_place(out: &mut Vec<u8>, script: &ScriptParts, entry: &Entry) -> Result<(), AllocError>
    ensures { OnOk result (out.new.items ≡ out.old.items ++ place_word script.now entry.now) }
{
    push_call_place(out, script, entry.thread, entry.index)
}

fn push_stamp(out: &mut Vec<u8>, entry: &Entry) -> Result<(), AllocError>
    ensures { OnOk result (out.new.items ≡ out.old.items ++ stamp_word entry.now) }
{
    out.push(if entry.wrote { b'w' } else { b'r' })?;
    push_integer(out, entry.stamp)
}

fn push_mark(out: &mut Vec<u8>, script: &ScriptParts, waited: Option<u32>) -> Result<(), AllocError>
    ensures { OnOk result (out.new.items ≡ out.old.items ++ flat_map (λ word. 32 ∷ word) (mark_words script.now waited)) }
{
    if let Some(thread) = waited {
        out.extend_from_slice(b" waited ")?;
        push_thread(out, script, thread)?;
    }
    Ok(())
}

/// Adds the line of a container, with what it has, at the end of `out`. An `Err` may leave part of
/// it there.
pub fn push_world_line(
    out: &mut Vec<u8>,
    script: &ScriptParts,
    container: &Declaration,
    content: &Content,
) -> Result<(), AllocError>
    requires { IsContentOf (length script.now.strings) content.now }
    ensures { OnOk result (out.new.items ≡ out.old.items ++ world_line script.now container.now content.now) }
{
    out.extend_from_slice(container.name.as_slice())?;
    out.extend_from_slice(b" = ")?;
    push_content(out, script.strings.as_slice(), content)?;
    out.push(b'\n')?;
    Ok(())
}
