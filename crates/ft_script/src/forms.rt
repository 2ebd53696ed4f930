//! Prints calls.
ghost use Rattle.std.specs.Prelude.{◌≡◌, ◌<◌, ◌∷◌, ◌++◌, length, map, OnOk};
ghost use Rattle.std.specs.List.{AllByRecursion, join_with_byte};
ghost use Rattle.ft_model.specs.declared.script.Kind.TheVariants as kind;
ghost use Rattle.ft_model.specs.Calls.{other_dict, other_list, other_set, cursor_of_dict, cursor_of_list, cursor_of_set};
ghost use Rattle.ft_model.specs.Histories.{cursors_of};
ghost use Rattle.ft_model.specs.Scripts.{IsCallOf, AreNamesOf, AreStringsOfDict, AreStringsOfList, AreStringsOfSet};
ghost use Rattle.ft_script.specs.declared.forms.Argument.TheVariants as argument;
ghost use Rattle.ft_script.specs.Forms.{IsArgumentOf, dict_form, list_form, set_form, deque_form};
ghost use Rattle.ft_script.specs.Texts.{container_name, thread_name, cursor_name, call_place, argument_text, form_words, call_words};

use crate::shown::{Shown, push_integer};
use ft_model::{Call, DequeCall, DictCall, Key, ListCall, ScriptParts, SetCall, Value};
use std::alloc::AllocError;

/// What stands after the word of a call.
#[derive(Clone, Copy)]
pub(crate) enum Argument {
    /// The name of a container, by its place.
    Container(u32),
    /// The name of a cursor of the calling thread, by its number.
    Cursor(u32),
    /// A key.
    Key(Key),
    /// A value.
    Value(Value),
    /// An index of a list or a deque, or a number of steps.
    Index(i64),
    /// A call of a thread, by the thread's place and the call's index.
    Call(u32, u32),
}

/// Adds the words of a thread's call, parted by one space.
pub(crate) fn push_call(
    out: &mut Vec<u8>,
    script: &ScriptParts,
    thread: u32,
    call: &Call,
) -> Result<(), AllocError>
    requires { IsCallOf script.now (cursors_of script.now thread) call.now }
    ensures { OnOk result (out.new.items ≡ out.old.items ++ join_with_byte 32 (call_words script.now thread call.now)) }
{
    match call {
        Call::Dict { container, call } => push_dict_call(out, script, thread, *container, call),
        Call::List { container, call } => push_list_call(out, script, thread, *container, call),
        Call::Set { container, call } => push_set_call(out, script, thread, *container, call),
        Call::Deque { container, call } => push_deque_call(out, script, thread, *container, call),
        Call::Next { cursor } => push_form(
            out,
            script,
            thread,
            b"next",
            &[Argument::Cursor(*cursor)],
        ),
        Call::Begin {
            first,
            second: None,
        } => {
            push_form(
                out,
                script,
                thread,
                b"begin",
                &[Argument::Container(*first)],
            )
        }
        Call::Begin {
            first,
            second: Some(second),
        } => {
            let both = [Argument::Container(*first), Argument::Container(*second)];
            push_form(out, script, thread, b"begin", &both)
        }
        Call::End => push_form(out, script, thread, b"end", &[]),
        Call::Quiesce => push_form(out, script, thread, b"quiesce", &[]),
        Call::Await {
            thread: other,
            index,
        } => {
            push_form(
                out,
                script,
                thread,
                b"await",
                &[Argument::Call(*other, *index)],
            )
        }
        Call::Dump => push_form(out, script, thread, b"dump", &[]),
    }
}

fn push_dict_call(
    out: &mut Vec<u8>,
    script: &ScriptParts,
    thread: u32,
    container: u32,
    call: &DictCall,
) -> Result<(), AllocError>
    requires names { AreNamesOf script.now.containers (cursors_of script.now thread) kind.Dict container (other_dict call.now) (cursor_of_dict call.now) }
    requires strings { AreStringsOfDict (length script.now.strings) call.now }
    ensures { OnOk result (out.new.items ≡ out.old.items ++ join_with_byte 32 (form_words script.now thread (dict_form (argument.Container container) call.now))) }
{
    let this = Argument::Container(container);
    match *call {
        DictCall::Get { key } => push_form(
            out,
            script,
            thread,
            b"get",
            &[this, Argument::Key(key)],
        ),
        DictCall::GetOr { key, default } => push_form(
            out,
            script,
            thread,
            b"getd",
            &[this, Argument::Key(key), Argument::Value(default)],
        ),
        DictCall::Set { key, value } => push_form(
            out,
            script,
            thread,
            b"set",
            &[this, Argument::Key(key), Argument::Value(value)],
        ),
        DictCall::Del { key } => push_form(
            out,
            script,
            thread,
            b"del",
            &[this, Argument::Key(key)],
        ),
        DictCall::Pop { key } => push_form(
            out,
            script,
            thread,
            b"pop",
            &[this, Argument::Key(key)],
        ),
        DictCall::PopOr { key, default } => push_form(
            out,
            script,
            thread,
            b"popd",
            &[this, Argument::Key(key), Argument::Value(default)],
        ),
        DictCall::PopItem => push_form(out, script, thread, b"popitem", &[this]),
        DictCall::SetDefault { key, default } => push_form(
            out,
            script,
            thread,
            b"setdefault",
            &[this, Argument::Key(key), Argument::Value(default)],
        ),
        DictCall::Has { key } => push_form(
            out,
            script,
            thread,
            b"has",
            &[this, Argument::Key(key)],
        ),
        DictCall::Len => push_form(out, script, thread, b"len", &[this]),
        DictCall::Items => push_form(out, script, thread, b"items", &[this]),
        DictCall::Update { other } => push_form(
            out,
            script,
            thread,
            b"update",
            &[this, Argument::Container(other)],
        ),
        DictCall::Clear => push_form(out, script, thread, b"clear", &[this]),
        DictCall::CopyTo { other } => push_form(
            out,
            script,
            thread,
            b"copyto",
            &[this, Argument::Container(other)],
        ),
        DictCall::Eq { other } => push_form(
            out,
            script,
            thread,
            b"eq",
            &[this, Argument::Container(other)],
        ),
        DictCall::Iter { cursor } => push_form(
            out,
            script,
            thread,
            b"iter",
            &[this, Argument::Cursor(cursor)],
        ),
        DictCall::KeysAnd { other } => push_form(
            out,
            script,
            thread,
            b"keysand",
            &[this, Argument::Container(other)],
        ),
        DictCall::KeysSub { other } => push_form(
            out,
            script,
            thread,
            b"keyssub",
            &[this, Argument::Container(other)],
        ),
        DictCall::KeysOr { other } => push_form(
            out,
            script,
            thread,
            b"keysor",
            &[this, Argument::Container(other)],
        ),
        DictCall::KeysXor { other } => push_form(
            out,
            script,
            thread,
            b"keysxor",
            &[this, Argument::Container(other)],
        ),
        DictCall::ItemsHas { key, value } => push_form(
            out,
            script,
            thread,
            b"itemshas",
            &[this, Argument::Key(key), Argument::Value(value)],
        ),
        DictCall::Reversed { cursor } => push_form(
            out,
            script,
            thread,
            b"riter",
            &[this, Argument::Cursor(cursor)],
        ),
    }
}

fn push_list_call(
    out: &mut Vec<u8>,
    script: &ScriptParts,
    thread: u32,
    container: u32,
    call: &ListCall,
) -> Result<(), AllocError>
    requires names { AreNamesOf script.now.containers (cursors_of script.now thread) kind.List container (other_list call.now) (cursor_of_list call.now) }
    requires strings { AreStringsOfList (length script.now.strings) call.now }
    ensures { OnOk result (out.new.items ≡ out.old.items ++ join_with_byte 32 (form_words script.now thread (list_form (argument.Container container) call.now))) }
{
    let this = Argument::Container(container);
    match *call {
        ListCall::Append { value } => push_form(
            out,
            script,
            thread,
            b"append",
            &[this, Argument::Value(value)],
        ),
        ListCall::Insert { index, value } => push_form(
            out,
            script,
            thread,
            b"insert",
            &[this, Argument::Index(index), Argument::Value(value)],
        ),
        ListCall::Get { index } => push_form(
            out,
            script,
            thread,
            b"get",
            &[this, Argument::Index(index)],
        ),
        ListCall::Set { index, value } => push_form(
            out,
            script,
            thread,
            b"set",
            &[this, Argument::Index(index), Argument::Value(value)],
        ),
        ListCall::Del { index } => push_form(
            out,
            script,
            thread,
            b"del",
            &[this, Argument::Index(index)],
        ),
        ListCall::Pop { index: None } => push_form(out, script, thread, b"pop", &[this]),
        ListCall::Pop { index: Some(index) } => push_form(
            out,
            script,
            thread,
            b"pop",
            &[this, Argument::Index(index)],
        ),
        ListCall::Remove { value } => push_form(
            out,
            script,
            thread,
            b"remove",
            &[this, Argument::Value(value)],
        ),
        ListCall::Index { value } => push_form(
            out,
            script,
            thread,
            b"index",
            &[this, Argument::Value(value)],
        ),
        ListCall::Count { value } => push_form(
            out,
            script,
            thread,
            b"count",
            &[this, Argument::Value(value)],
        ),
        ListCall::Has { value } => push_form(
            out,
            script,
            thread,
            b"has",
            &[this, Argument::Value(value)],
        ),
        ListCall::Reverse => push_form(out, script, thread, b"reverse", &[this]),
        ListCall::Extend { other } => push_form(
            out,
            script,
            thread,
            b"extend",
            &[this, Argument::Container(other)],
        ),
        ListCall::Slice { start, end } => push_form(
            out,
            script,
            thread,
            b"slice",
            &[this, Argument::Index(start), Argument::Index(end)],
        ),
        ListCall::Clear => push_form(out, script, thread, b"clear", &[this]),
        ListCall::Len => push_form(out, script, thread, b"len", &[this]),
        ListCall::Items => push_form(out, script, thread, b"items", &[this]),
        ListCall::Eq { other } => push_form(
            out,
            script,
            thread,
            b"eq",
            &[this, Argument::Container(other)],
        ),
        ListCall::Iter { cursor } => push_form(
            out,
            script,
            thread,
            b"iter",
            &[this, Argument::Cursor(cursor)],
        ),
        ListCall::Reversed { cursor } => push_form(
            out,
            script,
            thread,
            b"riter",
            &[this, Argument::Cursor(cursor)],
        ),
    }
}

fn push_set_call(
    out: &mut Vec<u8>,
    script: &ScriptParts,
    thread: u32,
    container: u32,
    call: &SetCall,
) -> Result<(), AllocError>
    requires names { AreNamesOf script.now.containers (cursors_of script.now thread) kind.Set container (other_set call.now) (cursor_of_set call.now) }
    requires strings { AreStringsOfSet (length script.now.strings) call.now }
    ensures { OnOk result (out.new.items ≡ out.old.items ++ join_with_byte 32 (form_words script.now thread (set_form (argument.Container container) call.now))) }
{
    let this = Argument::Container(container);
    match *call {
        SetCall::Add { key } => push_form(out, script, thread, b"add", &[this, Argument::Key(key)]),
        SetCall::Discard { key } => push_form(
            out,
            script,
            thread,
            b"discard",
            &[this, Argument::Key(key)],
        ),
        SetCall::Remove { key } => push_form(
            out,
            script,
            thread,
            b"remove",
            &[this, Argument::Key(key)],
        ),
        SetCall::Pop => push_form(out, script, thread, b"pop", &[this]),
        SetCall::Has { key } => push_form(out, script, thread, b"has", &[this, Argument::Key(key)]),
        SetCall::Len => push_form(out, script, thread, b"len", &[this]),
        SetCall::Items => push_form(out, script, thread, b"items", &[this]),
        SetCall::Eq { other } => push_form(
            out,
            script,
            thread,
            b"eq",
            &[this, Argument::Container(other)],
        ),
        SetCall::Or { other } => push_form(
            out,
            script,
            thread,
            b"or",
            &[this, Argument::Container(other)],
        ),
        SetCall::And { other } => push_form(
            out,
            script,
            thread,
            b"and",
            &[this, Argument::Container(other)],
        ),
        SetCall::Sub { other } => push_form(
            out,
            script,
            thread,
            b"sub",
            &[this, Argument::Container(other)],
        ),
        SetCall::Xor { other } => push_form(
            out,
            script,
            thread,
            b"xor",
            &[this, Argument::Container(other)],
        ),
        SetCall::Subset { other } => push_form(
            out,
            script,
            thread,
            b"subset",
            &[this, Argument::Container(other)],
        ),
        SetCall::Disjoint { other } => push_form(
            out,
            script,
            thread,
            b"disjoint",
            &[this, Argument::Container(other)],
        ),
        SetCall::Clear => push_form(out, script, thread, b"clear", &[this]),
        SetCall::Iter { cursor } => push_form(
            out,
            script,
            thread,
            b"iter",
            &[this, Argument::Cursor(cursor)],
        ),
    }
}

fn push_deque_call(
    out: &mut Vec<u8>,
    script: &ScriptParts,
    thread: u32,
    container: u32,
    call: &DequeCall,
) -> Result<(), AllocError>
    requires { AllByRecursion (IsArgumentOf script.now thread) (deque_form (argument.Container container) call.now).arguments }
    ensures { OnOk result (out.new.items ≡ out.old.items ++ join_with_byte 32 (form_words script.now thread (deque_form (argument.Container container) call.now))) }
{
    let this = Argument::Container(container);
    match *call {
        DequeCall::Append { value } => push_form(
            out,
            script,
            thread,
            b"append",
            &[this, Argument::Value(value)],
        ),
        DequeCall::AppendLeft { value } => push_form(
            out,
            script,
            thread,
            b"appendleft",
            &[this, Argument::Value(value)],
        ),
        DequeCall::Pop => push_form(out, script, thread, b"pop", &[this]),
        DequeCall::PopLeft => push_form(out, script, thread, b"popleft", &[this]),
        DequeCall::Extend { other } => push_form(
            out,
            script,
            thread,
            b"extend",
            &[this, Argument::Container(other)],
        ),
        DequeCall::ExtendLeft { other } => push_form(
            out,
            script,
            thread,
            b"extendleft",
            &[this, Argument::Container(other)],
        ),
        DequeCall::Rotate { steps } => push_form(
            out,
            script,
            thread,
            b"rotate",
            &[this, Argument::Index(steps)],
        ),
        DequeCall::Clear => push_form(out, script, thread, b"clear", &[this]),
        DequeCall::Get { index } => push_form(
            out,
            script,
            thread,
            b"get",
            &[this, Argument::Index(index)],
        ),
        DequeCall::Len => push_form(out, script, thread, b"len", &[this]),
        DequeCall::Items => push_form(out, script, thread, b"items", &[this]),
        DequeCall::Has { value } => push_form(
            out,
            script,
            thread,
            b"has",
            &[this, Argument::Value(value)],
        ),
        DequeCall::Iter { cursor } => push_form(
            out,
            script,
            thread,
            b"iter",
            &[this, Argument::Cursor(cursor)],
        ),
    }
}

fn push_form(
    out: &mut Vec<u8>,
    script: &ScriptParts,
    thread: u32,
    word: &[u8],
    arguments: &[Argument],
) -> Result<(), AllocError>
    requires { AllByRecursion (IsArgumentOf script.now thread) arguments.now }
    ensures { OnOk result (out.new.items ≡ out.old.items ++ join_with_byte 32 (word.now ∷ map (argument_text script.now thread) arguments.now)) }
{
    out.extend_from_slice(word)?;
    for argument in arguments {
        out.push(b' ')?;
        push_argument(out, script, thread, *argument)?;
    }
    Ok(())
}

fn push_argument(
    out: &mut Vec<u8>,
    script: &ScriptParts,
    thread: u32,
    argument: Argument,
) -> Result<(), AllocError>
    requires { IsArgumentOf script.now thread argument }
    ensures { OnOk result (out.new.items ≡ out.old.items ++ argument_text script.now thread argument) }
{
    let strings = script.strings.as_slice();
    match argument {
        Argument::Container(place) => push_container(out, script, place),
        Argument::Cursor(number) => push_cursor(out, script, thread, number),
        Argument::Key(key) => key.push_to(out, strings),
        Argument::Value(value) => value.push_to(out, strings),
        Argument::Index(index) => push_integer(out, index),
        Argument::Call(other, index) => push_call_place(out, script, other, index),
    }
}

/// Adds the name of a thread, which is none where there is no such thread.
pub(crate) fn push_thread(
    out: &mut Vec<u8>,
    script: &ScriptParts,
    thread: u32,
) -> Result<(), AllocError>
    ensures { OnOk result (out.new.items ≡ out.old.items ++ thread_name script.now thread) }
{
    match script.threads.as_slice().get(thread as usize) {
        Some(declaration) => out.extend_from_slice(declaration.name.as_slice()),
        None => Ok(()),
    }
}

/// Adds the name of a thread and the index of a call of it, which a dot parts.
pub(crate) fn push_call_place(
    out: &mut Vec<u8>,
    script: &ScriptParts,
    thread: u32,
    index: u32,
) -> Result<(), AllocError>
    ensures { OnOk result (out.new.items ≡ out.old.items ++ call_place script.now thread index) }
{
    push_thread(out, script, thread)?;
    out.push(b'.')?;
    push_integer(out, index)
}

pub(crate) fn push_container(
    out: &mut Vec<u8>,
    script: &ScriptParts,
    container: u32,
) -> Result<(), AllocError>
    requires { container < length script.now.containers }
    ensures { OnOk result (out.new.items ≡ out.old.items ++ container_name script.now container) }
{
    let declaration = &script.containers.as_slice()[container as usize];
    out.extend_from_slice(declaration.name.as_slice())
}

fn push_cursor(
    out: &mut Vec<u8>,
    script: &ScriptParts,
    thread: u32,
    cursor: u32,
) -> Result<(), AllocError>
    requires { cursor < cursors_of script.now thread }
    ensures { OnOk result (out.new.items ≡ out.old.items ++ cursor_name script.now thread cursor) }
{
    let declaration = &script.threads.as_slice()[thread as usize];
    out.extend_from_slice(declaration.cursors.as_slice()[cursor as usize].as_slice())
}
