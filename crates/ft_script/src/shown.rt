//! Prints keys, values, replies and what containers have.
ghost use Rattle.std.specs.Prelude.{◌≡◌, ◌<◌, [], ◌++◌, codes, length, map, slice_index_or, All, OnOk};
ghost use Rattle.std.specs.List.{flat_map};
ghost use Rattle.std.specs.Fmt.{decimal};
ghost use Rattle.ft_model.specs.Scripts.{IsKeyOf, IsValueOf};
ghost use Rattle.ft_model.specs.Parts.{IsReplyOf, IsShownOf, IsContentOf};
ghost use Rattle.ft_script.specs.Texts.{escaped, quoted, listed, braced_text, pair_text, list_text, elements_text, reply_text, raise_text, content_text, all_text, named_text, shown_text};

use ft_model::{
    Content, Declaration, DictPair, Element, Key, Raise, Reply, ScriptParts, Sym, Text, Value,
};
use itoa::{Buffer, Integer};
use std::alloc::AllocError;
use std::collections::VecDeque;
use std::collections::btree_map::Values;

/// What stands in the text of a container: keys, values and pairs.
pub(crate) trait Shown {
    ghost use Rattle.std.specs.Prelude.{◌≡◌, ℕ, List, ◌++◌, length, OnOk};

    ghost text: { List (List ℕ) → Self → List ℕ };

    ghost is_of: { ℕ → Self → Type 0 };

    /// Adds the text at the end of `out`.
    fn push_to(&self, out: &mut Vec<u8>, strings: &[Text]) -> Result<(), AllocError>
        requires { is_of (length strings.now) self.now }
        ensures { OnOk result (out.new.items ≡ out.old.items ++ text strings.now self.now) };
}

impl Shown for Key {
    ghost use Rattle.ft_model.specs.Scripts.{IsKeyOf};
    ghost use Rattle.ft_script.specs.Texts.{key_text};

    ghost text = { key_text };

    ghost is_of = { IsKeyOf };

    fn push_to(&self, out: &mut Vec<u8>, strings: &[Text]) -> Result<(), AllocError> {
        match *self {
            Key::Int(number) => push_integer(out, number),
            Key::Text(symbol) => push_string(out, strings, symbol),
        }
    }
}

impl Shown for Value {
    ghost use Rattle.ft_model.specs.Scripts.{IsValueOf};
    ghost use Rattle.ft_script.specs.Texts.{value_text};

    ghost text = { value_text };

    ghost is_of = { IsValueOf };

    fn push_to(&self, out: &mut Vec<u8>, strings: &[Text]) -> Result<(), AllocError> {
        match *self {
            Value::Nothing => out.extend_from_slice(b"None"),
            Value::Int(number) => push_integer(out, number),
            Value::Text(symbol) => push_string(out, strings, symbol),
        }
    }
}

impl Shown for (Key, Value) {
    ghost use Rattle.ft_model.specs.Scripts.{IsKeyOf, IsValueOf};
    ghost use Rattle.ft_script.specs.Texts.{pair_text};

    ghost text = { pair_text };

    ghost is_of = { λ strings pair. IsKeyOf strings pair.0 × IsValueOf strings pair.1 };

    fn push_to(&self, out: &mut Vec<u8>, strings: &[Text]) -> Result<(), AllocError> {
        push_pair(out, strings, self.0, self.1)
    }
}

impl Shown for DictPair {
    ghost use Rattle.ft_model.specs.Scripts.{IsKeyOf, IsValueOf};
    ghost use Rattle.ft_script.specs.Texts.{dict_pair_text};

    ghost text = { dict_pair_text };

    ghost is_of = { λ strings pair. IsKeyOf strings pair.key × IsValueOf strings pair.value };

    fn push_to(&self, out: &mut Vec<u8>, strings: &[Text]) -> Result<(), AllocError> {
        push_pair(out, strings, self.key, self.value)
    }
}

impl Shown for Element {
    ghost use Rattle.ft_model.specs.Scripts.{IsKeyOf};
    ghost use Rattle.ft_script.specs.Texts.{element_text};

    ghost text = { element_text };

    ghost is_of = { λ strings element. IsKeyOf strings element.key };

    fn push_to(&self, out: &mut Vec<u8>, strings: &[Text]) -> Result<(), AllocError> {
        self.key.push_to(out, strings)
    }
}

/// Adds an integer in decimal.
pub(crate) fn push_integer<I: Integer>(out: &mut Vec<u8>, number: I) -> Result<(), AllocError>
    ensures { OnOk result (out.new.items ≡ out.old.items ++ I.text number) }
{
    out.extend_from_slice(Buffer::new().format(number).as_bytes())
}

fn push_string(out: &mut Vec<u8>, strings: &[Text], symbol: Sym) -> Result<(), AllocError>
    requires { symbol.0 < length strings.now }
    ensures { OnOk result (out.new.items ≡ out.old.items ++ quoted (slice_index_or strings.now symbol.0 [])) }
{
    out.push(b'"')?;
    push_escaped(out, strings[symbol.0 as usize].as_slice())?;
    out.push(b'"')?;
    Ok(())
}

fn push_escaped(out: &mut Vec<u8>, text: &[u8]) -> Result<(), AllocError>
    ensures { OnOk result (out.new.items ≡ out.old.items ++ flat_map escaped text.now) }
{
    for byte in text {
        push_byte(out, *byte)?;
    }
    Ok(())
}

fn push_byte(out: &mut Vec<u8>, byte: u8) -> Result<(), AllocError>
    ensures { OnOk result (out.new.items ≡ out.old.items ++ escaped byte) }
{
    match byte {
        b'"' => out.extend_from_slice(b"\\\""),
        b'\\' => out.extend_from_slice(b"\\\\"),
        b'\n' => out.extend_from_slice(b"\\n"),
        b'\t' => out.extend_from_slice(b"\\t"),
        _ => out.extend_from_slice(&[byte]),
    }
}

fn push_pair(out: &mut Vec<u8>, strings: &[Text], key: Key, value: Value) -> Result<(), AllocError>
    requires key { IsKeyOf (length strings.now) key }
    requires value { IsValueOf (length strings.now) value }
    ensures { OnOk result (out.new.items ≡ out.old.items ++ pair_text strings.now (key, value)) }
{
    key.push_to(out, strings)?;
    out.extend_from_slice(b": ")?;
    value.push_to(out, strings)
}

fn push_listed<T: Shown>(out: &mut Vec<u8>, strings: &[Text], shown: &[T]) -> Result<(), AllocError>
    requires { All (T.is_of (length strings.now)) shown.now }
    ensures { OnOk result (out.new.items ≡ out.old.items ++ listed (map (T.text strings.now) shown.now)) }
{
    let [first, rest @ ..] = shown else {
        return Ok(());
    };
    first.push_to(out, strings)?;
    for next in rest {
        out.extend_from_slice(b", ")?;
        next.push_to(out, strings)?;
    }
    Ok(())
}

fn push_braced<T: Shown>(out: &mut Vec<u8>, strings: &[Text], shown: &[T]) -> Result<(), AllocError>
    requires { All (T.is_of (length strings.now)) shown.now }
    ensures { OnOk result (out.new.items ≡ out.old.items ++ braced_text (map (T.text strings.now) shown.now)) }
{
    out.push(b'{')?;
    push_listed(out, strings, shown)?;
    out.push(b'}')?;
    Ok(())
}

fn push_values(out: &mut Vec<u8>, strings: &[Text], items: &[Value]) -> Result<(), AllocError>
    requires { All (IsValueOf (length strings.now)) items.now }
    ensures { OnOk result (out.new.items ≡ out.old.items ++ list_text strings.now items.now) }
{
    out.push(b'[')?;
    push_listed(out, strings, items)?;
    out.push(b']')?;
    Ok(())
}

/// Adds the items of a deque, as those of a list.
fn push_deque(
    out: &mut Vec<u8>,
    strings: &[Text],
    items: &VecDeque<Value>,
) -> Result<(), AllocError>
    requires { All (IsValueOf (length strings.now)) items.now.items }
    ensures { OnOk result (out.new.items ≡ out.old.items ++ list_text strings.now items.now.items) }
{
    out.push(b'[')?;
    for place in 0..items.len() {
        if place > 0 {
            out.extend_from_slice(b", ")?;
        }
        items[place].push_to(out, strings)?;
    }
    out.push(b']')?;
    Ok(())
}

fn push_elements<T: Shown>(
    out: &mut Vec<u8>,
    strings: &[Text],
    shown: &[T],
) -> Result<(), AllocError>
    requires { All (T.is_of (length strings.now)) shown.now }
    ensures { OnOk result (out.new.items ≡ out.old.items ++ elements_text (map (T.text strings.now) shown.now)) }
{
    if shown.is_empty() {
        return out.extend_from_slice(b"set()");
    }
    push_braced(out, strings, shown)
}

/// Adds the text of a reply.
pub(crate) fn push_reply(
    out: &mut Vec<u8>,
    script: &ScriptParts,
    reply: &Reply,
) -> Result<(), AllocError>
    requires { IsReplyOf (length script.now.strings) reply.now }
    ensures { OnOk result (out.new.items ≡ out.old.items ++ reply_text script.now reply.now) }
{
    let strings = script.strings.as_slice();
    match reply {
        Reply::Done => out.extend_from_slice(b"ok"),
        Reply::Value(value) => value.push_to(out, strings),
        Reply::Pair(key, value) => push_pair(out, strings, *key, *value),
        Reply::Truth(true) => out.extend_from_slice(b"True"),
        Reply::Truth(false) => out.extend_from_slice(b"False"),
        Reply::Count(count) => push_integer(out, *count),
        Reply::Dict(pairs) => push_braced(out, strings, pairs.as_slice()),
        Reply::List(items) => push_values(out, strings, items.as_slice()),
        Reply::Set(elements) => push_elements(out, strings, elements.as_slice()),
        Reply::World(world) => push_all(out, script, world.as_slice()),
        Reply::Stop => out.extend_from_slice(b"StopIteration"),
        Reply::Entered => out.extend_from_slice(b"entered"),
        Reply::Kept => out.extend_from_slice(b"kept"),
        Reply::Suspended(count) => push_numbered(out, b"suspended ", *count),
        Reply::Raised(raise) => push_raise(out, *raise),
    }
}

/// Adds what all containers are shown to have, each with its name.
fn push_all(
    out: &mut Vec<u8>,
    script: &ScriptParts,
    world: &[ft_model::Shown],
) -> Result<(), AllocError>
    requires { All (IsShownOf (length script.now.strings)) world.now }
    ensures { OnOk result (out.new.items ≡ out.old.items ++ all_text script.now world.now) }
{
    let strings = script.strings.as_slice();
    let containers = script.containers.as_slice();
    out.extend_from_slice(b"world")?;
    for place in 0..containers.len().min(world.len()) {
        if place > 0 {
            out.push(b';')?;
        }
        push_named(out, strings, &containers[place], &world[place])?;
    }
    Ok(())
}

/// Adds a space, the name of a container, a space, and what it is shown to have.
fn push_named(
    out: &mut Vec<u8>,
    strings: &[Text],
    container: &Declaration,
    shown: &ft_model::Shown,
) -> Result<(), AllocError>
    requires { IsShownOf (length strings.now) shown.now }
    ensures { OnOk result (out.new.items ≡ out.old.items ++ named_text strings.now (container.now, shown.now)) }
{
    out.push(b' ')?;
    out.extend_from_slice(container.name.as_slice())?;
    out.push(b' ')?;
    push_shown(out, strings, shown)
}

/// Adds the text of what a container is shown to have.
pub(crate) fn push_shown(
    out: &mut Vec<u8>,
    strings: &[Text],
    shown: &ft_model::Shown,
) -> Result<(), AllocError>
    requires { IsShownOf (length strings.now) shown.now }
    ensures { OnOk result (out.new.items ≡ out.old.items ++ shown_text strings.now shown.now) }
{
    match shown {
        ft_model::Shown::Dict(pairs) => push_braced(out, strings, pairs.as_slice()),
        ft_model::Shown::List(items) => push_values(out, strings, items.as_slice()),
        ft_model::Shown::Set(elements) => push_elements(out, strings, elements.as_slice()),
    }
}

fn push_raise(out: &mut Vec<u8>, raise: Raise) -> Result<(), AllocError>
    ensures { OnOk result (out.new.items ≡ out.old.items ++ raise_text raise) }
{
    match raise {
        Raise::NoKey => out.extend_from_slice(b"KeyError"),
        Raise::NoIndex => out.extend_from_slice(b"IndexError"),
        Raise::NoValue => out.extend_from_slice(b"ValueError"),
        Raise::Size => out.extend_from_slice(b"RuntimeError size"),
        Raise::Keys => out.extend_from_slice(b"RuntimeError keys"),
        Raise::Moved => out.extend_from_slice(b"RuntimeError moved"),
        Raise::Memory(class) => push_numbered(out, b"MemoryError ", class),
        Raise::Over => out.extend_from_slice(b"MemoryError over"),
        Raise::Heap => out.extend_from_slice(b"MemoryError heap"),
    }
}

fn push_numbered(out: &mut Vec<u8>, words: &[u8], number: u32) -> Result<(), AllocError>
    ensures { OnOk result (out.new.items ≡ out.old.items ++ words.now ++ decimal number) }
{
    out.extend_from_slice(words)?;
    push_integer(out, number)
}

/// Adds the text of what a container has.
pub(crate) fn push_content(
    out: &mut Vec<u8>,
    strings: &[Text],
    content: &Content,
) -> Result<(), AllocError>
    requires { IsContentOf (length strings.now) content.now }
    ensures { OnOk result (out.new.items ≡ out.old.items ++ content_text strings.now content.now) }
{
    match content {
        Content::Dict(dict) => push_members(out, strings, dict.pairs()),
        Content::List(list) => push_values(out, strings, list.items()),
        Content::Set(set) if set.is_empty() => out.extend_from_slice(b"set()"),
        Content::Set(set) => push_members(out, strings, set.elements()),
        Content::Deque(deque) => push_deque(out, strings, deque.items()),
    }
}

/// Adds the pairs of a dict or the elements of a set, in order.
fn push_members<T: Shown>(
    out: &mut Vec<u8>,
    strings: &[Text],
    members: Values<'_, u64, T>,
) -> Result<(), AllocError>
    requires { All (T.is_of (length strings.now)) members }
    ensures { OnOk result (out.new.items ≡ out.old.items ++ braced_text (map (T.text strings.now) members.entry)) }
{
    out.push(b'{')?;
    push_parted(out, strings, members)?;
    out.push(b'}')?;
    Ok(())
}

/// Adds them with a comma between two.
fn push_parted<T: Shown>(
    out: &mut Vec<u8>,
    strings: &[Text],
    members: Values<'_, u64, T>,
) -> Result<(), AllocError>
    requires { All (T.is_of (length strings.now)) members }
    ensures { OnOk result (out.new.items ≡ out.old.items ++ listed (map (T.text strings.now) members.entry)) }
{
    let mut rest = members;
    let Some(first) = rest.next() else {
        return Ok(());
    };
    first.push_to(out, strings)?;
    push_each(out, strings, rest)?;
    Ok(())
}

/// Adds each of them after a comma.
fn push_each<T: Shown>(
    out: &mut Vec<u8>,
    strings: &[Text],
    members: Values<'_, u64, T>,
) -> Result<(), AllocError>
    requires { All (T.is_of (length strings.now)) members }
    ensures { OnOk result (out.new.items ≡
        out.old.items ++ flat_map (λ member. codes ", " ++ T.text strings.now member) members.entry) }
{
    for member in members {
        out.extend_from_slice(b", ")?;
        member.push_to(out, strings)?;
    }
    Ok(())
}
