//! One `next` of a cursor over a dict or a set whose lock the pass has: what it answers, and the cursor that it
//! leaves (Python manual, Iterator Types).
ghost use Rattle.std.specs.Prelude.{◌≡◌, ℕ, ◌<◌, List, Option, Some, None, true};
ghost use Rattle.ft_model.specs.declared.content.Content.TheVariants as content;
ghost use Rattle.ft_model.specs.declared.data.Value.{Value};
ghost use Rattle.ft_model.specs.declared.content.DictPair.{DictPair};
ghost use Rattle.ft_model.specs.declared.content.Element.{Element};
ghost use Rattle.ft_model.specs.declared.script.Kind.TheVariants as kind;
ghost use Rattle.ft_model.specs.Contents.{DictContent, SetContent};
ghost use Rattle.ft_model.specs.Cursors.{dict_walk, dict_next, list_walk, list_next, set_walk, set_next};
ghost use Rattle.ft_model.specs.declared.cursor.CursorState.TheVariants as walk;
ghost use Rattle.ft_layout.specs.Containers.{used_pair, used_element};
ghost use Rattle.ft_trace.specs.declared.Act.{Act};
ghost use Rattle.ft_trace.specs.Acts.{has_lock};
ghost use Rattle.ft_trace.specs.Addresses.{container_count};
ghost use Rattle.ft_trace.specs.Holds.{held_unboxed, known_state};
ghost use Rattle.ft_trace.specs.Pictures.{Represents};
ghost use Rattle.ft_trace.specs.ContainerStates.{kind_in};
ghost use Rattle.ft_bank.specs.Passes.{shape_of, view, IsPassOf};
ghost use Rattle.ft_bank.specs.Series.{DidAll};
ghost use Rattle.ft_search.specs.KeyLooks.{AreLooks};
ghost use Rattle.ft_iter.specs.Moves.{IsStep};
ghost use Rattle.ft_keys.specs.TableChanges.{entry_of_pair};

use crate::held::next_of;
use ft_bank::{Bank, Pass};
use ft_layout::{Pair, Stored, block_word};
use ft_list::read_named;
use ft_model::{Advanced, Cursor, CursorState, Raise, Reply};

/// Which word of a block is the number of pairs or elements, as a bank counts them.
pub(crate) const USED: u64 = block_word::USED - block_word::ROOT;

/// Gives a pair of a dict that has the size that it had.
fn give_pair(pair: Pair, container: u32, size: u64, expected: u64, last: Option<u64>) -> Advanced
    ensures { (p : DictPair) → entry_of_pair pair ≡ used_pair p → IsStep result (dict_walk (Some p) container size expected last) }
{
    if expected == 0 {
        return Advanced {
            reply: Reply::Raised(Raise::Keys),
            cursor: Cursor::Dict {
                container,
                walk: CursorState::Ended,
                size,
                expected,
                last,
            },
        };
    }
    let reply = match pair.value {
        Stored::Plain(value) => Reply::Pair(pair.key, value),
        Stored::Empty | Stored::Boxed(_) => Reply::Stop,
    };
    Advanced {
        reply,
        cursor: Cursor::Dict {
            container,
            walk: CursorState::Live,
            size,
            expected: expected - 1,
            last: Some(pair.serial),
        },
    }
}

/// Goes on in a dict, where nothing was reported yet and the walk hasn't ended.
fn walk_dict(
    bank: &Bank,
    pass: &mut Pass,
    container: u32,
    size: u64,
    expected: u64,
    last: Option<u64>,
) -> Advanced
    requires pass { IsPassOf bank.now pass.old }
    requires container { container < container_count (shape_of bank.now) }
    requires dict { kind_in (shape_of bank.now).starts container ≡ kind.Dict }
    requires locked { has_lock container (view pass.old).log ≡ true }
    requires stands { Represents (shape_of bank.now).texts (held_unboxed container (view pass.old)) (known_state container (view pass.old)) }
    ensures pass { IsPassOf bank.now pass.new }
    ensures looks { (part : List Act) × AreLooks part × DidAll part pass.old pass.new }
    ensures next { (d : DictContent) → (known_state container (view pass.old)).content ≡ content.Dict d →
        IsStep result (dict_next d.pairs container walk.Live size expected last) }
{
    let count = bank.read_block(pass, container, USED);
    if count != size {
        return Advanced {
            reply: Reply::Raised(Raise::Size),
            cursor: Cursor::Dict {
                container,
                walk: CursorState::Reported,
                size,
                expected,
                last,
            },
        };
    }
    match next_of(bank, pass, container, last) {
        Some(pair) => give_pair(pair, container, size, expected, last),
        None => Advanced {
            reply: Reply::Stop,
            cursor: Cursor::Dict {
                container,
                walk: CursorState::Ended,
                size,
                expected,
                last,
            },
        },
    }
}

/// One `next` of a cursor over a dict (Python manual, Dictionary view containers).
pub(crate) fn next_dict(
    bank: &Bank,
    pass: &mut Pass,
    container: u32,
    walk: CursorState,
    size: u64,
    expected: u64,
    last: Option<u64>,
) -> Advanced
    requires pass { IsPassOf bank.now pass.old }
    requires container { container < container_count (shape_of bank.now) }
    requires dict { kind_in (shape_of bank.now).starts container ≡ kind.Dict }
    requires locked { has_lock container (view pass.old).log ≡ true }
    requires stands { Represents (shape_of bank.now).texts (held_unboxed container (view pass.old)) (known_state container (view pass.old)) }
    ensures pass { IsPassOf bank.now pass.new }
    ensures looks { (part : List Act) × AreLooks part × DidAll part pass.old pass.new }
    ensures next { (d : DictContent) → (known_state container (view pass.old)).content ≡ content.Dict d →
        IsStep result (dict_next d.pairs container walk size expected last) }
{
    let stays = Cursor::Dict {
        container,
        walk,
        size,
        expected,
        last,
    };
    match walk {
        CursorState::Live => walk_dict(bank, pass, container, size, expected, last),
        CursorState::Reported => Advanced {
            reply: Reply::Raised(Raise::Size),
            cursor: stays,
        },
        CursorState::Ended => Advanced {
            reply: Reply::Stop,
            cursor: stays,
        },
    }
}

/// Gives an element of a set that has the size that it had.
fn give_element(pair: Pair, container: u32, size: u64) -> Advanced
    ensures { (e : Element) → (last : Option ℕ) → entry_of_pair pair ≡ used_element e → IsStep result (set_walk (Some e) container size last) }
{
    Advanced {
        reply: Reply::Value(pair.key.into_value()),
        cursor: Cursor::Set {
            container,
            walk: CursorState::Live,
            size,
            last: Some(pair.serial),
        },
    }
}

/// Goes on in a set, where nothing was reported yet and the walk hasn't ended.
fn walk_set(bank: &Bank, pass: &mut Pass, container: u32, size: u64, last: Option<u64>) -> Advanced
    requires pass { IsPassOf bank.now pass.old }
    requires container { container < container_count (shape_of bank.now) }
    requires set { kind_in (shape_of bank.now).starts container ≡ kind.Set }
    requires locked { has_lock container (view pass.old).log ≡ true }
    requires stands { Represents (shape_of bank.now).texts (held_unboxed container (view pass.old)) (known_state container (view pass.old)) }
    ensures pass { IsPassOf bank.now pass.new }
    ensures looks { (part : List Act) × AreLooks part × DidAll part pass.old pass.new }
    ensures next { (s : SetContent) → (known_state container (view pass.old)).content ≡ content.Set s →
        IsStep result (set_next s.elements container walk.Live size last) }
{
    let count = bank.read_block(pass, container, USED);
    if count != size {
        return Advanced {
            reply: Reply::Raised(Raise::Size),
            cursor: Cursor::Set {
                container,
                walk: CursorState::Reported,
                size,
                last,
            },
        };
    }
    match next_of(bank, pass, container, last) {
        Some(pair) => give_element(pair, container, size),
        None => Advanced {
            reply: Reply::Stop,
            cursor: Cursor::Set {
                container,
                walk: CursorState::Ended,
                size,
                last,
            },
        },
    }
}

/// One `next` of a cursor over a set (Python manual, Set Types).
pub(crate) fn next_set(
    bank: &Bank,
    pass: &mut Pass,
    container: u32,
    walk: CursorState,
    size: u64,
    last: Option<u64>,
) -> Advanced
    requires pass { IsPassOf bank.now pass.old }
    requires container { container < container_count (shape_of bank.now) }
    requires set { kind_in (shape_of bank.now).starts container ≡ kind.Set }
    requires locked { has_lock container (view pass.old).log ≡ true }
    requires stands { Represents (shape_of bank.now).texts (held_unboxed container (view pass.old)) (known_state container (view pass.old)) }
    ensures pass { IsPassOf bank.now pass.new }
    ensures looks { (part : List Act) × AreLooks part × DidAll part pass.old pass.new }
    ensures next { (s : SetContent) → (known_state container (view pass.old)).content ≡ content.Set s →
        IsStep result (set_next s.elements container walk size last) }
{
    let stays = Cursor::Set {
        container,
        walk,
        size,
        last,
    };
    match walk {
        CursorState::Live => walk_set(bank, pass, container, size, last),
        CursorState::Reported => Advanced {
            reply: Reply::Raised(Raise::Size),
            cursor: stays,
        },
        CursorState::Ended => Advanced {
            reply: Reply::Stop,
            cursor: stays,
        },
    }
}

/// One `next` of a cursor over a list (Python manual, Iterator Types).
pub(crate) fn next_list(
    bank: &Bank,
    pass: &mut Pass,
    container: u32,
    index: u64,
    ended: bool,
) -> Advanced
    requires pass { IsPassOf bank.now pass.old }
    requires container { container < container_count (shape_of bank.now) }
    requires list { kind_in (shape_of bank.now).starts container ≡ kind.List }
    requires locked { has_lock container (view pass.old).log ≡ true }
    requires stands { Represents (shape_of bank.now).texts (held_unboxed container (view pass.old)) (known_state container (view pass.old)) }
    ensures pass { IsPassOf bank.now pass.new }
    ensures looks { (part : List Act) × AreLooks part × DidAll part pass.old pass.new }
    ensures next { (items : List Value) → (known_state container (view pass.old)).content ≡ content.List items →
        IsStep result (list_next items container index ended) }
{
    if ended {
        return stop_list(container, index);
    }
    let Ok(place) = i64::try_from(index) else {
        return stop_list(container, index);
    };
    match read_named(bank, pass, container, place) {
        Some(value) => Advanced {
            reply: Reply::Value(value),
            cursor: Cursor::List {
                container,
                index: index + 1,
                ended: false,
            },
        },
        None => stop_list(container, index),
    }
}

/// The end of a walk of a list, for good.
fn stop_list(container: u32, index: u64) -> Advanced
    ensures { IsStep result (list_walk None container index) }
{
    Advanced {
        reply: Reply::Stop,
        cursor: Cursor::List {
            container,
            index,
            ended: true,
        },
    }
}
