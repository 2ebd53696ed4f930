//! One step of a cursor. Each pair or element is given once at most, and an ended cursor stays
//! ended.
ghost use Rattle.std.specs.Prelude.{◌≡◌, true};
ghost use Rattle.ft_model.specs.declared.reply.Reply.TheVariants.{Stop};
ghost use Rattle.ft_model.specs.Cursors.{dict_walk, dict_next, set_walk, set_next, list_next};
ghost use Rattle.ft_model.specs.Cursors.{dict_back_walk, dict_back_next, list_back_next, deque_next};
ghost use Rattle.ft_model.specs.Cursors.{is_given, has_size, is_ended, GoesOn};
ghost use Rattle.ft_model.specs.Worlds.{IsOfKind, cursor_kind, container_of};
ghost use Rattle.ft_model.specs.Answers.{cursor_step, walked_length};

use crate::content::{DictPair, Element};
use crate::cursor::{Cursor, CursorState};
use crate::data::{Key, Value};
use crate::deque::Deque;
use crate::dict::Dict;
use crate::reply::{Raise, Reply};
use crate::set::Set;
use crate::world::World;

/// What one `next` answers, and the cursor that it leaves (Python manual, Iterator Types).
#[derive(Debug, Drop)]
pub struct Advanced {
    /// What `next` answers.
    pub reply: Reply,
    /// The cursor after it.
    pub cursor: Cursor,
}

/// One `next` of a cursor over a container of the world (Python manual, Iterator Types).
#[tactic(auto, using(crate::proofs::CursorLaws::step_rising, crate::proofs::CursorLaws::step_sized, crate::proofs::CursorLaws::step_ended))]
pub fn advance(world: &World, cursor: &Cursor) -> Advanced
    requires { IsOfKind world.now (cursor_kind cursor.now) (container_of cursor.now) }
    ensures reply { result.reply ≡ (cursor_step world.now cursor.now).reply }
    ensures cursor { result.cursor ≡ (cursor_step world.now cursor.now).cursor }

    // What it means for who walks.
    ensures rising { is_given result.reply ≡ true → GoesOn cursor.now result.cursor }
    ensures sized { is_given result.reply ≡ true → has_size cursor.now (walked_length world.now cursor.now) ≡ true }
    ensures ended { is_ended cursor.now ≡ true → (result.reply ≡ Stop) × (result.cursor ≡ cursor.now) }
{
    step_of(world, cursor)
}

fn step_of(world: &World, cursor: &Cursor) -> Advanced
    requires { IsOfKind world.now (cursor_kind cursor.now) (container_of cursor.now) }
    ensures reply { result.reply ≡ (cursor_step world.now cursor.now).reply }
    ensures cursor { result.cursor ≡ (cursor_step world.now cursor.now).cursor }
{
    match *cursor {
        Cursor::Dict {
            container,
            walk,
            size,
            expected,
            last,
        } => step_dict(world.dict(container), container, walk, size, expected, last),
        Cursor::List {
            container,
            index,
            ended,
        } => step_list(world.list(container).items(), container, index, ended),
        Cursor::Set {
            container,
            walk,
            size,
            last,
        } => step_set(world.set(container), container, walk, size, last),
        Cursor::Deque {
            container,
            moves,
            index,
        } => step_deque(world.deque(container), container, moves, index),
        Cursor::DictBack {
            container,
            walk,
            size,
            last,
        } => step_dict_back(world.dict(container), container, walk, size, last),
        Cursor::ListBack { container, index } => {
            step_list_back(world.list(container).items(), container, index)
        }
    }
}

/// One `next` of a cursor over the pairs of a dict.
fn step_dict(
    dict: &Dict,
    container: u32,
    walk: CursorState,
    size: u64,
    expected: u64,
    last: Option<u64>,
) -> Advanced
    ensures reply { result.reply ≡ (dict_next dict.now.pairs container walk size expected last).reply }
    ensures cursor { result.cursor ≡ (dict_next dict.now.pairs container walk size expected last).cursor }
{
    match walk {
        CursorState::Ended => Advanced {
            reply: Reply::Stop,
            cursor: Cursor::Dict {
                container,
                walk,
                size,
                expected,
                last,
            },
        },
        CursorState::Live if dict.len() as u64 == size => {
            walk_dict(dict.next_pair(last), container, size, expected, last)
        }
        CursorState::Live | CursorState::Reported => Advanced {
            reply: Reply::Raised(Raise::Size),
            cursor: Cursor::Dict {
                container,
                walk: CursorState::Reported,
                size,
                expected,
                last,
            },
        },
    }
}

/// Goes on to the pair, or to the end, in a dict of the size that it had.
fn walk_dict(
    pair: Option<DictPair>,
    container: u32,
    size: u64,
    expected: u64,
    last: Option<u64>,
) -> Advanced
    ensures reply { result.reply ≡ (dict_walk pair container size expected last).reply }
    ensures cursor { result.cursor ≡ (dict_walk pair container size expected last).cursor }
{
    match pair {
        None => Advanced {
            reply: Reply::Stop,
            cursor: Cursor::Dict {
                container,
                walk: CursorState::Ended,
                size,
                expected,
                last,
            },
        },
        Some(_) if expected == 0 => Advanced {
            reply: Reply::Raised(Raise::Keys),
            cursor: Cursor::Dict {
                container,
                walk: CursorState::Ended,
                size,
                expected,
                last,
            },
        },
        Some(pair) => Advanced {
            reply: Reply::Pair(pair.key, pair.value),
            cursor: Cursor::Dict {
                container,
                walk: CursorState::Live,
                size,
                expected: expected - 1,
                last: Some(pair.serial),
            },
        },
    }
}

/// One `next` of a cursor over the items of a list.
fn step_list(items: &[Value], container: u32, index: u64, ended: bool) -> Advanced
    ensures reply { result.reply ≡ (list_next items.now container index ended).reply }
    ensures cursor { result.cursor ≡ (list_next items.now container index ended).cursor }
{
    match items.get(index as usize) {
        Some(value) if !ended => Advanced {
            reply: Reply::Value(*value),
            cursor: Cursor::List {
                container,
                index: index + 1,
                ended: false,
            },
        },
        _ => Advanced {
            reply: Reply::Stop,
            cursor: Cursor::List {
                container,
                index,
                ended: true,
            },
        },
    }
}

/// One `next` of a cursor over the elements of a set.
fn step_set(set: &Set, container: u32, walk: CursorState, size: u64, last: Option<u64>) -> Advanced
    ensures reply { result.reply ≡ (set_next set.now.elements container walk size last).reply }
    ensures cursor { result.cursor ≡ (set_next set.now.elements container walk size last).cursor }
{
    match walk {
        CursorState::Ended => Advanced {
            reply: Reply::Stop,
            cursor: Cursor::Set {
                container,
                walk,
                size,
                last,
            },
        },
        CursorState::Live if set.len() as u64 == size => {
            walk_set(set.next_element(last), container, size, last)
        }
        CursorState::Live | CursorState::Reported => Advanced {
            reply: Reply::Raised(Raise::Size),
            cursor: Cursor::Set {
                container,
                walk: CursorState::Reported,
                size,
                last,
            },
        },
    }
}

/// Goes on to the element, or to the end, in a set of the size that it had.
fn walk_set(element: Option<Element>, container: u32, size: u64, last: Option<u64>) -> Advanced
    ensures reply { result.reply ≡ (set_walk element container size last).reply }
    ensures cursor { result.cursor ≡ (set_walk element container size last).cursor }
{
    match element {
        None => Advanced {
            reply: Reply::Stop,
            cursor: Cursor::Set {
                container,
                walk: CursorState::Ended,
                size,
                last,
            },
        },
        Some(element) => Advanced {
            reply: Reply::Value(element.key.into_value()),
            cursor: Cursor::Set {
                container,
                walk: CursorState::Live,
                size,
                last: Some(element.serial),
            },
        },
    }
}

/// One `next` of a cursor over the items of a deque.
fn step_deque(deque: &Deque, container: u32, moves: u64, index: u64) -> Advanced
    ensures reply { result.reply ≡ (deque_next deque.now container moves index).reply }
    ensures cursor { result.cursor ≡ (deque_next deque.now container moves index).cursor }
{
    if deque.moves() != moves {
        return Advanced {
            reply: Reply::Raised(Raise::Moved),
            cursor: Cursor::Deque {
                container,
                moves,
                index,
            },
        };
    }
    match deque.items().get(index as usize) {
        Some(value) => Advanced {
            reply: Reply::Value(*value),
            cursor: Cursor::Deque {
                container,
                moves,
                index: index + 1,
            },
        },
        None => Advanced {
            reply: Reply::Stop,
            cursor: Cursor::Deque {
                container,
                moves,
                index,
            },
        },
    }
}

/// One `next` of a reversed cursor over the pairs of a dict.
fn step_dict_back(
    dict: &Dict,
    container: u32,
    walk: CursorState,
    size: u64,
    last: Option<u64>,
) -> Advanced
    ensures reply { result.reply ≡ (dict_back_next dict.now.pairs container walk size last).reply }
    ensures cursor { result.cursor ≡ (dict_back_next dict.now.pairs container walk size last).cursor }
{
    match walk {
        CursorState::Ended => Advanced {
            reply: Reply::Stop,
            cursor: Cursor::DictBack {
                container,
                walk,
                size,
                last,
            },
        },
        CursorState::Live if dict.len() as u64 == size => {
            walk_dict_back(dict.prior_pair(last), container, size, last)
        }
        CursorState::Live | CursorState::Reported => Advanced {
            reply: Reply::Raised(Raise::Size),
            cursor: Cursor::DictBack {
                container,
                walk: CursorState::Reported,
                size,
                last,
            },
        },
    }
}

/// Goes back to the pair, or to the end, in a dict of the size that it had.
fn walk_dict_back(pair: Option<DictPair>, container: u32, size: u64, last: Option<u64>) -> Advanced
    ensures reply { result.reply ≡ (dict_back_walk pair container size last).reply }
    ensures cursor { result.cursor ≡ (dict_back_walk pair container size last).cursor }
{
    match pair {
        None => Advanced {
            reply: Reply::Stop,
            cursor: Cursor::DictBack {
                container,
                walk: CursorState::Ended,
                size,
                last,
            },
        },
        Some(pair) => Advanced {
            reply: Reply::Pair(pair.key, pair.value),
            cursor: Cursor::DictBack {
                container,
                walk: CursorState::Live,
                size,
                last: Some(pair.serial),
            },
        },
    }
}

/// One `next` of a reversed cursor over the items of a list.
fn step_list_back(items: &[Value], container: u32, index: Option<u64>) -> Advanced
    ensures reply { result.reply ≡ (list_back_next items.now container index).reply }
    ensures cursor { result.cursor ≡ (list_back_next items.now container index).cursor }
{
    let found = match index {
        Some(index) => items.get(index as usize).copied(),
        None => None,
    };
    match (index, found) {
        (Some(index), Some(value)) => Advanced {
            reply: Reply::Value(value),
            cursor: Cursor::ListBack {
                container,
                index: index.checked_sub(1),
            },
        },
        _ => Advanced {
            reply: Reply::Stop,
            cursor: Cursor::ListBack {
                container,
                index: None,
            },
        },
    }
}
