//! Calls that are made one after the other on plain containers, and what each replies as Python prints it.

mod deques;
mod printing;
mod reading;
mod tables;
mod views;

use deques::DEQUES;
use ft_model::{
    Call, Declaration, Hands, KeptTable, Key, Kind, Sequence, Start, Thread, World, apply, boxes,
    dict_class, has_room, is_declared, list_class, may_await, set_class, table_of_copy,
    taken_by_dict, taken_by_list, taken_by_set,
};
use printing::{print_content, print_reply};
use reading::read_call;
use std::alloc::{AllocError, Global};
use std::process::Abort;
use std::test::Fail;
use tables::{AWAITED, BOXED, CLASSES, DICTS, KINDS, LISTS, SETS};
use views::{SPLITS, VIEWS};

/// Calls that are made one after the other, what each replies, and what the containers named have
/// in the end.
pub struct Case {
    calls: &'static str,
    replies: &'static str,
    contents: &'static str,
}

/// The kinds of the containers, in the order of their numbers.
const DECLARED: [Kind; 9] = [
    Kind::Dict,
    Kind::Dict,
    Kind::List,
    Kind::List,
    Kind::Set,
    Kind::Set,
    Kind::Deque(None),
    Kind::Deque(None),
    Kind::Deque(Some(3)),
];

/// The keys that the dicts share which start split.
const SHARED: [Key; 2] = [Key::Int(1), Key::Int(2)];

/// The containers at the start, where dicts share the keys.
fn start(alloc: Global, shared: &[Key]) -> Result<World, Fail> {
    let mut declared = Vec::new(alloc);
    for kind in &DECLARED {
        let mut keys = Sequence::new(alloc);
        if let Kind::Dict = kind {
            for key in shared {
                keys.push(*key)?;
            }
        }
        declared.push(Declaration {
            start: Start { kind: *kind, keys },
            name: Sequence::new(alloc),
        })?;
    }
    Ok(World::start(alloc, &declared)?)
}

/// What the calls reply, made one after the other.
fn replies_to(
    rt: &(impl Abort + AllocGlobal),
    world: &mut World,
    calls: &str,
) -> Result<String, Fail> {
    let alloc = rt.alloc();
    let mut hands = Hands::start(alloc, 3)?;
    let mut replies = String::new(alloc);
    for text in calls.split(" / ") {
        let call = read_call(text).ok_or("call")?;
        assert!(rt; is_declared(world, &hands, &call), "{text}");
        assert!(rt; has_room(world, &call), "{text}");
        let reply = apply(alloc, world, &mut hands, &call)?;
        if replies.len() > 0 {
            replies.push_str(" / ")?;
        }
        replies.push_str(print_reply(alloc, &reply)?.as_str())?;
    }
    Ok(replies)
}

/// What the containers have that are not empty.
fn contents_of(alloc: Global, world: &World) -> Result<String, AllocError> {
    let mut contents = String::new(alloc);
    for content in world.contents() {
        if content.len() > 0 {
            if contents.len() > 0 {
                contents.push_str(" ")?;
            }
            contents.push_str(print_content(alloc, content)?.as_str())?;
        }
    }
    Ok(contents)
}

fn check(rt: &(impl Abort + AllocGlobal), shared: &[Key], cases: &[Case]) -> Result<(), Fail> {
    for case in cases {
        check_case(rt, start(rt.alloc(), shared)?, case)?;
    }
    Ok(())
}

fn check_case(rt: &(impl Abort + AllocGlobal), mut world: World, case: &Case) -> Result<(), Fail> {
    let replies = replies_to(rt, &mut world, case.calls)?;
    assert_eq!(rt; replies.as_str(), case.replies, "{}", case.calls);
    let contents = contents_of(rt.alloc(), &world)?;
    assert_eq!(rt; contents.as_str(), case.contents, "{}", case.calls);
    Ok(())
}

#[test]
fn dicts_answer_as_in_python(rt: HostRuntime) -> Result<(), Fail> {
    check(&rt, &[], &DICTS)
}

#[test]
fn lists_answer_as_in_python(rt: HostRuntime) -> Result<(), Fail> {
    check(&rt, &[], &LISTS)
}

#[test]
fn sets_answer_as_in_python_in_the_order_of_adding(rt: HostRuntime) -> Result<(), Fail> {
    check(&rt, &[], &SETS)
}

#[test]
fn deques_answer_as_in_python(rt: HostRuntime) -> Result<(), Fail> {
    check(&rt, &[], &DEQUES)
}

#[test]
fn views_and_reversed_cursors_answer_as_in_python(rt: HostRuntime) -> Result<(), Fail> {
    check(&rt, &[], &VIEWS)
}

#[test]
fn split_dicts_answer_as_in_python(rt: HostRuntime) -> Result<(), Fail> {
    check(&rt, &SHARED, &SPLITS)
}

#[test]
fn calls_change_and_take_locks_by_their_kind(rt: HostRuntime) -> Result<(), Fail> {
    for (text, changing, locks) in &KINDS {
        let call = read_call(text).ok_or("call")?;
        assert_eq!(rt; call.is_changing(), *changing, "{text}");
        assert_eq!(rt; call.locks(), *locks, "{text}");
    }
    Ok(())
}

#[test]
fn values_that_are_newly_stored_are_boxed(rt: HostRuntime) -> Result<(), Fail> {
    let mut world = start(rt.alloc(), &[])?;
    let made = replies_to(&rt, &mut world, "set d 1 1 / append l 1")?;
    assert_eq!(rt; made.as_str(), "ok / ok");
    for (text, boxed) in &BOXED {
        let call = read_call(text).ok_or("call")?;
        assert_eq!(rt; boxes(&world, &call), *boxed, "{text}");
    }
    Ok(())
}

/// A thread with so many calls.
fn thread_with(alloc: Global, count: usize) -> Result<Thread, AllocError> {
    let mut calls = Sequence::new(alloc);
    for _ in 0..count {
        calls.push(Call::Quiesce)?;
    }
    Ok(Thread {
        name: Sequence::new(alloc),
        cursors: Sequence::new(alloc),
        calls,
    })
}

#[test]
fn threads_may_await_those_before_them(rt: HostRuntime) -> Result<(), Fail> {
    let alloc = rt.alloc();
    let threads = vec![in alloc; thread_with(alloc, 2)?, thread_with(alloc, 1)?]?;
    for (number, thread, index, may) in &AWAITED {
        assert_eq!(rt;
            may_await(&threads, *number, *thread, *index),
            *may,
            "{number} {thread}.{index}"
        );
    }
    Ok(())
}

#[test]
fn classes_follow_how_much_there_is(rt: HostRuntime) -> Result<(), Fail> {
    for (count, dict, set, list) in &CLASSES {
        assert_eq!(rt; dict_class(*count), *dict, "{count}");
        assert_eq!(rt; set_class(*count), *set, "{count}");
        assert_eq!(rt; list_class(*count), *list, "{count}");
    }
    Ok(())
}

/// A table of class 3 with four entries in use.
const TABLE: KeptTable = KeptTable {
    class: Some(3),
    fill: 4,
};

/// What a container with that table takes when it gets that many new ones and then has that many, and what a copy has.
#[derive(Clone, Copy, Debug)]
enum Asked {
    Dict(u64, u64),
    Set(u64, u64),
    List(u64),
    Copy(u64),
}

impl Asked {
    fn class(self) -> Option<u32> {
        match self {
            Asked::Dict(added, count) => taken_by_dict(TABLE, added, count),
            Asked::Set(added, count) => taken_by_set(TABLE, added, count),
            Asked::List(count) => taken_by_list(TABLE, count),
            Asked::Copy(count) => table_of_copy(count).class,
        }
    }
}

const TAKEN: [(Asked, Option<u32>); 8] = [
    (Asked::Dict(1, 5), None),
    (Asked::Dict(2, 6), Some(4)),
    (Asked::Set(0, 4), None),
    (Asked::Set(1, 5), Some(5)),
    (Asked::List(8), None),
    (Asked::List(9), Some(4)),
    (Asked::Copy(0), None),
    (Asked::Copy(3), Some(3)),
];

#[test]
fn containers_grow_when_they_must(rt: HostRuntime) -> Result<(), Fail> {
    for (asked, class) in &TAKEN {
        assert_eq!(rt; asked.class(), *class, "{asked:?}");
    }
    Ok(())
}

#[test]
fn a_sequence_is_its_items(rt: HostRuntime) -> Result<(), Fail> {
    let mut items = Sequence::new(rt.alloc());
    assert!(rt; items.is_empty());
    items.push(3)?;
    items.push(5)?;
    assert_eq!(rt; items.len(), 2);
    assert_eq!(rt; items.as_slice(), [3, 5].as_slice());
    let vector: Vec<u8> = items.into_vec();
    assert_eq!(rt; vector.as_slice(), [3, 5].as_slice());
    Ok(())
}
