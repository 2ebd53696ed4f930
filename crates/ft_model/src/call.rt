//! The calls that a thread can make, one variant for each.
use crate::data::{Key, Value};

/// A call of a script. Containers are named by their places in the script's declarations, cursors
/// by their numbers among those of the calling thread.
#[derive(Clone, Copy, Debug, PartialEq, Eq, Hash)]
pub enum Call {
    /// A call of a dict (Python manual, Mapping Types).
    Dict {
        /// The dict.
        container: u32,
        /// What is called.
        call: DictCall,
    },
    /// A call of a list (Python manual, Sequence Types).
    List {
        /// The list.
        container: u32,
        /// What is called.
        call: ListCall,
    },
    /// A call of a set (Python manual, Set Types).
    Set {
        /// The set.
        container: u32,
        /// What is called.
        call: SetCall,
    },
    /// A call of a deque (Python manual, collections.deque).
    Deque {
        /// The deque.
        container: u32,
        /// What is called.
        call: DequeCall,
    },
    /// `next(c)`: the cursor's next pair, item or element, or the end of its walk (Python manual,
    /// Iterator Types).
    Next {
        /// The cursor.
        cursor: u32,
    },
    /// Begins a critical section on one or two containers (C API, critical sections). Two equal
    /// containers count as one.
    Begin {
        /// The container, or the first of two.
        first: u32,
        /// The second of two.
        second: Option<u32>,
    },
    /// Ends the critical section that was begun last (C API, critical sections).
    End,
    /// Says that the thread uses nothing that it read before.
    Quiesce,
    /// Goes on once another thread's call has finished.
    Await {
        /// The thread, by its place in the script, which stands before the one that waits.
        thread: u32,
        /// Which of its calls, from 1.
        index: u32,
    },
    /// What all containers have, at one place of the history.
    Dump,
}

/// A call of a dict (Python manual, Mapping Types).
#[derive(Clone, Copy, Debug, PartialEq, Eq, Hash)]
pub enum DictCall {
    /// `d[k]`, a KeyError where the key isn't there.
    Get {
        /// What is looked up.
        key: Key,
    },
    /// `d.get(k, v)`: the value at the key, or the default.
    GetOr {
        /// What is looked up.
        key: Key,
        /// What is answered where the key isn't there.
        default: Value,
    },
    /// `d[k] = v`: a new key goes last, an old one keeps its place.
    Set {
        /// Where the value goes.
        key: Key,
        /// What is stored.
        value: Value,
    },
    /// `del d[k]`, a KeyError where the key isn't there.
    Del {
        /// What is taken out.
        key: Key,
    },
    /// `d.pop(k)`: takes the pair out and gives its value, a KeyError where the key isn't there.
    Pop {
        /// What is taken out.
        key: Key,
    },
    /// `d.pop(k, v)`: takes the pair out and gives its value, or gives the default.
    PopOr {
        /// What is taken out.
        key: Key,
        /// What is answered where the key isn't there.
        default: Value,
    },
    /// `d.popitem()`: takes the last pair out, a KeyError where there is none.
    PopItem,
    /// `d.setdefault(k, v)`: the value at the key; the default is stored first where the key isn't
    /// there.
    SetDefault {
        /// What is looked up.
        key: Key,
        /// What is stored where the key isn't there.
        default: Value,
    },
    /// `k in d`.
    Has {
        /// What is looked for.
        key: Key,
    },
    /// `len(d)`.
    Len,
    /// `d.items()`, all of them in order.
    Items,
    /// `d.update(e)`: sets each pair of the other dict, in its order.
    Update {
        /// The dict whose pairs are set.
        other: u32,
    },
    /// `d.clear()`.
    Clear,
    /// Gives the other dict these pairs, in this order, in place of its own.
    CopyTo {
        /// The dict that gets the pairs.
        other: u32,
    },
    /// `d == e`: the same keys with equal values, in any order.
    Eq {
        /// The dict to compare with.
        other: u32,
    },
    /// `c = iter(d.items())`.
    Iter {
        /// The number of the cursor that is made, or made anew.
        cursor: u32,
    },
    /// `d.keys() & e.keys()`: the keys that both have, in this dict's order.
    KeysAnd {
        /// The dict whose keys are compared.
        other: u32,
    },
    /// `d.keys() - e.keys()`: the keys that the other hasn't, in this dict's order.
    KeysSub {
        /// The dict whose keys are left out.
        other: u32,
    },
    /// `d.keys() | e.keys()`: this dict's keys, then the others of the other dict, each in its order.
    KeysOr {
        /// The dict whose keys come after.
        other: u32,
    },
    /// `d.keys() ^ e.keys()`: the keys that one of the two alone has, this dict's first.
    KeysXor {
        /// The dict whose keys are compared.
        other: u32,
    },
    /// `(k, v) in d.items()`.
    ItemsHas {
        /// The key.
        key: Key,
        /// The value that it is to have.
        value: Value,
    },
    /// `c = reversed(d.items())`.
    Reversed {
        /// The number of the cursor that is made, or made anew.
        cursor: u32,
    },
}

/// A call of a list (Python manual, Sequence Types). A negative index counts from the end.
#[derive(Clone, Copy, Debug, PartialEq, Eq, Hash)]
pub enum ListCall {
    /// `l.append(v)`.
    Append {
        /// What goes last.
        value: Value,
    },
    /// `l.insert(i, v)`: the index is clamped to the list.
    Insert {
        /// Before which item the value goes.
        index: i64,
        /// What goes there.
        value: Value,
    },
    /// `l[i]`, an IndexError where there is no such item.
    Get {
        /// Which item.
        index: i64,
    },
    /// `l[i] = v`, an IndexError where there is no such item.
    Set {
        /// Which item.
        index: i64,
        /// What is stored there.
        value: Value,
    },
    /// `del l[i]`, an IndexError where there is no such item.
    Del {
        /// Which item.
        index: i64,
    },
    /// `l.pop()` or `l.pop(i)`: takes the last item or item i out, an IndexError where there is
    /// none.
    Pop {
        /// Which item, or the last one.
        index: Option<i64>,
    },
    /// `l.remove(v)`: takes the first equal item out, a ValueError where there is none.
    Remove {
        /// What is taken out.
        value: Value,
    },
    /// `l.index(v)`: the index of the first equal item, a ValueError where there is none.
    Index {
        /// What is looked for.
        value: Value,
    },
    /// `l.count(v)`: how many items are equal.
    Count {
        /// What is counted.
        value: Value,
    },
    /// `v in l`.
    Has {
        /// What is looked for.
        value: Value,
    },
    /// `l.reverse()`.
    Reverse,
    /// `l.extend(m)`.
    Extend {
        /// The list whose items go last.
        other: u32,
    },
    /// `l[i:j]`, both ends clamped to the list.
    Slice {
        /// The first index.
        start: i64,
        /// The index after the last.
        end: i64,
    },
    /// `l.clear()`.
    Clear,
    /// `len(l)`.
    Len,
    /// All items, in order.
    Items,
    /// `l == m`: equal items in the same order.
    Eq {
        /// The list to compare with.
        other: u32,
    },
    /// `c = iter(l)`.
    Iter {
        /// The number of the cursor that is made, or made anew.
        cursor: u32,
    },
    /// `c = reversed(l)`.
    Reversed {
        /// The number of the cursor that is made, or made anew.
        cursor: u32,
    },
}

/// A call of a set (Python manual, Set Types). Elements are walked in the order in which they were
/// added.
#[derive(Clone, Copy, Debug, PartialEq, Eq, Hash)]
pub enum SetCall {
    /// `s.add(k)`.
    Add {
        /// What is added.
        key: Key,
    },
    /// `s.discard(k)`.
    Discard {
        /// What is taken out where it is there.
        key: Key,
    },
    /// `s.remove(k)`, a KeyError where the element isn't there.
    Remove {
        /// What is taken out.
        key: Key,
    },
    /// `s.pop()`: takes the first element out, a KeyError where there is none.
    Pop,
    /// `k in s`.
    Has {
        /// What is looked for.
        key: Key,
    },
    /// `len(s)`.
    Len,
    /// All elements, in order.
    Items,
    /// `s == t`, in any order.
    Eq {
        /// The set to compare with.
        other: u32,
    },
    /// `s |= t`: adds the other's elements.
    Or {
        /// The other set.
        other: u32,
    },
    /// `s &= t`: keeps the elements that the other has.
    And {
        /// The other set.
        other: u32,
    },
    /// `s -= t`: takes the other's elements out.
    Sub {
        /// The other set.
        other: u32,
    },
    /// `s ^= t`: keeps the elements that the other hasn't, and adds the other's that this hadn't.
    Xor {
        /// The other set.
        other: u32,
    },
    /// `s <= t`.
    Subset {
        /// The other set.
        other: u32,
    },
    /// `s.isdisjoint(t)`.
    Disjoint {
        /// The other set.
        other: u32,
    },
    /// `s.clear()`.
    Clear,
    /// `c = iter(s)`.
    Iter {
        /// The number of the cursor that is made, or made anew.
        cursor: u32,
    },
}

/// A call of a deque (Python manual, collections.deque). A negative index counts from the end. Where
/// a bounded deque would have more than its bound, it drops items at the end that is not added to.
#[derive(Clone, Copy, Debug, PartialEq, Eq, Hash)]
pub enum DequeCall {
    /// `q.append(v)`.
    Append {
        /// What goes last.
        value: Value,
    },
    /// `q.appendleft(v)`.
    AppendLeft {
        /// What goes first.
        value: Value,
    },
    /// `q.pop()`: takes the last item out, an IndexError where there is none.
    Pop,
    /// `q.popleft()`: takes the first item out, an IndexError where there is none.
    PopLeft,
    /// `q.extend(r)`: appends each item of the other deque, in its order.
    Extend {
        /// The deque whose items are appended.
        other: u32,
    },
    /// `q.extendleft(r)`: appends each item of the other deque at the left, in its order.
    ExtendLeft {
        /// The deque whose items are appended.
        other: u32,
    },
    /// `q.rotate(n)`: that many steps to the right, to the left where it is negative.
    Rotate {
        /// How many steps.
        steps: i64,
    },
    /// `q.clear()`.
    Clear,
    /// `q[i]`, an IndexError where there is no such item.
    Get {
        /// Which item.
        index: i64,
    },
    /// `len(q)`.
    Len,
    /// All items, in order.
    Items,
    /// `v in q`.
    Has {
        /// What is looked for.
        value: Value,
    },
    /// `c = iter(q)`.
    Iter {
        /// The number of the cursor that is made, or made anew.
        cursor: u32,
    },
}

/// The containers that a call names: none, one, or two that differ.
#[derive(Clone, Copy, Debug, PartialEq, Eq, Hash)]
pub enum Containers {
    /// None.
    None,
    /// One, which may be named twice.
    One(u32),
    /// The one that the call is made on, and the other.
    Two(u32, u32),
}

/// What a call does to tables, where containers are stored in them.
#[derive(Clone, Copy, Debug, PartialEq, Eq, Hash)]
pub enum TableChange {
    /// It puts nothing new into a container: tables stay as they are.
    Stays,
    /// It can put something new into its container, which takes a table where there is no room.
    Grows,
    /// It gives this dict new pairs in place of its own, in a table of their own.
    CopiesTo(u32),
    /// It gives its container's table up.
    GivesUp,
}
