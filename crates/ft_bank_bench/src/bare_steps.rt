//! The bare steps of `atomic_table` under a rule that says nothing: as many as a round on the bank takes, and of the
//! same kinds. Those of a table that is taken and retired are made kind by kind.
ghost use Rattle.std.specs.Prelude.{◌≡◌, ◌≤◌, ◌<◌, IfOk};

use atomic_table::{Play, Seat, Shared, Table, TableRule};
use std::alloc::{AllocError, Global};

/// The rule that says nothing.
pub struct Anything;

impl TableRule<(), (), ()> for Anything {
    ghost holds = { λ _ _. Unit {0} };

    ghost first = { λ _. tt };
}

impl Play<(), ()> for Anything {
    ghost then = { λ _ _ _ _. Unit {0} };
}

/// A table of words.
pub type Words = Table<(), (), (), Anything, Global>;
/// What its steps are made on.
pub type Seen = Shared<(), (), (), Anything>;

/// A table of 16 zeros, and a seat on it.
pub fn zeros(alloc: Global) -> Result<(Words, Seat<(), ()>), AllocError>
    ensures seat { IfOk result (λ made. made.1.table_id ≡ made.0.shared.table_id) }
    ensures words { IfOk result (λ made. made.0.shared.table_id.words ≡ 16) }
{
    Table::of_words(alloc, &[0; 16], &())
}

/// A load.
pub fn load_all(words: &Seen, seat: &mut Seat<(), ()>, rounds: u32)
    requires seat { seat.old.table_id ≡ words.now.table_id }
    requires words { words.now.table_id.words ≡ 16 }
    ensures seat { seat.new.table_id ≡ words.now.table_id }
{
    for _ in 0..rounds {
        words.load::<Anything>(seat, 3);
    }
}

/// A lock that is loaded, taken and let go, with a load between.
pub fn lock_all(words: &Seen, seat: &mut Seat<(), ()>, rounds: u32)
    requires seat { seat.old.table_id ≡ words.now.table_id }
    requires words { words.now.table_id.words ≡ 16 }
    ensures seat { seat.new.table_id ≡ words.now.table_id }
{
    for _ in 0..rounds {
        words.load::<Anything>(seat, 2);
        words.compare_exchange::<Anything>(seat, 2, 0, 1);
        words.load::<Anything>(seat, 3);
        words.store::<Anything>(seat, 2, 0);
    }
}

/// The same with a write: the version raised, the counter raised, the version raised again.
pub fn write_all(words: &Seen, seat: &mut Seat<(), ()>, rounds: u32)
    requires seat { seat.old.table_id ≡ words.now.table_id }
    requires words { words.now.table_id.words ≡ 16 }
    ensures seat { seat.new.table_id ≡ words.now.table_id }
{
    for _ in 0..rounds {
        words.load::<Anything>(seat, 2);
        words.compare_exchange::<Anything>(seat, 2, 0, 1);
        words.load::<Anything>(seat, 4);
        words.fetch_add::<Anything>(seat, 3, 1);
        words.fetch_add::<Anything>(seat, 0, 1);
        words.fetch_add::<Anything>(seat, 3, 1);
        words.store::<Anything>(seat, 2, 0);
    }
}

/// A count that is loaded, lowered and raised, and a bit that is loaded, cleared and set.
pub fn take_all(words: &Seen, seat: &mut Seat<(), ()>, rounds: u32)
    requires seat { seat.old.table_id ≡ words.now.table_id }
    requires words { words.now.table_id.words ≡ 16 }
    ensures seat { seat.new.table_id ≡ words.now.table_id }
{
    for _ in 0..rounds {
        words.load::<Anything>(seat, 5);
        words.compare_exchange::<Anything>(seat, 5, 0, 1);
        words.load::<Anything>(seat, 6);
        words.fetch_and::<Anything>(seat, 6, 0);
        words.fetch_or::<Anything>(seat, 6, 1);
        words.fetch_add::<Anything>(seat, 5, 1);
    }
}

/// What it takes to make a box and drop it: four loads, a bit cleared and set, five stores, and an addition.
pub fn make_all(words: &Seen, seat: &mut Seat<(), ()>, rounds: u32)
    requires seat { seat.old.table_id ≡ words.now.table_id }
    requires words { words.now.table_id.words ≡ 16 }
    ensures seat { seat.new.table_id ≡ words.now.table_id }
{
    for _ in 0..rounds {
        words.load::<Anything>(seat, 6);
        words.fetch_and::<Anything>(seat, 6, 0);
        words.store::<Anything>(seat, 9, 2);
        words.store::<Anything>(seat, 10, 2_000);
        words.store::<Anything>(seat, 11, 1);
        words.store::<Anything>(seat, 8, 0);
        words.load::<Anything>(seat, 8);
        words.load::<Anything>(seat, 11);
        words.store::<Anything>(seat, 11, 0);
        words.load::<Anything>(seat, 11);
        words.fetch_add::<Anything>(seat, 8, 3);
        words.fetch_or::<Anything>(seat, 6, 1);
    }
}

/// What it takes that the maker of a box raises it and drops it: four loads and two stores.
pub fn raise_own_all(words: &Seen, seat: &mut Seat<(), ()>, rounds: u32)
    requires seat { seat.old.table_id ≡ words.now.table_id }
    requires words { words.now.table_id.words ≡ 16 }
    ensures seat { seat.new.table_id ≡ words.now.table_id }
{
    for _ in 0..rounds {
        words.load::<Anything>(seat, 8);
        words.load::<Anything>(seat, 11);
        words.store::<Anything>(seat, 11, 2);
        words.load::<Anything>(seat, 8);
        words.load::<Anything>(seat, 11);
        words.store::<Anything>(seat, 11, 1);
    }
}

/// What it takes that another pass does so: a load, an exchange and an addition.
pub fn raise_shared_all(words: &Seen, seat: &mut Seat<(), ()>, rounds: u32)
    requires seat { seat.old.table_id ≡ words.now.table_id }
    requires words { words.now.table_id.words ≡ 16 }
    ensures seat { seat.new.table_id ≡ words.now.table_id }
{
    for _ in 0..rounds {
        words.load::<Anything>(seat, 8);
        words.compare_exchange::<Anything>(seat, 8, 0, 4);
        words.fetch_add::<Anything>(seat, 8, u64::MAX - 3);
    }
}

/// A table of 256 zeros, and a seat on it.
pub fn spread(alloc: Global) -> Result<(Words, Seat<(), ()>), AllocError>
    ensures seat { IfOk result (λ made. made.1.table_id ≡ made.0.shared.table_id) }
    ensures words { IfOk result (λ made. made.0.shared.table_id.words ≡ 256) }
{
    Table::of_words(alloc, &[0; 256], &())
}

/// Another seat on it, for another thread.
pub fn seat_of(words: &Seen) -> Seat<(), ()>
    requires { words.now.table_id.words ≡ 256 }
    ensures { result.table_id ≡ words.now.table_id }
{
    let (_, seat) = words.load_new_seat::<Anything>(0);
    seat
}

/// What the setting of an item takes of a list whose words begin here: seven loads, the lock, the version of the list
/// raised twice and the counter, which is word 0, once, the version of the item put twice, its payload once, and the
/// lock put back.
fn set_once(words: &Seen, seat: &mut Seat<(), ()>, start: usize)
    requires seat { seat.old.table_id ≡ words.now.table_id }
    requires words { words.now.table_id.words ≡ 256 }
    requires start { start < 248 }
    ensures seat { seat.new.table_id ≡ words.now.table_id }
{
    words.load::<Anything>(seat, start);
    words.compare_exchange::<Anything>(seat, start, 0, 1);
    words.load::<Anything>(seat, start + 1);
    words.load::<Anything>(seat, start + 2);
    words.fetch_add::<Anything>(seat, start + 3, 1);
    words.load::<Anything>(seat, start + 4);
    words.load::<Anything>(seat, start + 5);
    words.load::<Anything>(seat, start + 6);
    words.store::<Anything>(seat, start + 6, 1);
    words.store::<Anything>(seat, start + 5, 1);
    words.fetch_add::<Anything>(seat, 0, 1);
    words.load::<Anything>(seat, start + 6);
    words.store::<Anything>(seat, start + 6, 2);
    words.fetch_add::<Anything>(seat, start + 3, 1);
    words.store::<Anything>(seat, start, 0);
}

/// The same, over and over.
pub fn set_all(words: &Seen, seat: &mut Seat<(), ()>, start: usize, rounds: u32)
    requires seat { seat.old.table_id ≡ words.now.table_id }
    requires words { words.now.table_id.words ≡ 256 }
    requires start { start < 248 }
    ensures seat { seat.new.table_id ≡ words.now.table_id }
{
    for _ in 0..rounds {
        set_once(words, seat, start);
    }
}

/// A kind of step on a word.
#[derive(Clone, Copy)]
enum Act {
    Load,
    /// An exchange that compares with 0.
    Exchange,
    Add,
    Store,
}

/// A step of this kind on each of that many words.
fn act_on(words: &Seen, seat: &mut Seat<(), ()>, act: Act, count: usize)
    requires seat { seat.old.table_id ≡ words.now.table_id }
    requires words { words.now.table_id.words ≡ 256 }
    requires count { count ≤ 256 }
    ensures seat { seat.new.table_id ≡ words.now.table_id }
{
    for word in 0..count {
        match act {
            Act::Load => {
                words.load::<Anything>(seat, word);
            }
            Act::Exchange => {
                words.compare_exchange::<Anything>(seat, word, 0, 0);
            }
            Act::Add => {
                words.fetch_add::<Anything>(seat, word, 1);
            }
            Act::Store => {
                words.store::<Anything>(seat, word, 0);
            }
        }
    }
}

/// What it takes that a list gets a table of 8 items for its first item and is cleared again, by one of three passes,
/// which gives back the table that it retired before: 17 loads, 3 exchanges, 10 additions or masks, and 43 stores, 32
/// of them in the fresh table.
fn retire_once(words: &Seen, seat: &mut Seat<(), ()>)
    requires seat { seat.old.table_id ≡ words.now.table_id }
    requires words { words.now.table_id.words ≡ 256 }
    ensures seat { seat.new.table_id ≡ words.now.table_id }
{
    act_on(words, seat, Act::Load, 17);
    act_on(words, seat, Act::Exchange, 3);
    act_on(words, seat, Act::Add, 10);
    act_on(words, seat, Act::Store, 43);
}

/// The same, over and over.
pub fn retire_all(words: &Seen, seat: &mut Seat<(), ()>, rounds: u32)
    requires seat { seat.old.table_id ≡ words.now.table_id }
    requires words { words.now.table_id.words ≡ 256 }
    ensures seat { seat.new.table_id ≡ words.now.table_id }
{
    for _ in 0..rounds {
        retire_once(words, seat);
    }
}
