//! One atomic step on one word, as the action of a pass that its caller picks. Each public step is one
//! of these. The numbers that a call gives beside the word are for the action.
ghost use Rattle.std.specs.Prelude.{◌≡◌, ◌≢◌, ℕ, ◌+◌, ◌-◌, ◌%◌, ◌^◌, ◌<◌, ◌==◌, suc, [], bit_and, bit_or};
ghost use prog.Atomic.{either};
ghost use Rattle.ft_trace.specs.declared.Snap.{Snap};
ghost use Rattle.ft_trace.specs.Addresses.{extent, at};
ghost use Rattle.ft_trace.specs.Acts.{place, word_after, left_next, view_after, both};
ghost use Rattle.ft_trace.specs.Traces.{IsFree, IsAwake, Ready, ReadyAs, Does as Acts, DoesAs};
ghost use Rattle.ft_trace.specs.declared.Act.TheVariants.{GiveTable, PutHeader};
ghost use Rattle.ft_bank.specs.Retired.{LeavesRetired};
ghost use Rattle.ft_bank.specs.TableNames.{table_id, IsTableIn};
ghost use Rattle.ft_bank.specs.Rules.{Acted, LeavesWrites};

use crate::bank::Bank;
use crate::pass::Pass;
use crate::retired::{clear_bit, set_bit};
use crate::rule::{Does, Finds, Keeping, Keeps, Saying, Shares};
use crate::table::Table;
use atomic_table::Seat;
use ft_model::{Call, Cursor, Reply};
use ft_trace::View;

impl Bank {
    ghost use Rattle.ft_bank.specs.Passes.{shape_of, view, IsPassOf, Did, DidNothing};

    /// Loads a word.
    pub(crate) fn load_as<A: Saying>(
        &self,
        pass: &mut Pass,
        word: u64,
        o: u32,
        t: u64,
        i: u64,
    ) -> u64
        requires pass { IsPassOf self.now pass.old }
        requires word { word < extent (shape_of self.now) }
        requires act { Acts (view pass.old) word (λ n. n) A.act }
        requires ready { Ready (view pass.old) word A.act }
        requires left { LeavesWrites (view pass.old) (λ n _. A.act n) }
        requires retired { LeavesRetired (λ n _. A.act n) }
        ensures did { Did (A.act result) pass.old pass.new }
        ensures acted { Acted (view pass.old) (A.act result) }
    {
        let _ = (o, t, i);
        self.table
            .shared
            .load::<Does<A>>(&mut pass.seat, word as usize)
    }

    /// Stores a word.
    pub(crate) fn store_as<A: Saying>(
        &self,
        pass: &mut Pass,
        word: u64,
        value: u64,
        o: u32,
        t: u64,
        i: u64,
    )
        requires pass { IsPassOf self.now pass.old }
        requires word { word < extent (shape_of self.now) }
        requires act { Acts (view pass.old) word (λ _. value) (λ _. A.act 0) }
        requires ready { Ready (view pass.old) word (λ _. A.act 0) }
        requires same { A.act value ≡ A.act 0 }
        requires left { LeavesWrites (view pass.old) (λ n _. A.act n) }
        requires retired { LeavesRetired (λ n _. A.act n) }
        ensures did { Did (A.act 0) pass.old pass.new }
        ensures acted { Acted (view pass.old) (A.act 0) }
    {
        let _ = (o, t, i);
        self.table
            .shared
            .store::<Does<A>>(&mut pass.seat, word as usize, value);
    }

    /// Raises a word by one.
    pub(crate) fn add_as<A: Saying>(&self, pass: &mut Pass, word: u64, o: u32) -> u64
        requires pass { IsPassOf self.now pass.old }
        requires word { word < extent (shape_of self.now) }
        requires act { Acts (view pass.old) word (λ n. (n + 1) % 2 ^ 64) A.act }
        requires ready { Ready (view pass.old) word A.act }
        requires left { LeavesWrites (view pass.old) (λ n _. A.act n) }
        requires retired { LeavesRetired (λ n _. A.act n) }
        ensures did { Did (A.act result) pass.old pass.new }
        ensures acted { Acted (view pass.old) (A.act result) }
    {
        let _ = o;
        self.table
            .shared
            .fetch_add::<Does<A>>(&mut pass.seat, word as usize, 1)
    }

    /// Raises a word by this much.
    pub(crate) fn raise_as<A: Saying>(&self, pass: &mut Pass, word: u64, more: u64, b: u32) -> u64
        requires pass { IsPassOf self.now pass.old }
        requires word { word < extent (shape_of self.now) }
        requires act { Acts (view pass.old) word (λ n. (n + more) % 2 ^ 64) A.act }
        requires ready { Ready (view pass.old) word A.act }
        requires left { LeavesWrites (view pass.old) (λ n _. A.act n) }
        requires retired { LeavesRetired (λ n _. A.act n) }
        ensures did { Did (A.act result) pass.old pass.new }
        ensures acted { Acted (view pass.old) (A.act result) }
    {
        let _ = b;
        self.table
            .shared
            .fetch_add::<Does<A>>(&mut pass.seat, word as usize, more)
    }

    /// Lowers a word by this much.
    pub(crate) fn lower_as<A: Saying>(&self, pass: &mut Pass, word: u64, less: u64, b: u32) -> u64
        requires pass { IsPassOf self.now pass.old }
        requires word { word < extent (shape_of self.now) }
        requires act { Acts (view pass.old) word (λ n. (n + (2 ^ 64 - less)) % 2 ^ 64) A.act }
        requires ready { Ready (view pass.old) word A.act }
        requires left { LeavesWrites (view pass.old) (λ n _. A.act n) }
        requires retired { LeavesRetired (λ n _. A.act n) }
        ensures did { Did (A.act result) pass.old pass.new }
        ensures acted { Acted (view pass.old) (A.act result) }
    {
        let _ = b;
        self.table
            .shared
            .fetch_sub::<Does<A>>(&mut pass.seat, word as usize, less)
    }

    /// Sets in a word the bits that a mask has.
    pub(crate) fn set_as<A: Saying>(&self, pass: &mut Pass, word: u64, mask: u64, b: u32) -> u64
        requires pass { IsPassOf self.now pass.old }
        requires word { word < extent (shape_of self.now) }
        requires act { Acts (view pass.old) word (λ n. bit_or n mask) A.act }
        requires ready { Ready (view pass.old) word A.act }
        requires left { LeavesWrites (view pass.old) (λ n _. A.act n) }
        requires retired { LeavesRetired (λ n _. A.act n) }
        ensures did { Did (A.act result) pass.old pass.new }
        ensures acted { Acted (view pass.old) (A.act result) }
    {
        let _ = b;
        self.table
            .shared
            .fetch_or::<Does<A>>(&mut pass.seat, word as usize, mask)
    }

    /// Puts a number into a word that has another; where it has not, the word stays.
    pub(crate) fn exchange_as<A: Saying>(
        &self,
        pass: &mut Pass,
        word: u64,
        old: u64,
        new: u64,
        o: u32,
    ) -> u64
        requires pass { IsPassOf self.now pass.old }
        requires word { word < extent (shape_of self.now) }
        requires act { Acts (view pass.old) word (λ n. either (n == old) new n) A.act }
        requires ready { Ready (view pass.old) word A.act }
        requires left { LeavesWrites (view pass.old) (λ n _. A.act n) }
        requires retired { LeavesRetired (λ n _. A.act n) }
        ensures did { Did (A.act result) pass.old pass.new }
        ensures acted { Acted (view pass.old) (A.act result) }
    {
        let _ = o;
        self.table
            .shared
            .compare_exchange::<Does<A>>(&mut pass.seat, word as usize, old, new)
    }

    /// Keeps of a word the bits that a mask has.
    pub(crate) fn mask_as<A: Keeping>(&self, pass: &mut Pass, word: u64, mask: u64, t: u64) -> u64
        requires pass { IsPassOf self.now pass.old }
        requires word { word < extent (shape_of self.now) }
        requires act { DoesAs (view pass.old) word (λ n. bit_and n mask) A.act }
        requires ready { ReadyAs (view pass.old) word A.act }
        requires left { LeavesWrites (view pass.old) A.act }
        requires retired { LeavesRetired A.act }
        ensures did { (s : Snap) × Did (A.act result s) pass.old pass.new × Acted (view pass.old) (A.act result s) }
    {
        let _ = t;
        self.table
            .shared
            .fetch_and::<Keeps<A>>(&mut pass.seat, word as usize, mask)
    }

    /// Sets in a free word the bits that a mask has, which gives back a table: the pass keeps it no longer.
    pub(crate) fn give_as<A: Saying>(&self, pass: &mut Pass, word: u64, mask: u64, table: Table)
        requires pass { IsPassOf self.now pass.old }
        requires word { word < extent (shape_of self.now) }
        requires table { IsTableIn (shape_of self.now) table }
        requires act { Acts (view pass.old) word (λ n. bit_or n mask) A.act }
        requires ready { Ready (view pass.old) word A.act }
        requires is { (n : ℕ) → A.act n ≡ GiveTable (table_id table) }
        ensures did { Did (GiveTable (table_id table)) pass.old pass.new }
        ensures acted { Acted (view pass.old) (GiveTable (table_id table)) }
    {
        self.table
            .shared
            .fetch_or::<Does<A>>(&mut pass.seat, word as usize, mask);
        clear_bit(&mut *pass.retired, table);
    }

    /// Puts the goal of a retired table into its header: from then on the pass keeps it.
    pub(crate) fn goal_as<A: Saying>(&self, pass: &mut Pass, word: u64, goal: u64, table: Table)
        requires pass { IsPassOf self.now pass.old }
        requires word { word < extent (shape_of self.now) }
        requires table { IsTableIn (shape_of self.now) table }
        requires act { Acts (view pass.old) word (λ _. goal) (λ _. A.act 0) }
        requires ready { Ready (view pass.old) word (λ _. A.act 0) }
        requires is { (n : ℕ) → A.act n ≡ PutHeader (table_id table) goal }
        ensures did { Did (PutHeader (table_id table) goal) pass.old pass.new }
        ensures acted { Acted (view pass.old) (PutHeader (table_id table) goal) }
    {
        self.table
            .shared
            .store::<Does<A>>(&mut pass.seat, word as usize, goal);
        set_bit(&mut *pass.retired, table);
    }

    /// Loads a word, which is an action only where it isn't 0.
    pub(crate) fn look_as<A: Keeping>(&self, pass: &mut Pass, word: u64, o: u32) -> u64
        requires pass { IsPassOf self.now pass.old }
        requires word { word < extent (shape_of self.now) }
        requires act { (n : ℕ) (s : Snap) → n ≢ 0 → (at (view pass.old).shape (place (A.act n s)) ≡ word)
            × (word_after (view pass.old).number (A.act n s) n ≡ n) }
        requires ready { ReadyAs (view pass.old) word A.act }
        requires left { LeavesWrites (view pass.old) A.act }
        requires retired { LeavesRetired A.act }
        ensures none { result ≡ 0 → DidNothing pass.old pass.new }
        ensures did { result ≢ 0 → (s : Snap) × Did (A.act result s) pass.old pass.new × Acted (view pass.old) (A.act result s) }
    {
        let _ = o;
        self.table
            .shared
            .load::<Finds<A>>(&mut pass.seat, word as usize)
    }

    /// Puts the number of the pass into a word that is 0.
    pub(crate) fn lock_as<A: Keeping>(&self, pass: &mut Pass, word: u64, o: u32) -> u64
        requires pass { IsPassOf self.now pass.old }
        requires word { word < extent (shape_of self.now) }
        requires act { DoesAs (view pass.old) word (λ n. either (n == 0) (view pass.old).number n) A.act }
        requires ready { ReadyAs (view pass.old) word A.act }
        requires left { LeavesWrites (view pass.old) A.act }
        requires retired { LeavesRetired A.act }
        ensures did { (s : Snap) × Did (A.act result s) pass.old pass.new × Acted (view pass.old) (A.act result s) }
    {
        let _ = o;
        let number = u64::from(pass.number) + 1;
        self.table
            .shared
            .compare_exchange::<Keeps<A>>(&mut pass.seat, word as usize, 0, number)
    }

    /// Raises the counter, which is a write.
    pub(crate) fn commit_as<A: Keeping>(&self, pass: &mut Pass, call: &Call, reply: &Reply) -> u64
        requires pass { IsPassOf self.now pass.old }
        requires act { DoesAs (view pass.old) 0 (λ n. (n + 1) % 2 ^ 64) A.act }
        requires ready { ReadyAs (view pass.old) 0 A.act }
        requires room { 0 < (view pass.old).left }
        requires left { (n : ℕ) (s : Snap) → left_next (A.act n s) (view pass.old).left + 1 ≡ (view pass.old).left }
        requires retired { LeavesRetired A.act }
        ensures did { (s : Snap) × Did (A.act result s) pass.old pass.new × Acted (view pass.old) (A.act result s) }
    {
        let _ = call;
        let _ = reply;
        let number = self
            .table
            .shared
            .fetch_add::<Keeps<A>>(&mut pass.seat, 0, 1);
        pass.left -= 1;
        number
    }

    /// Loads the counter, and makes the entry of a call.
    pub(crate) fn answer_as<A: Saying>(
        &self,
        pass: &mut Pass,
        call: &Call,
        reply: &Reply,
        number: u64,
    )
        requires pass { IsPassOf self.now pass.old }
        requires act { Acts (view pass.old) 0 (λ n. n) A.act }
        requires ready { Ready (view pass.old) 0 A.act }
        requires room { 0 < (view pass.old).left }
        requires left { (n : ℕ) → left_next (A.act n) (view pass.old).left + 1 ≡ (view pass.old).left }
        requires retired { LeavesRetired (λ n _. A.act n) }
        ensures { (n : ℕ) × Did (A.act n) pass.old pass.new }
    {
        let _ = call;
        let _ = reply;
        let _ = number;
        self.table.shared.load::<Does<A>>(&mut pass.seat, 0);
        pass.left -= 1;
    }

    /// Loads the counter, and makes the entry of an `iter` or a `next`: of the cursor under this number, which
    /// becomes this one.
    pub(crate) fn answer_cursor_as<A: Saying>(
        &self,
        pass: &mut Pass,
        call: &Call,
        reply: &Reply,
        stamp: u64,
        number: u32,
        cursor: &Cursor,
    )
        requires pass { IsPassOf self.now pass.old }
        requires act { Acts (view pass.old) 0 (λ n. n) A.act }
        requires ready { Ready (view pass.old) 0 A.act }
        requires room { 0 < (view pass.old).left }
        requires left { (n : ℕ) → left_next (A.act n) (view pass.old).left + 1 ≡ (view pass.old).left }
        requires retired { LeavesRetired (λ n _. A.act n) }
        ensures { (n : ℕ) × Did (A.act n) pass.old pass.new }
    {
        let _ = call;
        let _ = reply;
        let _ = stamp;
        let _ = number;
        let _ = cursor;
        self.table.shared.load::<Does<A>>(&mut pass.seat, 0);
        pass.left -= 1;
    }

    /// Takes what another pass knows into this one's view, and loads the counter.
    pub(crate) fn settle_as<A: Saying>(&self, seat: &mut Seat<(), View>, other: Seat<(), View>)
        requires tables { (seat.old.table_id ≡ self.now.table.shared.table_id) × (other.table_id ≡ self.now.table.shared.table_id) }
        requires bare { other.me.1 ≡ [] }
        requires live { IsAwake seat.old.me.0 }
        requires last { other.me.0.next ≡ 0 }
        requires free { IsFree other.me.0 }
        requires act { Acts (both seat.old.me.0 other.me.0) 0 (λ n. n) A.act }
        requires ready { Ready (both seat.old.me.0 other.me.0) 0 A.act }
        ensures table { seat.new.table_id ≡ seat.old.table_id }
        ensures view { (n : ℕ) × (seat.new.me.0 ≡ view_after (A.act n) (both seat.old.me.0 other.me.0))
            × Acted (both seat.old.me.0 other.me.0) (A.act n) }
        ensures bare { seat.new.me.1 ≡ seat.old.me.1 }
    {
        self.table.shared.join_seat::<Shares>(seat, other);
        self.table.shared.load::<Does<A>>(seat, 0);
    }
}
