//! The parts of the bank's rule: what holds of every valid trace, for the bank and all that stands on it.
ghost use Rattle.ft_trace.specs.Grants.{ListsMayBeCleared, ClearedTablesMayBeGivenBack, TakingsEnd};
ghost use Rattle.ft_trace.specs.WholeWrites.{WritesMayBeMade};
ghost use Rattle.ft_trace.specs.ItemWrites.{ItemsMayBePut, ItemsMayBeAppended};
ghost use Rattle.ft_trace.specs.Replies.{RepliesMayBeGiven, CursorsMayBeMoved, HeapErrorsMayBeAnswered, MemoryErrorsMayBeAnswered};
ghost use Rattle.ft_trace.specs.LookReplies.{DictHitsAreReplied, SetHitsAreReplied, MissesAreReplied, ItemsAreReplied, PastItemsAreReplied};
ghost use Rattle.ft_trace.specs.EntryWrites.{ValuesMayBePut};
ghost use Rattle.ft_trace.specs.Earnings.{EntriesAreEarned};
ghost use Rattle.ft_trace.specs.InOrder.{NumberedEntriesAreInOrder};
ghost use Rattle.ft_trace.specs.OpenedEntries.{CommitsChangeTheOpened, OpenedAreCommitted};
ghost use Rattle.ft_trace.specs.StoppedLookUps.{ReadersOfKeysAreStoppedByWrites, ReadersOfItemsAreStoppedByWrites, ReadersOfContainersAreStoppedByWrites};
ghost use Rattle.ft_trace.specs.OwnCursors.{CursorsAreHands};
ghost use Rattle.ft_trace.specs.TableCounts.{TablesAddUp};
ghost use Rattle.ft_trace.specs.Roots.{ZeroRootsHaveCauses, RetiredTablesAreApart};
ghost use Rattle.ft_trace.specs.KeyWrites.{KeysMayBeAdded};
ghost use Rattle.ft_trace.specs.DeleteWrites.{KeysMayBeDeleted};
ghost use Rattle.ft_trace.specs.SetWrites.{ElementsMayBeAdded, ElementsMayBeDiscarded};
ghost use Rattle.ft_trace.specs.GrowWrites.{DictsMayGrow};
ghost use Rattle.ft_trace.specs.SetGrowWrites.{SetsMayGrow};
ghost use Rattle.ft_trace.specs.ListGrowWrites.{ListsMayGrow};
ghost use Rattle.ft_trace.specs.TraceLaws.{ContentsFit, StoredTablesAreInOrder, WordsLieApart, PairsAreUnderTheirKeys, ElementsAreUnderTheirKeys, OnePassIsAlone, StampsRise, MemoryErrorsAreEarned, LocksNameHolders, WritesAreOneAtATime, FoundOwnersHadLocks, OneKnowsAllOwners, VersionsAreOddInWrites, EvenTablesAreShut, OddVersionsAreInWrites, NumbersAreOnce, EntriesAreRight, OneHasAllEntries, EvenWordsStand, ZeroRootsHaveNothing, HoldersKnow, TablesAreSomewhere, TablesAreInOnePlace, CountsStand, TablesAreOwed, EmptyClassesAreEarned, AnnouncedNumbersAreLow, FoundTablesAreKept, TablesAreFreeBeforeRoots, GoalsStand, GivenUpTablesRest, TablesAreSound, TableWordsStay, HitsAreRight, MissesAreRight, BareRootsAreRight, ItemsAreRight, ListsFitTheirTables, LooksAreRight, LooksAtBothAreRight, ChangedRootsAreNew, NumbersHaveRoom, EntryVersionsAreLow, NextSerialsAreLow, CallsAreCounted};

use ft_layout::{
    puts_change_one_item, used_entries_follow_a_dict, used_entries_follow_a_set,
    versions_change_nothing, words_follow_a_dict, words_follow_a_list,
};

/// A lock word is the number of the one pass that has the lock.
pub fn locks_name_their_holders()
    ensures { LocksNameHolders }
{}

/// Whoever was found with the lock of a container had taken it, and a pass that stands for all passes knows it.
pub fn found_owners_had_locks()
    ensures passes { FoundOwnersHadLocks }
    ensures all { OneKnowsAllOwners }
{}

/// The version of a container is odd exactly while a pass writes it.
pub fn versions_are_odd_in_writes()
    ensures { VersionsAreOddInWrites }
{}

/// The version of an entry or item is odd only while its container is written.
pub fn tables_are_shut_while_versions_are_even()
    ensures { EvenTablesAreShut }
{}

/// The version of an entry or item is odd only in a table that a pass took and has put into no root yet, or in the
/// table of a container that is being written.
pub fn odd_versions_are_in_writes()
    ensures { OddVersionsAreInWrites }
{}

/// A write makes odd the versions of those entries and items alone that it changes.
pub fn commits_change_the_opened()
    ensures { CommitsChangeTheOpened }
{}

/// A pass writes one container at a time.
pub fn passes_write_one_container_at_a_time()
    ensures { WritesAreOneAtATime }
{}

/// What a write opens it commits: where a version was made odd and the write has ended, the pass committed a call while
/// it was odd, which changes that entry or item.
pub fn opened_are_committed()
    ensures { OpenedAreCommitted }
{}

/// A look-up of a key without the lock, which two loads of the version of the key's entry stop, is stopped by a
/// write under way between them that changes what is under this key; one of an index of a list, by a write that
/// changes what is at this index; and one that goes by the container's version, as where its root reads 0, by a
/// write of the container. The pass that writes committed such a call while the version was odd, or has not
/// committed yet.
pub fn readers_are_stopped_by_writes()
    ensures keys { ReadersOfKeysAreStoppedByWrites }
    ensures items { ReadersOfItemsAreStoppedByWrites }
    ensures containers { ReadersOfContainersAreStoppedByWrites }
{}

/// Each number below the counter is that of one write in one view.
pub fn numbers_are_of_one_write()
    ensures { NumbersAreOnce }
{}

/// Each entry has the reply of the plain containers at its stamp.
pub fn entries_are_right()
    ensures { EntriesAreRight }
{}

/// Stamps of a pass never fall, and rise after a write.
pub fn stamps_rise()
    ensures { StampsRise }
{}

/// Where a pass may answer a MemoryError of a class, writes before its stamp took the tables of the
/// class, but for one for each other pass.
pub fn memory_errors_are_earned()
    ensures { MemoryErrorsAreEarned }
{}

/// The cursors that a pass has by its log are the hands that its own entries leave (Python manual, Iterator
/// Types: a cursor is its thread's), and each of these entries has the reply of the plain containers to a
/// thread with the hands that the earlier ones leave.
pub fn cursors_are_hands()
    ensures { CursorsAreHands }
{}

/// An `iter` or a `next` may be answered with the stamp that a load of the counter gives.
pub fn cursors_may_be_moved()
    ensures { CursorsMayBeMoved }
{}

/// Each entry with a MemoryError has its cause in the writes before its stamp, and each other passes no
/// greatest length.
pub fn entries_are_earned()
    ensures { EntriesAreEarned }
{}

/// Entries that are numbered and earned stand so beside the writes in their order, the oldest first.
pub fn numbered_entries_are_in_order()
    ensures { NumberedEntriesAreInOrder }
{}

/// A pass that stands for all passes has an entry for each write, and each of its entries is right.
pub fn one_pass_has_all_entries()
    ensures { OneHasAllEntries }
{}

/// A pass that stands for all passes has one entry for each call that was made: of the calls of all passes those
/// are left that have none.
pub fn calls_are_counted()
    ensures { CallsAreCounted }
{}

/// While the version of a container is even, its words stand for its content after all writes so far,
/// with the class and the fill of its table.
pub fn words_stand_while_versions_are_even()
    ensures { EvenWordsStand }
{}

/// Words can tell each key and value that a container has, or had after the first writes of the history.
pub fn contents_fit()
    ensures { ContentsFit }
{}

/// A root that is 0 while the version is even is that of a container with no table and nothing in it.
pub fn zero_roots_have_nothing()
    ensures { ZeroRootsHaveNothing }
{}

/// A root that is 0 while the version is odd was put by the pass that writes, for a call that may, or
/// its container had no table before the write.
pub fn zero_roots_have_causes()
    ensures { ZeroRootsHaveCauses }
{}

/// A pass knows the words and the content of each container whose lock it has, and the words of each
/// table in its hand that is fresh, or that it took out of a root and has not retired.
pub fn holders_know()
    ensures { HoldersKnow }
{}

/// Each table is free, or named by a root, or in the hand of a pass, or retired.
pub fn tables_are_somewhere()
    ensures { TablesAreSomewhere }
{}

/// No table is named by two roots or in two hands, and none is in two of these places: free, named by
/// a root, in a hand.
pub fn tables_are_in_one_place()
    ensures { TablesAreInOnePlace }
{}

/// Of each class, the tables that are free, those that roots name, those in the hands of passes and the retired
/// ones are together all that the bank has of the class, at every moment.
pub fn tables_add_up()
    ensures { TablesAddUp }
{}

/// A retired table is not free, and no root names it.
pub fn retired_tables_are_apart()
    ensures { RetiredTablesAreApart }
{}

/// A class has as many free tables as its count word says, and one more for each taking and each giving
/// that has changed one of the two and not yet the other.
pub fn counts_stand()
    ensures { CountsStand }
{}

/// The tables of a class that its count word leaves out are no more than the writes that took one, and
/// one for each pass that has lowered the count since its last write.
pub fn tables_are_owed()
    ensures { TablesAreOwed }
{}

/// Where a pass found the count of a class 0, writes took the tables of the class, but for one for each
/// other pass.
pub fn empty_classes_are_earned()
    ensures { EmptyClassesAreEarned }
{}

/// The announced number of a pass is what it announced last, and at most the write number.
pub fn announced_numbers_are_low()
    ensures { AnnouncedNumbersAreLow }
{}

/// A table that a pass has found in a root since it last announced is not free.
pub fn found_tables_are_kept()
    ensures { FoundTablesAreKept }
{}

/// A table that was taken out of a root stands in no root again before it has been free.
pub fn tables_are_free_before_roots()
    ensures { TablesAreFreeBeforeRoots }
{}

/// The header of a table that a pass retired says the goal, once the pass has put it there.
pub fn goals_stand()
    ensures { GoalsStand }
{}

/// The words of a table that is free, was taken out of a root or is retired stay as they are.
pub fn given_up_tables_rest()
    ensures { GivenUpTablesRest }
{}

/// The table that a root names is at every moment as readers without the lock need it, also while the
/// version of its container is odd.
pub fn tables_are_sound()
    ensures { TablesAreSound }
{}

/// What readers without the lock have found in a table stays, while its root names it.
pub fn table_words_stay()
    ensures { TableWordsStay }
{}

/// A key that was found without the lock is there at the stamp, with the words that were read of it.
pub fn hits_are_right()
    ensures { HitsAreRight }
{}

/// A key that fits its words and was not found without the lock, up to a slot never used or over all
/// slots of its probe, is absent at the stamp.
pub fn misses_are_right()
    ensures { MissesAreRight }
{}

/// Where a root was read 0 without the lock, the container has nothing at the stamp.
pub fn bare_roots_are_right()
    ensures { BareRootsAreRight }
{}

/// An item that was read without the lock is the list's at the stamp.
pub fn items_are_right()
    ensures { ItemsAreRight }
{}

/// At the stamp a list is no longer than the table that its root named.
pub fn lists_fit_their_tables()
    ensures { ListsFitTheirTables }
{}

/// What a pass found between two loads of a version that gave the same even number is the reply at the
/// stamp.
pub fn looks_are_right()
    ensures { LooksAreRight }
{}

/// What a pass found of two containers, each between two equal even loads of its version, is the reply at
/// the stamp.
pub fn looks_at_both_are_right()
    ensures { LooksAtBothAreRight }
{}

/// A key that was found in a dict without the lock is there at the stamp, with the value whose words
/// were read; the dict replies so.
pub fn dict_hits_are_replied()
    ensures { DictHitsAreReplied }
{}

/// A key that was found in a set without the lock is there at the stamp.
pub fn set_hits_are_replied()
    ensures { SetHitsAreReplied }
{}

/// A key that was not found without the lock is not there at the stamp; the dict or set replies so.
pub fn misses_are_replied()
    ensures { MissesAreReplied }
{}

/// An item that was read without the lock is at its index at the stamp; the list replies so.
pub fn items_are_replied()
    ensures { ItemsAreReplied }
{}

/// A list has no item at an index past its table, and replies so.
pub fn past_items_are_replied()
    ensures { PastItemsAreReplied }
{}

/// A root that changed since the pass read it names a table that the pass has not found since it last
/// announced.
pub fn changed_roots_are_new()
    ensures { ChangedRootsAreNew }
{}

/// The counter, the write number and the versions of containers stay below what the shape allows, so
/// that none wraps.
pub fn numbers_have_room()
    ensures { NumbersHaveRoom }
{}

/// The version of an entry or item is at most twice the counter, and one more while it is odd.
pub fn entry_versions_are_low()
    ensures { EntryVersionsAreLow }
{}

/// The next serial of a container is at most the slots of the largest table for each write so far.
pub fn next_serials_are_low()
    ensures { NextSerialsAreLow }
{}

/// A pass with the lock of a list may clear it, in each of its steps.
pub fn lists_may_be_cleared()
    ensures { ListsMayBeCleared }
{}

/// A write whose words are right may be made whole, in each of its steps.
pub fn writes_may_be_made()
    ensures { WritesMayBeMade }
{}

/// A pass with the lock of a list may put one of its items, in place or in a box for which it holds a reference.
pub fn items_may_be_put()
    ensures { ItemsMayBePut }
{
    versions_change_nothing();
    puts_change_one_item();
    words_follow_a_list();
}

/// A pass with the lock of a list whose table has room may append an item, in place or in a box.
pub fn items_may_be_appended()
    ensures { ItemsMayBeAppended }
{
    versions_change_nothing();
    puts_change_one_item();
    words_follow_a_list();
}

/// A pass with the lock of a list, and a fresh table in hand whose words stand for it with one more
/// item, may put the table in the root and append the item.
pub fn lists_may_grow()
    ensures { ListsMayGrow }
{
    versions_change_nothing();
}

/// A pass with the lock of a dict may put another value at a key that is there, in place or in a box.
pub fn values_may_be_put()
    ensures { ValuesMayBePut }
{
    versions_change_nothing();
    used_entries_follow_a_dict();
    words_follow_a_dict();
}

/// A pass with the lock of a dict whose table has room may add a key, with its value in place or in a box.
pub fn keys_may_be_added()
    ensures { KeysMayBeAdded }
{
    versions_change_nothing();
    used_entries_follow_a_dict();
}

/// A pass with the lock of a dict may take out a key that is there.
pub fn keys_may_be_deleted()
    ensures { KeysMayBeDeleted }
{
    versions_change_nothing();
    used_entries_follow_a_dict();
}

/// A pass with the lock of a set whose table has room may add a key.
pub fn elements_may_be_added()
    ensures { ElementsMayBeAdded }
{
    versions_change_nothing();
    used_entries_follow_a_set();
}

/// A pass with the lock of a set may take out a key that is there.
pub fn elements_may_be_discarded()
    ensures { ElementsMayBeDiscarded }
{
    versions_change_nothing();
    used_entries_follow_a_set();
}

/// A pass with the lock of a dict, and a fresh table in hand whose words stand for it with one more
/// key, may put the table in the root and add the key.
pub fn dicts_may_grow()
    ensures { DictsMayGrow }
{
    versions_change_nothing();
    used_entries_follow_a_dict();
}

/// A pass with the lock of a set, and a fresh table in hand whose words stand for it with one more key,
/// may put the table in the root and add the key.
pub fn sets_may_grow()
    ensures { SetsMayGrow }
{
    versions_change_nothing();
    used_entries_follow_a_set();
}

/// A reply may be given that is the plain containers' in each history that agrees with what the pass knows.
pub fn replies_may_be_given()
    ensures { RepliesMayBeGiven }
{}

/// A MemoryError of a class may be answered by a pass that found its count 0.
pub fn memory_errors_may_be_answered()
    ensures { MemoryErrorsMayBeAnswered }
{}

/// A pass that found its heap full may answer a MemoryError of a heap to a call that would put a value in a box.
pub fn heap_errors_may_be_answered()
    ensures { HeapErrorsMayBeAnswered }
{}

/// The table that a clear took out of the root may be retired and given back.
pub fn cleared_tables_may_be_given_back()
    ensures { ClearedTablesMayBeGivenBack }
{}

/// A pass that may lower the count of a class may go on to a table of it, or raise the count again.
pub fn takings_end()
    ensures { TakingsEnd }
{}

/// A dict has under a key the words of its first pair with that key, and nothing where none has it.
pub fn pairs_are_under_their_keys()
    ensures { PairsAreUnderTheirKeys }
{}

/// A set has under a key the words of its first element with that key, and nothing where none has it.
pub fn elements_are_under_their_keys()
    ensures { ElementsAreUnderTheirKeys }
{}

/// While a pass stands for all passes no other may do anything.
pub fn one_pass_is_alone()
    ensures { OnePassIsAlone }
{}

/// Each word of a bank lies in its part, and two words at one address are one.
pub fn words_lie_apart()
    ensures { WordsLieApart }
{}

/// Tables have room for what is stored, and no container has more than the largest table holds.
pub fn stored_tables_are_in_order()
    ensures { StoredTablesAreInOrder }
{}
