//! Worked scripts. The functions do nothing: their contracts say what the ledger comes to.
ghost use Rattle.std.specs.Prelude.{◌≡◌, map};
ghost use Rattle.ft_model.specs.Scripts.{IsScript};
ghost use Rattle.ft_ledger.specs.Ledgers.{HasLedgerErrors, class_tables};
ghost use Rattle.ft_ledger.specs.Rows.{sixth_key, used_again, used_again_entries};
ghost use Rattle.ft_turns.specs.AnsweredTurns.{answered_turns};
ghost use Rattle.ft_turns.specs.Orders.{order_of, ordered_entry};

/// The sixth key takes a dict to a greater table, and the smaller one is not free again when its
/// thread leaves, since another thread may still look at it.
pub fn sixth_keys_retire_a_table()
    ensures script { IsScript sixth_key }
    ensures errors { HasLedgerErrors sixth_key (answered_turns sixth_key) }
    ensures smaller { class_tables sixth_key (answered_turns sixth_key) 3 ≡ record { free = 3; current = 0; retired = 1 } }
    ensures greater { class_tables sixth_key (answered_turns sixth_key) 4 ≡ record { free = 3; current = 1; retired = 0 } }
{}

/// A table that a dict outgrew is not there for another dict until each thread has come to a
/// quiescent point or has left.
pub fn retired_tables_are_used_again()
    ensures order { map ordered_entry used_again_entries ≡ order_of used_again }
    ensures errors { HasLedgerErrors used_again used_again_entries }
    ensures smaller { class_tables used_again used_again_entries 3 ≡ record { free = 0; current = 1; retired = 0 } }
    ensures greater { class_tables used_again used_again_entries 4 ≡ record { free = 3; current = 1; retired = 0 } }
{}
