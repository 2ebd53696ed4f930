//! The order in which a table's slots are tried for a hash, for whoever searches a table or puts an entry
//! in one. It names slots of the table alone, and comes to each of them.

ghost use Rattle.std.specs.Prelude.{◌≡◌, ℕ, ◌+◌, ◌<◌, ◌≤◌, ◌^◌, All, Contains};
ghost use Rattle.ft_hash.specs.Probes.{IsMask, Covers, dict_slots, set_slots};

use std::marker::Model;

/// The order in which the slots of a table are tried for a hash: `i*5 + perturb + 1` after `i`, where
/// `perturb` is the hash shifted by 5 bits once more at each step (CPython's comments on dicts). A
/// dict tries each position, a set also the nine slots after it, where the table has them all.
///
/// Contracts see the position that comes next, what is left of the hash, and the mask.
#[derive(Clone, Copy, Debug)]
pub struct Probe {
    slot: u64,
    perturb: u64,
    mask: u64,
}

impl Model for Probe {
    ghost use Rattle.std.specs.Prelude.{◌≤◌};
    ghost use Rattle.ft_hash.specs.Probes.{ProbeState, IsMask};

    ghost Value = { ProbeState };

    ghost view = { λ probe. record { slot = probe.slot; left = probe.perturb; mask = probe.mask } };

    ghost inverse = { λ state. record { slot = state.slot; perturb = state.left; mask = state.mask } };

    ghost invariant = { λ probe. IsMask probe.mask × (probe.slot ≤ probe.mask) };
}

impl Probe {
    ghost use Rattle.ft_hash.specs.Probes.{position, probe_state};

    /// The probe of a hash over a table whose last slot is `mask`: the slots, from 0 on, are a power of
    /// two of at least 8.
    pub fn new(hash: u64, mask: u64) -> Self
        requires { IsMask mask }
        ensures { result ≡ probe_state hash mask 0 }
    {
        Probe {
            slot: hash & mask,
            perturb: hash,
            mask,
        }
    }

    /// The next position. They have no end: after as many as there are slots and 13 more each slot was
    /// among them ([`cover`]).
    pub fn next(&mut self) -> u64
        ensures slot { result ≡ self.old.slot }
        ensures within { result ≤ self.old.mask }
        ensures mask { self.new.mask ≡ self.old.mask }
        ensures position { (hash n : ℕ) → self.old ≡ probe_state hash self.old.mask n →
            (result ≡ position hash self.old.mask n) × (self.new ≡ probe_state hash self.old.mask (n + 1)) }
    {
        let slot = self.slot;
        self.perturb >>= 5;
        self.slot = slot
            .wrapping_mul(5)
            .wrapping_add(self.perturb)
            .wrapping_add(1)
            & self.mask;
        slot
    }
}

/// A probe passes over no slot, whatever the hash and however large the table.
pub fn cover()
    ensures { (hash mask : ℕ) → hash < 2 ^ 64 → IsMask mask → Covers hash mask }
{}

/// A walk tries slots of the table alone, a dict's and a set's, whatever the hash and however long.
pub fn walks_stay_in_the_table()
    ensures dict { (hash mask count : ℕ) → All (λ slot. slot ≤ mask) (dict_slots hash mask count) }
    ensures set { (hash mask count : ℕ) → All (λ slot. slot ≤ mask) (set_slots hash mask count) }
{}

/// A walk of as many positions as there are slots and 13 more tries every slot of the table, a dict's and
/// a set's, whatever the hash.
pub fn walks_try_every_slot()
    ensures dict { (hash mask slot : ℕ) → hash < 2 ^ 64 → IsMask mask → slot ≤ mask →
        Contains (dict_slots hash mask (mask + 14)) slot }
    ensures set { (hash mask slot : ℕ) → hash < 2 ^ 64 → IsMask mask → slot ≤ mask →
        Contains (set_slots hash mask (mask + 14)) slot }
{}
