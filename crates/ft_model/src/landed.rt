//! Which starts and calls the bank of shared words can do so far, asked as a program.
ghost use Rattle.std.specs.Prelude.{◌≡◌, ℕ, List, []};
ghost use Rattle.ft_model.specs.declared.call.Call.{Call};
ghost use Rattle.ft_model.specs.declared.script.ScriptParts.{ScriptParts};
ghost use Rattle.ft_model.specs.declared.script.Start.{Start};
ghost use Rattle.ft_model.specs.Landed.{AreLanded};
ghost use Rattle.ft_model.specs.Scripts.{IsScript};
ghost use Rattle.ft_model.specs.TableUses.{CanLackLeaving, stored_by, table_at};
ghost use Rattle.ft_model.specs.Worlds.{WorldContent, starts_of};

use crate::call::{Call, DictCall, ListCall};
use crate::script::{Kind, Start};

impl Start {
    ghost use Rattle.ft_model.specs.Landed.{is_landed_start};

    /// Whether a container of a script may start so. Deques and split dicts may not yet.
    pub fn is_landed(&self) -> bool
        ensures { result ≡ is_landed_start self.now }
    {
        match self.kind {
            Kind::Dict | Kind::List | Kind::Set => self.keys.is_empty(),
            Kind::Deque(_) => false,
        }
    }
}

impl Call {
    ghost use Rattle.ft_model.specs.Landed.{is_landed_call};

    /// Whether a script may have the call. Calls of deques, views of dicts, reversed cursors and
    /// dumps may not be there yet.
    pub fn is_landed(&self) -> bool
        ensures { result ≡ is_landed_call self.now }
    {
        match self {
            Call::Dict { call, .. } => call.is_landed(),
            Call::List { call, .. } => call.is_landed(),
            Call::Set { .. }
            | Call::Next { .. }
            | Call::Begin { .. }
            | Call::End
            | Call::Quiesce
            | Call::Await { .. } => true,
            Call::Deque { .. } | Call::Dump => false,
        }
    }
}

impl DictCall {
    ghost use Rattle.ft_model.specs.Landed.{is_landed_dict};

    /// Whether a script may have the call.
    pub fn is_landed(&self) -> bool
        ensures { result ≡ is_landed_dict self.now }
    {
        !matches!(
            self,
            DictCall::KeysAnd { .. }
                | DictCall::KeysSub { .. }
                | DictCall::KeysOr { .. }
                | DictCall::KeysXor { .. }
                | DictCall::ItemsHas { .. }
                | DictCall::Reversed { .. }
        )
    }
}

impl ListCall {
    ghost use Rattle.ft_model.specs.Landed.{is_landed_list};

    /// Whether a script may have the call.
    pub fn is_landed(&self) -> bool
        ensures { result ≡ is_landed_list self.now }
    {
        !matches!(self, ListCall::Reversed { .. })
    }
}

/// A script's containers start as the bank can have them: none is split, whatever writes come, so
/// that no call takes a table for what a split dict is left with.
pub fn no_dict_is_split()
    ensures script { (script : ScriptParts) → IsScript script → AreLanded (starts_of script.containers) }
    ensures tables { (starts : List Start) (calls : List Call) (place : ℕ) → AreLanded starts → (table_at (stored_by starts calls).tables place).keys ≡ [] }
    ensures leaving { (starts : List Start) (world : WorldContent) (called : Call) → AreLanded starts → CanLackLeaving starts world called → ⊥ }
{}
