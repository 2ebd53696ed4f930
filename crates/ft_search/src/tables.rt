//! The table that a root names, for whoever goes on to its words.
ghost use Rattle.std.specs.Prelude.{◌≡◌, ◌≢◌, ℕ, suc, ◌<◌, ◌≤◌, IfSome, IfNone};
ghost use Rattle.ft_model.specs.Classes.{IsClass};
ghost use Rattle.ft_layout.specs.Containers.{class_mask};
ghost use Rattle.ft_trace.specs.declared.Shape.{Shape};
ghost use Rattle.ft_trace.specs.Addresses.{IsTableName};
ghost use Rattle.ft_bank.specs.Passes.{shape_of};
ghost use Rattle.ft_bank.specs.TableNames.{table_id, IsTableIn};

use ft_bank::{Bank, Table};
use ft_layout::root_of;

/// What a class counts for in a root, beside the number.
const CLASS_STEP: u64 = 65536;

/// The table that a root names, or `None` where it names none.
pub fn table_named(root: u64) -> Option<Table>
    ensures named { IfSome result (λ table. root ≡ suc (table_id table)) }
    ensures in_bank { (k : Shape) → ((t : ℕ) → root ≡ suc t → IsTableName k t) → IfSome result (λ table. IsTableIn k table) }
    ensures none { (k : Shape) → ((t : ℕ) → root ≡ suc t → IsTableName k t) → IfNone result (root ≡ 0) }
{
    match root_of(root) {
        Some((class, number)) => Some(Table { class, number }),
        None => None,
    }
}

/// The table that a root names which was read in the bank, or `None` where it names none: it isn't tested again.
pub fn table_at(bank: &Bank, root: u64) -> Option<Table>
    requires { (t : ℕ) → root ≡ suc t → IsTableName (shape_of bank.now) t }
    ensures named { IfSome result (λ table. root ≡ suc (table_id table)) }
    ensures in_bank { IfSome result (λ table. IsTableIn (shape_of bank.now) table) }
    ensures none { IfNone result (root ≡ 0) }
{
    let _ = bank;
    if root == 0 {
        return None;
    }
    let table = root - 1;
    Some(Table {
        class: (table / CLASS_STEP) as u32,
        number: (table % CLASS_STEP) as u32,
    })
}

/// The last index slot of a table of a class.
pub fn mask_of(class: u32) -> u64
    requires { IsClass class }
    ensures { result ≡ class_mask class }
{
    (1 << class) - 1
}
