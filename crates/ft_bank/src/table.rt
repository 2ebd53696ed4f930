//! Tables by name, for whoever reads a root or writes one.
ghost use Rattle.std.specs.Prelude.{◌≡◌, ◌<◌, Some};
ghost use Rattle.ft_bank.specs.declared.table.Table.{Table};
ghost use Rattle.ft_model.specs.Classes.{IsClass};
ghost use Rattle.ft_bank.specs.TableNames.{table_id, root_for};

use ft_layout::root_word;

/// A table of a bank.
#[derive(Clone, Copy, Debug, PartialEq, Eq)]
pub struct Table {
    /// The class, from 3 to 16: the table has 2^class index slots, or items of a list.
    pub class: u32,
    /// The number among the tables of its class, from 0 on.
    pub number: u32,
}

impl Table {
    /// The name that traces have for the table: its root word less 1.
    pub(crate) fn name(&self) -> u64
        requires class { IsClass self.now.class }
        requires number { self.now.number < 1024 }
        ensures { result ≡ table_id self.now }
    {
        root_word(self.class, self.number) - 1
    }
}

/// The root that names the table, or no table.
pub(crate) fn root_value(root: Option<Table>) -> u64
    requires { (t : Table) → root ≡ Some t → IsClass t.class × (t.number < 1024) }
    ensures { result ≡ root_for root }
{
    match root {
        Some(table) => root_word(table.class, table.number),
        None => 0,
    }
}
