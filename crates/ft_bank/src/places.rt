//! Where the words of a bank lie, for its steps: plain arithmetic, with no branch by class.
ghost use Rattle.std.specs.Prelude.{◌≡◌, ◌≤◌, ◌<◌, ◌+◌, ◌*◌};
ghost use Rattle.ft_trace.specs.Addresses.{container_count, extent, at, cell, size, class_of};
ghost use Rattle.ft_bank.specs.TableNames.{table_id, IsPlaceOf, IsTableIn};

use crate::bank::Bank;
use crate::table::Table;
use ft_layout::block_start;
use ft_model::LEAST_CLASS;

impl Bank {
    ghost use Rattle.ft_bank.specs.Passes.{shape_of};

    /// Where the block of a container begins: its lock, and after it its version, its root and the rest.
    pub(crate) fn block_of(&self, o: u32) -> u64
        requires container { o < container_count (shape_of self.now) }
        ensures is { result ≡ 304 + 8 * o }
        ensures low { result + 8 ≤ extent (shape_of self.now) }
    {
        block_start(o)
    }

    /// Where the words of a table lie after its header.
    #[inline(always)]
    pub fn cell_of(&self, t: Table) -> u64
        requires table { IsTableIn (shape_of self.now) t }
        ensures is { result ≡ at (shape_of self.now) (cell (table_id t) 0) }
        ensures low { result + size (class_of (table_id t)) ≤ extent (shape_of self.now) }
        ensures place { IsPlaceOf (shape_of self.now) t result }
    {
        let class = (t.class - LEAST_CLASS) as usize;
        self.starts[class] + u64::from(t.number) * self.sizes[class] + 2
    }
}
