//! The words of a container's table in the bank, for searches and insertions: who searches without the
//! lock loads them one by one, and who has the lock may put them too, each word with care for readers.
//! Each call is one step of the bank, and what was loaded stands in the log of the pass.
use ft_bank::{Bank, Pass, Table};
use ft_keys::Words;

/// The words of a container's table.
#[derive(Drop)]
pub struct TableWords<'a> {
    /// The bank.
    pub bank: &'a Bank,
    /// The pass that makes the steps.
    pub pass: &'a mut Pass,
    /// The container.
    pub o: u32,
    /// The table.
    pub table: Table,
    /// The last slot of its index.
    pub mask: u64,
    /// Where the table's words lie in the bank.
    pub start: u64,
}

impl<'a> Words for TableWords<'a> {
    ghost use Rattle.ft_search.specs.TableWords.{CanLoad, MayPutAny, MayMake, MadeAccess};

    ghost can = { CanLoad };

    ghost may_put = { MayPutAny };

    ghost may = { MayMake };

    ghost mask = { λ words. words.mask };

    ghost gave = { MadeAccess };

    fn index(&mut self, slot: u64) -> u64 {
        self.bank.read_word(self.pass, self.table, self.start, slot)
    }

    fn entry(&mut self, place: u64, word: u64) -> u64 {
        let at = 8 * place + word + self.mask + 1;
        self.bank.read_word(self.pass, self.table, self.start, at)
    }

    fn put_index(&mut self, slot: u64, value: u64) {
        self.bank
            .put_word(self.pass, self.o, self.table, self.start, slot, value);
    }

    fn put_entry(&mut self, place: u64, word: u64, value: u64) {
        let at = 8 * place + word + self.mask + 1;
        self.bank
            .put_word(self.pass, self.o, self.table, self.start, at, value);
    }
}
