//! The bank: the table of its words with its shape. It is made with all its passes, and passes take others
//! in.
ghost use Rattle.std.specs.Prelude.{◌≡◌, ◌+◌, ◌<◌, ◌^◌, ◌*◌, [], length, replicate, IfOk, ℕ};
ghost use Rattle.ft_trace.specs.declared.Act.TheVariants.{ReadCounter};
ghost use Rattle.ft_layout.specs.Starts.{box_start, heap_size, heap_start};
ghost use Rattle.ft_trace.specs.Addresses.{container_count, extent};
ghost use Rattle.ft_trace.specs.Acts.{starter, maker, made, both, view_after, all_lists, tells};
ghost use Rattle.ft_trace.specs.Traces.{MayFork, IsFree};
ghost use Rattle.ft_bank.specs.Shapes.{plan, IsShape};
ghost use Rattle.ft_bank.specs.TableNames.{starts_from, sizes_from};

use crate::closed::Closed;
use crate::opening::{class_sizes, class_starts, opening_words};
use crate::pass::Pass;
use crate::retired::{RETIRED, merge};
use crate::rule::{Law, Shares};
use crate::sections::{Sections, Taking};
use crate::shape::{MakeFault, Shape};
use atomic_table::Table;
use ft_layout::{box_start, heap_start};
use ft_trace::View;
use std::alloc::{AllocError, Global};
use std::marker::Brand;

/// A bank of containers in one list of shared words.
#[derive(Drop)]
pub struct Bank {
    pub(crate) table: Table<(), View, Shape, Law, Global>,
    pub(crate) shape: Shape,
    pub(crate) starts: Vec<u64>,
    pub(crate) sizes: Vec<u64>,
    /// Where the first heap begins, where its boxes do, and how many words a heap has.
    pub(crate) heaps: u64,
    pub(crate) boxes: u64,
    pub(crate) heap_words: u64,
    ghost keyed: { table.shared.key ≡ shape },
    ghost wide: { table.shared.table_id.words ≡ extent (plan shape) },
    ghost bare: { table.shared.table_id.slots ≡ 0 },
    ghost fits: { IsShape shape },
    ghost low: { extent (plan shape) < 2 ^ 33 },
    ghost few: { shape.passes * shape.calls < 2 ^ 46 },
    ghost starting: { starts.items ≡ starts_from (plan shape) 3 14 },
    ghost sizing: { sizes.items ≡ sizes_from 3 14 },
    ghost beginning: { heaps ≡ heap_start (container_count (plan shape)) shape.heap 0 },
    ghost boxing: { boxes ≡ box_start (container_count (plan shape)) shape.heap 0 0 },
    ghost heaping: { heap_words ≡ heap_size shape.heap },
}

/// Memory for what a pass keeps of its open sections and of the tables that it retired; there are none yet. Boxes make
/// a pass quick to move.
pub(crate) fn nothing_kept(
    alloc: Global,
) -> Result<(Box<Sections>, Box<[u64; RETIRED]>), AllocError>
    ensures sections { IfOk result (λ kept. kept.0.value ≡ []) }
    ensures retired { IfOk result (λ kept. kept.1.value ≡ replicate 224 0) }
{
    let sections = Box::new(alloc, Sections::none())?;
    let retired = Box::new(alloc, [0; RETIRED])?;
    Ok((sections, retired))
}

impl Bank {
    ghost use Rattle.ft_bank.specs.Passes.{shape_of, view, IsPassOf};
    ghost use Rattle.ft_bank.specs.Closings.{shape_in, lists_in, entries_in, had_in, found_in, told_of};
    ghost use Rattle.ft_trace.specs.Owners.{had_locks, found_owners};
    ghost use Rattle.ft_bank.specs.Retired.{TakesOver};
    ghost use Rattle.ft_bank.specs.PassSections.{stack_of, no_sections};

    /// A bank of this shape, and its first pass, which stands for all passes.
    pub(crate) fn with_first(alloc: Global, shape: Shape) -> Result<(Bank, Pass), MakeFault>
        requires { IsShape shape }
        ensures shape { IfOk result (λ made. shape_of made.0 ≡ plan shape) }
        ensures pass { IfOk result (λ made. IsPassOf made.0 made.1) }
        ensures view { IfOk result (λ made. view made.1 ≡ starter (plan shape)) }
        ensures sections { IfOk result (λ made. stack_of made.1 ≡ no_sections) }
    {
        let words = opening_words(alloc, &shape)?;
        let starts = class_starts(alloc, &shape)?;
        let sizes = class_sizes(alloc)?;
        let (table, seat) = Table::of_words(alloc, words.as_slice(), &shape)?;
        let (sections, retired) = nothing_kept(alloc)?;
        let left = u64::from(shape.passes) * u64::from(shape.calls);
        let containers = shape.kinds.len() as u32;
        let boxes = box_start(containers, shape.heap, 0, 0);
        let heaps = heap_start(containers, shape.heap, 0);
        let heap_words = heap_start(containers, shape.heap, 1) - heaps;
        let bank = Bank {
            table,
            shape,
            starts,
            sizes,
            heaps,
            boxes,
            heap_words,
        };
        let pass = Pass {
            number: 0,
            next: 2,
            left,
            sections,
            own: Taking::NONE,
            mark: None,
            retired,
            heap_word: 0,
            seat,
        };
        Ok((bank, pass))
    }

    /// Makes another pass, which may make as many calls as the shape says for one. Only the first pass
    /// may, while fewer than the shape's passes were made.
    pub(crate) fn split(
        &self,
        pass: &mut Pass,
        sections: Box<Sections>,
        retired: Box<[u64; RETIRED]>,
    ) -> Pass
        requires sections { sections.value ≡ [] }
        requires retired { retired.value ≡ replicate 224 0 }
        requires pass { IsPassOf self.now pass.old }
        requires may { MayFork (view pass.old) }
        ensures passes { IsPassOf self.now pass.new × IsPassOf self.now result }
        ensures maker { view pass.new ≡ maker (view pass.old) }
        ensures made { view result ≡ made (view pass.old) }
        ensures sections { (stack_of pass.new ≡ stack_of pass.old) × (stack_of result ≡ no_sections) }
    {
        let number = pass.next - 1;
        let left = u64::from(self.shape.calls);
        let seat = self.table.shared.split_seat::<Shares>(&mut pass.seat);
        pass.next += 1;
        pass.left -= left;
        Pass {
            number,
            next: 0,
            left,
            sections,
            own: Taking::NONE,
            mark: None,
            retired,
            heap_word: 0,
            seat,
        }
    }

    /// Takes in another pass, which has no lock, no open section and no table in hand, is offline and has
    /// no pass to make: the first one keeps its entries, in a list beside its own, and takes over the tables that it
    /// kept retired, with their goals, so that collections of the first give them back. The counter is loaded, so the
    /// first pass has then seen all that the other had.
    pub fn join(&self, pass: &mut Pass, other: Pass)
        requires passes { IsPassOf self.now pass.old × IsPassOf self.now other }
        requires last { (view other).next ≡ 0 }
        requires free { IsFree (view other) }
        requires sections { (stack_of other).sections ≡ [] }
        ensures pass { IsPassOf self.now pass.new }
        ensures sections { stack_of pass.new ≡ stack_of pass.old }
        ensures view { (n : ℕ) × (view pass.new ≡ view_after (ReadCounter n) (both (view pass.old) (view other))) }
        ensures tables { TakesOver (view pass.old) (view other) (view pass.new) }
    {
        let Pass {
            number: _,
            next: _,
            left,
            sections: _,
            own: _,
            mark: _,
            retired,
            heap_word: _,
            seat,
        } = other;
        self.settle_as::<Brand>(&mut pass.seat, seat);
        merge(&mut *pass.retired, &*retired);
        pass.left += left;
    }

    /// Closes the bank, by a pass that has taken in all others and is free of locks, sections and tables. Each call that
    /// was made has one entry in the closed bank: of the calls that the passes had, those are left that have none.
    pub fn close(self, pass: Pass) -> Closed
        requires pass { IsPassOf self pass }
        requires free { IsFree (view pass) }
        requires sections { (stack_of pass).sections ≡ [] }
        requires all { (view pass).parts ≡ (shape_of self).passes }
        ensures shape { shape_in result ≡ shape_of self }
        ensures lists { lists_in result ≡ all_lists (view pass) }
        ensures had { had_in result ≡ had_locks (view pass).number (view pass).log }
        ensures found { found_in result ≡ found_owners (view pass).log }
        ensures told { told_of result ≡ tells (view pass) }
        ensures count { length (entries_in result) + (view pass).left ≡ (shape_of self).passes * (shape_of self).calls }
    {
        let Bank {
            table: _,
            shape,
            starts: _,
            sizes: _,
            heaps: _,
            boxes: _,
            heap_words: _,
        } = self;
        Closed { shape, pass }
    }
}
