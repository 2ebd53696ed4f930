//! Comparisons of two dicts or two sets, `==`, `<=` and `isdisjoint`: without their locks between two loads of the
//! version of each, and under both locks.
//!
//! All four go one way: what loads of the words of both show is whether it is so, and the call answers that.
ghost use Rattle.std.specs.Prelude.{◌≡◌, ◌<◌};
ghost use Rattle.ft_trace.specs.Addresses.{container_count};
ghost use Rattle.ft_trace.specs.ContainerStates.{kind_in};
ghost use Rattle.ft_bank.specs.Passes.{shape_of, view, IsPassOf};
ghost use Rattle.ft_bank.specs.PassSections.{stack_of};
ghost use Rattle.ft_search.specs.MadeCalls.{MadeAs};
ghost use Rattle.ft_search.specs.OneEntryWrites.{MayWriteEntries};
ghost use Rattle.ft_reads.specs.Glances.{SawBoth};
ghost use Rattle.ft_reads.specs.Pairs.{IsGlanceOfBoth, ReadsBoth};
ghost use Rattle.ft_whole_tables.specs.Comparisons.{IsComparedAs, compared, kind_compared};

use crate::comparing::{are_same_dicts, are_same_sets, is_apart, is_within};
use ft_bank::{Bank, Pass};
use ft_model::{Call, DictCall, Reply, SetCall};
use ft_reads::Window;
use ft_search::{answer_look, answer_made};
use ft_section::{Look, Object, Stamp};

/// A comparison of two dicts or two sets.
#[derive(Clone, Copy, Debug, PartialEq, Eq)]
pub enum Comparison {
    /// `d == e`, of two dicts.
    SameDicts,
    /// `s == t`, of two sets.
    SameSets,
    /// `s <= t`, of two sets.
    Subset,
    /// `s.isdisjoint(t)`, of two sets.
    Disjoint,
}

impl Comparison {
    /// The call on a container that compares it with another one.
    pub fn call_of(self, c: Object, other: Object) -> Call
        ensures { result ≡ compared self c other }
    {
        match self {
            Comparison::SameDicts => Call::Dict {
                container: c,
                call: DictCall::Eq { other },
            },
            Comparison::SameSets => Call::Set {
                container: c,
                call: SetCall::Eq { other },
            },
            Comparison::Subset => Call::Set {
                container: c,
                call: SetCall::Subset { other },
            },
            Comparison::Disjoint => Call::Set {
                container: c,
                call: SetCall::Disjoint { other },
            },
        }
    }
}

/// Whether a comparison of two containers is so.
#[inline]
fn holds_between(bank: &Bank, pass: &mut Pass, how: Comparison, c: Object, other: Object) -> bool
    requires pass { IsPassOf bank.now pass.old }
    requires container { c < container_count (shape_of bank.now) }
    requires other { other < container_count (shape_of bank.now) }
    requires kind { kind_in (shape_of bank.now).starts c ≡ kind_compared how }
    requires other_kind { kind_in (shape_of bank.now).starts other ≡ kind_compared how }
    ensures pass { IsPassOf bank.now pass.new }
    ensures stack { stack_of pass.new ≡ stack_of pass.old }
    ensures reads { ReadsBoth (shape_of bank.now) c other (IsComparedAs (shape_of bank.now) how result) pass.old
        pass.new }
{
    match how {
        Comparison::SameDicts => are_same_dicts(bank, pass, c, other),
        Comparison::SameSets => are_same_sets(bank, pass, c, other),
        Comparison::Subset => is_within(bank, pass, c, other),
        Comparison::Disjoint => is_apart(bank, pass, c, other),
    }
}

/// A comparison, by a pass that has both locks.
pub fn compare_locked(
    bank: &Bank,
    pass: &mut Pass,
    how: Comparison,
    c: Object,
    other: Object,
) -> (Reply, Stamp)
    requires pass { IsPassOf bank.now pass.old }
    requires may { MayWriteEntries (shape_of bank.now) c (view pass.old) }
    requires other { MayWriteEntries (shape_of bank.now) other (view pass.old) }
    requires kind { kind_in (shape_of bank.now).starts c ≡ kind_compared how }
    requires other_kind { kind_in (shape_of bank.now).starts other ≡ kind_compared how }
    ensures pass { IsPassOf bank.now pass.new }
    ensures stack { stack_of pass.new ≡ stack_of pass.old }
    ensures made { MadeAs (compared how c other) result.0 result.1 (view pass.old) (view pass.new) }
{
    let is_so = holds_between(bank, pass, how, c, other);
    let called = how.call_of(c, other);
    answer_made(bank, pass, &called, Reply::Truth(is_so))
}

/// Compares two containers, and loads the counter, between two loads of the version of each.
#[inline]
fn compare_between(
    bank: &Bank,
    pass: &mut Pass,
    how: Comparison,
    c: Object,
    other: Object,
) -> (bool, Window, Window)
    requires pass { IsPassOf bank.now pass.old }
    requires container { c < container_count (shape_of bank.now) }
    requires other { other < container_count (shape_of bank.now) }
    requires kind { kind_in (shape_of bank.now).starts c ≡ kind_compared how }
    requires other_kind { kind_in (shape_of bank.now).starts other ≡ kind_compared how }
    ensures pass { IsPassOf bank.now pass.new }
    ensures stack { stack_of pass.new ≡ stack_of pass.old }
    ensures saw { SawBoth (shape_of bank.now) c other (IsComparedAs (shape_of bank.now) how result.0) result.1 result.2
        pass.old pass.new }
{
    let opened = bank.seq(pass, c);
    let other_opened = bank.seq(pass, other);
    let is_so = holds_between(bank, pass, how, c, other);
    let number = bank.stamp(pass);
    let other_closed = bank.seq(pass, other);
    let closed = bank.seq(pass, c);
    (
        is_so,
        Window {
            opened,
            number,
            closed,
        },
        Window {
            opened: other_opened,
            number,
            closed: other_closed,
        },
    )
}

/// A comparison without locks (Python manual, Mapping Types, Set Types).
///
/// # Errors
///
/// `Contended` where two loads of the version of one of the containers gave an odd number or two different ones. It
/// never answers `NoMemory`.
#[inline]
pub fn look_comparison(
    bank: &Bank,
    pass: &mut Pass,
    how: Comparison,
    c: Object,
    other: Object,
) -> Look
    requires pass { IsPassOf bank.now pass.old }
    requires container { c < container_count (shape_of bank.now) }
    requires other { other < container_count (shape_of bank.now) }
    requires kind { kind_in (shape_of bank.now).starts c ≡ kind_compared how }
    requires other_kind { kind_in (shape_of bank.now).starts other ≡ kind_compared how }
    requires left { 0 < (view pass.old).left }
    ensures pass { IsPassOf bank.now pass.new }
    ensures sections { stack_of pass.new ≡ stack_of pass.old }
    ensures looked { IsGlanceOfBoth c other (compared how c other) (view pass.old) (view pass.new) result }
{
    let (is_so, window, beside) = compare_between(bank, pass, how, c, other);
    if window.has_moved() {
        return Look::Contended(window.opened, window.closed);
    }
    if beside.has_moved() {
        return Look::Contended(beside.opened, beside.closed);
    }
    let called = how.call_of(c, other);
    answer_look(bank, pass, &called, Reply::Truth(is_so), window.number)
}
