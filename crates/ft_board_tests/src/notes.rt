//! A board, and the notes that are left on it.
ghost use Rattle.std.specs.Prelude.{◌≡◌, [], ◌∷◌, All, IfOk, length};
ghost use Rattle.ft_model.specs.declared.script.Kind.TheVariants as kind;
ghost use Rattle.ft_board.specs.Awaits.{await_count};
ghost use Rattle.ft_board.specs.Boards.{IsNoteFor, name_of};
ghost use Rattle.ft_board_tests.specs.Makers.{IsMaker};

use ft_bank::{Bank, Note, Pass, Shape};
use ft_bank_tests::{bank_of_two, small_shape, write_once};
use ft_board::{Board, Naming};
use ft_model::{Kind, Script};
use ft_script::parse;
use std::alloc::Global;
use std::test::Fail;

/// Two threads await the first call of another one, and nobody its second call.
const TEXT: &str =
    "version 2\nlist l\nthread A\nreverse l\nreverse l\nthread B\nawait A.1\nthread C\nawait A.1\n";

/// The script.
fn script(alloc: Global) -> Result<Script, Fail> {
    Ok(parse(alloc, TEXT.as_bytes())?)
}

/// A board of it.
pub(crate) fn new_board<N: Naming>(alloc: Global) -> Result<Board<N>, Fail> {
    let script = script(alloc)?;
    let Ok(board) = Board::<N>::new(alloc, &script) else {
        return Err(Fail::from("there is memory"));
    };
    Ok(board)
}

/// A list, for two passes with ten calls each.
fn one_list(alloc: Global) -> Result<Shape, Fail>
    ensures { IfOk result (λ s. (s.kinds.items ≡ kind.List ∷ []) × (s.passes ≡ 2) × (s.calls ≡ 10)) }
{
    Ok(small_shape(alloc, vec![in alloc; Kind::List]?, 2, 10)?)
}

/// A bank with a list, and its first pass, which has made a call.
pub(crate) fn maker(alloc: Global) -> Result<(Bank, Pass), Fail>
    ensures { IfOk result (λ made. IsMaker made.0 made.1) }
{
    let (bank, mut first, _) = bank_of_two(alloc, one_list(alloc)?)?;
    let Some(_) = write_once(&bank, &mut first, 0) else {
        return Err(Fail::from("the lock is free"));
    };
    if first.number() != 0 {
        return Err(Fail::from("it is pass 0"));
    }
    Ok((bank, first))
}

/// A note of the pass.
#[tactic(auto, using(crate::proofs::MakerNotes::note_tells, crate::proofs::MakerNotes::still_maker))]
fn note_of<N: Naming>(bank: &Bank, pass: &mut Pass) -> Note
    requires named { N.bank ≡ name_of bank.now }
    requires maker { IsMaker bank.now pass.old }
    ensures maker { IsMaker bank.now pass.new }
    ensures note { IsNoteFor N.bank 0 1 result }
{
    bank.note(pass)
}

/// That many notes of it.
#[tactic(auto, using(crate::proofs::MakerNotes::note_more))]
pub(crate) fn notes_of<N: Naming>(
    alloc: Global,
    bank: &Bank,
    pass: &mut Pass,
    count: u32,
) -> Result<Vec<Note>, Fail>
    requires named { N.bank ≡ name_of bank.now }
    requires maker { IsMaker bank.now pass.old }
    ensures maker { IsMaker bank.now pass.new }
    ensures notes { IfOk result (λ notes. All (IsNoteFor N.bank 0 1) notes.items) }
    ensures count { IfOk result (λ notes. length notes.items ≡ count) }
{
    let mut notes = Vec::new(alloc);
    for _ in 0..count {
        notes.push(note_of::<N>(bank, pass))?;
    }
    if notes.len() != count as usize {
        return Err(Fail::from("a note for each"));
    }
    Ok(notes)
}

/// A note for each await of the first call.
pub(crate) fn notes_for<N: Naming>(
    alloc: Global,
    board: &Board<N>,
    bank: &Bank,
    pass: &mut Pass,
) -> Result<Vec<Note>, Fail>
    requires named { N.bank ≡ name_of bank.now }
    requires maker { IsMaker bank.now pass.old }
    ensures maker { IsMaker bank.now pass.new }
    ensures notes { IfOk result (λ notes. All (IsNoteFor N.bank 0 1) notes.items) }
    ensures count { IfOk result (λ notes. length notes.items ≡ await_count board.now 0 1) }
{
    notes_of::<N>(alloc, bank, pass, board.awaits(0, 1))
}
