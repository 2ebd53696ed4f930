//! The containers of a script and the cursors of a thread, for whoever answers calls.
ghost use Rattle.std.specs.Prelude.{◌≡◌, ◌<◌, length, Some, None, slice_set, IfOk};
ghost use Rattle.ft_model.specs.Worlds.{start_world, IsOfKind, dict_at, list_at, set_at, deque_at};
ghost use Rattle.ft_model.specs.declared.script.Kind.TheVariants as kind;

use crate::content::Content;
use crate::cursor::Cursor;
use crate::deque::Deque;
use crate::dict::Dict;
use crate::list::List;
use crate::script::{Declaration, Kind};
use crate::set::Set;
use std::alloc::{AllocError, Global};
use std::marker::Model;

/// What the containers of a script have, one content for each in the order of declaration.
#[derive(Debug, Drop)]
pub struct World {
    pub(crate) contents: Vec<Content>,
}

impl Model for World {
    ghost use Rattle.std.specs.Prelude.{List};
    ghost use Rattle.ft_model.specs.declared.content.Content.{Content};

    ghost Value = { List Content };

    ghost view = { λ w. w.contents.items };
}

impl World {
    /// The world at the start: every container is empty.
    pub fn start(alloc: Global, containers: &[Declaration]) -> Result<Self, AllocError>
        ensures { IfOk result (λ world. world ≡ start_world containers.now) }
    {
        let mut contents = Vec::new(alloc);
        for container in containers {
            contents.push(match container.start.kind {
                Kind::Dict => Content::Dict(Dict::new(alloc)),
                Kind::List => Content::List(List::new(alloc)),
                Kind::Set => Content::Set(Set::new(alloc)),
                Kind::Deque(bound) => Content::Deque(Deque::new(alloc, bound)),
            })?;
        }
        Ok(World { contents })
    }

    /// The dict at a place.
    pub fn dict(&self, place: u32) -> &Dict
        requires { IsOfKind self.now kind.Dict place }
        ensures { result.now ≡ dict_at self.now place }
    {
        match &self.contents[place as usize] {
            Content::Dict(dict) => dict,
            _ => unreachable!(),
        }
    }

    /// The list at a place.
    pub fn list(&self, place: u32) -> &List
        requires { IsOfKind self.now kind.List place }
        ensures { result.now ≡ list_at self.now place }
    {
        match &self.contents[place as usize] {
            Content::List(list) => list,
            _ => unreachable!(),
        }
    }

    /// The set at a place.
    pub fn set(&self, place: u32) -> &Set
        requires { IsOfKind self.now kind.Set place }
        ensures { result.now ≡ set_at self.now place }
    {
        match &self.contents[place as usize] {
            Content::Set(set) => set,
            _ => unreachable!(),
        }
    }

    /// The deque at a place.
    pub fn deque(&self, place: u32) -> &Deque
        requires { IsOfKind self.now (kind.Deque None) place }
        ensures { result.now ≡ deque_at self.now place }
    {
        match &self.contents[place as usize] {
            Content::Deque(deque) => deque,
            _ => unreachable!(),
        }
    }

    /// What each container has, in the order of declaration.
    pub fn contents(&self) -> &[Content]
        ensures { result.now ≡ self.now }
    {
        &self.contents
    }
}

/// The cursors of a thread, by number: those that it has made, and room for those that it may
/// make.
#[derive(Debug, Drop)]
pub struct Hands {
    cursors: Vec<Option<Cursor>>,
}

impl Model for Hands {
    ghost use Rattle.std.specs.Prelude.{List, Option};
    ghost use Rattle.ft_model.specs.declared.cursor.Cursor.{Cursor};

    ghost Value = { List (Option Cursor) };

    ghost view = { λ h. h.cursors.items };
}

impl Hands {
    ghost use Rattle.ft_model.specs.Worlds.{start_hands};

    /// Hands with room for that many cursors, of which none is made.
    pub fn start(alloc: Global, room: usize) -> Result<Self, AllocError>
        ensures { IfOk result (λ hands. hands ≡ start_hands room) }
    {
        let mut cursors = Vec::new(alloc);
        for _ in 0..room {
            cursors.push(None)?;
        }
        Ok(Hands { cursors })
    }

    /// Puts a cursor in place of the one of that number.
    pub(crate) fn put(&mut self, number: u32, cursor: Cursor)
        requires { number < length self.old }
        ensures { self.new ≡ slice_set self.old number (Some cursor) }
    {
        self.cursors[number as usize] = Some(cursor);
    }

    /// The cursors by number, `None` where none was made.
    pub fn cursors(&self) -> &[Option<Cursor>]
        ensures { result.now ≡ self.now }
    {
        &self.cursors
    }
}
