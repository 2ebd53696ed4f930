//! The containers that a script declares, and the cursors that a thread makes. There are never more
//! than a script may have, so the place of each fits 32 bits, and looking a name up takes no memory.
ghost use Rattle.ft_model.specs.Limits.{most_containers, most_cursors, most_threads};
ghost use Rattle.ft_script.specs.Drafts.{container_place, text_place, thread_place};
ghost use Rattle.std.specs.Prelude.{◌≡◌, ◌<◌, ◌≤◌, [], ◌∷◌, ◌++◌, length, IfSome, OnOk};

use ft_model::{Declaration, Sequence, Text, Thread};
use std::alloc::{AllocError, Global};
use std::marker::Model;

/// Containers, no more than a script may have, in the order in which they are declared.
#[derive(Drop)]
pub(crate) struct Declarations {
    containers: Sequence<Declaration>,
}

impl Model for Declarations {
    ghost use Rattle.ft_model.specs.Limits.{most_containers};
    ghost use Rattle.ft_model.specs.declared.script.Declaration.{Declaration};
    ghost use Rattle.std.specs.Prelude.{List, ◌≤◌, length};

    ghost Value = { List Declaration };

    ghost view = { λ d. d.containers };

    ghost invariant = { λ d. length d.containers ≤ most_containers };
}

impl Declarations {
    /// No container yet. It takes no memory.
    pub(crate) fn new(alloc: Global) -> Self
        ensures { result ≡ [] }
    {
        Declarations {
            containers: Sequence::new(alloc),
        }
    }

    /// These containers.
    pub(crate) fn from_sequence(containers: Sequence<Declaration>) -> Self
        requires { length containers ≤ most_containers }
        ensures { result ≡ containers }
    {
        Declarations { containers }
    }

    /// The containers, by their places.
    pub(crate) fn as_slice(&self) -> &[Declaration]
        ensures { result.now ≡ self.now }
    {
        self.containers.as_slice()
    }

    /// The place of the container of that name, if there is one.
    pub(crate) fn place_of(&self, name: &[u8]) -> Option<u32>
        ensures { result ≡ container_place self.now name.now }
    {
        container_place(self.containers.as_slice(), name)
    }

    /// Adds a container, which has the next place.
    pub(crate) fn push(&mut self, container: Declaration) -> Result<(), AllocError>
        requires { length self.old < most_containers }
        ensures { OnOk result (self.new ≡ self.old ++ container ∷ []) }
    {
        self.containers.push(container)?;
        Ok(())
    }

    /// The containers, by their places.
    pub(crate) fn into_sequence(self) -> Sequence<Declaration>
        ensures { result ≡ self }
    {
        let Declarations { containers } = self;
        containers
    }
}

/// The place of the container of that name, if there is one.
pub(crate) fn container_place(containers: &[Declaration], name: &[u8]) -> Option<u32>
    requires { length containers.now ≤ most_containers }
    ensures { result ≡ container_place containers.now name.now }
{
    let place = container_index(containers, name)?;
    Some(place as u32)
}

fn container_index(containers: &[Declaration], name: &[u8]) -> Option<usize>
    ensures place { result ≡ container_place containers.now name.now }
    ensures within { IfSome result (λ place. place < length containers.now) }
{
    containers
        .iter()
        .position(|container| container.name.as_slice() == name)
}

/// The place of the thread of that name, if there is one.
pub(crate) fn thread_place(threads: &[Thread], name: &[u8]) -> Option<u32>
    requires { length threads.now ≤ most_threads }
    ensures { result ≡ thread_place threads.now name.now }
{
    let place = thread_index(threads, name)?;
    Some(place as u32)
}

fn thread_index(threads: &[Thread], name: &[u8]) -> Option<usize>
    ensures place { result ≡ thread_place threads.now name.now }
    ensures within { IfSome result (λ place. place < length threads.now) }
{
    threads
        .iter()
        .position(|thread| thread.name.as_slice() == name)
}

/// The names of a thread's cursors, no more than it may have, in the order in which they are first
/// made.
#[derive(Drop)]
pub(crate) struct CursorNames {
    names: Sequence<Text>,
}

impl Model for CursorNames {
    ghost use Rattle.ft_model.specs.Limits.{most_cursors};
    ghost use Rattle.std.specs.Prelude.{List, ℕ, ◌≤◌, length};

    ghost Value = { List (List ℕ) };

    ghost view = { λ c. c.names };

    ghost invariant = { λ c. length c.names ≤ most_cursors };
}

impl CursorNames {
    /// No cursor yet. It takes no memory.
    pub(crate) fn new(alloc: Global) -> Self
        ensures { result ≡ [] }
    {
        CursorNames {
            names: Sequence::new(alloc),
        }
    }

    /// The cursors of these names.
    pub(crate) fn from_sequence(names: Sequence<Text>) -> Self
        requires { length names ≤ most_cursors }
        ensures { result ≡ names }
    {
        CursorNames { names }
    }

    /// How many cursors there are.
    pub(crate) fn len(&self) -> usize
        ensures { result ≡ length self.now }
    {
        self.names.len()
    }

    /// The number of the cursor of that name, if there is one.
    pub(crate) fn place_of(&self, name: &[u8]) -> Option<u32>
        ensures { result ≡ text_place self.now name.now }
    {
        let place = self.find(name)?;
        Some(place as u32)
    }

    fn find(&self, name: &[u8]) -> Option<usize>
        ensures number { result ≡ text_place self.now name.now }
        ensures small { IfSome result (λ number. number < most_cursors) }
    {
        let names = self.names.as_slice();
        names.iter().position(|other| name == other.as_slice())
    }

    /// Adds a cursor, which has the next number.
    pub(crate) fn push(&mut self, name: Text) -> Result<(), AllocError>
        requires { length self.old < most_cursors }
        ensures { OnOk result (self.new ≡ self.old ++ name ∷ []) }
    {
        self.names.push(name)?;
        Ok(())
    }

    /// The names, by the cursors' numbers.
    pub(crate) fn into_sequence(self) -> Sequence<Text>
        ensures { result ≡ self }
    {
        let CursorNames { names } = self;
        names
    }
}
