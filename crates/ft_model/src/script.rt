//! A script, which keeps its rule: names that differ, calls that are its own, sections that are
//! ended, and all limits. Who is given one may rest on that.
use crate::call::Call;
use crate::data::Key;
use crate::sequence::Sequence;
use std::marker::Model;

/// The bytes of a text, in UTF-8.
pub type Text = Sequence<u8>;

/// What a container is.
#[derive(Clone, Copy, Debug, PartialEq, Eq, Hash)]
pub enum Kind {
    /// A dict (Python manual, Mapping Types).
    Dict,
    /// A list (Python manual, Sequence Types).
    List,
    /// A set (Python manual, Set Types).
    Set,
    /// A deque, with the most items that it may have, where there is such a bound (Python manual,
    /// collections.deque).
    Deque(Option<u32>),
}

/// How a container starts: empty, and a dict may start split, over keys that it shares with others
/// (PEP 412).
#[derive(Debug, Drop)]
pub struct Start {
    /// What the container is.
    pub kind: Kind,
    /// The keys that a split dict shares, in order: 1 to 10 that differ. Every other container has
    /// none.
    pub keys: Sequence<Key>,
}

/// A container of a script.
#[derive(Debug, Drop)]
pub struct Declaration {
    /// How the container starts.
    pub start: Start,
    /// The name that the script gives it.
    pub name: Text,
}

/// Keys that split dicts of a script share.
#[derive(Debug, Drop)]
pub struct SharedKeys {
    /// The name that the script gives them, which no container has.
    pub name: Text,
    /// The keys, in order.
    pub keys: Sequence<Key>,
}

/// A thread of a script, with its calls in order.
#[derive(Debug, Drop)]
pub struct Thread {
    /// The name that the script gives it.
    pub name: Text,
    /// The names of its cursors, which its calls name by their places here.
    pub cursors: Sequence<Text>,
    /// Its calls, in the order in which it makes them.
    pub calls: Sequence<Call>,
}

/// The parts of a script: its containers and threads in the order of declaration, and the distinct
/// strings of its calls, each at the place that its `Sym` says.
#[derive(Debug, Drop)]
pub struct ScriptParts {
    /// The containers, which calls name by their places here.
    pub containers: Sequence<Declaration>,
    /// The keys that its split dicts share, in the order of declaration.
    pub shared: Sequence<SharedKeys>,
    /// The threads, which entries name by their places here.
    pub threads: Sequence<Thread>,
    /// The distinct strings.
    pub strings: Sequence<Text>,
    /// How many tables there are of each class, from the least class on.
    pub tables: Sequence<u32>,
    /// How many places the heap of each thread has.
    pub heap: u32,
    /// The threads whose turns come first, one turn for each name here.
    pub order: Sequence<u32>,
}

/// A script. Its names, kinds, cursors, sections and limits are what a script's have to be, so that
/// whoever is given one may rest on them.
#[derive(Debug, Drop)]
pub struct Script {
    parts: ScriptParts,
}

impl Model for Script {
    ghost use Rattle.ft_model.specs.declared.script.ScriptParts.{ScriptParts};
    ghost use Rattle.ft_model.specs.Scripts.{IsScript};

    ghost Value = { ScriptParts };

    ghost view = { λ s. s.parts };

    ghost invariant = { λ s. IsScript s.parts };
}

impl Script {
    ghost use Rattle.std.specs.Prelude.{◌≡◌};
    ghost use Rattle.ft_model.specs.Scripts.{IsScript};

    /// The script of these parts.
    pub fn new(parts: ScriptParts) -> Self
        requires { IsScript parts }
        ensures { result ≡ parts }
    {
        Script { parts }
    }

    /// Its parts.
    pub fn parts(&self) -> &ScriptParts
        ensures parts { result.now ≡ self.now }
        ensures rule { IsScript self.now }
    {
        &self.parts
    }

    /// Gives the parts back.
    pub fn into_parts(self) -> ScriptParts
        ensures parts { result ≡ self }
        ensures rule { IsScript self }
    {
        let Script { parts } = self;
        parts
    }
}
