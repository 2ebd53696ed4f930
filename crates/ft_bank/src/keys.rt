//! The hashes of a bank's keys, for whoever looks for one: an integer's by shifts and adds, a string's as
//! the shape has it.
ghost use Rattle.std.specs.Prelude.{◌≡◌};
ghost use Rattle.ft_layout.specs.Tables.{hash_of};
ghost use Rattle.ft_bank.specs.KeyHashes.{IsKeyIn};

use crate::bank::Bank;
use ft_hash::hash_int;
use ft_model::Key;

impl Bank {
    ghost use Rattle.ft_bank.specs.Passes.{shape_of};

    /// The hash of a key, by which it is looked for and stored.
    pub fn hash_of(&self, key: Key) -> u64
        requires { IsKeyIn (shape_of self.now) key }
        ensures { result ≡ hash_of (shape_of self.now).texts key }
    {
        match key {
            Key::Int(integer) => hash_int(integer),
            Key::Text(sym) => self.shape.texts[sym.0 as usize],
        }
    }
}
