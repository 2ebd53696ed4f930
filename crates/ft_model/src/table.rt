//! What is kept of a container's table. Its class is one that there is, for whoever works out room
//! from it.
ghost use Rattle.std.specs.Option.{ForSome};
ghost use Rattle.ft_model.specs.Classes.{IsClass};

/// What is kept of a container's table.
#[derive(Clone, Copy, Debug)]
pub struct KeptTable {
    /// Its class, or none where the container has no table.
    pub class: Option<u32>,
    /// How many of its entries are used, deleted ones among them. A list's table has none.
    pub fill: u64,
    pub ghost known: { ForSome class (λ class. IsClass class) },
}
