//! The rule of the bank's words, for the table that keeps it, and what a step of a pass says of it.
use crate::shape::Shape;
use atomic_table::{Join, Play, Split, TableRule};
use ft_trace::View;
use std::marker::{Brand, PhantomData};

/// There is a valid trace that gives the words and what each pass knows.
pub struct Law;

impl TableRule<(), View, Shape> for Law {
    ghost use Rattle.ft_bank.specs.Rules.{HasTrace};
    ghost use Rattle.ft_bank.specs.Shapes.{plan};
    ghost use Rattle.ft_trace.specs.Acts.{starter};

    ghost holds = { λ k. HasTrace (plan k) };

    ghost first = { λ k. starter (plan k) };
}

/// Which action a step is, by the number that it finds. Each call picks it.
pub trait Saying {
    ghost use Rattle.std.specs.Prelude.{ℕ};
    ghost use Rattle.ft_trace.specs.declared.Act.{Act};

    ghost act: { ℕ → Act };
}

impl Saying for Brand {
    ghost use Rattle.ft_trace.specs.declared.Act.TheVariants.{ReadCounter};

    ghost act = { λ n. ReadCounter n };
}

/// The step is this action.
pub struct Does<A> {
    of: PhantomData<A>,
}

impl<A: Saying> Play<(), View> for Does<A> {
    ghost use Rattle.ft_bank.specs.Rules.{Plays};

    ghost then = { Plays A.act };
}

/// The same for an action that keeps what stood in the bank.
pub trait Keeping {
    ghost use Rattle.std.specs.Prelude.{ℕ};
    ghost use Rattle.ft_trace.specs.declared.Act.{Act};
    ghost use Rattle.ft_trace.specs.declared.Snap.{Snap};

    ghost act: { ℕ → Snap → Act };
}

impl Keeping for Brand {
    ghost use Rattle.ft_trace.specs.declared.Act.TheVariants.{ReadCounter};

    ghost act = { λ n s. ReadCounter n };
}

/// The step is this action, which keeps what stood in the bank.
pub struct Keeps<A> {
    of: PhantomData<A>,
}

impl<A: Keeping> Play<(), View> for Keeps<A> {
    ghost use Rattle.ft_bank.specs.Rules.{Grabs};

    ghost then = { Grabs A.act };
}

/// The step is this action where it finds another number than 0, and else none.
pub struct Finds<A> {
    of: PhantomData<A>,
}

impl<A: Keeping> Play<(), View> for Finds<A> {
    ghost use Rattle.ft_bank.specs.Rules.{Looks};

    ghost then = { Looks A.act };
}

/// How a pass makes another, and takes another in.
pub struct Shares;

impl Split<View> for Shares {
    ghost use Rattle.ft_trace.specs.Acts.{maker, made};

    ghost left = { maker };

    ghost right = { made };
}

impl Join<View> for Shares {
    ghost use Rattle.ft_trace.specs.Acts.{both, spent};

    ghost both = { both };

    ghost spent = { spent };
}

/// How a pass makes a note. The note gets no token.
pub struct Notes;

impl Split<View> for Notes {
    ghost use Rattle.ft_trace.specs.Acts.{sender, note};

    ghost left = { sender 0 };

    ghost right = { note 0 };
}

/// How a pass gives all its tokens away.
pub struct Gives;

impl Split<View> for Gives {
    ghost use Rattle.ft_trace.specs.Acts.{sender, note};

    ghost left = { λ v. sender v.tokens v };

    ghost right = { λ v. note v.tokens v };
}

/// The step takes the floor.
pub struct Floor;

impl Keeping for Floor {
    ghost use Rattle.ft_trace.specs.declared.Act.TheVariants.{TakeFloor};

    ghost act = { λ n s. TakeFloor n s };
}
