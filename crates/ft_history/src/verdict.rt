//! What judging a history answers.
use ft_model::{Rule, World};

/// What `judge` finds of a history.
#[derive(Clone, Copy, Debug, PartialEq, Eq, Hash)]
pub enum Verdict {
    /// It is legal.
    Legal,
    /// The place of the first entry that breaks a rule, from 1, and the first rule that it breaks. A
    /// place after the last entry is that of a call that is missing.
    Not(u64, Rule),
}

/// What `judge_with_world` finds of a history, and what the containers have after it.
#[derive(Debug, Drop)]
pub struct Judgement {
    pub verdict: Verdict,
    /// The contents after all writes, where the history is legal.
    pub world: World,
}
