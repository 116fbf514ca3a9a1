//! The gates that a `choice` or a `par` declares.

use behaviour_tree::Meet;

/// A gate that is declared, with the gates that it stands for.
#[derive(Drop)]
pub struct GateChoice {
    /// The number of the gate.
    pub gate: u32,
    /// The gates that it stands for, one at a time.
    pub among: Vec<u32>,
}

/// The gates of a `par`, with the gates of its sign at each of them.
#[derive(Drop)]
pub struct ParChoices {
    /// The gates that are declared.
    pub choices: Vec<GateChoice>,
    /// The gates of the sign, so many.
    pub meets: Vec<Meet>,
}
