//! A written term with what is known of the readings of each of its nodes.

use crate::choices::Choices;

/// What is known of the readings of a node, and the same of each of its arguments.
#[derive(Drop)]
pub struct Counted {
    /// The readings of the node, by sort.
    pub choices: Choices,
    /// Its arguments in order.
    pub arguments: Vec<Counted>,
}
