//! What only a direct call shows of texts: their trees with the places of the nodes, tokens and
//! small grammars, with arguments that no run gives, and the order in which a session reads and
//! writes them. It holds tests alone; whole runs are the cases of `case_tables`.
//!
//! A table of trees has its cases in pairs of lines: a text, and its tree. How trees are printed
//! stands in the modules whose names end in `page`. Every answer was worked out by hand.
#![tactic(auto)]

#[cfg(test)]
mod behaviour_page;
#[cfg(test)]
mod behaviour_trees;
#[cfg(test)]
mod definition_page;
#[cfg(test)]
mod definition_trees;
#[cfg(test)]
mod grammars;
#[cfg(test)]
mod item_page;
#[cfg(test)]
mod item_trees;
#[cfg(test)]
mod order;
#[cfg(test)]
mod page;
#[cfg(test)]
mod term_page;
#[cfg(test)]
mod term_trees;
#[cfg(test)]
mod tokens;
#[cfg(test)]
mod tree_texts;
