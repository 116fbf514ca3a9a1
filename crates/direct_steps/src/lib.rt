//! What only a direct call shows of steps: derivations that no menu has, and menus of large states
//! and of an object that fails. It holds tests alone; whole runs are the cases of `case_tables`.
#![tactic(auto)]

#[cfg(test)]
mod accepted;
#[cfg(test)]
mod makers;
#[cfg(test)]
mod shapes;
#[cfg(test)]
mod steps;
