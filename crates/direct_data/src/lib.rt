//! What only a direct call shows of data: rules, types, names and the outside, with arguments that
//! no run gives. It holds tests alone; whole runs are the cases of `case_tables`. Every answer was
//! worked out by hand.
#![tactic(auto)]

#[cfg(test)]
mod books;
#[cfg(test)]
mod names;
#[cfg(test)]
mod outside;
#[cfg(test)]
mod requirements_of_types;
#[cfg(test)]
mod rules;
#[cfg(test)]
mod stores;
#[cfg(test)]
mod value_lists_of_types;
