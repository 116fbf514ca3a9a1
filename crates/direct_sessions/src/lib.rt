//! What only a direct call shows of sessions: steps with values of another sort, sessions whose
//! menus are kept beside those whose menus are made anew, and the texts of demonstrations. It holds
//! tests alone; whole runs are the cases of `case_tables`.
#![tactic(auto)]

#[cfg(test)]
mod accepted;
#[cfg(test)]
mod counted;
#[cfg(test)]
mod demonstrations;
#[cfg(test)]
mod lockstep;
#[cfg(test)]
mod sessions;
