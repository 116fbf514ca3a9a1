//! What only a direct call shows of drafts and of identical behaviours. It holds tests alone; whole
//! runs are the cases of `case_tables`.
#![tactic(auto)]

#[cfg(test)]
mod drafts;
#[cfg(test)]
mod identical;
