//! What a program does with certificates of bisimulation: it reads their lines from a text, tells
//! whether the data of two specifications are the same, and checks that the pairs of a certificate
//! show the two specifications strongly bisimilar.
#![tactic(auto)]

pub mod agreeing;
pub mod checking;
pub mod data_agreement;
pub mod events;
pub mod faults;
pub mod lines;
pub mod matching;
pub mod named;
pub mod numbers;
pub mod pair_index;
pub mod reading;
pub mod readings;
pub mod surveys;

pub use checking::check_pairs;
pub use data_agreement::same_data;
pub use faults::PairsFault;
pub use lines::{PairLine, PairTextFault};
pub use reading::read_pairs;
