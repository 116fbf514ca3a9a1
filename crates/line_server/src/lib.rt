//! The lines of an input, served one after another: what each line of a session asks for, and the
//! loop that reads the input in pieces, has each complete line answered by a machine, and writes
//! each answer before it reads on. What is written does not depend on how the input is cut.
#![tactic(auto)]

pub mod cases;
mod closing;
mod ends;
mod input;
pub mod laws;
mod line;
mod lines;
pub mod numbers;
mod piece;
pub mod requests;
mod session;
mod turn;
mod words;
mod writing;

pub use ends::{SessionEnd, Stop};
pub use input::{INPUT_LIMIT, PIECE_LIMIT};
pub use lines::{Answer, Lines};
pub use requests::{Request, read_request};
pub use session::serve_session;
pub use turn::serve_turn;
pub use writing::write_whole;
