//! A machine that answers lines.

ghost use Rattle.std.specs.Prelude.{MatchResult};
ghost use Rattle.lotos_base.specs.Outside.{ShelfState};
ghost use Rattle.line_server.specs.Machine.{Machine};
ghost use Rattle.line_server.specs.Serving.{IsLine, ServesLine};

use lotos_base::{NoMemory, Shelf};
use std::alloc::Global;

/// The answer to a line.
#[derive(Debug, Drop)]
pub struct Answer {
    /// What is written.
    pub text: Vec<u8>,
    /// Whether the line ends the session.
    pub quits: bool,
}

/// What answers the lines of a session, one after another.
pub trait Lines {
    // Where a session stands beside a shelf, as a plain value.
    ghost State: { Type 0 };

    // That of this one, beside a shelf that tells this of itself.
    ghost state: { Self → ShelfState → State };

    // What a line comes to.
    ghost machine: { Machine State };

    // What has to hold for a line to be answered. It holds after each line.
    ghost is_ready: { Self → Type 0 };

    /// Answers a line, for which it may call the shelf.
    fn serve<F: Shelf>(
        &mut self,
        alloc: Global,
        line: &[u8],
        shelf: &mut F,
    ) -> Result<Answer, NoMemory>
        requires ready { is_ready self.old }
        requires plain { IsLine line.now }
        ensures served { MatchResult result
            (ServesLine machine
            (state self.old (F.state shelf.old)) line.now
            (state self.new (F.state shelf.new)))
            (λ _. machine.leaves
            (state self.old (F.state shelf.old)) line.now
            (state self.new (F.state shelf.new))) }
        ensures ready { is_ready self.new };
}
