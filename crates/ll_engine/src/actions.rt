//! What the rows of a grammar build.

ghost use Rattle.std.specs.Prelude.{◌≡◌, ℕ, Bool, List, Option, option_map, IfOk};
ghost use Rattle.ll_engine.specs.Run.{from_last};

use std::alloc::{AllocError, Global};

/// What each row of a grammar builds from its token and the values of its parts.
pub trait Actions {
    /// A token of a text.
    type Token: Copy;
    /// What is built where a part was derived.
    type Value: Drop;

    /// The plain values behind those of the code.
    ghost Meaning: { Type 0 };

    ghost meaning: { Self.Value → Meaning };
    /// The number of a token in the grammar.
    ghost kind: { Self.Token → ℕ };
    /// Whether the tokens with the number are kept, because a row needs them.
    ghost keeps: { ℕ → Bool };
    /// The value of a row, by its number, from its first token, if that is kept, and from the
    /// values of its parts.
    ghost value_of: { Self → ℕ → Option Self.Token → List Meaning → Option Meaning };

    /// The number of the token.
    fn kind(&self, token: Self::Token) -> u16
        ensures { result ≡ kind token };

    /// Whether the tokens with the number are kept.
    fn keeps(&self, number: u16) -> bool
        ensures { result ≡ keeps number };

    /// Builds the value of a row. The last of `parts` is the value of the leftmost part. `None`
    /// stands where the row has no value.
    fn build(
        &self,
        alloc: Global,
        row: u32,
        token: Option<Self::Token>,
        parts: Vec<Self::Value>,
    ) -> Result<Option<Self::Value>, AllocError>
        ensures { IfOk result (λ built. option_map meaning built
            ≡ value_of self.now row token (from_last meaning parts.items)) };
}
