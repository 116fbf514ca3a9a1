//! The tokens that the rows keep, because a tree has their spelling or their place.

ghost use Rattle.std.specs.Prelude.{◌≡◌};
ghost use Rattle.lotos_rows.specs.Kept.{is_kept_kind, KeptStandInFront};

use lotos_lexer::kinds;

/// The kinds of the kept tokens, each by its bit: names, and the words and marks at which something
/// is placed.
pub const KEPT: u64 = 1 << kinds::CHOICE
    | 1 << kinds::EXIT
    | 1 << kinds::HIDE
    | 1 << kinds::I
    | 1 << kinds::LET
    | 1 << kinds::LIBRARY
    | 1 << kinds::PAR
    | 1 << kinds::STOP
    | 1 << kinds::NAME
    | 1 << kinds::DIGIT_NAME
    | 1 << kinds::SIGN_NAME
    | 1 << kinds::INTERLEAVING
    | 1 << kinds::FULL_SYNCHRONISATION
    | 1 << kinds::GATES_OPEN
    | 1 << kinds::CHOICE_SIGN
    | 1 << kinds::DISABLING
    | 1 << kinds::IMPLIES
    | 1 << kinds::ENABLING
    | 1 << kinds::LEFT_PARENTHESIS
    | 1 << kinds::LEFT_BRACKET;

/// Whether tokens of the kind are kept.
pub fn is_kept_kind(kind: u16) -> bool
    ensures { result ≡ is_kept_kind kind }
{
    kind < kinds::COUNT && (KEPT >> kind) % 2 == 1
}

/// A row has a kept token as its first symbol, or none.
pub fn kept_tokens_stand_in_front()
    ensures { KeptStandInFront }
{}
