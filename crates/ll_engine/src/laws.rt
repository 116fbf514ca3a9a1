//! Laws of derivations: each function's contract is a law, and its body is empty.

ghost use Rattle.ll_engine.specs.Laws.{TreesAreLeftmost, LeftmostHasTrees, OneTree, OneDerivation, OneRow, OneUnexpected};
ghost use Rattle.ll_engine.specs.PredictionSets.{KeptSetsDecide, ComputedSetsDecide};
ghost use Rattle.ll_engine.specs.WrittenTable.{TestedTablesAreWritten};

/// Derivation trees and leftmost derivations, step by step, are the same thing seen twice.
pub fn trees_are_leftmost_derivations()
    ensures trees { TreesAreLeftmost }
    ensures derivations { LeftmostHasTrees }
{}

/// A sentence of a grammar that one token ahead decides has one derivation tree and one leftmost
/// derivation.
///
/// Source: Aho, Lam, Sethi and Ullman, "Compilers": no grammar for predictive parsing is ambiguous.
pub fn sentences_have_one_derivation()
    ensures tree { OneTree }
    ensures derivation { OneDerivation }
{}

/// One token ahead decides: it predicts at most one row of a part, so a parser never has to look
/// back.
pub fn one_token_decides()
    ensures { OneRow }
{}

/// A list of tokens goes wrong at one place.
pub fn one_place_is_unexpected()
    ensures { OneUnexpected }
{}

/// A grammar whose rows keep to some sets is one that one token ahead decides; so is one whose rows
/// keep to the sets that are computed from them.
///
/// Source: Aho, Lam, Sethi and Ullman, "Compilers", on FIRST and FOLLOW and the grammars that they decide.
pub fn kept_sets_decide()
    ensures kept { KeptSetsDecide }
    ensures computed { ComputedSetsDecide }
{}

/// A written table that passes the test names the row of each part that a token predicts, and its
/// grammar is one that one token ahead decides.
pub fn tested_tables_are_written()
    ensures { TestedTablesAreWritten }
{}
