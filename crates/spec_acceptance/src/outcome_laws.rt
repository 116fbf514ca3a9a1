//! Laws of the outcome of acceptance. Each function carries one as its contract and does nothing.

ghost use Rattle.spec_acceptance.specs.AcceptanceLaws.{DataAreWellFormed, TypesAreDecided};
ghost use Rattle.spec_acceptance.specs.AcceptanceOutcomes.{
  AcceptanceHasOneOutcome,
  FoundingsOverTextsAreOne,
  OutcomesOverTextsAreOne,
  ReadsAreOne,
  WantedFilesAreFirst,
};

/// Types have their data, or one thing is the first that is wrong: with their names, or with what
/// they declare.
pub fn types_are_decided()
    ensures { TypesAreDecided }
{}

/// The data of types are well formed.
pub fn data_are_well_formed()
    ensures { DataAreWellFormed }
{}

/// By what is got under each name a specification is accepted in one way at most, or refused for
/// one fault, or one file is not got, where memory is there; and the same files are got for it in
/// the same order. Where memory is wanted, the first ones of these files were got.
pub fn acceptance_has_one_outcome()
    ensures one { AcceptanceHasOneOutcome }
    ensures wanted { WantedFilesAreFirst }
{}

/// Over a shelf that tells its texts `Accepted::read` has one answer, where the shelf's count of
/// faults does not rise and memory is there: what comes of the texts, which is one thing.
pub fn reads_are_one()
    ensures outcomes { OutcomesOverTextsAreOne }
    ensures answers { ReadsAreOne }
{}

/// Over a shelf that tells its texts one thing comes of a specification up to the book of its data,
/// whatever start values its parameters get, where no file fails and memory is there.
pub fn foundings_are_one()
    ensures { FoundingsOverTextsAreOne }
{}
