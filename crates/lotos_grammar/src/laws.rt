//! Laws of the reading of libraries. Each function carries a law as its contract and does nothing.

ghost use Rattle.lotos_grammar.specs.GatheringLaws.{OutcomesAreOne, WantedFilesComeFirst};

/// The items of a text come to one outcome at most where memory is there, by what is got under each
/// name, and the same files are got for it in the same order.
pub fn outcomes_are_one()
    ensures { OutcomesAreOne }
{}

/// Where memory is wanted, the first ones of these files were got.
pub fn wanted_files_come_first()
    ensures { WantedFilesComeFirst }
{}
