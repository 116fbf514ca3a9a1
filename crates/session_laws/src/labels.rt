//! Laws of the texts of labels. Each function carries a law as its contract and does nothing.

ghost use Rattle.session_laws.specs.LabelLaws.{LabelTextsAreReadBack, LabelTextsAreReadOnce};
ghost use Rattle.session_laws.specs.MenuReadings.{MenusAreReadBack};

use behaviour_semantics::solving::{entries_are_solved, solving_names_no_behaviour};
use behaviour_semantics::targets::targets_are_well_formed;
use behaviour_semantics::transition::transitions_are_derived;
use declaration_laws::gates::{entries_stay_at_gates, moves_stay_at_gates};
use session_histories::texts_are_unambiguous;
use sort_terms::laws::reading_comes_to_one_thing;

/// A text is read as one label at most, where no two gates of the specification have one name.
pub fn label_texts_are_read_once()
    ensures { LabelTextsAreReadOnce }
{
    texts_are_unambiguous();
    reading_comes_to_one_thing();
}

/// The text of a label without variables is read as this label: the gate by its name, and the
/// values by their one reading. So two different labels have two texts.
pub fn label_texts_are_read_back()
    ensures { LabelTextsAreReadBack }
{
    label_texts_are_read_once();
}

/// What the menu of a state shows as a label without variables is read as this label, so that two
/// different ones never print alike, whether values meet the conditions of their entries or not;
/// and so is the label of each transition.
pub fn menus_are_read_back()
    ensures { MenusAreReadBack }
{
    label_texts_are_read_back();
    transitions_are_derived();
    targets_are_well_formed();
    moves_stay_at_gates();
    entries_are_solved();
    entries_stay_at_gates();
    solving_names_no_behaviour();
}
