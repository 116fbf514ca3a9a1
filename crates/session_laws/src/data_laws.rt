//! Laws of data that are written flatly. Each function carries a law as its contract and does
//! nothing.

ghost use Rattle.session_laws.specs.DataLaws.{
  FlatDataAreReadBack,
  FlattenedDataAreOfText,
  FlattenedEquationsAreNumbered,
};
ghost use Rattle.session_laws.specs.EquationPlaceLaws.{ReadEquationsStandApart};
ghost use Rattle.session_laws.specs.TypeTextLaws.{TypeTextsAreWords};
ghost use Rattle.session_laws.specs.TypeWordLaws.{TypeWordsAreItems};

use type_flatten::equation_laws::equations_number_by_appearance;

/// Items that data are written as, one type with all their sorts, operations and equations, have no
/// fault of types and come to the same data, but for places, origins and names of variables
/// (ISO 8807:1989, data types).
pub fn flat_data_are_read_back()
    ensures { FlatDataAreReadBack }
{}

/// The variables of each equation of flattened data have the numbers of their positions, and in the
/// sides they are numbered by first appearance, also behind renamings, actualisations and unions.
pub fn flattened_equations_are_numbered()
    ensures { FlattenedEquationsAreNumbered }
{
    equations_number_by_appearance();
}

/// Flattened data with the names of a text are data as that law asks, if no equation has so many
/// variables that their names run out of numbers.
pub fn flattened_data_are_of_text()
    ensures { FlattenedDataAreOfText }
{
    flattened_equations_are_numbered();
}

/// The text of data is cut into the words of their type, where its names have the form that texts
/// have (ISO 8807:1989, lexical tokens).
pub fn type_texts_are_words()
    ensures { TypeTextsAreWords }
{}

/// Tokens of a text that are the words of the type of data are items by the grammar, which these
/// data are written as (ISO 8807:1989, data type definitions).
pub fn type_words_are_items()
    ensures { TypeWordsAreItems }
{}

/// In a text that was read, no two equations of its types stand at one place.
pub fn read_equations_stand_apart()
    ensures { ReadEquationsStandApart }
{}
