//! Laws of lists that texts do not leave empty. Each function carries a law as its contract and
//! does nothing.

ghost use Rattle.session_laws.specs.FullLists.{
  ReadTextsHaveTextLists,
  TextListsGiveTextForms,
  TextListsStay,
};

/// In the tree of a specification that was read, no list is empty that texts do not leave empty
/// (ISO 8807:1989, concrete syntax).
pub fn read_texts_have_text_lists()
    ensures { ReadTextsHaveTextLists }
{}

/// What such a tree stands for has the form that texts give it.
pub fn text_lists_give_text_forms()
    ensures { TextListsGiveTextForms }
{}

/// A tree has such lists still where its types are taken out.
pub fn text_lists_stay()
    ensures { TextListsStay }
{}
