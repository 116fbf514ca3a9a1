//! Worked cases of the texts. The function carries what the definitions say of them as its contract and
//! does nothing.

ghost use Rattle.printed_texts.specs.TextCases.{
  LabelsHaveTexts,
  MenusHaveTexts,
  OperandsStandInBrackets,
  PrefixesHaveTexts,
  SignsStandBetweenParts,
  StarsStandApart,
  TwinsHaveTheirSorts,
  WordFormsHaveTexts,
};

/// The texts of terms, labels, menus and behaviours in some cases.
pub fn worked_cases_hold()
    ensures operands_stand_in_brackets { OperandsStandInBrackets }
    ensures stars_stand_apart { StarsStandApart }
    ensures twins_have_their_sorts { TwinsHaveTheirSorts }
    ensures labels_have_texts { LabelsHaveTexts }
    ensures menus_have_texts { MenusHaveTexts }
    ensures prefixes_have_texts { PrefixesHaveTexts }
    ensures signs_stand_between_parts { SignsStandBetweenParts }
    ensures word_forms_have_texts { WordFormsHaveTexts }
{}
