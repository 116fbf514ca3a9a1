//! Worked cases of flat texts. The function carries what the definitions say of them as its contract and
//! does nothing.

ghost use Rattle.flat_text.specs.FlatCases.{
  DataAreReadOneWay,
  DataStandAlone,
  NamesAreGivenApart,
  ProcessesHaveApartNames,
};

/// The flat texts of some specifications.
pub fn worked_cases_hold()
    ensures data_stand_alone { DataStandAlone }
    ensures data_are_read_one_way { DataAreReadOneWay }
    ensures processes_have_apart_names { ProcessesHaveApartNames }
    ensures names_are_given_apart { NamesAreGivenApart }
{}
