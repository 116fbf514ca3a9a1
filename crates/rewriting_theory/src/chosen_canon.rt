//! The canon of oriented data.

ghost use Rattle.rewriting_theory.specs.ChosenCanonLaws.{
  ChosenFormsAreCanons,
  ChosenFormsDecideEquality,
  ConfluentDataHaveACanon,
  EveryTermHasOneChosenForm,
  PairsTellConfluence,
  RulesOfDataAreSorted,
};

/// By oriented rules every term has exactly one chosen form, and the critical pairs tell whether
/// the rules are confluent (Baader and Nipkow, 6.2).
pub fn oriented_rules_have_chosen_forms()
    ensures chosen { EveryTermHasOneChosenForm }
    ensures confluent { PairsTellConfluence }
{}

/// Where the rules of data are confluent, the chosen form is a canon of the data, and decides the
/// equality of ground terms (ISO 8807:1989, data part: equality).
pub fn chosen_forms_are_canons()
    ensures rules { RulesOfDataAreSorted }
    ensures canons { ChosenFormsAreCanons }
    ensures some_canon { ConfluentDataHaveACanon }
    ensures decided { ChosenFormsDecideEquality }
{}
