//! The laws of chosen forms.

ghost use Rattle.rewriting_theory.specs.ChosenFormLaws.{
  ChosenFormsAreNormal,
  ChosenFormsAreReached,
  ChosenFormsAreTheOnlyNormalOnes,
  ChosenFormsAreUnique,
  ChosenFormsExist,
  JoinedTermsHaveOneForm,
  NormalTermsAreTheirForms,
};

/// Where rewriting ends, each term has exactly one chosen form.
pub fn each_term_has_one_chosen_form()
    ensures exist { ChosenFormsExist }
    ensures unique { ChosenFormsAreUnique }
{}

/// The chosen form is an irreducible term that the term rewrites to.
pub fn chosen_forms_are_normal_forms()
    ensures reached { ChosenFormsAreReached }
    ensures irreducible { ChosenFormsAreNormal }
    ensures settled { NormalTermsAreTheirForms }
{}

/// Where the rules are confluent, no other irreducible term is reached, so terms that can be
/// joined have one chosen form.
pub fn confluent_rules_give_one_normal_form()
    ensures only { ChosenFormsAreTheOnlyNormalOnes }
    ensures joined { JoinedTermsHaveOneForm }
{}
