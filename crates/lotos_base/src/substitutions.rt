//! The laws of substitutions.

ghost use Rattle.lotos_base.specs.SubstitutionLaws.{
  ArgumentsAreSubstituted,
  GroundInstancesAreGround,
  GroundTermsStay,
  InstanceVariablesComeFromValues,
  InstancesKeepSorts,
  OnlyOccurringVariablesCount,
  ReplacementsAreSubstituted,
  SubstitutionsCompose,
  SubtermsAreSubstituted,
  VariablesStandForThemselves,
};

/// Substitutions compose, and putting each variable for itself changes nothing.
pub fn substitutions_compose()
    ensures composition { SubstitutionsCompose }
    ensures identity { VariablesStandForThemselves }
{}

/// A variable that does not occur counts for nothing, so a ground term stays as it is.
pub fn only_occurring_variables_count()
    ensures agreement { OnlyOccurringVariablesCount }
    ensures ground { GroundTermsStay }
{}

/// An instance has the sort of its term, is ground where its values are, and has the variables of
/// its values.
pub fn instances_keep_sorts()
    ensures sorts { InstancesKeepSorts }
    ensures ground { GroundInstancesAreGround }
    ensures variables { InstanceVariablesComeFromValues }
{}

/// A substitution reaches each argument and each subterm.
pub fn substitution_reaches_all_subterms()
    ensures arguments { ArgumentsAreSubstituted }
    ensures subterms { SubtermsAreSubstituted }
    ensures replacements { ReplacementsAreSubstituted }
{}
