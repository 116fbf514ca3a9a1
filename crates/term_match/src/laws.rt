//! Laws of instances and paths over terms with profiles. Each function carries laws as its contract
//! and does nothing.

ghost use Rattle.term_match.specs.Laws.{
  BindingsForgetProfiles,
  InstancesAreOf,
  InstancesForgetProfiles,
  ReplacementsAreOf,
  ReplacementsForgetProfiles,
  SubtermsAreOf,
  SubtermsForgetProfiles,
};

/// Instances do not hang on profiles, and stay of a signature.
pub fn instances_forget_profiles()
    ensures instances { InstancesForgetProfiles }
    ensures bindings { BindingsForgetProfiles }
    ensures are_of { InstancesAreOf }
{}

/// Subterms and replacements do not hang on profiles, and stay of a signature.
pub fn paths_forget_profiles()
    ensures subterms { SubtermsForgetProfiles }
    ensures replacements { ReplacementsForgetProfiles }
    ensures subterms_are_of { SubtermsAreOf }
    ensures replacements_are_of { ReplacementsAreOf }
{}
