//! The laws of rewriting by the rules of data, and of normal forms.

ghost use Rattle.rewriting_theory.specs.NormalLaws.{
  ChosenFormsAreNormalForms,
  ChosenFormsBringInNoVariable,
  ChosenFormsKeepSorts,
  ChosenFormsPassThroughRenamings,
  EqualityIsRewriting,
  NormalFormsAreCanons,
  NormalFormsDecideEquality,
  RewritingBringsInNoVariable,
  RewritingIsClosedUnderContexts,
  RewritingIsClosedUnderSubstitution,
  RewritingIsEquality,
  RewritingKeepsSorts,
  RewritingPassesThroughRenamings,
};

/// Rewriting passes through substitutions and contexts, and keeps sorts and variables.
pub fn rewriting_keeps_terms()
    ensures substitution { RewritingIsClosedUnderSubstitution }
    ensures contexts { RewritingIsClosedUnderContexts }
    ensures sorts { RewritingKeepsSorts }
    ensures variables { RewritingBringsInNoVariable }
{}

/// A chosen form has the sort of its term and no other variables; chosen forms are normal forms.
pub fn chosen_forms_keep_terms()
    ensures sorts { ChosenFormsKeepSorts }
    ensures variables { ChosenFormsBringInNoVariable }
    ensures normal { ChosenFormsAreNormalForms }
{}

/// Rewriting and chosen forms pass through renamings of variables that keep them apart.
pub fn rewriting_passes_through_renamings()
    ensures links { RewritingPassesThroughRenamings }
    ensures chosen_forms { ChosenFormsPassThroughRenamings }
{}

/// Rewriting by the rules of data is one direction of each link of equality.
pub fn rewriting_is_equality()
    ensures forth { RewritingIsEquality }
    ensures back { EqualityIsRewriting }
{}

/// Where rewriting is confluent, normal forms are canons (ISO 8807:1989, data part: equality;
/// Baader and Nipkow, 2.1), so they decide the equality of ground terms.
pub fn normal_forms_are_canons()
    ensures canons { NormalFormsAreCanons }
    ensures decided { NormalFormsDecideEquality }
{}
