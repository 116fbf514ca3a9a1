//! Resolving the scopes of the text, and checking its definitions.

ghost use Rattle.behaviour_tree.specs.DefinitionView.{specification_of};
ghost use Rattle.lotos_base.specs.Equation.{Data};
ghost use Rattle.refusal_lines.specs.HandedOn.{TextHasGateLists};
ghost use Rattle.spec_acceptance.specs.Checks.{
  FunctionalitiesAgree,
  Cyclic,
  Disagree,
  Guarded,
  functionality_told,
  recursion_told,
};
ghost use Rattle.spec_acceptance.specs.Doing.{Faulty};
ghost use Rattle.spec_acceptance.specs.Known.{KnowsData, KnowsRanks, KnowsSpec, Resolved};
ghost use Rattle.spec_acceptance.specs.Scopes.{Breaks, StandsFor, scopes_told};
ghost use Rattle.std.specs.Prelude.{◌≡◌, ℕ, List, MatchResult};
ghost use Rattle.syntax_trees.specs.TakenItems.{without_items};
ghost use Rattle.syntax_trees.specs.TreeViews.{written_specification_of as written_specification};
ghost use Rattle.syntax_trees.specs.WrittenDefinition.{WrittenSpecification};

use crate::not_accepted::NotAccepted;
use crate::refusals::{exit_refusal, rank_refusal, scope_refusal};
use crate::stages::{WithData, WithRanks, WithSpec};
use refusal_lines::{exits, ranks};
use static_scope::resolve;
use std::alloc::Global;
use syntax_trees::SpecText;

/// The specification that the text, whose types were taken out, stands for.
pub fn resolved(alloc: Global, tree: &SpecText, known: WithData) -> Result<WithSpec, NotAccepted>
    requires { TextHasGateLists (written_specification tree.now) }
    ensures { (text : WrittenSpecification) (read : List (List ℕ)) (data_ : Data)
        → written_specification tree.now ≡ without_items text → KnowsData read data_ known
        → MatchResult result
        (λ made. KnowsSpec (record {
          read = read;
          data_ = data_;
          tree = text;
          spec = specification_of made.spec;
        }) made
        × StandsFor data_ text (specification_of made.spec))
        (Faulty (Breaks data_ text) (scopes_told read data_)) }
{
    match resolve(alloc, tree, &known.flat) {
        Ok(spec) => {
            let WithData { libraries, flat } = known;
            Ok(WithSpec {
                libraries,
                flat,
                spec,
            })
        }
        Err(fault) => Err(scope_refusal(known, fault)),
    }
}

/// The same, whose functionalities agree.
pub fn agreed(alloc: Global, known: WithSpec) -> Result<WithSpec, NotAccepted>
    ensures { (whole : Resolved) → KnowsSpec whole known → MatchResult result
        (λ made. KnowsSpec whole made × FunctionalitiesAgree whole.data_ whole.tree whole.spec
        whole.spec)
        (Faulty (Disagree whole.data_ whole.tree whole.spec)
        (functionality_told whole.read whole.data_ whole.spec)) }
{
    match exits(alloc, &known.spec) {
        Ok(()) => Ok(known),
        Err(fault) => Err(exit_refusal(known, fault)),
    }
}

/// The same, whose recursion is guarded, with its ranks.
pub fn ranked(alloc: Global, known: WithSpec) -> Result<WithRanks, NotAccepted>
    ensures { (whole : Resolved) → KnowsSpec whole known → MatchResult result
        (λ made. KnowsRanks whole made × Guarded whole.spec whole.spec)
        (Faulty (Cyclic whole.data_ whole.tree whole.spec)
        (recursion_told whole.read whole.data_ whole.spec)) }
{
    match ranks(alloc, &known.spec) {
        Ok(ranks) => Ok(WithRanks { known, ranks }),
        Err(fault) => Err(rank_refusal(known, fault)),
    }
}
