//! The terms of behaviours, read over what is visible.

ghost use Rattle.behaviour_tree.specs.BehaviourTerms.{test_profiles};
ghost use Rattle.behaviour_tree.specs.BehaviourView.{test_of};
ghost use Rattle.behaviour_tree.specs.Over.{AreTermsOf};
ghost use Rattle.lotos_base.specs.WrittenView.{written_term_of};
ghost use Rattle.sort_terms.specs.EquationView.{variable_of};
ghost use Rattle.sort_terms.specs.ProfiledTerm.{IsOf};
ghost use Rattle.sort_terms.specs.ReaderView.{signature_read};
ghost use Rattle.sort_terms.specs.Reading.{IsScopeOver};
ghost use Rattle.sort_terms.specs.SortedView.{profiled_in, term_in};
ghost use Rattle.scope_parts.specs.FaultView.{Answers};
ghost use Rattle.scope_parts.specs.Sorts.{truth_in};
ghost use Rattle.scope_parts.specs.Terms.{PairIs, TermIs, TestIs};
ghost use Rattle.scope_parts.specs.TermsView.{IsTruthOf, truth_of};
ghost use Rattle.scope_parts.specs.VisibleView.{visible_in};
ghost use Rattle.std.proofs.Props.{props};
ghost use Rattle.std.specs.Option.{ForSome};
ghost use Rattle.std.specs.Prelude.{◌≡◌, ◌++◌, IfOk, option_map};
ghost use Rattle.syntax_trees.specs.TreeViews.{premiss_of};

use crate::scope_faults::ScopeFault;
use crate::truth::Truth;
use crate::visible::Visible;
use behaviour_tree::Test;
use lotos_base::Written;
use sort_terms::{Reader, Sorted, Term};
use std::alloc::Global;
use syntax_trees::TestText;

/// What terms are read with: the signature with its indices, and the constant `true` of `Bool`, if
/// the signature has them.
#[derive(Drop)]
pub struct Terms<'a> {
    /// The signature.
    pub reader: Reader<'a>,
    /// `Bool` and `true`.
    pub truth: Option<Truth>,
    pub ghost told: { option_map truth_of truth
        ≡ truth_in (signature_read reader) } by { Prim.hlevel props },
    pub ghost known: { ForSome truth (IsTruthOf (signature_read reader)) },
}

impl Terms<'_> {
    /// The term, of the expected sort where one is given.
    pub fn term(
        &self,
        alloc: Global,
        visible: &Visible,
        written: &Written,
        expected: Option<u32>,
    ) -> Result<Sorted, ScopeFault>
        requires { IsScopeOver (signature_read self.now.reader) (visible_in visible.now) }
        ensures read { Answers term_in result (TermIs (signature_read self.now.reader)
            (visible_in visible.now) (written_term_of written.now) expected) }
        ensures profile { IfOk result (λ t. IsOf (signature_read self.now.reader)
            (profiled_in t)) }
    {
        let scope = visible.seen_by(alloc, written)?;
        Ok(self.reader.read_in(&scope, written, expected)?)
    }

    /// The test that two terms have one value. They are of one sort.
    pub fn pair(
        &self,
        alloc: Global,
        visible: &Visible,
        left: &Written,
        right: &Written,
    ) -> Result<Test, ScopeFault>
        requires { IsScopeOver (signature_read self.now.reader) (visible_in visible.now) }
        ensures read { Answers test_of result (PairIs (signature_read self.now.reader)
            (visible_in visible.now) (written_term_of left.now) (written_term_of right.now)) }
        ensures profiles { IfOk result (λ test. AreTermsOf (signature_read self.now.reader)
            (test_profiles test)) }
    {
        let scope = visible.seen_by_both(alloc, left, right)?;
        let (left, right) = self.reader.read_pair(&scope, left, right)?;
        Ok(Test { left, right })
    }
}
