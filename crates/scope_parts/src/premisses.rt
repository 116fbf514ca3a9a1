//! Premisses: guards and selection predicates.

ghost use Rattle.behaviour_tree.specs.BehaviourTerms.{option_profiles, test_profiles};
ghost use Rattle.behaviour_tree.specs.BehaviourView.{test_of};
ghost use Rattle.behaviour_tree.specs.Over.{AreTermsOf};
ghost use Rattle.sort_terms.specs.Operations.{operation_of};
ghost use Rattle.sort_terms.specs.ProfiledTerm.{no_profiled_terms, profiled_node};
ghost use Rattle.sort_terms.specs.ReaderView.{signature_read};
ghost use Rattle.sort_terms.specs.Reading.{IsScopeOver};
ghost use Rattle.sort_terms.specs.SortedView.{profiled_in};
ghost use Rattle.scope_parts.specs.FaultView.{Answers};
ghost use Rattle.scope_parts.specs.Sorts.{truth_in};
ghost use Rattle.scope_parts.specs.Terms.{TestIs, TestOptionIs, TrueTermIs};
ghost use Rattle.scope_parts.specs.VisibleView.{visible_in};
ghost use Rattle.std.specs.Prelude.{◌≡◌, [], IfOk, option_map};
ghost use Rattle.syntax_trees.specs.TreeViews.{premiss_of};

use crate::scope_faults::ScopeFault;
use crate::terms::Terms;
use crate::truth::Truth;
use crate::visible::Visible;
use behaviour_tree::Test;
use lotos_base::NoMemory;
use sort_terms::{Sorted, Term};
use std::alloc::Global;
use syntax_trees::TestText;

impl Terms<'_> {
    /// A premiss: two terms of one sort, or one of the sort `Bool`, which has to be true.
    pub fn test(
        &self,
        alloc: Global,
        visible: &Visible,
        text: &TestText,
    ) -> Result<Test, ScopeFault>
        requires { IsScopeOver (signature_read self.now.reader) (visible_in visible.now) }
        ensures read { Answers test_of result (TestIs (signature_read self.now.reader)
            (visible_in visible.now) (premiss_of text.now)) }
        ensures profiles { IfOk result (λ test. AreTermsOf (signature_read self.now.reader)
            (test_profiles test)) }
    {
        match &text.right {
            Some(right) => self.pair(alloc, visible, &text.left, right),
            None => self.true_term(alloc, visible, text),
        }
    }

    // One term that has to be true.
    fn true_term(
        &self,
        alloc: Global,
        visible: &Visible,
        text: &TestText,
    ) -> Result<Test, ScopeFault>
        requires { IsScopeOver (signature_read self.now.reader) (visible_in visible.now) }
        ensures read { Answers test_of result (TrueTermIs (signature_read self.now.reader)
            (visible_in visible.now) (premiss_of text.now)
            (truth_in (signature_read self.now.reader))) }
        ensures profiles { IfOk result (λ test. AreTermsOf (signature_read self.now.reader)
            (test_profiles test)) }
    {
        let Some(truth) = &self.truth else {
            return Err(ScopeFault::NoBool { place: text.place });
        };
        let left = self.term(alloc, visible, &text.left, Some(truth.sort))?;
        let right = constant_term(alloc, truth)?;
        Ok(Test { left, right })
    }

    /// A selection predicate, if there is one.
    pub fn test_option(
        &self,
        alloc: Global,
        visible: &Visible,
        text: &Option<TestText>,
    ) -> Result<Option<Test>, ScopeFault>
        requires { IsScopeOver (signature_read self.now.reader) (visible_in visible.now) }
        ensures read { Answers (λ test. option_map test_of test) result (TestOptionIs
            (signature_read self.now.reader) (visible_in visible.now)
            (option_map premiss_of text.now)) }
        ensures profiles { IfOk result (λ test. AreTermsOf (signature_read self.now.reader)
            (option_profiles test)) }
    {
        match text {
            None => Ok(None),
            Some(text) => {
                let test = self.test(alloc, visible, text)?;
                Ok(Some(test))
            }
        }
    }
}

// The constant `true` as a term.
fn constant_term(alloc: Global, truth: &Truth) -> Result<Sorted, NoMemory>
    requires { truth.now.profile.value.arguments.items ≡ [] }
    ensures { IfOk result (λ t. profiled_in t ≡ profiled_node truth.now.constant
        (operation_of truth.now.profile.value) no_profiled_terms) }
{
    let made = Term::node(truth.constant, truth.profile.clone()?, Vec::new(alloc))?;
    Ok(Sorted::of(made))
}
