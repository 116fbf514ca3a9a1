//! The variables of a `let` with their terms.

ghost use Rattle.behaviour_tree.specs.BehaviourTerms.{let_profile};
ghost use Rattle.behaviour_tree.specs.BehaviourView.{let_of};
ghost use Rattle.behaviour_tree.specs.Over.{AreTermsOf};
ghost use Rattle.lotos_base.specs.WrittenView.{written_term_of};
ghost use Rattle.sort_terms.specs.ProfiledTerm.{IsOf};
ghost use Rattle.sort_terms.specs.ReaderView.{signature_read};
ghost use Rattle.sort_terms.specs.Reading.{IsScopeOver};
ghost use Rattle.scope_parts.specs.FaultView.{Answers};
ghost use Rattle.scope_parts.specs.Terms.{BindingIs, BindingsAre, LetIs};
ghost use Rattle.scope_parts.specs.VisibleView.{visible_in};
ghost use Rattle.std.specs.Prelude.{IfOk, map};
ghost use Rattle.syntax_trees.specs.TreeViews.{lets_of, written_variable_of};

use crate::doubles::first_double;
use crate::fault_order::beside;
use crate::scope_faults::ScopeFault;
use crate::sorts::{next_number, variable_at};
use crate::terms::Terms;
use crate::visible::Visible;
use lotos_base::Written;
use sort_terms::{Sorted, Variable};
use std::alloc::Global;
use syntax_trees::VarText;

impl Terms<'_> {
    /// The variables of a `let`, numbered from a number on, with their terms, which do not see
    /// these variables. No variable may stand twice.
    pub fn bindings(
        &self,
        alloc: Global,
        visible: &Visible,
        first: u64,
        texts: &Vec<(VarText, Written)>,
    ) -> Result<Vec<(Variable, Sorted)>, ScopeFault>
        requires { IsScopeOver (signature_read self.now.reader) (visible_in visible.now) }
        ensures read { Answers (λ bindings. map let_of bindings.items) result (LetIs
            (signature_read self.now.reader) (visible_in visible.now) first
            (lets_of texts.now.items)) }
        ensures profiles { IfOk result (λ bindings. AreTermsOf (signature_read self.now.reader)
            (map let_profile bindings.items)) }
    {
        let double = first_double(alloc, texts)?;
        beside(
            double,
            self.following_bindings(alloc, visible, first, texts),
        )
    }

    // The same, where a variable may stand twice.
    fn following_bindings(
        &self,
        alloc: Global,
        visible: &Visible,
        first: u64,
        texts: &Vec<(VarText, Written)>,
    ) -> Result<Vec<(Variable, Sorted)>, ScopeFault>
        requires { IsScopeOver (signature_read self.now.reader) (visible_in visible.now) }
        ensures read { Answers (λ bindings. map let_of bindings.items) result (BindingsAre
            (signature_read self.now.reader) (visible_in visible.now) first
            (lets_of texts.now.items)) }
        ensures profiles { IfOk result (λ bindings. AreTermsOf (signature_read self.now.reader)
            (map let_profile bindings.items)) }
    {
        let mut made = Vec::with_capacity(alloc, texts.len())?;
        let mut number = first;
        for text in texts {
            let binding = self.binding(alloc, visible, number, text)?;
            made.push(binding)?;
            number = next_number(number)?;
        }
        Ok(made)
    }

    // One of them.
    fn binding(
        &self,
        alloc: Global,
        visible: &Visible,
        number: u64,
        text: &(VarText, Written),
    ) -> Result<(Variable, Sorted), ScopeFault>
        requires { IsScopeOver (signature_read self.now.reader) (visible_in visible.now) }
        ensures read { Answers let_of result (BindingIs (signature_read self.now.reader)
            (visible_in visible.now) number
            (written_variable_of text.now.0, written_term_of text.now.1)) }
        ensures profile { IfOk result (λ binding. IsOf (signature_read self.now.reader)
            (let_profile binding)) }
    {
        let variable = variable_at(alloc, &self.reader, number, &text.0)?;
        let term = self.term(alloc, visible, &text.1, Some(variable.sort))?;
        Ok((variable, term))
    }
}
