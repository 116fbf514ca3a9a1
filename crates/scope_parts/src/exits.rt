//! The values of `exit`.

ghost use Rattle.behaviour_tree.specs.BehaviourTerms.{exit_profiles, joined};
ghost use Rattle.behaviour_tree.specs.BehaviourView.{exit_value_of};
ghost use Rattle.behaviour_tree.specs.Over.{AreTermsOf};
ghost use Rattle.sort_terms.specs.ReaderView.{signature_read};
ghost use Rattle.sort_terms.specs.Reading.{IsScopeOver};
ghost use Rattle.scope_parts.specs.FaultView.{Answers};
ghost use Rattle.scope_parts.specs.Terms.{ExitValueIs, ExitValuesAre};
ghost use Rattle.scope_parts.specs.VisibleView.{visible_in};
ghost use Rattle.std.specs.Prelude.{IfOk, map};
ghost use Rattle.syntax_trees.specs.TreeViews.{written_exit_value_of as written_value};

use crate::scope_faults::ScopeFault;
use crate::sorts::sort_at;
use crate::terms::Terms;
use crate::visible::Visible;
use behaviour_tree::ExitValue;
use std::alloc::Global;
use syntax_trees::ExitText;

impl Terms<'_> {
    /// The values of an `exit`. Their terms are read without an expected sort.
    pub fn exit_values(
        &self,
        alloc: Global,
        visible: &Visible,
        texts: &Vec<ExitText>,
    ) -> Result<Vec<ExitValue>, ScopeFault>
        requires { IsScopeOver (signature_read self.now.reader) (visible_in visible.now) }
        ensures read { Answers (λ values. map exit_value_of values.items) result (ExitValuesAre
            (signature_read self.now.reader) (visible_in visible.now)
            (map written_value texts.now.items)) }
        ensures profiles { IfOk result (λ values. AreTermsOf (signature_read self.now.reader)
            (joined (map exit_profiles values.items))) }
    {
        let mut made = Vec::with_capacity(alloc, texts.len())?;
        for text in texts {
            let value = self.exit_value(alloc, visible, text)?;
            made.push(value)?;
        }
        Ok(made)
    }

    // One of them.
    fn exit_value(
        &self,
        alloc: Global,
        visible: &Visible,
        text: &ExitText,
    ) -> Result<ExitValue, ScopeFault>
        requires { IsScopeOver (signature_read self.now.reader) (visible_in visible.now) }
        ensures read { Answers exit_value_of result (ExitValueIs (signature_read self.now.reader)
            (visible_in visible.now) (written_value text.now)) }
        ensures profiles { IfOk result (λ value. AreTermsOf (signature_read self.now.reader)
            (exit_profiles value)) }
    {
        match text {
            ExitText::Give(term) => {
                let term = self.term(alloc, visible, term, None)?;
                Ok(ExitValue::Give(term))
            }
            ExitText::Any((place, name)) => {
                let sort = sort_at(alloc, &self.reader, *place, name)?;
                Ok(ExitValue::Any(sort))
            }
        }
    }
}
