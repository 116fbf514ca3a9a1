//! The actual values of a call.

ghost use Rattle.behaviour_tree.specs.BehaviourTerms.{profiles_of};
ghost use Rattle.behaviour_tree.specs.BehaviourView.{terms_of};
ghost use Rattle.behaviour_tree.specs.Over.{AreTermsOf};
ghost use Rattle.lotos_base.specs.WrittenView.{written_terms_of};
ghost use Rattle.sort_terms.specs.ReaderView.{signature_read};
ghost use Rattle.sort_terms.specs.Reading.{IsScopeOver};
ghost use Rattle.scope_parts.specs.FaultView.{Answers};
ghost use Rattle.scope_parts.specs.Terms.{ValuesAre};
ghost use Rattle.scope_parts.specs.VisibleView.{visible_in};
ghost use Rattle.std.specs.Prelude.{◌≡◌, IfOk, length};

use crate::scope_faults::ScopeFault;
use crate::terms::Terms;
use crate::visible::Visible;
use lotos_base::Written;
use sort_terms::Sorted;
use std::alloc::Global;

impl Terms<'_> {
    /// The actual values of a call, each of the sort of its parameter. A value whose parameter has
    /// a sort that the data lack is left out.
    pub fn values(
        &self,
        alloc: Global,
        visible: &Visible,
        sorts: &Vec<Option<u32>>,
        texts: &Vec<Written>,
    ) -> Result<Vec<Sorted>, ScopeFault>
        requires over { IsScopeOver (signature_read self.now.reader) (visible_in visible.now) }
        requires counted { length texts.now.items ≡ length sorts.now.items }
        ensures read { Answers (λ values. terms_of values.items) result (ValuesAre
            (signature_read self.now.reader) (visible_in visible.now) sorts.now.items
            (written_terms_of texts.now.items)) }
        ensures profiles { IfOk result (λ values. AreTermsOf (signature_read self.now.reader)
            (profiles_of values.items)) }
    {
        let mut made = Vec::with_capacity(alloc, texts.len())?;
        for i in 0..sorts.len() {
            let Some(sort) = sorts[i] else {
                continue;
            };
            let value = self.term(alloc, visible, &texts[i], Some(sort))?;
            made.push(value)?;
        }
        Ok(made)
    }
}
