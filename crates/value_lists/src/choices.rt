//! The lists of values of some sorts.

ghost use Rattle.path_order.specs.RulesView.{plain_rules_in};
ghost use Rattle.rewriting_theory.specs.Rewriting.{IsNormal};
ghost use Rattle.sort_terms.specs.SignatureView.{signature_of};
ghost use Rattle.std.specs.Prelude.{◌<◌, IfErr, IfOk, length};
ghost use Rattle.value_lists.specs.FaultMeaning.{FaultMeans};
ghost use Rattle.value_lists.specs.InstanceList.{AreChoices, term_lists_of, profiled_lists_in};
ghost use Rattle.value_lists.specs.ValueList.{AreValueLists, HasMoreValues, HasUpToValues};

use crate::limits::MAX_VALUES;
use crate::list_fault::ListFault;
use crate::values::values_of;
use path_order::Rules;
use sort_terms::{Signature, Sorted};
use std::alloc::Global;

/// For each of the sorts the list of its values with at most `size` operations, as [`values_of`]
/// has it. `TooManyValues` comes exactly where there is a sort, and there are more than 2,000
/// values of that size, over all sorts of the signature.
pub fn values_of_each(
    alloc: Global,
    signature: &Signature,
    rules: &Rules,
    sorts: &Vec<u32>,
    size: u32,
) -> Result<Vec<Vec<Sorted>>, ListFault>
    ensures lists { IfOk result (λ lists. AreValueLists (signature_of signature.now)
        (IsNormal (plain_rules_in rules.now)) size sorts.now.items (term_lists_of lists.items)) }
    ensures choices { IfOk result (λ lists. AreChoices (signature_of signature.now) sorts.now.items
        (profiled_lists_in lists.items)) }
    ensures few { IfOk result (λ _. 0 < length sorts.now.items → HasUpToValues
        (signature_of signature.now) (IsNormal (plain_rules_in rules.now)) size MAX_VALUES) }
    ensures fault { IfErr result (λ fault. FaultMeans ((0 < length sorts.now.items)
        × HasMoreValues (signature_of signature.now) (IsNormal (plain_rules_in rules.now)) size
        MAX_VALUES) ⊥ fault) }
{
    let mut lists = Vec::with_capacity(alloc, sorts.len())?;
    for sort in sorts {
        let values = values_of(alloc, signature, rules, *sort, size)?;
        lists.push(values)?;
    }
    Ok(lists)
}
