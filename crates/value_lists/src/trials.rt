//! One operation, tried on all lists of smaller values that it can have for its arguments.

ghost use Rattle.path_order.specs.RulesView.{plain_rules_in};
ghost use Rattle.sort_terms.specs.TermView.{profiled_of, term_of};
ghost use Rattle.std.specs.Prelude.{
  ◌≡◌,
  ◌<◌,
  ◌≤◌,
  ◌+◌,
  ◌++◌,
  ◌^◌,
  ◌&&◌,
  IfErr,
  IfOk,
  OnOk,
  drop,
  length,
  nat_eq,
  not,
};
ghost use Rattle.value_lists.specs.FaultMeaning.{FaultMeans};
ghost use Rattle.value_lists.specs.RootTest.{no_rule_matches};
ghost use Rattle.value_lists.specs.Search.{found_for, suits};
ghost use Rattle.value_lists.specs.TrialView.{
  applied_in,
  found_here,
  found_next,
  found_through,
  HasPlace,
  IsPart,
  leaves_over_at,
  trial_sorts_of,
  suits_at,
  trial_of,
  values_in,
};

use crate::list_fault::ListFault;
use crate::value::Value;
use lotos_base::NoMemory;
use path_order::Rules;
use sort_terms::copying::copies;
use sort_terms::{Op, Term};
use std::alloc::Global;
use std::rc::Rc;
use term_rewriter::first_match::first_match;

/// One operation, and what it is tried on.
#[derive(Drop)]
pub struct Trial<'a> {
    /// The rules.
    pub rules: &'a Rules,
    /// The smaller values, of all sorts, in their order.
    pub smaller: &'a [Value],
    /// The number of the operation.
    pub op: u32,
    /// The operation.
    pub profile: &'a Rc<Op>,
    /// The size of what is found.
    pub size: u32,
    /// How many values may be found.
    pub room: usize,
}

impl Trial<'_> {
    /// Tries the operation on each list of smaller values that has the sorts of its arguments and
    /// this size, in order, and adds what no rule matches. `TooManyValues` comes where this is more
    /// than there is room for.
    pub fn search(&self, alloc: Global, size: u32, found: &mut Vec<Value>) -> Result<(), ListFault>
        requires size { size + 1 ≡ self.now.size }
        requires room { length found.old.items ≤ self.now.room }
        ensures found { OnOk result (values_in found.new.items
            ≡ values_in found.old.items ++ found_for (trial_of self.now) size) }
        ensures room { OnOk result (length found.new.items ≤ self.now.room) }
        ensures fault { IfErr result (λ fault. FaultMeans (self.now.room < length
            (values_in found.old.items ++ found_for (trial_of self.now) size)) ⊥ fault) }
    {
        let mut chosen = Vec::new(alloc);
        self.search_behind(&mut chosen, size, found)
    }

    // Tries the operation on the arguments that are chosen already with each list of smaller
    // values behind them that has the sorts of the other arguments and the size that is left, in
    // order, and adds what no rule matches. At the end as many arguments are chosen as before.
    // Each of the others has one operation at least, so no more of them are chosen than are left.
    #[cycle(search)]
    fn search_behind(
        &self,
        chosen: &mut Vec<Term>,
        left: u32,
        found: &mut Vec<Value>,
    ) -> Result<(), ListFault>
        requires part { IsPart self.now chosen.old.items left }
        requires room { length found.old.items ≤ self.now.room }
        ensures chosen { OnOk result (chosen.new.items ≡ chosen.old.items) }
        ensures found { OnOk result (values_in found.new.items
            ≡ values_in found.old.items ++ found_next self.now chosen.old.items left) }
        ensures room { OnOk result (length found.new.items ≤ self.now.room) }
        ensures fault { IfErr result (λ fault. FaultMeans (self.now.room < length
            (values_in found.old.items ++ found_next self.now chosen.old.items left)) ⊥ fault) }
    {
        let at = chosen.len();
        let all = self.arity();
        if at == all {
            return self.keep(chosen, left, found);
        }
        for value in self.smaller {
            self.search_with(value, chosen, left, found)?;
        }
        Ok(())
    }

    // The same with this value as the next argument, if it suits.
    #[cycle(search)]
    fn search_with(
        &self,
        value: &Value,
        chosen: &mut Vec<Term>,
        left: u32,
        found: &mut Vec<Value>,
    ) -> Result<(), ListFault>
        requires part { IsPart self.now chosen.old.items left }
        requires place { HasPlace self.now chosen.old.items }
        requires room { length found.old.items ≤ self.now.room }
        ensures chosen { OnOk result (chosen.new.items ≡ chosen.old.items) }
        ensures found { OnOk result (values_in found.new.items
            ≡ values_in found.old.items ++ found_through self.now chosen.old.items left value.now) }
        ensures room { OnOk result (length found.new.items ≤ self.now.room) }
        ensures fault { IfErr result (λ fault. FaultMeans (self.now.room < length
            (values_in found.old.items ++ found_through self.now chosen.old.items left value.now))
            ⊥ fault) }
    {
        if !self.suits_next(value, chosen.len(), left) {
            return Ok(());
        }
        if self.leaves_over(value, chosen.len(), left) {
            return Ok(());
        }
        chosen.push(value.term.copy()?)?;
        self.search_behind(chosen, left - value.size, found)?;
        chosen.pop();
        Ok(())
    }

    // Adds the operation on copies of the chosen arguments, if nothing is left and no rule matches
    // it.
    fn keep(
        &self,
        chosen: &mut Vec<Term>,
        left: u32,
        found: &mut Vec<Value>,
    ) -> Result<(), ListFault>
        requires part { IsPart self.now chosen.old.items left }
        requires room { length found.old.items ≤ self.now.room }
        ensures chosen { OnOk result (chosen.new.items ≡ chosen.old.items) }
        ensures found { OnOk result (values_in found.new.items
            ≡ values_in found.old.items ++ found_here self.now chosen.old.items left) }
        ensures room { OnOk result (length found.new.items ≤ self.now.room) }
        ensures fault { IfErr result (λ fault. FaultMeans (self.now.room < length
            (values_in found.old.items ++ found_here self.now chosen.old.items left)) ⊥ fault) }
    {
        if left != 0 {
            return Ok(());
        }
        let alloc = *chosen.allocator();
        let term = self.applied(copies(chosen)?)?;
        let kept = is_kept(alloc, self.rules, &term)?;
        if !kept {
            return Ok(());
        }
        if found.len() == self.room {
            return Err(ListFault::TooManyValues);
        }
        let size = self.size;
        found.push(Value { term, size })?;
        Ok(())
    }

    // How many arguments the operation has.
    fn arity(&self) -> usize
        ensures { result ≡ length (trial_sorts_of self.now) }
    {
        self.profile.arguments.len()
    }

    // Whether the value can be the argument at this place, with what is left.
    fn suits_next(&self, value: &Value, at: usize, left: u32) -> bool
        requires { at < length (trial_sorts_of self.now) }
        ensures { result ≡ suits_at (drop at (trial_sorts_of self.now)) left value.now }
    {
        let behind = self.profile.arguments.len() - at - 1;
        is_suited(value, self.profile.arguments[at], behind, left)
    }

    // Whether the value would be the last argument and something be left behind it, so that nothing
    // is found with it.
    fn leaves_over(&self, value: &Value, at: usize, left: u32) -> bool
        requires { at < length (trial_sorts_of self.now) }
        ensures { result ≡ leaves_over_at (drop at (trial_sorts_of self.now)) left value.now }
    {
        is_left_over(value, self.arity() - at - 1, left)
    }

    // The operation on these arguments.
    fn applied(&self, arguments: Vec<Term>) -> Result<Term, NoMemory>
        ensures { IfOk result (λ t. profiled_of t ≡ applied_in self.now arguments.items) }
    {
        Term::node(self.op, self.profile.clone()?, arguments)
    }
}

// Whether the value has the sort, and what is left is enough for it and for so many arguments
// behind it.
fn is_suited(value: &Value, sort: u32, behind: usize, left: u32) -> bool
    requires { behind < 2 ^ 63 }
    ensures { result ≡ suits sort behind left (profiled_of value.now.term) }
{
    value.term.sort() == sort && value.size as usize + behind <= left as usize
}

// Whether there is no argument behind the value and something is left.
fn is_left_over(value: &Value, behind: usize, left: u32) -> bool
    ensures { result ≡ (nat_eq behind 0 && not (nat_eq value.now.size left)) }
{
    behind == 0 && value.size != left
}

// Whether no rule matches the term.
fn is_kept(alloc: Global, rules: &Rules, term: &Term) -> Result<bool, NoMemory>
    ensures { IfOk result
        (λ b. b ≡ no_rule_matches (plain_rules_in rules.now) (term_of term.now)) }
{
    let found = first_match(alloc, rules, term)?;
    match found {
        None => Ok(true),
        Some(_) => Ok(false),
    }
}
