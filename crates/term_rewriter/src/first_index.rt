//! Rules by the operations at the heads of their left sides and of the first arguments there.

ghost use Rattle.term_rewriter.specs.FirstHead.{first_head, has_first, is_open};
ghost use Rattle.term_rewriter.specs.FirstIndexView.{IsIndexOf, IsKeyBelow, HasRoom};
ghost use Rattle.path_order.specs.HeadIndexView.{numbers_at};
ghost use Rattle.sort_terms.specs.TermView.{term_of, bare_terms_of};
ghost use Rattle.std.specs.Prelude.{◌≡◌, ◌∷◌, ◌++◌, [], ℕ, IfOk, OnOk, if◌then◌else◌};

use lotos_base::NoMemory;
use path_order::Rules;
use path_order::head_index::HeadIndex;
use sort_terms::Term;
use std::alloc::Global;

/// The numbers of rules, found by their left sides.
#[derive(Debug, Drop)]
pub struct FirstIndex {
    /// Under each operation the rules that have it at the head and no operation at the head of the
    /// first argument.
    pub open: HeadIndex,
    /// Under each operation the rules that have it at the head of the first argument.
    pub firsts: HeadIndex,
}

/// The numbers of the rules.
pub fn indexed(alloc: Global, rules: &Rules) -> Result<FirstIndex, NoMemory>
    ensures { IfOk result (λ index. IsIndexOf rules.now index) }
{
    let count = rules.signature().ops().len();
    let open = HeadIndex::new(alloc, count)?;
    let firsts = HeadIndex::new(alloc, count)?;
    let mut index = FirstIndex { open, firsts };
    for number in 0..rules.list().len() {
        add(&mut index, rules.list()[number].left.term(), number)?;
    }
    Ok(index)
}

// Adds the number of a rule with this left side.
fn add(index: &mut FirstIndex, term: &Term, number: usize) -> Result<(), NoMemory>
    requires { (count : ℕ) × HasRoom index.old count × IsKeyBelow count (term_of term.now) }
    ensures open { OnOk result ((f : ℕ) → numbers_at index.new.open f
        ≡ numbers_at index.old.open f ++ (if is_open f (term_of term.now) then number ∷ [] else [])) }
    ensures firsts { OnOk result ((f : ℕ) → numbers_at index.new.firsts f
        ≡ numbers_at index.old.firsts f
        ++ (if has_first f (term_of term.now) then number ∷ [] else [])) }
    ensures room { (count : ℕ) → HasRoom index.old count → HasRoom index.new count }
{
    let Term::Node { op, arguments, .. } = term else {
        return Ok(());
    };
    match first_operation(arguments.items()) {
        None => index.open.add(*op as usize, number),
        Some(first) => index.firsts.add(first as usize, number),
    }
}

/// The operation at the head of the first of the terms, if one is there.
pub fn first_operation(terms: &Vec<Term>) -> Option<u32>
    ensures { result ≡ first_head (bare_terms_of terms.now.items) }
{
    match terms.get(0) {
        None => None,
        Some(Term::Var { .. }) => None,
        Some(Term::Node { op, .. }) => Some(*op),
    }
}
