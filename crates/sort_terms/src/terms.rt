//! Terms over the operations of a signature.

ghost use Rattle.sort_terms.specs.Known.{HoldOf, HoldOfAll};
ghost use Rattle.sort_terms.specs.Likenesses.{IsBelow, Tells, TellsAll};
ghost use Rattle.sort_terms.specs.ProfiledTerm.{all_bare, head_sort};
ghost use Rattle.sort_terms.specs.TermSize.{IsTurnOf, size_of, sizes_of, whole_of_parts};
ghost use Rattle.sort_terms.specs.TermView.{all_profiled, profiled_of, term_of, bare_terms_of};
ghost use Rattle.sort_terms.specs.declared.terms.Term.TheVariants.{Node as node_of};
ghost use Rattle.std.specs.Prelude.{◌≡◌, ◌↔◌, ◌+◌, IfErr, IfOk, IsTrue};
ghost use Rattle.lotos_base.specs.Sorting.{AreGround, IsGround};

use crate::copying::copies;
use crate::discarding::{Turn, exchanged, opened};
use crate::facts::Facts;
use crate::operations::Op;
use lotos_base::NoMemory;
use std::marker::Model;
use std::mem;
use std::rc::Rc;

/// A term.
#[derive(Debug)]
#[cycle(terms)]
pub enum Term {
    /// A variable.
    Var {
        /// Its number.
        number: u64,
        /// The number of its sort.
        sort: u32,
    },
    /// An operation with its arguments.
    Node {
        /// The number of the operation in the signature.
        op: u32,
        /// The operation, shared by all terms that have it.
        profile: Rc<Op>,
        /// The arguments in order, shared by all terms that have them.
        arguments: Arguments,
    },
}

/// The arguments of an operation in order, shared by all terms that have them, with what is known
/// of them without a look at them.
#[derive(Debug, Drop)]
#[cycle(terms)]
pub struct Arguments {
    items: Rc<Vec<Term>>,
    facts: Facts,
}

impl Model for Arguments {
    ghost use Rattle.sort_terms.specs.ProfiledTerm.{ProfiledTerms, all_bare};
    ghost use Rattle.std.specs.Prelude.{◌≡◌};

    ghost Value = { ProfiledTerms };

    ghost use Rattle.sort_terms.specs.TermCode.{terms_code};

    ghost coded = { terms_code };

    ghost use Rattle.sort_terms.specs.TermView.{all_profiled};

    ghost view = { λ a. all_profiled a.items.value.items };

    ghost use Rattle.sort_terms.specs.Known.{HoldOfAll};

    ghost invariant = { λ a. HoldOfAll a.facts (all_bare (all_profiled a.items.value.items)) };

    ghost use Rattle.sort_terms.specs.ProfiledSize.{profiled_sizes};

    ghost size = { profiled_sizes };

    ghost use Rattle.sort_terms.specs.TermDeep.{deep_below};
    ghost use Rattle.std.proofs.Common.{arith};

    ghost size_decreases = { λ a h. omega (arith, deep_below a.items.value.items) };
}

/// What a term is made of. A term is dropped by a loop, and so it is not taken apart itself.
#[derive(Debug, Drop)]
pub enum Parts {
    /// A variable.
    Variable {
        /// Its number.
        number: u64,
        /// The number of its sort.
        sort: u32,
    },
    /// An operation with its arguments.
    Operation {
        /// The number of the operation in the signature.
        op: u32,
        /// The operation.
        profile: Rc<Op>,
        /// The arguments in order.
        arguments: Arguments,
    },
}

impl Term {
    /// The operation with this number and profile on the arguments.
    pub fn node(op: u32, profile: Rc<Op>, arguments: Vec<Term>) -> Result<Term, NoMemory>
        ensures { IfOk result (λ t. t ≡ node_of op profile (all_profiled arguments.items)) }
    {
        Ok(Term::Node {
            op,
            profile,
            arguments: Arguments::of(arguments)?,
        })
    }

    /// The sort that the head of the term tells: that of the variable, or the result of the
    /// operation.
    pub fn sort(&self) -> u32
        ensures { result ≡ head_sort (profiled_of self.now) }
    {
        match self {
            Term::Var { sort, .. } => *sort,
            Term::Node { profile, .. } => profile.result,
        }
    }

    /// What is known of the term without a look at it.
    pub fn facts(&self) -> Facts
        ensures { HoldOf result (term_of self.now) }
    {
        match self {
            Term::Var { .. } => Facts::of_variable(),
            Term::Node { op, arguments, .. } => arguments.facts().below(*op),
        }
    }

    /// Whether the two terms are identical: variables of one number and sort, or operations of one
    /// number with identical arguments. The last arguments are compared by a loop.
    #[cycle(identity)]
    pub fn same(&self, other: &Term) -> bool
        ensures { IsTrue result ↔ (term_of self.now ≡ term_of other.now) }
    {
        let mut one = self;
        let mut two = other;
        loop {
            match compared(one, two) {
                Likeness::Decided(same) => return same,
                Likeness::ByLast(first, second) => {
                    one = first;
                    two = second;
                }
            }
        }
    }

    /// Whether the term has no variable.
    #[cycle(ground)]
    pub fn is_ground(&self) -> bool
        ensures { IsTrue result ↔ IsGround (term_of self.now) }
    {
        match self {
            Term::Var { .. } => false,
            Term::Node { arguments, .. } => {
                if arguments.facts().is_ground {
                    return true;
                }
                are_ground(arguments.items())
            }
        }
    }

    /// The same term, with the same profiles. It shares its arguments.
    pub fn copy(&self) -> Result<Term, NoMemory>
        ensures { IfOk result (λ t. profiled_of t ≡ profiled_of self.now) }
    {
        match self {
            Term::Var { number, sort } => Ok(Term::Var {
                number: *number,
                sort: *sort,
            }),
            Term::Node {
                op,
                profile,
                arguments,
            } => Ok(Term::Node {
                op: *op,
                profile: profile.clone()?,
                arguments: arguments.copy()?,
            }),
        }
    }
}

impl Drop for Term {
    /// Drops the term, however deep it is. Takes no memory.
    fn drop(self) {
        match self {
            Term::Var { number: _, sort: _ } => {}
            Term::Node {
                op: _,
                profile: _,
                arguments,
            } => {
                let Ok(list) = arguments.into_own() else {
                    return;
                };
                let mut left = list;
                while let Some(last) = left.pop() {
                    let (next, shared) = opened(last, left);
                    left = next;
                    // Arguments that other terms have too stay with these.
                    if let Some(_arguments) = shared {}
                }
            }
        }
    }
}

impl Term {
    /// What the term is made of.
    pub fn into_parts(self) -> Parts
        ensures { whole_of_parts result ≡ self }
    {
        match self {
            Term::Var { number, sort } => Parts::Variable { number, sort },
            Term::Node {
                op,
                profile,
                arguments,
            } => Parts::Operation {
                op,
                profile,
                arguments,
            },
        }
    }

    /// Drops the term, or exchanges it for what is to be looked at next.
    pub(crate) fn turned(self, others: Vec<Term>) -> Turn
        ensures { IsTurnOf (size_of self) (sizes_of others.items) result }
    {
        match self {
            Term::Var { number: _, sort: _ } => Turn::Done(others, None),
            Term::Node {
                op,
                profile,
                arguments,
            } => exchanged(op, profile, arguments, others),
        }
    }
}

impl Arguments {
    /// These arguments.
    pub fn of(items: Vec<Term>) -> Result<Arguments, NoMemory>
        ensures { IfOk result (λ it. it ≡ all_profiled items.items) }
    {
        let alloc = *items.allocator();
        let facts = facts_of(&items);
        Ok(Arguments {
            items: Rc::new(alloc, items)?,
            facts,
        })
    }

    /// The arguments in order.
    pub fn items(&self) -> &Vec<Term>
        ensures { all_profiled result.now.items ≡ self.now }
    {
        &self.items
    }

    /// What is known of them without a look at them.
    pub fn facts(&self) -> Facts
        ensures { HoldOfAll result (all_bare self.now) }
    {
        self.facts
    }

    /// The same arguments, shared.
    pub fn copy(&self) -> Result<Arguments, NoMemory>
        ensures { IfOk result (λ it. it ≡ self.now) }
    {
        Ok(Arguments {
            items: self.items.clone()?,
            facts: self.facts,
        })
    }

    /// The arguments in order: themselves where no other term has them, and else copies of them.
    pub fn into_items(self) -> Result<Vec<Term>, NoMemory>
        ensures { IfOk result (λ ts. all_profiled ts.items ≡ self) }
    {
        match Rc::try_unwrap(self.items) {
            Ok(list) => Ok(list),
            Err(shared) => copies(&shared),
        }
    }

    // The arguments in order, where no other term has them, and else what there was.
    fn into_own(self) -> Result<Vec<Term>, Arguments>
        ensures own { IfOk result (λ ts. all_profiled ts.items ≡ self) }
        ensures back { IfErr result (λ back. back ≡ self) }
    {
        let facts = self.facts;
        match Rc::try_unwrap(self.items) {
            Ok(list) => Ok(list),
            Err(items) => Err(Arguments { items, facts }),
        }
    }

    /// Puts the terms in place of the arguments and gives these, where no other term has them. Else
    /// it gives the terms back.
    pub(crate) fn put_in_place(&mut self, others: Vec<Term>) -> Result<Vec<Term>, Vec<Term>>
        ensures own { IfOk result (λ list. all_profiled list.items ≡ self.old) }
        ensures put { IfOk result (λ list. self.new ≡ all_profiled others.items) }
        ensures back { IfErr result (λ back. back ≡ others) }
        ensures stay { IfErr result (λ back. self.new ≡ self.old) }
    {
        match Rc::get_mut(&mut self.items) {
            Some(own) => {
                let list = mem::replace(own, others);
                self.facts = Facts::nothing();
                Ok(list)
            }
            None => Err(others),
        }
    }
}

// What is known of the terms of the list.
fn facts_of(terms: &Vec<Term>) -> Facts
    ensures { HoldOfAll result (bare_terms_of terms.now.items) }
{
    let mut facts = Facts::of_no_terms();
    for i in 0..terms.len() {
        let is_last = i + 1 == terms.len();
        facts = facts.with(terms[i].facts(), is_last);
    }
    facts
}

// Whether two terms are identical, or the two last arguments on which that hangs.
enum Likeness<'a> {
    Decided(bool),
    ByLast(&'a Term, &'a Term),
}

// Whether the terms are identical, but for their last arguments. Where the sizes of the arguments
// differ these are not looked at.
#[cycle(identity)]
fn compared<'a>(one: &'a Term, two: &'a Term) -> Likeness<'a>
    ensures tells { Tells (term_of one.now) (term_of two.now) result }
    ensures below { IsBelow (size_of one.now) result }
{
    match (one, two) {
        (Term::Var { number, sort }, Term::Var { number: n, sort: s }) => {
            Likeness::Decided(*number == *n && *sort == *s)
        }
        (
            Term::Node { op, arguments, .. },
            Term::Node {
                op: f,
                arguments: others,
                ..
            },
        ) => {
            if *op != *f || !arguments.facts().may_be_one(others.facts()) {
                return Likeness::Decided(false);
            }
            same_but_last(arguments.items(), others.items())
        }
        (Term::Var { .. }, Term::Node { .. }) | (Term::Node { .. }, Term::Var { .. }) => {
            Likeness::Decided(false)
        }
    }
}

// Whether the lists are identical, but for their last terms.
#[cycle(identity)]
fn same_but_last<'a>(terms: &'a Vec<Term>, others: &'a Vec<Term>) -> Likeness<'a>
    ensures tells { TellsAll (bare_terms_of terms.now.items)
        (bare_terms_of others.now.items) result }
    ensures below { IsBelow (1 + sizes_of terms.now.items) result }
{
    if terms.len() != others.len() {
        return Likeness::Decided(false);
    }
    let Some(last) = terms.len().checked_sub(1) else {
        return Likeness::Decided(true);
    };
    for i in 0..last {
        if !terms[i].same(&others[i]) {
            return Likeness::Decided(false);
        }
    }
    Likeness::ByLast(&terms[last], &others[last])
}

// Whether no term of the list has a variable.
#[cycle(ground)]
fn are_ground(terms: &Vec<Term>) -> bool
    ensures { IsTrue result ↔ AreGround (bare_terms_of terms.now.items) }
{
    for term in terms {
        if !term.is_ground() {
            return false;
        }
    }
    true
}
