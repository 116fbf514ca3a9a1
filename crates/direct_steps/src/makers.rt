//! Menus by an object that is short of answers, and of a state that no session reaches soon.

ghost use Rattle.behaviour_semantics.specs.Behaviour.{no_gates, parallel, stop};
ghost use Rattle.behaviour_tree.specs.Closed.{IsClosedNode};
ghost use Rattle.behaviour_tree.specs.Over.{IsSpecOver, IsStateOf};
ghost use Rattle.behaviour_tree.specs.StateView.{node_profiles, stands_for};
ghost use Rattle.behaviour_tree.specs.declared.definitions.Spec.{Spec as WholeSpec};
ghost use Rattle.lotos_base.specs.Signature.{IsWellFormedSignature, Signature};
ghost use Rattle.menu_builder.specs.HandedOn.{AreRanksOf};
ghost use Rattle.sort_terms.specs.EquationView.{data_of};
ghost use Rattle.spec_acceptance.specs.Acceptance.{Acceptance};
ghost use Rattle.spec_acceptance.specs.AcceptedView.{HoldsAccepted};
ghost use Rattle.spec_acceptance.specs.HandedOn.{book_canon, book_is_canon};
ghost use Rattle.std.specs.Prelude.{◌≡◌, IfOk};

use crate::accepted::accept;
use behaviour_tree::boxes::shared;
use behaviour_tree::{Meet, Node, Spec, State};
use lotos_base::NoMemory;
use menu_builder::{FreshMenus, MenuMaker, Ranks};
use sort_terms::{Deciding, Sorted};
use spec_acceptance::{Accepted, Book};
use std::alloc::Global;
use std::test::Fail;

/// A book that answers so many questions, and then none.
#[derive(Drop)]
struct Failing {
    book: Book,
    answers: u32,
}

impl Deciding for Failing {
    ghost known_data = { λ it. data_of it.book.flat };

    ghost canon = { λ it t. book_canon it.book t };

    ghost is_canon = { λ it. book_is_canon it.book };

    fn normal(&mut self, term: &Sorted) -> Result<Sorted, NoMemory> {
        match self.answers.checked_sub(1) {
            None => Err(NoMemory),
            Some(left) => {
                self.answers = left;
                self.book.normal(term)
            }
        }
    }
}

// How many entries the menu of the state has.
fn entries<D: Deciding>(
    alloc: Global,
    spec: &Spec,
    ranks: &Ranks,
    state: &State,
    decider: &mut D,
) -> Result<usize, NoMemory>
    requires signature { IsWellFormedSignature (D.known_data decider.old).signature }
    requires over { IsSpecOver (D.known_data decider.old).signature spec.now }
    requires ranks { AreRanksOf spec.now ranks.now }
    requires state { IsStateOf (D.known_data decider.old).signature spec.now state.now }
    requires closed { IsClosedNode state.now.node }
{
    let mut maker = FreshMenus;
    let menu = maker.make(alloc, spec, ranks, state, decider)?;
    Ok(menu.len())
}

const TWO: &str =
    "specification S [g] : noexit type Few is sorts E, N opns a : -> N f : N -> N endtype
behaviour g !a; stop [] g !f(a) ?x:N; stop endspec";

// How many entries there are with so many answers; none where there is no menu.
fn with_answers(alloc: Global, accepted: Accepted, answers: u32) -> Option<usize>
    requires known { (acceptance : Acceptance) × HoldsAccepted acceptance accepted }
{
    let Accepted {
        spec,
        ranks,
        book,
        start,
    } = accepted;
    let mut decider = Failing { book, answers };
    match entries(alloc, &spec, &ranks, &start, &mut decider) {
        Ok(count) => Some(count),
        Err(NoMemory) => None,
    }
}

#[test]
fn a_decider_that_fails_ends_the_menu(rt: HostRuntime) -> Result<(), Fail> {
    let alloc = rt.alloc();
    assert_eq!(rt; with_answers(alloc, accept(alloc, TWO)?, 0), None);
    assert_eq!(rt; with_answers(alloc, accept(alloc, TWO)?, 1), None);
    assert_eq!(rt; with_answers(alloc, accept(alloc, TWO)?, 100), Some(2));
    Ok(())
}

// The state below so many levels, in each of which it is beside `stop`.
fn grown(alloc: Global, state: &State, levels: u32) -> Result<State, NoMemory>
    requires { IsClosedNode state.now.node }
    ensures closed { IfOk result (λ made. IsClosedNode made.node) }
    ensures lawful { IfOk result (λ made. (signature : Signature) → (spec : WholeSpec)
        → IsStateOf signature spec state.now → IsStateOf signature spec made) }
{
    let mut node = state.node().copy(alloc)?;
    for _ in 0..levels {
        node = beside_stop(alloc, node)?;
    }
    Ok(State::of(node))
}

// The node beside `stop`.
fn beside_stop(alloc: Global, node: Node) -> Result<Node, NoMemory>
    ensures closed { IfOk result (λ made. IsClosedNode node → IsClosedNode made) }
    ensures same { IfOk result
        (λ made. stands_for made ≡ parallel no_gates stop (stands_for node)) }
    ensures terms { IfOk result (λ made. node_profiles made ≡ node_profiles node) }
{
    let left = shared(alloc, Node::Stop)?;
    let right = shared(alloc, node)?;
    Ok(Node::Parallel(Meet::Nothing, left, right))
}

// How many entries the first menu has below so many levels.
fn below(alloc: Global, accepted: &mut Accepted, levels: u32) -> Result<usize, NoMemory>
    requires known { (acceptance : Acceptance) × HoldsAccepted acceptance accepted.old }
{
    let state = grown(alloc, &accepted.start, levels)?;
    entries(
        alloc,
        &accepted.spec,
        &accepted.ranks,
        &state,
        &mut accepted.book,
    )
}

#[test]
fn a_state_of_four_thousand_levels(rt: HostRuntime) -> Result<(), Fail> {
    let alloc = rt.alloc();
    let mut accepted = accept(
        alloc,
        "specification S [a] : noexit behaviour a; stop endspec",
    )?;
    assert!(rt; matches!(below(alloc, &mut accepted, 4_000), Ok(1)));
    Ok(())
}
