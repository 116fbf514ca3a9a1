//! Makers of menus.

ghost use Rattle.behaviour_semantics.specs.Menu.{Exact};
ghost use Rattle.behaviour_semantics.specs.WellFormed.{Every};
ghost use Rattle.behaviour_tree.specs.Closed.{IsClosedNode};
ghost use Rattle.behaviour_tree.specs.DefinitionView.{specification_of};
ghost use Rattle.behaviour_tree.specs.Over.{IsSpecOver, IsStateOf};
ghost use Rattle.behaviour_tree.specs.StateView.{state_of};
ghost use Rattle.behaviour_tree.specs.declared.definitions.Spec.{Spec};
ghost use Rattle.draft_parts.specs.HandedOn.{IsEntryOver, KeepsData, menu_entries};
ghost use Rattle.lotos_base.specs.Equation.{Data};
ghost use Rattle.lotos_base.specs.Signature.{IsWellFormedSignature};
ghost use Rattle.lotos_base.specs.Term.{Term};
ghost use Rattle.menu_builder.specs.Menus.{entries_in};
ghost use Rattle.process_checks.specs.Ranks.{AreRanksOf};
ghost use Rattle.std.specs.Prelude.{IfOk};

use crate::menus::menu;
use behaviour_tree::{Spec, State};
use draft_parts::Menu;
use lotos_base::NoMemory;
use process_checks::Ranks;
use sort_terms::Deciding;
use std::alloc::Global;

/// What makes menus. A maker suits certain specifications, with data and a canon of theirs: a maker
/// that keeps menus answers them again for the same ones alone.
pub trait MenuMaker: Drop {
    ghost suits: { Self → Spec → Data → (Term → Term) → Type 0 };

    /// The exact menu of the state, over the data and the canon of the object, where the maker
    /// suits these and the specification. Afterwards it still suits them.
    fn make<D: Deciding>(
        &mut self,
        alloc: Global,
        spec: &Spec,
        ranks: &Ranks,
        state: &State,
        decider: &mut D,
    ) -> Result<Menu, NoMemory>
        requires suited { suits self.old spec.now (D.known_data decider.old)
            (D.canon decider.old) }
        requires signature { IsWellFormedSignature (D.known_data decider.old).signature }
        requires over { IsSpecOver (D.known_data decider.old).signature spec.now }
        requires ranks { AreRanksOf spec.now ranks.now }
        requires state { IsStateOf (D.known_data decider.old).signature spec.now state.now }
        requires closed { IsClosedNode state.now.node }
        ensures exact { IfOk result (λ menu. Exact (D.known_data decider.old)
            (D.canon decider.old) (specification_of spec.now).processes (state_of state.now)
            (entries_in menu)) }
        ensures over { IfOk result (λ menu. Every
            (IsEntryOver (D.known_data decider.old).signature) (menu_entries menu)) }
        ensures suits_after { suits self.new spec.now (D.known_data decider.old)
            (D.canon decider.old) }
        ensures same_known { KeepsData D.known_data D.canon decider.old decider.new };
}

/// A maker that keeps nothing and lists each menu anew. It suits every specification.
#[derive(Debug, Drop)]
pub struct FreshMenus;

impl MenuMaker for FreshMenus {
    ghost suits = { λ _ _ _ _. Unit {0} };

    fn make<D: Deciding>(
        &mut self,
        alloc: Global,
        spec: &Spec,
        ranks: &Ranks,
        state: &State,
        decider: &mut D,
    ) -> Result<Menu, NoMemory> {
        menu(alloc, spec, ranks, state, decider)
    }
}
