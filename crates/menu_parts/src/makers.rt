//! A maker of menus that keeps them for the parts of states.

ghost use Rattle.lotos_base.specs.Equation.{Data};
ghost use Rattle.lotos_base.specs.Term.{Term};
ghost use Rattle.shared_entries.specs.HandedOn.{menu_entries};
ghost use Rattle.menu_parts.specs.KeptMenus.{IsKept, MakerSuits};
ghost use Rattle.menu_parts.specs.Spread.{AreEntriesOf, listed_for};
ghost use Rattle.std.specs.Prelude.{IfOk};
ghost use Rattle.step_taker.specs.Taken.{Ground};

use crate::components::Making;
use crate::kept::Kept;
use crate::making::brought;
use crate::rooms::Room;
use crate::widths::Widths;
use behaviour_tree::boxes::shared;
use behaviour_tree::{Spec, State};
use lotos_base::NoMemory;
use shared_entries::items::entries_of;
use shared_entries::{Menu, MenuMaker, Ranks, above_processes, menu};
use sort_terms::Deciding;
use std::alloc::Global;
use std::rc::Rc;

/// A maker that keeps the menus of the parts of the last state, and uses them again where a part is
/// the same. It is opened for a specification, and suits it with any of its data before the first
/// menu, and with the data and the canon that were used from then on. Nothing is kept of a state that
/// offers the events of a gate `par` of very many gates.
#[derive(Drop)]
pub struct PartMenus {
    least: u64,
    kept: Option<Rc<Kept>>,
    widths: Widths,
}

impl PartMenus {
    /// A maker of menus for the states of the specification, which keeps none yet.
    pub fn open(spec: &Spec) -> Result<PartMenus, NoMemory>
        ensures { IfOk result (λ maker. (data_ : Data) (canon : Term → Term)
            → MakerSuits maker spec.now data_ canon) }
    {
        let least = above_processes(spec, 0)?;
        Ok(PartMenus {
            least,
            kept: None,
            widths: Widths::of(spec),
        })
    }
}

impl MenuMaker for PartMenus {
    ghost suits = { MakerSuits };

    fn make<D: Deciding>(
        &mut self,
        alloc: Global,
        spec: &Spec,
        ranks: &Ranks,
        state: &State,
        decider: &mut D,
    ) -> Result<Menu, NoMemory> {
        if self.widths.are_offered(spec, ranks, state)? {
            return menu(alloc, spec, ranks, state, decider);
        }
        let copy = state.node().copy(alloc)?;
        let node = shared(alloc, copy)?;
        let making = Making {
            spec,
            ranks,
            least: self.least,
            alloc,
        };
        let next = brought(
            &making,
            &node,
            self.kept.as_ref(),
            false,
            Room::all(),
            decider,
        )?;
        let menu = menu_of(&next)?;
        self.kept = Some(next);
        Ok(menu)
    }
}

// The menu that is kept. Entries of parts side by side are shared with earlier menus.
fn menu_of(kept: &Kept) -> Result<Menu, NoMemory>
    ensures { IfOk result (λ menu. (basis : Ground) → IsKept basis kept.now
        → AreEntriesOf basis.data_.signature (listed_for kept.now).items.items
        (menu_entries menu)) }
{
    match kept.spread() {
        None => Ok(Menu::of(entries_of(kept.items())?)),
        Some(spread) => Ok(Menu::sharing(spread.part().owner()?)),
    }
}
