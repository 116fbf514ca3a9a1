//! The equations of the base, over the actual sorts and operations.

ghost use Rattle.type_actualisation.specs.Brought.{IsBrought};
ghost use Rattle.std.specs.Prelude.{◌≡◌, OnOk};
ghost use Rattle.type_definitions.specs.Actualisation.{Actualising, actualisation};
ghost use Rattle.type_presentations.specs.PresentationView.{IsSound, presentation_of};

use lotos_base::NoMemory;
use std::alloc::Global;
use type_presentations::Presentation;

/// Adds the equations of the base to the actual types, into which its sorts and operations were
/// brought; their new numbers are given. Then it is the actualisation.
pub fn bring_equations(
    alloc: Global,
    base: &Presentation,
    presentation: &mut Presentation,
    sorts: &[u32],
    ops: &[u32],
) -> Result<(), NoMemory>
    requires { (a : Actualising)
        × IsBrought a base.now presentation.old sorts.now ops.now }
    ensures { OnOk result ((a : Actualising)
        → IsBrought a base.now presentation.old sorts.now ops.now
        → (presentation_of presentation.new ≡ actualisation a) × IsSound presentation.new) }
{
    let coming = &base.equations;
    presentation
        .equations
        .join(alloc, coming, sorts, ops, &presentation.ops)?;
    Ok(())
}
