//! The data of a presentation.

ghost use Rattle.type_flatten.specs.FlatView.{AreDataOf};
ghost use Rattle.std.specs.Prelude.{IfOk};
ghost use Rattle.type_presentations.specs.PresentationView.{
  IsSound,
  IsWithinLimits,
  presentation_of,
};

use lotos_base::NoMemory;
use sort_terms::Flat;
use std::alloc::Global;
use type_actualisation::signature_with_twins;
use type_presentations::Presentation;

/// The signature and the equations of the presentation, without its marks. The signature says which
/// operations have twins.
pub fn data_of(alloc: Global, presentation: Presentation) -> Result<Flat, NoMemory>
    requires sound { IsSound presentation }
    requires within { IsWithinLimits presentation }
    ensures { IfOk result (λ flat. AreDataOf (presentation_of presentation) flat) }
{
    let signature = signature_with_twins(alloc, &presentation)?;
    Ok(Flat {
        signature,
        equations: presentation.equations.into_equations(),
    })
}
