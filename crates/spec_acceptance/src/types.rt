//! Flattening the types.

ghost use Rattle.refusal_lines.specs.HandedOn.{gathered_of};
ghost use Rattle.sort_terms.specs.EquationView.{data_of};
ghost use Rattle.spec_acceptance.specs.Doing.{Faulty};
ghost use Rattle.spec_acceptance.specs.Known.{KnowsData};
ghost use Rattle.spec_acceptance.specs.Types.{HaveData, HaveFault, types_told};
ghost use Rattle.std.specs.Prelude.{MatchResult};
ghost use Rattle.type_definitions.specs.DeclaredTypes.{types_of};

use crate::not_accepted::NotAccepted;
use crate::refusals::types_refusal;
use crate::stages::WithData;
use refusal_lines::Gathered;
use std::alloc::Global;
use type_flatten::flatten;

/// The data of the types.
pub fn data(alloc: Global, gathered: Gathered) -> Result<WithData, NotAccepted>
    ensures { MatchResult result
        (λ known. KnowsData (gathered_of gathered).read (data_of known.flat) known
        × HaveData (types_of (gathered_of gathered).types) (data_of known.flat))
        (Faulty (HaveFault (types_of (gathered_of gathered).types))
        (types_told (gathered_of gathered).read)) }
{
    let Gathered { libraries, types } = gathered;
    match flatten(alloc, types.as_slice()) {
        Ok(flat) => Ok(WithData { libraries, flat }),
        Err(fault) => Err(types_refusal(libraries, fault)),
    }
}
