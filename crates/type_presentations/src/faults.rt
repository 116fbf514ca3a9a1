//! Faults at a place with the name that stands there.

ghost use Rattle.lotos_base.specs.Name.{spelling};
ghost use Rattle.lotos_base.specs.WrittenView.{text_place_of};
ghost use Rattle.std.specs.Prelude.{◌≡◌};
ghost use Rattle.type_definitions.specs.FaultView.{HoldsOfFault};
ghost use Rattle.type_definitions.specs.TypeFault.{
  double_operation as operation_twice,
  double_sort as sort_twice,
  too_large as too_much,
};

use lotos_base::{Name, Place};
use std::alloc::Global;
use type_definitions::TypeFault;

/// Two different sorts have one name.
pub fn double_sort(alloc: Global, place: Place, name: &Name) -> TypeFault
    ensures { HoldsOfFault result (λ fault. fault
        ≡ sort_twice (text_place_of place) (spelling name.now)) }
{
    match name.copy(alloc) {
        Ok(name) => TypeFault::DoubleSort { place, name },
        Err(_) => TypeFault::NoMemory,
    }
}

/// Two different operations have one name, form and profile.
pub fn double_operation(alloc: Global, place: Place, name: &Name) -> TypeFault
    ensures { HoldsOfFault result (λ fault. fault
        ≡ operation_twice (text_place_of place) (spelling name.now)) }
{
    match name.copy(alloc) {
        Ok(name) => TypeFault::DoubleOperation { place, name },
        Err(_) => TypeFault::NoMemory,
    }
}

/// There are too many sorts, operations or equations.
pub fn too_large(alloc: Global, place: Place, name: &Name) -> TypeFault
    ensures { HoldsOfFault result (λ fault. fault
        ≡ too_much (text_place_of place) (spelling name.now)) }
{
    match name.copy(alloc) {
        Ok(name) => TypeFault::TooLarge { place, name },
        Err(_) => TypeFault::NoMemory,
    }
}
