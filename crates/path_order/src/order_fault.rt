//! Why an order of operations was refused.

ghost use Rattle.std.specs.Prelude.{◌≡◌};

use lotos_base::{Name, NoMemory, Place};
use std::alloc::{AllocError, AllocFailed};

/// Why an order of operations was refused. The first item with a fault counts, and of one item the
/// first of these.
#[derive(Debug, Drop)]
pub enum OrderFault {
    /// The item lists no operation.
    UnknownOperation {
        /// The place of the item's name.
        place: Place,
        /// The item's name.
        name: Name,
    },
    /// The item lists an operation that an earlier item lists.
    TwiceListed {
        /// The place of the item's name.
        place: Place,
        /// The item's name.
        name: Name,
    },
    /// The item writes another name than `left` or `right` as its status.
    BadStatus {
        /// The place of that name.
        place: Place,
        /// That name.
        name: Name,
    },
    /// Memory was wanted and not there.
    NoMemory,
}

impl From<NoMemory> for OrderFault {
    ghost use Rattle.path_order.specs.declared.order_fault.OrderFault.TheVariants.{
      NoMemory as out_of_memory,
    };

    ghost from_gives = { λ _ fault. fault ≡ out_of_memory };

    fn from(_fault: NoMemory) -> OrderFault {
        OrderFault::NoMemory
    }
}

impl From<AllocError> for OrderFault {
    ghost use Rattle.path_order.specs.declared.order_fault.OrderFault.TheVariants.{
      NoMemory as out_of_memory,
    };

    ghost from_gives = { λ _ fault. fault ≡ out_of_memory };

    fn from(_fault: AllocError) -> OrderFault {
        OrderFault::NoMemory
    }
}

impl<T: Drop> From<AllocFailed<T>> for OrderFault {
    ghost use Rattle.path_order.specs.declared.order_fault.OrderFault.TheVariants.{
      NoMemory as out_of_memory,
    };

    ghost from_gives = { λ _ fault. fault ≡ out_of_memory };

    fn from(_fault: AllocFailed<T>) -> OrderFault {
        OrderFault::NoMemory
    }
}
