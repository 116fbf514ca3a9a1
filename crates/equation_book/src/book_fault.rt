//! Why a book is not opened.

ghost use Rattle.std.specs.Prelude.{◌≡◌};

use critical_pairs::pair_fault::PairFault;
use lotos_base::{Name, NoMemory, Place};
use path_order::{OrderFault, OrientFault};
use sort_terms::{Flat, Sorted};

/// The data as they were given, and why they make no book.
#[derive(Drop)]
pub struct NotOpened {
    /// The data.
    pub flat: Flat,
    /// The first fault: of the order, then of an equation, then of a critical pair.
    pub fault: BookFault,
}

/// Why data make no book.
#[derive(Debug, Drop)]
pub enum BookFault {
    /// An item of the order names no operation.
    UnknownOperation {
        /// The place of the item.
        place: Place,
        /// The name in it.
        name: Name,
    },
    /// An item of the order names an operation that an earlier item has named.
    TwiceListed {
        /// The place of the item.
        place: Place,
        /// The name in it.
        name: Name,
    },
    /// An item of the order writes another name than `left` or `right` as its status.
    BadStatus {
        /// The place of that name.
        place: Place,
        /// That name.
        name: Name,
    },
    /// The sides of the equation differ, and neither is greater. It is the first such equation.
    Unorientable {
        /// The number of the equation, from 0.
        equation: u32,
    },
    /// The two sides of a critical pair have different chosen forms. It is the first such pair.
    Unjoined {
        /// The number of the equation of the first rule.
        first: u32,
        /// The number of the equation of the second rule.
        second: u32,
        /// The peak of the pair.
        peak: Sorted,
        /// The chosen form of what the first rule makes of the peak.
        left: Sorted,
        /// The chosen form of what the second rule makes of the peak.
        right: Sorted,
    },
    /// Memory was wanted and not there.
    NoMemory,
}

impl From<OrderFault> for BookFault {
    ghost use Rattle.equation_book.specs.Refusal.{book_fault_of_order};

    ghost from_gives = { λ order fault. fault ≡ book_fault_of_order order };

    fn from(fault: OrderFault) -> BookFault {
        match fault {
            OrderFault::UnknownOperation { place, name } => {
                BookFault::UnknownOperation { place, name }
            }
            OrderFault::TwiceListed { place, name } => BookFault::TwiceListed { place, name },
            OrderFault::BadStatus { place, name } => BookFault::BadStatus { place, name },
            OrderFault::NoMemory => BookFault::NoMemory,
        }
    }
}

impl From<OrientFault> for BookFault {
    ghost use Rattle.equation_book.specs.Refusal.{book_fault_of_orientation};

    ghost from_gives = { λ orient fault. fault ≡ book_fault_of_orientation orient };

    fn from(fault: OrientFault) -> BookFault {
        match fault {
            OrientFault::Unorientable { equation } => BookFault::Unorientable { equation },
            OrientFault::NoMemory => BookFault::NoMemory,
        }
    }
}

impl From<PairFault> for BookFault {
    ghost use Rattle.equation_book.specs.Refusal.{book_fault_of_pair};

    ghost from_gives = { λ pair fault. fault ≡ book_fault_of_pair pair };

    fn from(fault: PairFault) -> BookFault {
        match fault {
            PairFault::Unjoined {
                first,
                second,
                peak,
                left,
                right,
            } => BookFault::Unjoined {
                first,
                second,
                peak,
                left,
                right,
            },
            PairFault::NoMemory => BookFault::NoMemory,
        }
    }
}

impl From<NoMemory> for BookFault {
    ghost use Rattle.equation_book.specs.declared.book_fault.BookFault.TheVariants.{
      NoMemory as out_of_memory,
    };

    ghost from_gives = { λ _ fault. fault ≡ out_of_memory };

    fn from(_fault: NoMemory) -> BookFault {
        BookFault::NoMemory
    }
}
