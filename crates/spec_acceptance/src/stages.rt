//! What is known of a specification on the way.

ghost use Rattle.spec_acceptance.specs.Doing.{
  with_data_refused,
  with_libraries_refused,
  with_spec_refused,
};
ghost use Rattle.std.specs.Prelude.{◌≡◌};

use behaviour_tree::Spec;
use lotos_base::{Name, OrderItem};
use refusal_lines::{Ranks, Refused, SpecFault};
use sort_terms::Flat;

/// The libraries that were read, and the data.
#[derive(Drop)]
pub struct WithData {
    /// The libraries, in the order of the numbers of their texts.
    pub libraries: Vec<Name>,
    /// The data.
    pub flat: Flat,
}

/// The libraries, the data and the specification.
#[derive(Drop)]
pub struct WithSpec {
    /// The libraries, in the order of the numbers of their texts.
    pub libraries: Vec<Name>,
    /// The data.
    pub flat: Flat,
    /// The specification.
    pub spec: Spec,
}

/// The same, whose recursion is guarded, with the ranks of its processes.
#[derive(Drop)]
pub struct WithRanks {
    /// What is known.
    pub known: WithSpec,
    /// The ranks.
    pub ranks: Ranks,
}

/// The same, with the items of the order.
#[derive(Drop)]
pub struct WithOrder {
    /// What is known.
    pub known: WithRanks,
    /// The items.
    pub items: Vec<OrderItem>,
}

/// The refusal of a text before any data are there.
pub fn refused_early(libraries: Vec<Name>, fault: SpecFault) -> Refused
    ensures { result ≡ with_libraries_refused libraries fault }
{
    Refused {
        fault,
        libraries,
        flat: None,
        spec: None,
    }
}

impl WithData {
    /// The refusal of the text, whose data are known.
    pub fn refused(self, fault: SpecFault) -> Refused
        ensures { result ≡ with_data_refused self fault }
    {
        let WithData { libraries, flat } = self;
        Refused {
            fault,
            libraries,
            flat: Some(flat),
            spec: None,
        }
    }
}

impl WithSpec {
    /// The refusal of the text, whose data and specification are known.
    pub fn refused(self, fault: SpecFault) -> Refused
        ensures { result ≡ with_spec_refused self fault }
    {
        let WithSpec {
            libraries,
            flat,
            spec,
        } = self;
        Refused {
            fault,
            libraries,
            flat: Some(flat),
            spec: Some(spec),
        }
    }
}
