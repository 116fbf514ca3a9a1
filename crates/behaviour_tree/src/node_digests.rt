//! Digests of closed behaviours.

ghost use Rattle.behaviour_tree.specs.Digests.{digest};
ghost use Rattle.behaviour_tree.specs.TermDigests.{list_digest};
ghost use Rattle.behaviour_tree.specs.BehaviourView.{terms_of};
ghost use Rattle.behaviour_tree.specs.StateView.{stands_for};
ghost use Rattle.behaviour_tree.specs.declared.binders.Binders.{Outermost};
ghost use Rattle.std.specs.Prelude.{◌≡◌};

use crate::Node;
use crate::binders::Binders;
use crate::mixing::mix;
use crate::part_digests::part_digest;
use crate::placing::Placing;
use crate::term_digests::values_digest;
use sort_terms::Sorted;

/// The digest of the closed behaviour: a number below 2^53 that identical behaviours have in
/// common. Takes no memory.
pub fn node_digest(node: &Node) -> u64
    ensures { result ≡ digest (stands_for node.now) }
{
    match node {
        Node::Stop => 1,
        Node::Part(behaviour, environment) => part_digest(behaviour, &placing(environment)),
        Node::Call {
            process,
            values,
            ..
        } => mix(mix(15, *process as u64), closed_digest(values)),
        Node::Parallel(_, left, right) => mix(mix(7, node_digest(left)), node_digest(right)),
        Node::Hide(_, part) => mix(8, node_digest(part)),
        Node::Enable(left, variables, right, environment) => {
            let here = placing(environment);
            let inside = Placing {
                environment: here.environment,
                binders: Binders::Accept(variables, &here.binders),
            };
            mix(mix(9, node_digest(left)), part_digest(right, &inside))
        }
        Node::Disable(left, right) => mix(mix(10, node_digest(left)), node_digest(right)),
        Node::Relabel(_, part) => mix(16, node_digest(part)),
    }
}

// The values of an environment, below no binder.
fn placing(environment: &Vec<(u64, Sorted)>) -> Placing<'_>
    ensures environment { result.environment.now ≡ environment.now.items }
    ensures binders { result.binders ≡ Outermost }
{
    Placing {
        environment: environment.as_slice(),
        binders: Binders::Outermost,
    }
}

// The digest of the closed values.
#[tactic(auto, using(crate::proofs::ClosedValues::closed_values))]
fn closed_digest(values: &Vec<Sorted>) -> u64
    ensures { result ≡ list_digest 0 (terms_of values.now.items) }
{
    let nothing = Placing {
        environment: &[],
        binders: Binders::Outermost,
    };
    values_digest(values, &nothing)
}
