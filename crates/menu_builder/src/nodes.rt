//! The drafts of the moves of a node.

ghost use Rattle.behaviour_tree.specs.Over.{IsSpecOver};
ghost use Rattle.draft_parts.specs.HandedOn.{KeepsData};
ghost use Rattle.menu_builder.specs.Nodes.{IsListedNode, IsNodeOver};
ghost use Rattle.menu_builder.specs.Placed.{menu_basis_of};
ghost use Rattle.process_checks.specs.Ranks.{AreRanksOf};
ghost use Rattle.std.specs.Prelude.{IfOk};

use crate::levels::Levels;
use crate::{behaviour_moves, call_moves};
use behaviour_tree::{Node, Spec};
use draft_parts::{Draft, Rule, Variant, beside, either};
use lotos_base::NoMemory;
use process_checks::Ranks;
use sort_terms::Deciding;
use std::alloc::Global;

/// The drafts of the moves of the node, whose leaves are numbered from `first` on, where the rules
/// nest no deeper than so many levels.
pub fn node_moves<D: Deciding>(
    alloc: Global,
    spec: &Spec,
    ranks: &Ranks,
    node: &Node,
    first: u64,
    levels: Levels,
    decider: &mut D,
) -> Result<Vec<Draft>, NoMemory>
    requires over { IsSpecOver (D.known_data decider.old).signature spec.now }
    requires ranks { AreRanksOf spec.now ranks.now }
    requires node { IsNodeOver
        (menu_basis_of (D.known_data decider.old) (D.canon decider.old) spec.now) first node.now }
    ensures listed { IfOk result (λ made. IsListedNode
        (menu_basis_of (D.known_data decider.old) (D.canon decider.old) spec.now) first node.now
        made.items) }
    ensures same_known { KeepsData D.known_data D.canon decider.old decider.new }
{
    match node {
        Node::Stop => Ok(Vec::new(alloc)),
        Node::Part(behaviour, environment) => {
            behaviour_moves(spec, ranks, behaviour, environment, first, levels, decider)
        }
        Node::Call {
            process,
            gates,
            values,
        } => {
            let none = Vec::new(alloc);
            call_moves(
                spec, ranks, *process, gates, values, &none, first, levels, decider,
            )
        }
        Node::Parallel(meet, left, right) => {
            let below = levels.below()?;
            let lefts = node_moves(alloc, spec, ranks, left, first, below, decider)?;
            let rights = node_moves(alloc, spec, ranks, right, first, below, decider)?;
            beside(lefts, rights, meet, first)
        }
        Node::Hide(gates, part) => {
            let below = levels.below()?;
            let parts = node_moves(alloc, spec, ranks, part, first, below, decider)?;
            Rule::Hidden(gates.as_slice()).apply_to_all(parts)
        }
        Node::Enable(left, variables, _, _) => {
            let below = levels.below()?;
            let parts = node_moves(alloc, spec, ranks, left, first, below, decider)?;
            Rule::Enabled(variables).apply_to_all(parts)
        }
        Node::Disable(left, right) => {
            let below = levels.below()?;
            let lefts = node_moves(alloc, spec, ranks, left, first, below, decider)?;
            let rights = node_moves(alloc, spec, ranks, right, first, below, decider)?;
            either(lefts, rights)
        }
        Node::Relabel(pairs, part) => {
            let below = levels.below()?;
            let parts = node_moves(alloc, spec, ranks, part, first, below, decider)?;
            Rule::Relabelled(pairs.as_slice(), Variant::Relabelled).apply_to_all(parts)
        }
    }
}
