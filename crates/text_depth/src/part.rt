//! What is kept of a part of a text.

ghost use Rattle.std.specs.Prelude.{◌≡◌, IfOk, reverse};
ghost use Rattle.ll_engine.specs.Run.{from_last};
ghost use Rattle.lotos_base.specs.WrittenView.{text_place_of};
ghost use Rattle.syntax_trees.specs.Grouping.{grouped};
ghost use Rattle.syntax_trees.specs.Firsts.{firsts_between};
ghost use Rattle.syntax_trees.specs.FirstsView.{firsts_of};
ghost use Rattle.text_depth.specs.DepthPart.{of_firsts, of_flat, of_names};
ghost use Rattle.text_depth.specs.RowDepth.{grouped_firsts, or_no_nodes};
ghost use Rattle.text_depth.specs.PartView.{kept_of};

use lotos_base::Place;
use std::alloc::{AllocError, Global};
use syntax_trees::FirstNodes;
use syntax_trees::grouping::group_operands;

/// What is kept of a part of a text. Lists are held from the last member to the first.
#[derive(Debug, Drop)]
pub struct KeptPart {
    /// The places of names that may be declared.
    pub names: Vec<Place>,
    /// The first nodes of a term or a behaviour.
    pub firsts: FirstNodes,
    /// The first nodes of each operand of a flat list.
    pub operands: Vec<FirstNodes>,
    /// How strongly each sign between them binds.
    pub strengths: Vec<u8>,
}

/// A list the other way round.
pub fn turned<T>(mut list: Vec<T>) -> Vec<T>
    ensures { result.items ≡ reverse list.items }
{
    list.reverse();
    list
}

impl KeptPart {
    /// Of names.
    #[tactic(auto, using(tree_building::proofs::FromLast::from_last_none))]
    pub fn of_names(alloc: Global, names: Vec<Place>) -> KeptPart
        ensures { kept_of result ≡ of_names (from_last text_place_of names.items) }
    {
        KeptPart {
            names,
            firsts: FirstNodes::everywhere(alloc, None),
            operands: Vec::new(alloc),
            strengths: Vec::new(alloc),
        }
    }

    /// Of a term, of a behaviour, or of parts that count from their own roots.
    #[tactic(auto, using(tree_building::proofs::FromLast::from_last_none))]
    pub fn of_firsts(alloc: Global, firsts: FirstNodes) -> KeptPart
        ensures { kept_of result ≡ of_firsts (firsts_of firsts) }
    {
        KeptPart {
            names: Vec::new(alloc),
            firsts,
            operands: Vec::new(alloc),
            strengths: Vec::new(alloc),
        }
    }

    /// Of a flat list.
    #[tactic(auto, using(tree_building::proofs::FromLast::from_last_none))]
    pub fn of_flat(alloc: Global, operands: Vec<FirstNodes>, strengths: Vec<u8>) -> KeptPart
        ensures { kept_of result ≡ of_flat (from_last firsts_of operands.items)
            (from_last (λ strength. strength) strengths.items) }
    {
        KeptPart {
            names: Vec::new(alloc),
            firsts: FirstNodes::everywhere(alloc, None),
            operands,
            strengths,
        }
    }
}

/// The first nodes of the tree of a flat list.
pub fn grouped_firsts(
    alloc: Global,
    operands: Vec<FirstNodes>,
    strengths: Vec<u8>,
) -> Result<FirstNodes, AllocError>
    ensures { IfOk result (λ firsts. firsts_of firsts
        ≡ or_no_nodes (grouped (λ strength. strength) (λ strength. firsts_between)
        (from_last firsts_of operands.items) (from_last (λ strength. strength) strengths.items))) }
{
    if operands.len() != strengths.len() + 1 {
        return Ok(FirstNodes::everywhere(alloc, None));
    }
    group_operands(alloc, turned(operands), turned(strengths))
}
