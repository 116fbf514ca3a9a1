//! The first nodes of a part of a text from each depth on.

ghost use Rattle.std.specs.Prelude.{◌≡◌, ◌++◌, IfOk, drop, length, option_map, reverse};
ghost use Rattle.lotos_base.specs.WrittenView.{text_place_of};
ghost use Rattle.syntax_trees.specs.Firsts.{firsts_below, firsts_between, everywhere, first_from, firsts_followed};
ghost use Rattle.syntax_trees.specs.FirstsView.{firsts_of};

use lotos_base::Place;
use std::alloc::{AllocError, Global};

/// The first nodes from each depth below the root on, in text order.
#[derive(Debug, Drop)]
pub struct FirstNodes {
    /// The places, from the deepest to that of the first node of all.
    pub places: Vec<Place>,
    /// The first node that is too deep wherever the root stands.
    pub rest: Option<Place>,
}

impl FirstNodes {
    /// Of no node but those that are too deep wherever the root stands.
    pub fn everywhere(alloc: Global, rest: Option<Place>) -> FirstNodes
        ensures { firsts_of result ≡ everywhere (option_map text_place_of rest) }
    {
        FirstNodes {
            places: Vec::new(alloc),
            rest,
        }
    }

    /// The first node so far below the root or further.
    pub fn first_from(&self, below: usize) -> Option<Place>
        ensures { option_map text_place_of result ≡ first_from (firsts_of self.now) below }
    {
        if below < self.places.len() {
            Some(self.places[self.places.len() - 1 - below])
        } else {
            self.rest
        }
    }

    /// With a node in front, which the others stand one below.
    pub fn below(self, place: Place) -> Result<FirstNodes, AllocError>
        ensures { IfOk result (λ nodes. firsts_of nodes
            ≡ firsts_below (text_place_of place) (firsts_of self)) }
    {
        let FirstNodes { mut places, rest } = self;
        places.push(place)?;
        Ok(FirstNodes { places, rest })
    }

    /// Those of this part, and then those of the part behind it. The work is that of the shorter
    /// list.
    pub fn followed(self, behind: FirstNodes) -> Result<FirstNodes, AllocError>
        ensures { IfOk result (λ nodes. firsts_of nodes
            ≡ firsts_followed (firsts_of self) (firsts_of behind)) }
    {
        if self.rest.is_some() {
            return Ok(self);
        }
        let FirstNodes { places, rest: _ } = self;
        let rest = behind.rest;
        Ok(FirstNodes {
            places: overlaid(places, behind.places)?,
            rest,
        })
    }

    /// Those of a node between this part and the part behind it, which both stand one below.
    pub fn between(self, behind: FirstNodes) -> Result<FirstNodes, AllocError>
        ensures { IfOk result (λ nodes. firsts_of nodes
            ≡ firsts_between (firsts_of self) (firsts_of behind)) }
    {
        match self.places.last().copied() {
            Some(place) => self.followed(behind)?.below(place),
            None => self.followed(behind),
        }
    }
}

/// The places of the first list over those of the second, where both count from their ends.
fn overlaid(over: Vec<Place>, under: Vec<Place>) -> Result<Vec<Place>, AllocError>
    ensures { IfOk result (λ places. reverse places.items ≡ reverse over.items
        ++ drop (length over.items) (reverse under.items)) }
{
    if over.len() >= under.len() {
        return Ok(over);
    }
    let mut under = under;
    under.truncate(under.len() - over.len());
    under.extend_from_slice(&over)?;
    Ok(under)
}
