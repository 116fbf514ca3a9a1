//! The pairs that made what came.

ghost use Rattle.type_renaming.specs.MakersView.{place_seen};
ghost use Rattle.type_renaming.specs.Noting.{first_place, maker_at, maker_noted, two_makers};
ghost use Rattle.lotos_base.specs.WrittenView.{text_place_of};
ghost use Rattle.type_definitions.specs.Presentation.{is_same_place as are_same_place};
ghost use Rattle.std.specs.Prelude.{◌≡◌, ◌≤◌, IfOk, OnOk, length};

use lotos_base::{NoMemory, Place};
use std::alloc::Global;

/// For each member, by its number, the place of the first pair that made it, if one did.
#[derive(Drop)]
pub struct Makers {
    places: Vec<Option<Place>>,
}

impl Makers {
    ghost use Rattle.type_renaming.specs.MakersView.{makers_in};
    ghost use Rattle.type_renaming.specs.Noting.{no_makers};

    /// As many members, none of which a pair made.
    pub fn new(alloc: Global, count: usize) -> Result<Makers, NoMemory>
        ensures { IfOk result (λ makers. makers_in makers ≡ no_makers count) }
    {
        let mut places = Vec::with_capacity(alloc, count)?;
        for _number in 0..count {
            places.push(None)?;
        }
        Ok(Makers { places })
    }

    /// Notes that a pair at this place, if there is one, made the member of this number, or a new
    /// one behind the others; answers whether another pair made it before.
    pub fn note(&mut self, number: usize, maker: Option<Place>) -> Result<bool, NoMemory>
        requires { number ≤ length (makers_in self.old) }
        ensures makers { OnOk result (makers_in self.new
            ≡ maker_noted (makers_in self.old) number (place_seen maker)) }
        ensures two { IfOk result (λ two. two
            ≡ two_makers (place_seen maker) (maker_at (makers_in self.old) number)) }
    {
        if number < self.places.len() {
            let before = self.places[number];
            self.places[number] = first_of(before, maker);
            let two = are_two(maker, before);
            return Ok(two);
        }
        self.places.push(maker)?;
        Ok(false)
    }
}

// The first of two places, if there is one.
fn first_of(before: Option<Place>, maker: Option<Place>) -> Option<Place>
    ensures { place_seen result ≡ first_place (place_seen before) (place_seen maker) }
{
    match before {
        Some(_) => before,
        None => maker,
    }
}

// Whether both are there and differ.
fn are_two(maker: Option<Place>, before: Option<Place>) -> bool
    ensures { result ≡ two_makers (place_seen maker) (place_seen before) }
{
    let Some(one) = maker else {
        return false;
    };
    let Some(other) = before else {
        return false;
    };
    let is_same = is_same_place(one, other);
    !is_same
}

// Whether two places are one.
fn is_same_place(one: Place, other: Place) -> bool
    ensures { result ≡ are_same_place (text_place_of one) (text_place_of other) }
{
    one.text == other.text && one.line == other.line && one.col == other.col
}
