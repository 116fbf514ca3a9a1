//! Whether a case came as it is wanted.

ghost use Rattle.std.specs.Prelude.{◌≡◌, ◌↔◌, map, true};
ghost use Rattle.case_tables.specs.Agreement.{Agrees, bytes_of, left_bytes};

use crate::cases::{Left, Outcome};

/// Whether what came is what was wanted.
pub fn is_as_wanted(wanted: &Outcome, came: &Outcome) -> bool
    ensures { (result ≡ true) ↔ Agrees wanted.now came.now }
{
    is_same_text(&wanted.prints, &came.prints)
        && wanted.status == came.status
        && are_same(wanted.leaves.as_slice(), came.leaves.as_slice())
}

/// Whether both are missing, or have the same bytes.
fn is_same_text(one: &Option<Vec<u8>>, other: &Option<Vec<u8>>) -> bool
    ensures { (result ≡ true) ↔ (bytes_of one.now ≡ bytes_of other.now) }
{
    match (one, other) {
        (Some(one), Some(other)) => one.as_slice() == other.as_slice(),
        (None, None) => true,
        _ => false,
    }
}

/// Whether both have the same texts in the same order.
#[tactic(auto, using(crate::proofs::LeftTexts::left_alike))]
fn are_same(one: &[Left], other: &[Left]) -> bool
    ensures { (result ≡ true) ↔ (map left_bytes one.now ≡ map left_bytes other.now) }
{
    if one.len() != other.len() {
        return false;
    }
    for index in 0..one.len() {
        if !is_same_text(&one[index].text, &other[index].text) {
            return false;
        }
    }
    true
}
