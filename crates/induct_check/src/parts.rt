//! Bytes cut into parts.

ghost use Rattle.induct_check.specs.CertificateLines.{cut_at_blank, parts_at as parts_of};
ghost use Rattle.std.specs.Option.{option_map};
ghost use Rattle.std.specs.Prelude.{
  ◌≡◌,
  ◌==◌,
  ◌∷◌,
  ◌<◌,
  [],
  IfOk,
  MatchOption,
  Some,
  length,
  map,
  position,
  slice_get,
};

use lotos_base::NoMemory;
use std::alloc::Global;

/// The parts of the bytes that a separator parts; at least one.
pub fn parts_at(alloc: Global, bytes: &[u8], separator: u8) -> Result<Vec<&[u8]>, NoMemory>
    ensures { IfOk result (λ parts. map (λ part. part.now) parts.items
        ≡ parts_of separator bytes.now) }
{
    let mut parts = Vec::new(alloc);
    let mut rest = bytes;
    while let Some(two) = first_of_parts(rest, separator) {
        parts.push(two.0)?;
        rest = two.1;
    }
    parts.push(rest)?;
    Ok(parts)
}

// The first part and what stands behind its separator, if there is a separator.
#[tactic(auto, using(crate::proofs::PartLemmas::one_part, crate::proofs::PartLemmas::part_cut, crate::proofs::PartLemmas::short_cut))]
fn first_of_parts(bytes: &[u8], separator: u8) -> Option<(&[u8], &[u8])>
    ensures { MatchOption result (parts_of separator bytes.now ≡ bytes.now ∷ [])
        (λ two. (parts_of separator bytes.now ≡ two.0.now ∷ parts_of separator two.1.now)
        × (length two.1.now < length bytes.now)) }
{
    match position_of(bytes, separator) {
        None => None,
        Some(place) => Some((&bytes[..place], &bytes[place + 1..])),
    }
}

// The position of the first such byte.
fn position_of(bytes: &[u8], byte: u8) -> Option<usize>
    ensures { result ≡ position (λ b. b == byte) bytes.now }
{
    bytes.iter().position(|b| *b == byte)
}

/// The first word of the bytes, with what stands behind the blank that ends it, if one does.
pub fn cut(bytes: &[u8]) -> (&[u8], Option<&[u8]>)
    ensures word { result.0.now ≡ (cut_at_blank bytes.now).word }
    ensures rest { option_map (λ rest. rest.now) result.1 ≡ (cut_at_blank bytes.now).rest }
{
    match position_of(bytes, b' ') {
        None => (bytes, None),
        Some(place) => (&bytes[..place], Some(&bytes[place + 1..])),
    }
}

/// The part with this number.
pub fn part_at<'a>(parts: &[&'a [u8]], number: usize) -> &'a [u8]
    requires { number < length parts.now }
    ensures { slice_get (map (λ part. part.now) parts.now) number ≡ Some result.now }
{
    parts[number]
}
