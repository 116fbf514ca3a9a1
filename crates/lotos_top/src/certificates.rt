//! The words that check certificates: nothing but one text is made ready for them.

ghost use Rattle.certificate_verbs.specs.HandedOn.{
  bisimilarity,
  compared_files as names_compared,
  induced as names_induced,
  induction,
};
ghost use Rattle.lotos_top.specs.Prepared.{CameTo, IsReady};
ghost use Rattle.std.specs.Prelude.{MatchResult, Some};

use crate::opening::Ready;
use certificate_verbs::{bisim, induct};
use lotos_base::{NoMemory, Shelf};
use std::alloc::Global;

/// Makes ready what `bisim` prints.
pub fn compared<F: Shelf>(
    alloc: Global,
    spec: &str,
    other: &str,
    pairs: &str,
    shelf: &mut F,
) -> Result<Ready, NoMemory>
    ensures { MatchResult result
        (IsReady (Some (bisimilarity (names_compared spec.now other.now pairs.now)))
        (F.state shelf.old) (F.state shelf.new))
        (λ _. CameTo (Some (bisimilarity (names_compared spec.now other.now pairs.now)))
        (F.state shelf.old) (F.state shelf.new)) }
{
    match bisim(alloc, spec, other, pairs, shelf) {
        Ok(alone) => Ok(Ready::Alone(alone)),
        Err(NoMemory) => Err(NoMemory),
    }
}

/// Makes ready what `induct` prints.
pub fn induced<F: Shelf>(
    alloc: Global,
    spec: &str,
    proofs: &str,
    shelf: &mut F,
) -> Result<Ready, NoMemory>
    ensures { MatchResult result
        (IsReady (Some (induction (names_induced spec.now proofs.now)))
        (F.state shelf.old) (F.state shelf.new))
        (λ _. CameTo (Some (induction (names_induced spec.now proofs.now)))
        (F.state shelf.old) (F.state shelf.new)) }
{
    match induct(alloc, spec, proofs, shelf) {
        Ok(alone) => Ok(Ready::Alone(alone)),
        Err(NoMemory) => Err(NoMemory),
    }
}
