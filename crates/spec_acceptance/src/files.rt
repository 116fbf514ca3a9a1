//! Getting a file from the shelf.

ghost use Rattle.refusal_lines.specs.HandedOn.{GivesFile};
ghost use Rattle.spec_acceptance.specs.Doing.{FileIsNotGot};
ghost use Rattle.std.specs.Prelude.{MatchResult};

use crate::not_accepted::NotAccepted;
use lotos_base::{GetFault, Shelf, TEXT_LIMIT};
use std::alloc::Global;

/// The text under the name, up to one byte past the limit. `File` comes exactly where the shelf's
/// count of faults rose in this call, or the shelf lacks the file.
pub fn file<F: Shelf>(alloc: Global, name: &str, shelf: &mut F) -> Result<Vec<u8>, NotAccepted>
    ensures { MatchResult result
        (λ text. GivesFile (F.state shelf.old) (F.state shelf.new)
        name.now text.items)
        (FileIsNotGot (F.state shelf.old) (F.state shelf.new)
        name.now) }
{
    let kept = Vec::from_slice(alloc, name.as_bytes())?;
    let mut text = Vec::new(alloc);
    match shelf.get(name, TEXT_LIMIT + 1, &mut text) {
        Ok(()) => Ok(text),
        Err(GetFault::Missing) => Err(NotAccepted::File { name: kept }),
        Err(GetFault::Failed) => Err(NotAccepted::File { name: kept }),
        Err(GetFault::NoMemory) => Err(NotAccepted::NoMemory),
    }
}
