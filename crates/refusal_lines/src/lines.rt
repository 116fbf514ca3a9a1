//! The line of a refusal.

ghost use Rattle.refusal_lines.specs.LineView.{line_told, names_of};
ghost use Rattle.refusal_lines.specs.RefusalText.{refusal_text};
ghost use Rattle.refusal_lines.specs.RefusalView.{refused_of};
ghost use Rattle.std.specs.Prelude.{◌≡◌, ◌++◌, IfSome, MatchResult, OnOk};

use crate::details::push_detail;
use crate::places::place;
use crate::refused::Refused;
use crate::text_names::{TextNames, push_at};
use crate::words::words;
use lotos_base::NoMemory;
use printed_texts::brackets::push_text;

/// Appends the line of a refusal: `refused`, its number and name, where it stands, and its detail.
/// `spec` and `order` are the words for the specification and the order file; `order` is empty
/// where there is none. After want of memory `into` is as it was.
pub fn refusal_line(
    spec: &str,
    order: &str,
    refused: &Refused,
    into: &mut Vec<u8>,
) -> Result<(), NoMemory>
    ensures { MatchResult result
        (λ _. IfSome (refused_of refused.now) (λ told. into.new.items
        ≡ into.old.items ++ refusal_text spec.now order.now told))
        (λ _. into.new.items ≡ into.old.items) }
{
    let names = TextNames {
        spec,
        order,
        libraries: refused.libraries.as_slice(),
    };
    append_line(&names, refused, into)?;
    Ok(())
}

// Appends the line of a refusal, or nothing.
fn append_line(names: &TextNames, refused: &Refused, into: &mut Vec<u8>) -> Result<(), NoMemory>
    ensures { MatchResult result
        (λ _. into.new.items ≡ into.old.items ++ line_told (names_of names.now) refused.now)
        (λ _. into.new.items ≡ into.old.items) }
{
    let mut text = Vec::new(*into.allocator());
    push_line(names, refused, &mut text)?;
    Ok(into.extend_from_slice(text.as_slice())?)
}

// Appends the line of a refusal.
fn push_line(names: &TextNames, refused: &Refused, into: &mut Vec<u8>) -> Result<(), NoMemory>
    ensures { OnOk result (into.new.items
        ≡ into.old.items ++ line_told (names_of names.now) refused.now) }
{
    push_text(into, b"refused ")?;
    push_text(into, words(&refused.fault))?;
    push_at(names, place(&refused.fault, &refused.flat), into)?;
    push_detail(names, refused, into)?;
    push_text(into, b"\n")
}
