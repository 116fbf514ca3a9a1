//! The calls that print terms, labels and menus. After a failure for want of memory the text that
//! is appended to is as it was.

ghost use Rattle.printed_texts.specs.TextView.{written_label, written_menu, written_term};
ghost use Rattle.std.specs.Prelude.{◌≡◌, ◌++◌, MatchResult};

use crate::labels::push_label;
use crate::menus::push_menu;
use crate::terms::push_phrase;
use event_offers::{Label, Menu, Spec};
use lotos_base::NoMemory;
use sort_terms::{Signature, Sorted, Variable};

/// Appends the text of a term (ISO 8807:1989, value expressions): `f(a, b)`, or `l + r` for an
/// infix operation, where an operand that is infix stands in brackets. ` of S` follows where
/// another operation has the same name, form and argument sorts. A variable has the first of the
/// names with its number; the variable number `k` without one is `$` and the decimal of `k + 1`.
pub fn term_text(
    signature: &Signature,
    names: &[Variable],
    term: &Sorted,
    into: &mut Vec<u8>,
) -> Result<(), NoMemory>
    ensures { MatchResult result
        (λ _. into.new.items ≡ into.old.items ++ written_term signature.now names.now term.now)
        (λ _. into.new.items ≡ into.old.items) }
{
    let mut text = Vec::new(*into.allocator());
    push_phrase(signature, names, term.term(), false, &mut text)?;
    Ok(into.extend_from_slice(text.as_slice())?)
}

/// Appends the text of a label: `i`, a gate with ` !` before each value, or `exit` with its values
/// in brackets. A variable is `$` and the decimal of its number and one.
pub fn label_text(
    signature: &Signature,
    spec: &Spec,
    label: &Label,
    into: &mut Vec<u8>,
) -> Result<(), NoMemory>
    ensures { MatchResult result
        (λ _. into.new.items ≡ into.old.items
        ++ written_label signature.now spec.now.gate_names.items label.now)
        (λ _. into.new.items ≡ into.old.items) }
{
    let mut text = Vec::new(*into.allocator());
    push_label(signature, spec.gate_names.as_slice(), label, &mut text)?;
    Ok(into.extend_from_slice(text.as_slice())?)
}

/// Appends the text of a menu: how many entries it has, and a line for each with its number from 1,
/// its label, its variables with their sorts and its conditions.
pub fn menu_text(
    signature: &Signature,
    spec: &Spec,
    menu: &Menu,
    into: &mut Vec<u8>,
) -> Result<(), NoMemory>
    ensures { MatchResult result
        (λ _. into.new.items ≡ into.old.items
        ++ written_menu signature.now spec.now.gate_names.items menu.now)
        (λ _. into.new.items ≡ into.old.items) }
{
    let mut text = Vec::new(*into.allocator());
    push_menu(signature, spec.gate_names.as_slice(), menu, &mut text)?;
    Ok(into.extend_from_slice(text.as_slice())?)
}
