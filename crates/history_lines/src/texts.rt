//! The texts of answers.

ghost use Rattle.history_lines.specs.RefusalView.{AddsDecline, AddsFault};
ghost use Rattle.session_log.specs.HandedOn.{written_label, written_menu};
ghost use Rattle.sort_terms.specs.SignatureView.{signature_of};
ghost use Rattle.std.specs.Prelude.{◌≡◌, ◌++◌, [], IfOk, codes, decimal};

use crate::refusals::{Decline, push_decline, push_fault};
use lotos_base::NoMemory;
use session_log::{Label, Menu, ReplayFault, Spec, label_text, menu_text, push_number, push_text};
use sort_terms::Signature;
use std::alloc::Global;

/// A step that was taken: its label, and the menu behind it.
#[tactic(auto, using(crate::proofs::TextPieces::fresh_four))]
pub fn did_line(
    alloc: Global,
    signature: &Signature,
    spec: &Spec,
    label: &Label,
    menu: &Menu,
) -> Result<Vec<u8>, NoMemory>
    ensures { IfOk result (λ text. text.items ≡ codes "did "
        ++ written_label signature.now spec.now.gate_names.items label.now ++ codes "\n"
        ++ written_menu signature.now spec.now.gate_names.items menu.now) }
{
    let mut text = Vec::new(alloc);
    push_text(&mut text, b"did ")?;
    label_text(signature, spec, label, &mut text)?;
    push_text(&mut text, b"\n")?;
    menu_text(signature, spec, menu, &mut text)?;
    Ok(text)
}

/// A step that was undone: the menu before it.
#[tactic(auto, using(crate::proofs::TextPieces::fresh_two))]
pub fn undone_line(
    alloc: Global,
    signature: &Signature,
    spec: &Spec,
    menu: &Menu,
) -> Result<Vec<u8>, NoMemory>
    ensures { IfOk result (λ text. text.items ≡ codes "undone\n"
        ++ written_menu signature.now spec.now.gate_names.items menu.now) }
{
    let mut text = Vec::new(alloc);
    push_text(&mut text, b"undone\n")?;
    menu_text(signature, spec, menu, &mut text)?;
    Ok(text)
}

/// A trace that was replayed: how many steps it has, and the menu behind them.
#[tactic(auto, using(crate::proofs::TextPieces::fresh_four))]
pub fn replayed_line(
    alloc: Global,
    count: usize,
    signature: &Signature,
    spec: &Spec,
    menu: &Menu,
) -> Result<Vec<u8>, NoMemory>
    ensures { IfOk result (λ text. text.items ≡ codes "replayed " ++ decimal count ++ codes "\n"
        ++ written_menu signature.now spec.now.gate_names.items menu.now) }
{
    let mut text = Vec::new(alloc);
    push_text(&mut text, b"replayed ")?;
    push_number(&mut text, count as u128)?;
    push_text(&mut text, b"\n")?;
    menu_text(signature, spec, menu, &mut text)?;
    Ok(text)
}

/// The menu.
#[tactic(auto, using(crate::proofs::TextPieces::fresh_one))]
pub fn menu_lines(
    alloc: Global,
    signature: &Signature,
    spec: &Spec,
    menu: &Menu,
) -> Result<Vec<u8>, NoMemory>
    ensures { IfOk result (λ text. text.items
        ≡ written_menu signature.now spec.now.gate_names.items menu.now) }
{
    let mut text = Vec::new(alloc);
    menu_text(signature, spec, menu, &mut text)?;
    Ok(text)
}

/// Some words, and a name behind them.
#[tactic(auto, using(crate::proofs::TextPieces::fresh_three))]
pub fn name_line(alloc: Global, words: &[u8], name: &str) -> Result<Vec<u8>, NoMemory>
    ensures { IfOk result (λ text. text.items ≡ words.now ++ name.now ++ codes "\n") }
{
    let mut text = Vec::new(alloc);
    push_text(&mut text, words)?;
    push_text(&mut text, name.as_bytes())?;
    push_text(&mut text, b"\n")?;
    Ok(text)
}

/// A line that stands as it is.
pub fn bare_line(alloc: Global, line: &[u8]) -> Result<Vec<u8>, NoMemory>
    ensures { IfOk result (λ text. text.items ≡ line.now) }
{
    Ok(Vec::from_slice(alloc, line)?)
}

/// The line of a step that is refused. Want of memory has none.
pub fn decline_line(
    alloc: Global,
    signature: &Signature,
    decline: &Decline,
) -> Result<Vec<u8>, NoMemory>
    ensures { IfOk result (λ text. AddsDecline
        (signature_of signature.now) decline.now [] text.items) }
{
    let mut text = Vec::new(alloc);
    push_decline(signature, decline, &mut text)?;
    Ok(text)
}

/// The line of a trace that is refused in a session of the specification with this name. Want of
/// memory has none.
pub fn fault_line(alloc: Global, name: &[u8], fault: &ReplayFault) -> Result<Vec<u8>, NoMemory>
    ensures { IfOk result (λ text. AddsFault name.now fault.now [] text.items) }
{
    let mut text = Vec::new(alloc);
    push_fault(name, fault, &mut text)?;
    Ok(text)
}
