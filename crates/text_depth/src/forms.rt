//! What the rows of terms and behaviours keep of their parts.
#![tactic(auto, using(tree_building::proofs::FromLast::from_last_more, tree_building::proofs::FromLast::from_last_none))]

ghost use Rattle.std.specs.Prelude.{◌≡◌, IfOk, OnOk, fold, option_map};
ghost use Rattle.ll_engine.specs.Run.{from_last};
ghost use Rattle.lotos_base.specs.WrittenView.{text_place_of};
ghost use Rattle.syntax_trees.specs.Firsts.{firsts_between};
ghost use Rattle.syntax_trees.specs.FirstsView.{firsts_of};
ghost use Rattle.syntax_trees.specs.TreeFirsts.{names_firsts};
ghost use Rattle.text_depth.specs.DepthPart.{before_first_operand, of_flat};
ghost use Rattle.text_depth.specs.RowDepth.{applied_name, around_middle, below_first, bracket_first, bracketed_term, call_end, choice_form, chosen_part, end_of_choice, exit_first, factor_first, first_operand, guard_prefix, node_in_front, inner_prefix, left_grouped, named_first, one_operand, par_form, sign_part, stop_first, terms_before, token_name, word_form};
ghost use Rattle.text_depth.specs.PartView.{kept_of};

use crate::lists::{Kept, both};
use crate::part::{KeptPart, grouped_firsts, turned};
use lotos_base::Place;
use lotos_lexer::Token;
use std::alloc::{AllocError, Global};
use syntax_trees::FirstNodes;

/// The name that is the row's token.
pub fn token_name(alloc: Global, token: Option<Token>) -> Kept
    ensures { IfOk result (λ kept. option_map kept_of kept ≡ token_name token) }
{
    let Some(token) = token else {
        return Ok(None);
    };
    let mut names = Vec::new(alloc);
    names.push(token.place)?;
    Ok(Some(KeptPart::of_names(alloc, names)))
}

/// A term of its first factor and those behind it, which are held from the last to the first.
fn factors(first: FirstNodes, mut behind: Vec<FirstNodes>) -> Result<FirstNodes, AllocError>
    ensures { IfOk result (λ term. firsts_of term
        ≡ fold firsts_between (firsts_of first) (from_last firsts_of behind.items)) }
{
    let mut left = first;
    while let Some(next) = behind.pop() {
        left = left.between(next)?;
    }
    Ok(left)
}

/// Two lists with one name between them.
pub fn around_middle(alloc: Global, parts: &mut Vec<KeptPart>) -> Kept
    ensures { IfOk result (λ kept. option_map kept_of kept
        ≡ around_middle (from_last kept_of parts.old.items)) }
{
    let Some(first) = parts.pop() else {
        return Ok(None);
    };
    let Some(_) = parts.pop() else {
        return Ok(None);
    };
    let Some(last) = parts.pop() else {
        return Ok(None);
    };
    Ok(Some(both(first, last)?))
}

/// A term of its factors.
pub fn left_grouped(alloc: Global, parts: &mut Vec<KeptPart>) -> Kept
    ensures { IfOk result (λ kept. option_map kept_of kept
        ≡ left_grouped (from_last kept_of parts.old.items)) }
{
    let Some(first) = parts.pop() else {
        return Ok(None);
    };
    let Some(more) = parts.pop() else {
        return Ok(None);
    };
    let term = factors(first.firsts, more.operands)?;
    Ok(Some(KeptPart::of_firsts(alloc, term)))
}

/// An operation, a factor, and more of them.
pub fn factor_first(alloc: Global, parts: &mut Vec<KeptPart>) -> Kept
    ensures { IfOk result (λ kept. option_map kept_of kept
        ≡ factor_first (from_last kept_of parts.old.items)) }
{
    let Some(_) = parts.pop() else {
        return Ok(None);
    };
    let Some(factor) = parts.pop() else {
        return Ok(None);
    };
    let Some(more) = parts.pop() else {
        return Ok(None);
    };
    let mut operands = more.operands;
    operands.push(factor.firsts)?;
    Ok(Some(KeptPart::of_flat(alloc, operands, Vec::new(alloc))))
}

/// A name with its arguments.
pub fn applied_name(alloc: Global, parts: &mut Vec<KeptPart>) -> Kept
    ensures { IfOk result (λ kept. option_map kept_of kept
        ≡ applied_name (from_last kept_of parts.old.items)) }
{
    let Some(mut name) = parts.pop() else {
        return Ok(None);
    };
    let Some(arguments) = parts.pop() else {
        return Ok(None);
    };
    let Some(_) = parts.pop() else {
        return Ok(None);
    };
    let Some(place) = name.names.pop() else {
        return Ok(None);
    };
    let term = arguments.firsts.below(place)?;
    Ok(Some(KeptPart::of_firsts(alloc, term)))
}

/// A term in brackets.
pub fn bracketed_term(alloc: Global, parts: &mut Vec<KeptPart>) -> Kept
    ensures { IfOk result (λ kept. option_map kept_of kept
        ≡ bracketed_term (from_last kept_of parts.old.items)) }
{
    let Some(inside) = parts.pop() else {
        return Ok(None);
    };
    let Some(_) = parts.pop() else {
        return Ok(None);
    };
    Ok(Some(KeptPart::of_firsts(alloc, inside.firsts)))
}

/// A flat list of one operand.
fn one_operand(alloc: Global, operand: FirstNodes) -> Kept
    ensures { IfOk result (λ kept. option_map kept_of kept ≡ one_operand (firsts_of operand)) }
{
    let mut operands = Vec::new(alloc);
    operands.push(operand)?;
    Ok(Some(KeptPart::of_flat(alloc, operands, Vec::new(alloc))))
}

/// A word, names or values, and a behaviour.
pub fn word_form(alloc: Global, token: Option<Token>, parts: &mut Vec<KeptPart>) -> Kept
    ensures { IfOk result (λ kept. option_map kept_of kept
        ≡ word_form token (from_last kept_of parts.old.items)) }
{
    let Some(before) = parts.pop() else {
        return Ok(None);
    };
    let Some(inside) = parts.pop() else {
        return Ok(None);
    };
    let Some(token) = token else {
        return Ok(None);
    };
    let tree = grouped_firsts(alloc, inside.operands, inside.strengths)?;
    let form = before.firsts.followed(tree)?.below(token.place)?;
    one_operand(alloc, form)
}

/// Names each of which is a node below the one before, and what stands behind them. The names are
/// held from the last to the first.
fn names_first(names: Vec<Place>, inside: FirstNodes) -> Result<FirstNodes, AllocError>
    ensures { IfOk result (λ firsts. firsts_of firsts
        ≡ names_firsts (from_last text_place_of names.items) (firsts_of inside)) }
{
    let mut names = turned(names);
    let mut firsts = inside;
    while let Some(place) = names.pop() {
        firsts = firsts.below(place)?;
    }
    Ok(firsts)
}

/// `choice`: names, and the rest of it.
#[tactic(auto, using(tree_building::proofs::FromLast::from_last_more, tree_building::proofs::FromLast::from_last_none, crate::proofs::PartLists::names_firsts_append))]
pub fn choice_form(alloc: Global, parts: &mut Vec<KeptPart>) -> Kept
    ensures { IfOk result (λ kept. option_map kept_of kept
        ≡ choice_form (from_last kept_of parts.old.items)) }
{
    let Some(names) = parts.pop() else {
        return Ok(None);
    };
    let Some(end) = parts.pop() else {
        return Ok(None);
    };
    let KeptPart {
        names: more,
        firsts,
        operands: _,
        strengths: _,
    } = end;
    let inside = names_first(more, firsts)?;
    let form = names_first(names.names, inside)?;
    one_operand(alloc, form)
}

/// `par`: gates, the sign, and a behaviour.
pub fn par_form(alloc: Global, parts: &mut Vec<KeptPart>) -> Kept
    ensures { IfOk result (λ kept. option_map kept_of kept
        ≡ par_form (from_last kept_of parts.old.items)) }
{
    let Some(gates) = parts.pop() else {
        return Ok(None);
    };
    let Some(_) = parts.pop() else {
        return Ok(None);
    };
    let Some(inside) = parts.pop() else {
        return Ok(None);
    };
    let tree = grouped_firsts(alloc, inside.operands, inside.strengths)?;
    let form = names_first(gates.names, tree)?;
    one_operand(alloc, form)
}

/// A node in front of the first operand.
fn put_below(place: Place, operands: &mut Vec<FirstNodes>) -> Result<(), AllocError>
    ensures { OnOk result (from_last firsts_of operands.new.items
        ≡ below_first (text_place_of place) (from_last firsts_of operands.old.items)) }
{
    if let Some(first) = operands.pop() {
        operands.push(first.below(place)?)?;
    }
    Ok(())
}

/// A node in front of a flat list.
fn in_front(alloc: Global, place: Place, mut flat: KeptPart) -> Kept
    ensures { IfOk result (λ kept. option_map kept_of kept
        ≡ node_in_front (text_place_of place) (kept_of flat)) }
{
    put_below(place, &mut flat.operands)?;
    Ok(Some(KeptPart::of_flat(alloc, flat.operands, flat.strengths)))
}

/// Terms in front of the first operand.
fn put_before(terms: FirstNodes, operands: &mut Vec<FirstNodes>) -> Result<(), AllocError>
    ensures { OnOk result (from_last firsts_of operands.new.items
        ≡ before_first_operand (firsts_of terms) (from_last firsts_of operands.old.items)) }
{
    if let Some(first) = operands.pop() {
        operands.push(terms.followed(first)?)?;
    }
    Ok(())
}

/// Terms in front of a flat list.
fn with_terms_before(
    alloc: Global,
    terms: FirstNodes,
    mut flat: KeptPart,
) -> Result<KeptPart, AllocError>
    ensures { IfOk result (λ kept. kept_of kept
        ≡ of_flat (before_first_operand (firsts_of terms) (kept_of flat).operands)
        (kept_of flat).strengths) }
{
    put_before(terms, &mut flat.operands)?;
    Ok(KeptPart::of_flat(alloc, flat.operands, flat.strengths))
}

/// `i` in front of a flat list.
pub fn inner_prefix(alloc: Global, token: Option<Token>, parts: &mut Vec<KeptPart>) -> Kept
    ensures { IfOk result (λ kept. option_map kept_of kept
        ≡ inner_prefix token (from_last kept_of parts.old.items)) }
{
    let Some(flat) = parts.pop() else {
        return Ok(None);
    };
    let Some(token) = token else {
        return Ok(None);
    };
    in_front(alloc, token.place, flat)
}

/// A premiss in front of a flat list, or offers in front of an action.
pub fn terms_before(alloc: Global, parts: &mut Vec<KeptPart>) -> Kept
    ensures { IfOk result (λ kept. option_map kept_of kept
        ≡ terms_before (from_last kept_of parts.old.items)) }
{
    let Some(terms) = parts.pop() else {
        return Ok(None);
    };
    let Some(flat) = parts.pop() else {
        return Ok(None);
    };
    Ok(Some(with_terms_before(alloc, terms.firsts, flat)?))
}

/// A guard.
pub fn guard_prefix(alloc: Global, token: Option<Token>, parts: &mut Vec<KeptPart>) -> Kept
    ensures { IfOk result (λ kept. option_map kept_of kept
        ≡ guard_prefix token (from_last kept_of parts.old.items)) }
{
    let Some(test) = parts.pop() else {
        return Ok(None);
    };
    let Some(flat) = parts.pop() else {
        return Ok(None);
    };
    let Some(token) = token else {
        return Ok(None);
    };
    let flat = with_terms_before(alloc, test.firsts, flat)?;
    in_front(alloc, token.place, flat)
}

/// A gate or a process, and what stands behind it.
pub fn named_first(alloc: Global, parts: &mut Vec<KeptPart>) -> Kept
    ensures { IfOk result (λ kept. option_map kept_of kept
        ≡ named_first (from_last kept_of parts.old.items)) }
{
    let Some(mut name) = parts.pop() else {
        return Ok(None);
    };
    let Some(end) = parts.pop() else {
        return Ok(None);
    };
    let Some(place) = name.names.pop() else {
        return Ok(None);
    };
    in_front(alloc, place, end)
}

/// An operand in front of a tail.
fn first_operand(alloc: Global, operand: FirstNodes, tail: KeptPart) -> Kept
    ensures { IfOk result (λ kept. option_map kept_of kept
        ≡ first_operand (firsts_of operand) (kept_of tail)) }
{
    let mut operands = tail.operands;
    operands.push(operand)?;
    Ok(Some(KeptPart::of_flat(alloc, operands, tail.strengths)))
}

/// A call without its name.
pub fn call_end(alloc: Global, parts: &mut Vec<KeptPart>, limit: usize) -> Kept
    ensures { IfOk result (λ kept. option_map kept_of kept
        ≡ call_end limit (from_last kept_of parts.old.items)) }
{
    let Some(_) = parts.pop() else {
        return Ok(None);
    };
    let Some(values) = parts.pop() else {
        return Ok(None);
    };
    let Some(tail) = parts.pop() else {
        return Ok(None);
    };
    let values = FirstNodes::everywhere(alloc, values.firsts.first_from(limit));
    first_operand(alloc, values, tail)
}

/// `stop`.
pub fn stop_first(alloc: Global, token: Option<Token>, parts: &mut Vec<KeptPart>) -> Kept
    ensures { IfOk result (λ kept. option_map kept_of kept
        ≡ stop_first token (from_last kept_of parts.old.items)) }
{
    let Some(tail) = parts.pop() else {
        return Ok(None);
    };
    let Some(token) = token else {
        return Ok(None);
    };
    let operand = FirstNodes::everywhere(alloc, None).below(token.place)?;
    first_operand(alloc, operand, tail)
}

/// `exit`.
pub fn exit_first(alloc: Global, token: Option<Token>, parts: &mut Vec<KeptPart>) -> Kept
    ensures { IfOk result (λ kept. option_map kept_of kept
        ≡ exit_first token (from_last kept_of parts.old.items)) }
{
    let Some(values) = parts.pop() else {
        return Ok(None);
    };
    let Some(tail) = parts.pop() else {
        return Ok(None);
    };
    let Some(token) = token else {
        return Ok(None);
    };
    let operand = values.firsts.below(token.place)?;
    first_operand(alloc, operand, tail)
}

/// A behaviour in brackets.
pub fn bracket_first(alloc: Global, parts: &mut Vec<KeptPart>) -> Kept
    ensures { IfOk result (λ kept. option_map kept_of kept
        ≡ bracket_first (from_last kept_of parts.old.items)) }
{
    let Some(inside) = parts.pop() else {
        return Ok(None);
    };
    let Some(tail) = parts.pop() else {
        return Ok(None);
    };
    let tree = grouped_firsts(alloc, inside.operands, inside.strengths)?;
    first_operand(alloc, tree, tail)
}

/// The end of a choice: a sort or gates, more names, and the behaviour.
pub fn end_of_choice(alloc: Global, parts: &mut Vec<KeptPart>) -> Kept
    ensures { IfOk result (λ kept. option_map kept_of kept
        ≡ end_of_choice (from_last kept_of parts.old.items)) }
{
    let Some(_) = parts.pop() else {
        return Ok(None);
    };
    let Some(names) = parts.pop() else {
        return Ok(None);
    };
    let Some(inside) = parts.pop() else {
        return Ok(None);
    };
    Ok(Some(KeptPart {
        names: names.names,
        firsts: inside.firsts,
        operands: Vec::new(alloc),
        strengths: Vec::new(alloc),
    }))
}

/// A whole behaviour.
pub fn chosen_part(alloc: Global, parts: &mut Vec<KeptPart>) -> Kept
    ensures { IfOk result (λ kept. option_map kept_of kept
        ≡ chosen_part (from_last kept_of parts.old.items)) }
{
    let Some(inside) = parts.pop() else {
        return Ok(None);
    };
    let tree = grouped_firsts(alloc, inside.operands, inside.strengths)?;
    Ok(Some(KeptPart::of_firsts(alloc, tree)))
}

/// A sign.
pub fn sign_part(alloc: Global, strength: u8) -> Kept
    ensures { IfOk result (λ kept. option_map kept_of kept ≡ sign_part strength) }
{
    let mut strengths = Vec::new(alloc);
    strengths.push(strength)?;
    Ok(Some(KeptPart::of_flat(alloc, Vec::new(alloc), strengths)))
}
