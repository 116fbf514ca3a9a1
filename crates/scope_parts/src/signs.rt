//! The gates of parallel signs.

ghost use Rattle.behaviour_tree.specs.BehaviourView.{meet_of};
ghost use Rattle.scope_parts.specs.BindingsView.{bindings_in};
ghost use Rattle.scope_parts.specs.Choices.{sign_at, signs_follow};
ghost use Rattle.scope_parts.specs.FaultView.{Answers};
ghost use Rattle.scope_parts.specs.Numbering.{choice_names};
ghost use Rattle.scope_parts.specs.Resolution.{Is};
ghost use Rattle.scope_parts.specs.Scope.{bind_all};
ghost use Rattle.std.specs.Prelude.{◌≡◌, suc, IfOk, OnOk, length, map};
ghost use Rattle.syntax_trees.specs.TreeViews.{gate_choices_of, sign_of};

use crate::bindings::Bindings;
use crate::gates::gates_at;
use crate::scope_faults::ScopeFault;
use behaviour_tree::Meet;
use lotos_base::NoMemory;
use std::alloc::Global;
use syntax_trees::{GateText, Sign};

/// The gates at which the sides of a parallel sign synchronise. Other signs have none.
pub fn meet_at(alloc: Global, visible: &Bindings, sign: &Sign) -> Result<Meet, ScopeFault>
    ensures { Answers meet_of result (Is (sign_at (bindings_in visible.now) (sign_of sign.now))) }
{
    match sign {
        Sign::Choice => Ok(Meet::Nothing),
        Sign::Interleave => Ok(Meet::Nothing),
        Sign::Full => Ok(Meet::Everything),
        Sign::Gates(names) => {
            let gates = gates_at(alloc, visible, names)?;
            Ok(Meet::Gates(gates))
        }
        Sign::Disable => Ok(Meet::Nothing),
        Sign::Enable(_) => Ok(Meet::Nothing),
    }
}

/// The gates of the sign of a `par`, at each of the gates that it declares. These are bound one
/// after the other, to numbers from a number on.
pub fn meets_at(
    alloc: Global,
    visible: &mut Bindings,
    first: usize,
    sign: &Sign,
    texts: &Vec<GateText>,
) -> Result<Vec<Meet>, ScopeFault>
    ensures read { Answers (λ made. map meet_of made.items) result (Is (signs_follow
        (bindings_in visible.old) first (sign_of sign.now) (gate_choices_of texts.now.items))) }
    ensures counted { IfOk result (λ made. length made.items ≡ length texts.now.items) }
    ensures bound { OnOk result (bindings_in visible.new
        ≡ bind_all (choice_names (gate_choices_of texts.now.items)) first
        (bindings_in visible.old)) }
{
    let mut made = Vec::with_capacity(alloc, texts.len())?;
    let mut number = first;
    for text in texts {
        let meet = meet_at(alloc, visible, sign)?;
        made.push(meet)?;
        visible.bind(alloc, &text.name, number)?;
        number = next_position(number)?;
    }
    Ok(made)
}

// The next number. There is no memory for so many gates that there is none.
fn next_position(number: usize) -> Result<usize, NoMemory>
    ensures { IfOk result (λ next. next ≡ suc number) }
{
    match number.checked_add(1) {
        Some(next) => Ok(next),
        None => Err(NoMemory),
    }
}
