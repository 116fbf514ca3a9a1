//! Signs between two behaviours.

ghost use Rattle.behaviour_tree.specs.BehaviourView.{meet_of, variables_of};
ghost use Rattle.report_text.specs.NamingView.{naming_of};
ghost use Rattle.printed_texts.specs.BehaviourText.{between_blanks, enable_sign, sign_text};
ghost use Rattle.std.specs.Prelude.{◌≡◌, ◌++◌, OnOk};

use crate::lists::{push_list, push_square};
use crate::naming::Naming;
use behaviour_tree::Meet;
use lotos_base::NoMemory;
use printed_texts::brackets::push_text;
use sort_terms::Variable;

// Appends the sign of a parallel.
fn push_sign(naming: &Naming<'_>, meet: &Meet, into: &mut Vec<u8>) -> Result<(), NoMemory>
    ensures { OnOk result (into.new.items ≡ into.old.items ++ sign_text
        (naming_of naming.now) (meet_of meet.now)) }
{
    match meet {
        Meet::Nothing => push_text(into, b"|||"),
        Meet::Everything => push_text(into, b"||"),
        Meet::Gates(gates) => {
            push_text(into, b"|")?;
            push_square(naming, &[], gates, into)?;
            push_text(into, b"|")
        }
    }
}

/// Appends the sign of a parallel between blanks.
pub fn push_meet(naming: &Naming<'_>, meet: &Meet, into: &mut Vec<u8>) -> Result<(), NoMemory>
    ensures { OnOk result (into.new.items ≡ into.old.items ++ between_blanks (sign_text
        (naming_of naming.now) (meet_of meet.now))) }
{
    push_text(into, b" ")?;
    push_sign(naming, meet, into)?;
    push_text(into, b" ")
}

/// Appends the sign of an enabling between blanks, with the variables that its right side accepts.
pub fn push_accept(
    naming: &Naming<'_>,
    variables: &Vec<Variable>,
    into: &mut Vec<u8>,
) -> Result<(), NoMemory>
    ensures { OnOk result (into.new.items ≡ into.old.items ++ between_blanks (enable_sign
        (naming_of naming.now) (variables_of variables.now.items))) }
{
    if variables.is_empty() {
        return push_text(into, b" >> ");
    }
    push_text(into, b" >> accept ")?;
    push_list(naming, &[], variables, into)?;
    push_text(into, b" in ")
}
