//! Lists between commas, without brackets and with some.

ghost use Rattle.behaviour_tree.specs.BehaviourView.{variables_of};
ghost use Rattle.report_text.specs.NamingView.{naming_of};
ghost use Rattle.report_text.specs.Members.{member_texts_of};
ghost use Rattle.printed_texts.specs.BehaviourText.{round_list, square_list};
ghost use Rattle.printed_texts.specs.Brackets.{commas, square};
ghost use Rattle.std.specs.Prelude.{◌≡◌, ◌++◌, OnOk};

use crate::members::Member;
use crate::naming::Naming;
use crate::squares::{close_square, open_square};
use lotos_base::NoMemory;
use printed_texts::brackets::{close_bracket, open_bracket, push_separator};
use sort_terms::Variable;

/// Appends the members between commas.
pub fn push_list<M: Member>(
    naming: &Naming<'_>,
    names: &[Variable],
    members: &Vec<M>,
    into: &mut Vec<u8>,
) -> Result<(), NoMemory>
    ensures { OnOk result (into.new.items ≡ into.old.items ++ commas (member_texts_of M.text
        (naming_of naming.now) (variables_of names.now) members.now.items)) }
{
    for (index, member) in members.iter().enumerate() {
        push_separator(into, index)?;
        member.push(naming, names, into)?;
    }
    Ok(())
}

/// Appends the members between commas in round brackets, if there are some.
pub fn push_round_list<M: Member>(
    naming: &Naming<'_>,
    names: &[Variable],
    members: &Vec<M>,
    into: &mut Vec<u8>,
) -> Result<(), NoMemory>
    ensures { OnOk result (into.new.items ≡ into.old.items ++ round_list (member_texts_of M.text
        (naming_of naming.now) (variables_of names.now) members.now.items)) }
{
    if members.is_empty() {
        return Ok(());
    }
    let position = open_bracket(into, true)?;
    push_list(naming, names, members, into)?;
    close_bracket(into, true, position)
}

/// Appends the members between commas in square brackets.
pub fn push_square<M: Member>(
    naming: &Naming<'_>,
    names: &[Variable],
    members: &Vec<M>,
    into: &mut Vec<u8>,
) -> Result<(), NoMemory>
    ensures { OnOk result (into.new.items ≡ into.old.items ++ square (commas (member_texts_of M.text
        (naming_of naming.now) (variables_of names.now) members.now.items))) }
{
    let position = open_square(into)?;
    push_list(naming, names, members, into)?;
    close_square(into, position)
}

/// Appends the members between commas in square brackets, if there are some.
pub fn push_square_list<M: Member>(
    naming: &Naming<'_>,
    names: &[Variable],
    members: &Vec<M>,
    into: &mut Vec<u8>,
) -> Result<(), NoMemory>
    ensures { OnOk result (into.new.items ≡ into.old.items ++ square_list (member_texts_of M.text
        (naming_of naming.now) (variables_of names.now) members.now.items)) }
{
    if members.is_empty() {
        return Ok(());
    }
    push_square(naming, names, members, into)
}
