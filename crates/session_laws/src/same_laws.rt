//! Specifications that are the same. Each function carries a law as its contract and does nothing.

ghost use Rattle.session_laws.specs.SameChecksLaws.{SameSpecificationsPassTheSameChecks};
ghost use Rattle.session_laws.specs.SameSessionsLaws.{SessionsOverTheSameAgree};
ghost use Rattle.session_laws.specs.SameSpecificationLaws.{SameSpecificationsDoTheSame};
ghost use Rattle.session_laws.specs.SameTextsLaws.{TextsAgreeButForProcesses};

use crate::functionalities::no_disagreement_is_agreement;

/// Over data that are the same up to places, origins, spellings and names of variables, the
/// behaviours of specifications that are the same up to names of processes have the same moves,
/// drafts and exact menus, and recursion is guarded in both or in none.
pub fn same_specifications_do_the_same()
    ensures { SameSpecificationsDoTheSame }
{}

/// Over such data, functionalities of such specifications agree in both or in neither; an order of
/// operations gives both the same precedence and the same rules; and a written term is read as the
/// same term over both, so that words are the same start values.
pub fn same_specifications_pass_the_same_checks()
    ensures { SameSpecificationsPassTheSameChecks }
{
    no_disagreement_is_agreement();
}

/// Over data that are the same with one spelling, terms, labels, menus and heads of reports have
/// the same texts, and states of such specifications have the same but for the names of processes.
pub fn texts_agree_but_for_processes()
    ensures { TextsAgreeButForProcesses }
{}

/// Over such data, with one canon and such specifications, the very same states, menus, items and
/// steps are lawful in sessions.
pub fn sessions_over_the_same_agree()
    ensures { SessionsOverTheSameAgree }
{}
