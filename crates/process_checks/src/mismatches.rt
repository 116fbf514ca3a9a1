//! Whether the functionalities of a specification agree (ISO 8807:1989, static semantics,
//! functionality of behaviour expressions).

ghost use Rattle.behaviour_tree.specs.DefinitionView.{functionality_of};
ghost use Rattle.process_checks.specs.Exits.{Blames, IsAgreed, functionality_in};
ghost use Rattle.process_checks.specs.Functionality.{
  all_disagreements,
  at_definition,
  at_sign,
  disagreements,
  of_both,
  of_definition,
  of_either,
};
ghost use Rattle.std.specs.Prelude.{◌≡◌, [], ◌∷◌, IfOk, MatchResult, Some, option_map};

use crate::functionalities::{Found, both, either, same, value_sorts, variable_sorts};
use behaviour_tree::{Beh, Process, Spec};
use lotos_base::{NoMemory, Place};
use std::alloc::{AllocError, Global};

/// Why the functionalities of a specification are refused.
#[derive(Debug, Drop)]
pub enum ExitFault {
    /// Two functionalities disagree.
    Mismatch {
        /// The place of the sign, or of the name of the definition.
        place: Place,
        /// The functionality of the left side, or of the body; `None` for `noexit`.
        left: Option<Vec<u32>>,
        /// That of the right side, the sorts of the `accept` list, or the declared functionality.
        right: Option<Vec<u32>>,
    },
    /// Memory was wanted and not there.
    NoMemory,
}

impl From<NoMemory> for ExitFault {
    ghost use Rattle.process_checks.specs.declared.mismatches.ExitFault.TheVariants.{
      NoMemory as out_of_memory,
    };

    ghost from_gives = { λ _ fault. fault ≡ out_of_memory };

    fn from(_fault: NoMemory) -> ExitFault {
        ExitFault::NoMemory
    }
}

impl From<AllocError> for ExitFault {
    ghost use Rattle.process_checks.specs.declared.mismatches.ExitFault.TheVariants.{
      NoMemory as out_of_memory,
    };

    ghost from_gives = { λ _ fault. fault ≡ out_of_memory };

    fn from(_fault: AllocError) -> ExitFault {
        ExitFault::NoMemory
    }
}

/// Whether all functionalities agree: `Mismatch` comes exactly where two disagree, at the first
/// disagreement. The walk takes the specification's own definition and then the processes in their
/// order, in a behaviour the left side, the right side and then the sign, in a definition the body
/// and then its heading.
pub fn exits(alloc: Global, spec: &Spec) -> Result<(), ExitFault>
    ensures { MatchResult result (λ _. all_disagreements spec.now ≡ [])
        (λ fault. Blames (all_disagreements spec.now) fault) }
{
    definition(alloc, &spec.processes, spec.place, &spec.body, &spec.exit)?;
    for process in &spec.processes {
        definition(
            alloc,
            &spec.processes,
            process.place,
            &process.body,
            &process.exit,
        )?;
    }
    Ok(())
}

// Whether the body agrees in itself and with the declared functionality.
fn definition(
    alloc: Global,
    processes: &Vec<Process>,
    place: Place,
    body: &Beh,
    exit: &Option<Vec<u32>>,
) -> Result<(), ExitFault>
    ensures { MatchResult result
        (λ _. of_definition processes.now.items place body.now (functionality_of exit.now) ≡ [])
        (λ fault. Blames (of_definition processes.now.items place body.now
        (functionality_of exit.now)) fault) }
{
    let found = walked(alloc, processes, body)?;
    declared_so(alloc, processes, place, &found, exit)
}

// Whether the functionality of a body agrees with the declared one.
fn declared_so(
    alloc: Global,
    processes: &Vec<Process>,
    place: Place,
    found: &Found,
    exit: &Option<Vec<u32>>,
) -> Result<(), ExitFault>
    ensures { MatchResult result
        (λ _. at_definition place (functionality_in processes.now.items found.now)
        (functionality_of exit.now) ≡ [])
        (λ fault. Blames (at_definition place (functionality_in processes.now.items found.now)
        (functionality_of exit.now)) fault) }
{
    match found.sorts(processes) {
        None => Ok(()),
        Some(sorts) => match exit {
            None => disagree(alloc, place, sorts, None),
            Some(declared) => same_lists(alloc, place, sorts, declared),
        },
    }
}

// Whether the functionalities on the two sides of a sign agree.
fn sides_agree(
    alloc: Global,
    processes: &Vec<Process>,
    place: Place,
    left: &Found,
    right: &Found,
) -> Result<(), ExitFault>
    ensures { MatchResult result
        (λ _. at_sign place (functionality_in processes.now.items left.now)
        (functionality_in processes.now.items right.now) ≡ [])
        (λ fault. Blames (at_sign place (functionality_in processes.now.items left.now)
        (functionality_in processes.now.items right.now)) fault) }
{
    match left.sorts(processes) {
        None => Ok(()),
        Some(sorts) => match right.sorts(processes) {
            None => Ok(()),
            Some(others) => same_lists(alloc, place, sorts, others),
        },
    }
}

// Whether the two lists are the same.
fn same_lists(
    alloc: Global,
    place: Place,
    left: &Vec<u32>,
    right: &Vec<u32>,
) -> Result<(), ExitFault>
    ensures { MatchResult result
        (λ _. at_sign place (Some left.now.items) (Some right.now.items) ≡ [])
        (λ fault. Blames (at_sign place (Some left.now.items) (Some right.now.items)) fault) }
{
    if same(left, right) {
        Ok(())
    } else {
        disagree(alloc, place, left, Some(right))
    }
}

// The refusal with the two functionalities.
fn disagree(
    alloc: Global,
    place: Place,
    left: &Vec<u32>,
    right: Option<&Vec<u32>>,
) -> Result<(), ExitFault>
    ensures { MatchResult result (λ _. ⊥)
        (λ fault. Blames (record {
          place = place;
          left = Some left.now.items;
          right = option_map (λ v. v.now.items) right.entry;
        } ∷ []) fault) }
{
    let left = Vec::from_slice(alloc, left)?;
    let right = copied(alloc, right)?;
    Err(ExitFault::Mismatch {
        place,
        left: Some(left),
        right,
    })
}

// The same functionality.
fn copied(alloc: Global, sorts: Option<&Vec<u32>>) -> Result<Option<Vec<u32>>, NoMemory>
    ensures { IfOk result (λ made. functionality_of made
        ≡ option_map (λ v. v.now.items) sorts.entry) }
{
    match sorts {
        None => Ok(None),
        Some(sorts) => Ok(Some(Vec::from_slice(alloc, sorts)?)),
    }
}

// The functionality of the behaviour, if all agree in it.
fn walked(alloc: Global, processes: &Vec<Process>, behaviour: &Beh) -> Result<Found, ExitFault>
    ensures { MatchResult result (λ found. IsAgreed processes.now.items behaviour.now found)
        (λ fault. Blames (disagreements processes.now.items behaviour.now) fault) }
{
    match behaviour {
        Beh::Stop => Ok(Found::Noexit),
        Beh::Exit(values) => Ok(Found::Listed(value_sorts(alloc, values)?)),
        Beh::Action { next, .. } => walked(alloc, processes, next),
        Beh::Inner(next) => walked(alloc, processes, next),
        Beh::Guard(_, next) => walked(alloc, processes, next),
        Beh::Choice(place, left, right) => {
            let left = walked(alloc, processes, left)?;
            let right = walked(alloc, processes, right)?;
            sides_agree(alloc, processes, *place, &left, &right)?;
            Ok(either(processes, left, right))
        }
        Beh::Parallel(place, _, left, right) => {
            let left = walked(alloc, processes, left)?;
            let right = walked(alloc, processes, right)?;
            sides_agree(alloc, processes, *place, &left, &right)?;
            Ok(both(processes, left, right))
        }
        Beh::Hide(_, next) => walked(alloc, processes, next),
        Beh::Enable(place, left, variables, right) => {
            let left = walked(alloc, processes, left)?;
            let right = walked(alloc, processes, right)?;
            let accepted = Found::Listed(variable_sorts(alloc, variables)?);
            sides_agree(alloc, processes, *place, &left, &accepted)?;
            Ok(right)
        }
        Beh::Disable(place, left, right) => {
            let left = walked(alloc, processes, left)?;
            let right = walked(alloc, processes, right)?;
            sides_agree(alloc, processes, *place, &left, &right)?;
            Ok(either(processes, left, right))
        }
        Beh::Let(_, next) => walked(alloc, processes, next),
        Beh::ChooseValue(_, next) => walked(alloc, processes, next),
        Beh::ChooseGate(_, _, next) => walked(alloc, processes, next),
        Beh::ParGate(_, _, _, next) => walked(alloc, processes, next),
        Beh::Call { process, .. } => Ok(Found::Declared(*process)),
    }
}
