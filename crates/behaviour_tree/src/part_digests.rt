//! Digests of behaviours with values put for their free variables.

ghost use Rattle.behaviour_tree.specs.Digests.{digest};
ghost use Rattle.behaviour_semantics.specs.Replacement.{with_values};
ghost use Rattle.behaviour_tree.specs.BehaviourView.{behaviour_of};
ghost use Rattle.behaviour_tree.specs.Placings.{values_of};
ghost use Rattle.std.specs.Prelude.{◌≡◌};

use crate::Beh;
use crate::binders::Binders;
use crate::mixing::mix;
use crate::placing::Placing;
use crate::term_digests::values_digest;

/// The digest of the behaviour with its values.
pub fn part_digest<'x>(part: &'x Beh, here: &'x Placing<'x>) -> u64
    ensures { result ≡ digest (with_values (values_of here.now) (behaviour_of part.now)) }
{
    match part {
        Beh::Stop => 1,
        Beh::Exit(_) => 2,
        Beh::Action {
            gate,
            offers,
            next,
            ..
        } => {
            let inside = Placing {
                environment: here.environment,
                binders: Binders::Action(offers, &here.binders),
            };
            mix(mix(3, *gate as u64), part_digest(next, &inside))
        }
        Beh::Inner(next) => mix(4, part_digest(next, here)),
        Beh::Guard(_, next) => mix(5, part_digest(next, here)),
        Beh::Choice(_, left, right) => {
            mix(mix(6, part_digest(left, here)), part_digest(right, here))
        }
        Beh::Parallel(_, _, left, right) => {
            mix(mix(7, part_digest(left, here)), part_digest(right, here))
        }
        Beh::Hide(_, next) => mix(8, part_digest(next, here)),
        Beh::Enable(_, left, variables, right) => {
            let inside = Placing {
                environment: here.environment,
                binders: Binders::Accept(variables, &here.binders),
            };
            mix(mix(9, part_digest(left, here)), part_digest(right, &inside))
        }
        Beh::Disable(_, left, right) => {
            mix(mix(10, part_digest(left, here)), part_digest(right, here))
        }
        Beh::Let(bindings, next) => {
            let inside = Placing {
                environment: here.environment,
                binders: Binders::Let(bindings, &here.binders),
            };
            mix(11, part_digest(next, &inside))
        }
        Beh::ChooseValue(variable, next) => {
            let inside = Placing {
                environment: here.environment,
                binders: Binders::Choice(variable, &here.binders),
            };
            mix(12, part_digest(next, &inside))
        }
        Beh::ChooseGate(_, _, next) => mix(13, part_digest(next, here)),
        Beh::ParGate(_, _, _, next) => mix(14, part_digest(next, here)),
        Beh::Call {
            process,
            values,
            ..
        } => mix(mix(15, *process as u64), values_digest(values, here)),
    }
}
