//! Definitions: headings with their bodies.

ghost use Rattle.behaviour_scopes.specs.Places.{places_written};
ghost use Rattle.behaviour_scopes.specs.PlacesView.{places_in};
ghost use Rattle.behaviour_tree.specs.BehaviourTerms.{profiles_in};
ghost use Rattle.behaviour_tree.specs.BehaviourView.{behaviour_of};
ghost use Rattle.behaviour_tree.specs.DefinitionView.{process_of};
ghost use Rattle.behaviour_tree.specs.Over.{AreTermsOf};
ghost use Rattle.static_scope.specs.HeadingView.{heading_in, written_heading};
ghost use Rattle.static_scope.specs.ProcessView.{process_heading};
ghost use Rattle.static_scope.specs.Points.{numbers_of_point, past_definition};
ghost use Rattle.static_scope.specs.PointsView.{point_in};
ghost use Rattle.static_scope.specs.KeptPlaces.{places_of_process};
ghost use Rattle.scope_parts.specs.Definitions.{DefinitionIs, process_with};
ghost use Rattle.scope_parts.specs.FaultView.{Answers};
ghost use Rattle.scope_parts.specs.Resolution.{Made};
ghost use Rattle.std.specs.Prelude.{◌≡◌, ◌∷◌, IfOk, OnOk};
ghost use Rattle.syntax_trees.specs.TreeViews.{written_behaviour_of as written_behaviour};

use crate::heading_parts::{Heading, HeadingText};
use crate::headings::resolved_heading;
use behaviour_scopes::Resolver;
use behaviour_tree::{Beh, Process};
use scope_parts::ScopeFault;
use std::alloc::Global;
use syntax_trees::{BehText, ProcessText};

/// A definition: its heading, and its body, which sees the gates and parameters of the heading
/// alone, and the processes that are visible.
pub fn definition(
    alloc: Global,
    resolver: &mut Resolver,
    text: HeadingText,
    body: &BehText,
) -> Result<(Heading, Beh), ScopeFault>
    ensures read { Answers (λ made. (heading_in made.0, behaviour_of made.1)) result
        (DefinitionIs (point_in resolver.old).signature (point_in resolver.old).processes
        (numbers_of_point (point_in resolver.old)) (written_heading text.entry)
        (written_behaviour body.now)) }
    ensures passed { OnOk result (point_in resolver.new
        ≡ past_definition (written_heading text.entry) (written_behaviour body.now)
        (point_in resolver.old)) }
    ensures profiles { IfOk result (λ made. AreTermsOf (point_in resolver.old).signature
        (profiles_in made.1)) }
    ensures places { IfOk result (λ made. places_in made.1
        ≡ places_written (written_behaviour body.now)) }
{
    let heading = resolved_heading(alloc, resolver, text)?;
    let behaviour = resolver.behaviour(alloc, body)?;
    Ok((heading, behaviour))
}

/// A process, beside those of its own `where`.
pub fn process(
    alloc: Global,
    resolver: &mut Resolver,
    text: &ProcessText,
) -> Result<Process, ScopeFault>
    ensures read { Answers process_of result (Made (process_with (process_heading text.now))
        (DefinitionIs (point_in resolver.old).signature (point_in resolver.old).processes
        (numbers_of_point (point_in resolver.old)) (process_heading text.now)
        (written_behaviour text.now.body))) }
    ensures passed { OnOk result (point_in resolver.new ≡ past_definition
        (process_heading text.now) (written_behaviour text.now.body) (point_in resolver.old)) }
    ensures profiles { IfOk result (λ made. AreTermsOf (point_in resolver.old).signature
        (profiles_in made.body)) }
    ensures places { IfOk result (λ made. places_of_process made
        ≡ (process_heading text.now).place ∷ places_written (written_behaviour text.now.body)) }
{
    let name = text.name.copy(alloc)?;
    let heading = HeadingText {
        place: text.place,
        name: &text.name,
        gates: &text.gates,
        parameters: &text.params,
        functionality: &text.func,
    };
    let made = definition(alloc, resolver, heading, &text.body)?;
    let (heading, body) = made;
    Ok(Process {
        place: text.place,
        name,
        gates: heading.gates,
        parameters: heading.parameters,
        exit: heading.exit,
        body,
    })
}
