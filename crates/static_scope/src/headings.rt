//! Headings of definitions.

ghost use Rattle.behaviour_scopes.specs.ResolverState.{next_numbers_at};
ghost use Rattle.behaviour_scopes.specs.ResolverView.{state_in};
ghost use Rattle.static_scope.specs.HeadingView.{heading_in, written_heading};
ghost use Rattle.static_scope.specs.Points.{inside};
ghost use Rattle.scope_parts.specs.Definitions.{heading_at};
ghost use Rattle.scope_parts.specs.FaultView.{Answers};
ghost use Rattle.scope_parts.specs.Resolution.{Is};
ghost use Rattle.std.specs.Prelude.{◌≡◌, IfOk};

use crate::formal::{formal_gates, functionality};
use crate::heading_parts::{Heading, HeadingText};
use behaviour_scopes::Resolver;
use scope_parts::ScopeFault;
use scope_parts::sorts::variables_at;
use std::alloc::Global;

/// The heading, whose gates and parameters alone are visible then.
pub fn resolved_heading(
    alloc: Global,
    resolver: &mut Resolver,
    text: HeadingText,
) -> Result<Heading, ScopeFault>
    ensures read { Answers heading_in result (Is (heading_at (state_in resolver.old).signature
        (next_numbers_at (state_in resolver.old)) (written_heading text.entry))) }
    ensures seen { IfOk result (λ made. state_in resolver.new
        ≡ inside (written_heading text.entry) (heading_in made) (state_in resolver.old)) }
{
    resolver.forget_gates(0);
    resolver.forget_variables(0);
    let gates = formal_gates(alloc, &mut resolver.gates, text.gates)?;
    let parameters = variables_at(
        alloc,
        &resolver.terms.reader,
        resolver.next_variable,
        text.parameters,
    )?;
    let exit = functionality(alloc, &resolver.terms.reader, text.functionality)?;
    resolver.see(alloc, &parameters)?;
    Ok(Heading {
        gates,
        parameters,
        exit,
    })
}
