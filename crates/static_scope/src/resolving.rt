//! What a text stands for.

ghost use Rattle.behaviour_tree.specs.DefinitionView.{specification_of};
ghost use Rattle.behaviour_tree.specs.Over.{IsSpecOver};
ghost use Rattle.static_scope.specs.KeptPlaces.{places_of};
ghost use Rattle.static_scope.specs.PointsView.{point_in};
ghost use Rattle.static_scope.specs.TextPlaces.{text_places};
ghost use Rattle.lotos_base.specs.Name.{spelling};
ghost use Rattle.sort_terms.specs.SignatureView.{signature_of};
ghost use Rattle.scope_parts.specs.Definitions.{SpecificationIs};
ghost use Rattle.scope_parts.specs.FirstFault.{HasNoFault, IsFirstScopeFault};
ghost use Rattle.scope_parts.specs.TextOrder.{PlacesRise};
ghost use Rattle.scope_parts.specs.FaultView.{Answers, FaultIs};
ghost use Rattle.scope_parts.specs.GateLists.{TextHasGateLists};
ghost use Rattle.std.specs.Prelude.{◌≡◌, IfErr, IfOk, map};
ghost use Rattle.syntax_trees.specs.TreeViews.{written_specification_of as written_specification};

use crate::declaring::declare;
use crate::definitions::definition;
use crate::heading_parts::HeadingText;
use crate::sizes::sizes;
use crate::walk::processes;
use behaviour_scopes::Resolver;
use behaviour_tree::Spec;
use behaviour_tree::boxes::shared;
use lotos_base::Name;
use scope_parts::ScopeFault;
use scope_parts::terms::Terms;
use sort_terms::{Flat, Signature};
use std::alloc::Global;
use syntax_trees::SpecText;

/// The specification that the text stands for over the data, or the first rule that it breaks:
/// the heading is looked at first, then the body, then the processes of `where` in the order of
/// the text, each before those of its own `where`. Where the places of the text rise along it, no
/// fault of the text comes before the one that is answered. The equations of the data play no part.
pub fn resolve(alloc: Global, text: &SpecText, flat: &Flat) -> Result<Spec, ScopeFault>
    ensures read { Answers specification_of result
        (SpecificationIs (signature_of flat.now.signature)
        (written_specification text.now)) }
    ensures over { TextHasGateLists (written_specification text.now)
        → IfOk result (IsSpecOver (signature_of flat.now.signature)) }
    ensures places { IfOk result (λ spec. places_of spec
        ≡ text_places (written_specification text.now)) }
    ensures first { PlacesRise (written_specification text.now) → IfErr result (λ fault.
        FaultIs fault (IsFirstScopeFault (signature_of flat.now.signature)
        (written_specification text.now))) }
    ensures faultless { PlacesRise (written_specification text.now) → IfOk result (λ spec.
        HasNoFault (signature_of flat.now.signature) (written_specification text.now)) }
{
    specification(alloc, text, &flat.signature)
}

// The same, by its parts.
fn specification(alloc: Global, text: &SpecText, signature: &Signature) -> Result<Spec, ScopeFault>
    ensures read { Answers specification_of result (SpecificationIs (signature_of signature.now)
        (written_specification text.now)) }
    ensures over { TextHasGateLists (written_specification text.now)
        → IfOk result (IsSpecOver (signature_of signature.now)) }
    ensures places { IfOk result (λ spec. places_of spec
        ≡ text_places (written_specification text.now)) }
{
    let terms = Terms::of(alloc, signature)?;
    let mut resolver = Resolver::new(alloc, terms);
    let counts = sizes(alloc, text.inner.as_slice())?;
    declare(alloc, &mut resolver, &counts, &text.inner)?;
    let heading = HeadingText {
        place: text.place,
        name: &text.name,
        gates: &text.gates,
        parameters: &text.params,
        functionality: &text.func,
    };
    let whole = definition(alloc, &mut resolver, heading, &text.body)?;
    let definitions = processes(alloc, &mut resolver, &counts, text.inner.as_slice())?;
    let name = text.name.copy(alloc)?;
    let gate_names = all_names(resolver);
    let (heading, own) = whole;
    let body = shared(alloc, own)?;
    Ok(Spec {
        name,
        gate_names,
        gates: heading.gates,
        parameters: heading.parameters,
        exit: heading.exit,
        place: text.place,
        body,
        processes: definitions,
    })
}

// The names of all gates, by their numbers.
fn all_names(resolver: Resolver) -> Vec<Name>
    ensures { map spelling result.items ≡ (point_in resolver.entry).names }
{
    let gates = resolver.gates;
    gates.names
}
