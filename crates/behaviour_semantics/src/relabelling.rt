//! Relabellings. Each function carries one law as its contract and does nothing.

ghost use Rattle.behaviour_semantics.specs.RelabellingLaws.{ComposedRelabellingsAgree, UnderHasTheLabels};

/// Relabelling a relabelled behaviour and relabelling by the composition give the same labels.
pub fn composed_relabellings_agree()
    ensures { ComposedRelabellingsAgree }
{}

/// What targets are written as under a relabelling has the labels of the relabelled behaviour.
pub fn under_has_the_labels()
    ensures { UnderHasTheLabels }
{}
