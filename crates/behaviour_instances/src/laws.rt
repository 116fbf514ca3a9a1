//! Laws of instances of behaviours. Each function carries laws as its contract and does nothing.

ghost use Rattle.behaviour_instances.specs.InstanceLaws.{InstancesAreOfSignatures, StatesSuit};

/// The terms of an instance are of a signature where those of the environment and of the behaviour
/// are, and an environment that closes a behaviour suits it.
pub fn instances_are_of_signatures()
    ensures signatures { InstancesAreOfSignatures }
    ensures states { StatesSuit }
{}
