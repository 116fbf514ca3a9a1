//! The laws of signatures.

ghost use Rattle.lotos_base.specs.SignatureLaws.{
  HavingATwinIsDecided,
  ProfilesTellOperations,
  TwinsAreDecided,
  TwinsAreMutual,
};

/// The tests for twins answer what they are named for.
pub fn twins_are_decided()
    ensures pairs { TwinsAreDecided }
    ensures signatures { HavingATwinIsDecided }
    ensures mutual { TwinsAreMutual }
{}

/// An operation without a twin is known by what an application of it shows: name, form and sorts of
/// arguments.
pub fn profiles_tell_operations()
    ensures { ProfilesTellOperations }
{}
