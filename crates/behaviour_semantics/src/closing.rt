//! Ground values put into behaviours. The function carries one law as its contract and does
//! nothing.

ghost use Rattle.behaviour_semantics.specs.ClosingLaws.{ValuesClose};

/// Ground values for the variables in scope close a behaviour, whatever else is put in and in
/// however many turns.
pub fn values_close()
    ensures { ValuesClose }
{}
