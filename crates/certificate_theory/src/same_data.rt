//! Data that are the same. The function carries a law as its contract and does nothing.

ghost use Rattle.certificate_theory.specs.SameDataLaws.{SameDataAreInterchangeable};

/// Over data that are the same up to places, origins, spellings and names of variables, the same
/// specifications are well formed, the same terms are equal, and behaviours have the same
/// transitions.
pub fn same_data_are_interchangeable()
    ensures { SameDataAreInterchangeable }
{}
