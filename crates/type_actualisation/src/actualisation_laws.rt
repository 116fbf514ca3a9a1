//! Laws of actualisations of ACT ONE types (ISO 8807:1989, data part).

ghost use Rattle.type_actualisation.specs.ActualisationLaws.{ActualisedDataAreWellFormed};

/// Where each formal sort and operation has its actual one, what the base of an actualisation has
/// goes into it under maps of sorts and operations, and its data are well formed where nothing
/// clashes.
pub fn actualised_data_are_well_formed()
    ensures { ActualisedDataAreWellFormed }
{}
