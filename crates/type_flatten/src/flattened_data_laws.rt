//! Nothing executable: the law that flattened data are well formed (ISO 8807:1989, data part).

ghost use Rattle.type_flatten.specs.FlattenedData.{FlattenedDataAreWellFormed};

/// What flattening gives is well formed, whatever the types are: so is each union without a fault,
/// each presentation of a type without a fault, and the flattened data.
pub fn flattened_data_are_well_formed()
    ensures { FlattenedDataAreWellFormed }
{}
