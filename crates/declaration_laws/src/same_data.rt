//! The law of data that are the same. The function carries it as its contract and does nothing.

ghost use Rattle.declaration_laws.specs.SameData.{SameDataResolveAlike};

/// A text comes to the same specification, or to the same fault, over data that are the same up to
/// places, origins, spellings and names of variables.
pub fn same_data_resolve_alike()
    ensures { SameDataResolveAlike }
{}
