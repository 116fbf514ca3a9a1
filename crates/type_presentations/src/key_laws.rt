//! Keys of sorts and operations, by which equal ones and clashes are found in a map.

ghost use Rattle.type_presentations.specs.Keys.{KeysTell};

/// Keys are equal exactly where sorts have one name, sorts are one, operations have one name, form
/// and profile, and operations are one.
pub fn keys_tell()
    ensures { KeysTell }
{}
