//! What comes in from the base of an actualisation, condensed to one member of each kind
//! (ISO 8807:1989, data part).

ghost use Rattle.type_renaming.specs.Condensed.{operation_kind, sort_kind};
ghost use Rattle.type_renaming.specs.CondensedLaws.{TellsClashes};
ghost use Rattle.lotos_base.specs.Signature.{Operation, Sort};

/// Whether a sort or an operation that comes in clashes with what came before is told by one
/// member of each kind, with the first pair that made it.
pub fn condensed_members_tell_clashes()
    ensures sorts { TellsClashes Sort sort_kind }
    ensures operations { TellsClashes Operation operation_kind }
{}
