//! Renamings.

ghost use Rattle.lotos_base.specs.Name.{spelling};
ghost use Rattle.std.specs.Prelude.{MatchResult};
ghost use Rattle.syntax_trees.specs.TreeViews.{pairs_of};
ghost use Rattle.type_presentations.specs.PresentationView.{
  IsSound,
  IsWithinLimits,
  presentation_of,
};
ghost use Rattle.type_renaming.specs.ImageOfBase.{
  HasSortsAlone,
  IsClash,
  IsCompleted,
  IsImage,
  IsOperationClash,
};
ghost use Rattle.type_renaming.specs.Renamed.{IsRenamed, IsRenamingFault};

use crate::equations::{keep_equations, keep_marks};
use crate::operations::rename_ops;
use crate::renamer::Renamer;
use crate::sorts::rename_sorts;
use lotos_base::Name;
use std::alloc::Global;
use syntax_trees::PairText;
use type_definitions::TypeFault;
use type_presentations::{NamePositions, Presentation, look_at_op_pairs, look_at_sort_pairs};

/// The presentation of the type of this name that renames the base by these pairs: the image of
/// the base, with its marks. What is renamed has the type as its origin; numbers stay.
///
/// Pairs are looked at first, in text order, those of sorts before those of operations: an old name
/// that is that of no sort or operation is `UnknownSort` or `UnknownOperation` at this name; an old
/// name that an earlier pair has is `DoubleSort` or `DoubleOperation` at the pair, and so is the
/// new name of a sort that an earlier pair has. Then, in the order of the base, two sorts or
/// operations that become one are `DoubleSort` or `DoubleOperation` at the pair of the later one,
/// or where it has none at that of the earlier one.
pub fn rename(
    alloc: Global,
    base: &Presentation,
    type_name: &Name,
    sort_pairs: &[PairText],
    op_pairs: &[PairText],
) -> Result<Presentation, TypeFault>
    requires sound { IsSound base.now }
    requires within { IsWithinLimits base.now }
    ensures { MatchResult result
        (λ p. IsRenamed (presentation_of base.now) (spelling type_name.now)
        (pairs_of sort_pairs.now op_pairs.now) p)
        (λ fault. IsRenamingFault (presentation_of base.now) (spelling type_name.now)
        (pairs_of sort_pairs.now op_pairs.now) fault) }
{
    let sort_names = NamePositions::of_sorts(alloc, base.sorts.sorts())?;
    let sort_index = look_at_sort_pairs(alloc, &sort_names, sort_pairs)?;
    let op_names = NamePositions::of_ops(alloc, base.ops.ops())?;
    let op_index = look_at_op_pairs(alloc, &op_names, op_pairs)?;
    made(
        alloc,
        base,
        &Renamer {
            type_name,
            pairs: sort_index,
        },
        &Renamer {
            type_name,
            pairs: op_index,
        },
    )
}

// The image of the base, unless two of its sorts or operations become one.
fn made(
    alloc: Global,
    base: &Presentation,
    sorts: &Renamer<'_>,
    ops: &Renamer<'_>,
) -> Result<Presentation, TypeFault>
    requires sound { IsSound base.now }
    requires within { IsWithinLimits base.now }
    ensures { MatchResult result
        (λ p. IsImage (presentation_of base.now) sorts.now ops.now p)
        (λ fault. IsClash (presentation_of base.now) sorts.now ops.now fault) }
{
    let mut renamed = rename_sorts(alloc, base.sorts.sorts(), sorts)?;
    complete(alloc, &mut renamed, base, ops)?;
    Ok(renamed)
}

// Puts the images of the operations into a presentation that has sorts alone, and what stays.
fn complete(
    alloc: Global,
    renamed: &mut Presentation,
    base: &Presentation,
    ops: &Renamer<'_>,
) -> Result<(), TypeFault>
    requires sound { IsSound renamed.old }
    requires within { IsWithinLimits renamed.old }
    requires whole { IsSound base.now }
    requires few { IsWithinLimits base.now }
    requires alone { HasSortsAlone (presentation_of base.now) (presentation_of renamed.old) }
    ensures { MatchResult result
        (λ _. IsCompleted (presentation_of base.now) ops.now (presentation_of renamed.old)
        renamed.new)
        (λ fault. IsOperationClash (presentation_of base.now) ops.now fault) }
{
    rename_ops(alloc, renamed, base.ops.ops(), ops)?;
    keep_equations(alloc, renamed, base)?;
    keep_marks(renamed, base)?;
    Ok(())
}
