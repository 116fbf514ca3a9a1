//! The formal equations of one type, and what it requires.

ghost use Rattle.lotos_base.specs.Name.{spelling};
ghost use Rattle.lotos_base.specs.WrittenTerm.{PlacedName};
ghost use Rattle.lotos_base.specs.WrittenView.{placed_name_of};
ghost use Rattle.std.specs.Prelude.{◌≡◌, [], IfOk, List, OnOk, ℕ, false};
ghost use Rattle.syntax_trees.specs.TreeViews.{equations_of, pairs_of, placed_names_of};
ghost use Rattle.syntax_trees.specs.WrittenItem.{
  WrittenPairs,
  WrittenSections,
  actualises,
  extends,
  renames,
};
ghost use Rattle.type_definitions.specs.Actualisation.{actualisation, is_formal};
ghost use Rattle.type_definitions.specs.Flattened.{IsPresentation, mentions_with};
ghost use Rattle.type_definitions.specs.FormalEquations.{
  FlattenedType,
  formals_named,
  mentioned_in,
};
ghost use Rattle.type_definitions.specs.Presentation.{Presentation as PlainPresentation};
ghost use Rattle.type_definitions.specs.Requirements.{actualised_images, required_of};
ghost use Rattle.type_definitions.specs.TypeView.{declared_type_of, type_body_of};
ghost use Rattle.type_actualisation.specs.FormalTypesView.{
  AreFormalTypes,
  HasFormals,
  HasOver,
  actualising_in,
  actualising_over,
};
ghost use Rattle.type_presentations.specs.EquationListView.{HasEquationKeys, equations_in};
ghost use Rattle.type_presentations.specs.PresentationView.{
  IsSound,
  IsWithinLimits,
  presentation_of,
};
ghost use Rattle.type_presentations.specs.PresentedView.{
  AreSoundTypes,
  IsSoundPresentation,
  presented_in,
};
ghost use Rattle.type_presentations.specs.UnionMade.{IsUnited};

use crate::actualising::actualise_into;
use crate::formal_lists::append_images;
use crate::formal_types::FormalTypes;
use crate::own_formals::own_formals;
use lotos_base::Name;
use std::alloc::Global;
use syntax_trees::{EqnsText, ItemBody, Named, PairText};
use type_definitions::{TypeFault, TypeText};
use type_presentations::{EquationList, Presentation, PresentedTypes, union_of_mentions};
use type_renaming::numbers_below;

/// The formal equations of a type of this presentation and body, after the types that it mentions:
/// of an extension those of its imports and then its own, of a renaming those of its base, of an
/// actualisation those of its actual types.
pub fn formals_of_type(
    alloc: Global,
    types: &FormalTypes<'_>,
    presentation: &Presentation,
    body: &ItemBody,
) -> Result<EquationList, TypeFault>
    requires sound { IsSound presentation.now }
    requires within { IsWithinLimits presentation.now }
    requires types { (all : List FlattenedType) × (name : List ℕ) × AreFormalTypes all types.now
        × IsPresentation (mentioned_in all) name (type_body_of body.now)
        (presentation_of presentation.now) }
    ensures { IfOk result (λ list. (all : List FlattenedType) (name : List ℕ)
        → AreFormalTypes all types.now
        → IsPresentation (mentioned_in all) name (type_body_of body.now)
        (presentation_of presentation.now)
        → HasFormals all (presentation_of presentation.now) (type_body_of body.now) list) }
{
    match body {
        ItemBody::Library(_) => Ok(EquationList::new(alloc)),
        ItemBody::Extends {
            imports,
            formal_equations,
            ..
        } => extended_formals(alloc, types, presentation, imports, formal_equations),
        ItemBody::Renames { base, .. } => renamed_formals(alloc, types, presentation, base),
        ItemBody::Actualises { actuals, .. } => actual_formals(alloc, types, actuals),
    }
}

// Those of an extension.
fn extended_formals(
    alloc: Global,
    types: &FormalTypes<'_>,
    presentation: &Presentation,
    imports: &[Named],
    formal_equations: &EqnsText,
) -> Result<EquationList, TypeFault>
    requires sound { IsSound presentation.now }
    requires within { IsWithinLimits presentation.now }
    requires types { (all : List FlattenedType) × (name : List ℕ) × (sections : WrittenSections)
        × AreFormalTypes all types.now
        × IsPresentation (mentioned_in all) name (extends (placed_names_of imports.now) sections)
        (presentation_of presentation.now) }
    ensures { IfOk result (λ list. (all : List FlattenedType) (name : List ℕ)
        (sections : WrittenSections) → AreFormalTypes all types.now
        → sections.formal_equations ≡ equations_of formal_equations.now
        → IsPresentation (mentioned_in all) name (extends (placed_names_of imports.now) sections)
        (presentation_of presentation.now)
        → HasFormals all (presentation_of presentation.now)
        (extends (placed_names_of imports.now) sections) list) }
{
    let union = types.union_named(alloc, imports)?;
    let mut list = union.equations;
    own_formals(alloc, &mut list, presentation, formal_equations)?;
    Ok(list)
}

// Those of a renaming: each sort and operation keeps its number.
fn renamed_formals(
    alloc: Global,
    types: &FormalTypes<'_>,
    presentation: &Presentation,
    base: &Named,
) -> Result<EquationList, TypeFault>
    requires { (all : List FlattenedType) × (name : List ℕ) × (pairs : WrittenPairs)
        × AreFormalTypes all types.now
        × IsPresentation (mentioned_in all) name (renames (placed_name_of base.now) pairs)
        (presentation_of presentation.now) }
    ensures { IfOk result (λ list. (all : List FlattenedType) (name : List ℕ)
        (pairs : WrittenPairs) → AreFormalTypes all types.now
        → IsPresentation (mentioned_in all) name (renames (placed_name_of base.now) pairs)
        (presentation_of presentation.now)
        → HasFormals all (presentation_of presentation.now)
        (renames (placed_name_of base.now) pairs) list) }
{
    let formals = types.formals_named(alloc, &base.1)?;
    let renamed = types.types.named(alloc, &base.1)?;
    let sorts = numbers_below(alloc, renamed.sorts.sorts().len())?;
    let ops = numbers_below(alloc, renamed.ops.ops().len())?;
    let sort_numbers = sorts.as_slice();
    let op_numbers = ops.as_slice();
    let mut list = EquationList::new(alloc);
    append_images(
        alloc,
        &mut list,
        formals,
        sort_numbers,
        op_numbers,
        &presentation.ops,
    )?;
    Ok(list)
}

// Those of an actualisation.
fn actual_formals(
    alloc: Global,
    types: &FormalTypes<'_>,
    actuals: &[Named],
) -> Result<EquationList, TypeFault>
    requires { (all : List FlattenedType) × AreFormalTypes all types.now }
    ensures { IfOk result (λ list. (all : List FlattenedType) (name : List ℕ) (base : PlacedName)
        (pairs : WrittenPairs) (p : PlainPresentation) → AreFormalTypes all types.now
        → IsPresentation (mentioned_in all) name
        (actualises base (placed_names_of actuals.now) pairs) p
        → HasFormals all p (actualises base (placed_names_of actuals.now) pairs) list) }
{
    let union = types.union_named(alloc, actuals)?;
    Ok(union.equations)
}

/// What a type requires in which nothing is formal: where it is an actualisation, what the formal
/// equations of its base come to.
pub fn required_of_type(
    alloc: Global,
    types: &FormalTypes<'_>,
    text: &TypeText<'_>,
) -> Result<EquationList, TypeFault>
    requires { (all : List FlattenedType) × AreFormalTypes all types.now }
    ensures { IfOk result (λ list. (all : List FlattenedType) (p : PlainPresentation)
        → AreFormalTypes all types.now
        → IsPresentation (mentioned_in all) (declared_type_of text.now).name
        (declared_type_of text.now).body p → is_formal p ≡ false
        → HasOver (required_of all (declared_type_of text.now).name p
        (declared_type_of text.now).body) p list) }
{
    match text.body {
        ItemBody::Library(_) => Ok(EquationList::new(alloc)),
        ItemBody::Extends { .. } => Ok(EquationList::new(alloc)),
        ItemBody::Renames { .. } => Ok(EquationList::new(alloc)),
        ItemBody::Actualises {
            base,
            actuals,
            sort_pairs,
            op_pairs,
            ..
        } => {
            let mut list = EquationList::new(alloc);
            let given = actuals.as_slice();
            let sorts = sort_pairs.as_slice();
            let ops = op_pairs.as_slice();
            let pairs = Pairs { sorts, ops };
            actualised_formals(alloc, &mut list, types, text.name, base, given, &pairs)?;
            Ok(list)
        }
    }
}

// The pairs of an actualisation.
#[derive(Clone, Copy)]
struct Pairs<'a> {
    sorts: &'a [PairText],
    ops: &'a [PairText],
}

// Puts the formal equations of the base, where each formal sort and operation becomes its actual
// one, into a list that has nothing.
fn actualised_formals(
    alloc: Global,
    list: &mut EquationList,
    types: &FormalTypes<'_>,
    type_name: &Name,
    base: &Named,
    actuals: &[Named],
    pairs: &Pairs<'_>,
) -> Result<(), TypeFault>
    requires types { (all : List FlattenedType) × AreFormalTypes all types.now }
    requires keyed { HasEquationKeys list.old }
    requires nothing { equations_in list.old ≡ [] }
    ensures { OnOk result ((all : List FlattenedType) → AreFormalTypes all types.now
        → HasOver (actualised_images (actualising_in all (placed_name_of base.now)
        (placed_names_of actuals.now) (spelling type_name.now)
        (pairs_of pairs.now.sorts.now pairs.now.ops.now))
        (formals_named all (placed_name_of base.now).name))
        (actualisation (actualising_in all (placed_name_of base.now)
        (placed_names_of actuals.now) (spelling type_name.now)
        (pairs_of pairs.now.sorts.now pairs.now.ops.now))) list.new) }
{
    let mut actual = union_of_actuals(alloc, &types.types, actuals)?;
    images_over(alloc, list, types, type_name, base, &mut actual, pairs)
}

// The union of the actual types.
fn union_of_actuals(
    alloc: Global,
    types: &PresentedTypes<'_>,
    actuals: &[Named],
) -> Result<Presentation, TypeFault>
    requires { AreSoundTypes types.now }
    ensures { IfOk result (λ p. IsUnited (mentions_with (presented_in types.now)
        (placed_names_of actuals.now)) p) }
{
    let mentions = types.mentions(alloc, actuals)?;
    let given = mentions.as_slice();
    union_of_mentions(alloc, given)
}

// Puts them into the list, where the actual types have this union, in whose place the actualisation
// is made.
fn images_over(
    alloc: Global,
    list: &mut EquationList,
    types: &FormalTypes<'_>,
    type_name: &Name,
    base: &Named,
    actual: &mut Presentation,
    pairs: &Pairs<'_>,
) -> Result<(), TypeFault>
    requires types { (all : List FlattenedType) × AreFormalTypes all types.now }
    requires actual { IsSoundPresentation actual.old }
    requires keyed { HasEquationKeys list.old }
    requires nothing { equations_in list.old ≡ [] }
    ensures { OnOk result ((all : List FlattenedType) → AreFormalTypes all types.now
        → HasOver (actualised_images (actualising_over all (placed_name_of base.now)
        (presentation_of actual.old) (spelling type_name.now)
        (pairs_of pairs.now.sorts.now pairs.now.ops.now))
        (formals_named all (placed_name_of base.now).name))
        (actualisation (actualising_over all (placed_name_of base.now)
        (presentation_of actual.old) (spelling type_name.now)
        (pairs_of pairs.now.sorts.now pairs.now.ops.now))) list.new) }
{
    let formals = types.formals_named(alloc, &base.1)?;
    let actualised = types.types.named(alloc, &base.1)?;
    let numbers = actualise_into(
        alloc,
        actualised,
        base,
        actual,
        type_name,
        pairs.sorts,
        pairs.ops,
    )?;
    let sorts = numbers.sorts.as_slice();
    let ops = numbers.ops.as_slice();
    append_images(alloc, list, formals, sorts, ops, &actual.ops)?;
    Ok(())
}
