//! The presentation of one type, after those that it mentions.

ghost use Rattle.type_flatten.specs.FlatView.{IsFirstTypeFault, IsPresented};
ghost use Rattle.lotos_base.specs.Name.{spelling};
ghost use Rattle.lotos_base.specs.WrittenView.{placed_name_of, text_place_of};
ghost use Rattle.type_presentations.specs.PresentedView.{AreSoundTypes, presented_in};
ghost use Rattle.std.specs.Prelude.{◌≡◌, MatchResult};
ghost use Rattle.syntax_trees.specs.TreeViews.{pairs_of, placed_names_of};
ghost use Rattle.syntax_trees.specs.WrittenItem.{actualises, extends, renames};
ghost use Rattle.type_presentations.specs.SectionView.{sections_of};
ghost use Rattle.type_definitions.specs.FaultView.{HoldsOfFault};
ghost use Rattle.type_definitions.specs.TypeFault.{not_formal as nothing_formal};
ghost use Rattle.type_definitions.specs.TypeView.{type_body_of};

use lotos_base::Name;
use std::alloc::Global;
use syntax_trees::{ItemBody, Named, PairText};
use type_actualisation::{actualise, declare_equations, rename};
use type_definitions::TypeFault;
use type_presentations::{Presentation, PresentedTypes, SectionTexts, declare, union_of_mentions};

/// The presentation of the type of this name and body, after the types that it mentions, or its
/// first fault.
pub fn presentation_of_type(
    alloc: Global,
    types: &PresentedTypes<'_>,
    type_name: &Name,
    body: &ItemBody,
) -> Result<Presentation, TypeFault>
    requires { AreSoundTypes types.now }
    ensures { MatchResult result
        (λ p. IsPresented (presented_in types.now) (spelling type_name.now)
        (type_body_of body.now) p)
        (λ fault. IsFirstTypeFault (presented_in types.now) (spelling type_name.now)
        (type_body_of body.now) fault) }
{
    match body {
        ItemBody::Library(_) => Ok(Presentation::new(alloc)),
        ItemBody::Extends {
            imports,
            formal_sorts,
            formal_ops,
            formal_equations,
            sorts,
            ops,
            equations,
            ..
        } => {
            let sections = SectionTexts {
                formal_sorts,
                formal_ops,
                formal_equations,
                sorts,
                ops,
                equations,
            };
            extension(alloc, types, type_name, imports, &sections)
        }
        ItemBody::Renames {
            base,
            sort_pairs,
            op_pairs,
            ..
        } => renaming(alloc, types, type_name, base, sort_pairs, op_pairs),
        ItemBody::Actualises {
            base,
            actuals,
            sort_pairs,
            op_pairs,
            ..
        } => {
            let mentioned = Mentioned { base, actuals };
            actualisation(alloc, types, type_name, &mentioned, sort_pairs, op_pairs)
        }
    }
}

// The presentation of a type that extends others.
fn extension(
    alloc: Global,
    types: &PresentedTypes<'_>,
    type_name: &Name,
    imports: &[Named],
    sections: &SectionTexts<'_>,
) -> Result<Presentation, TypeFault>
    requires { AreSoundTypes types.now }
    ensures { MatchResult result
        (λ p. IsPresented (presented_in types.now) (spelling type_name.now)
        (extends (placed_names_of imports.now) (sections_of sections.now)) p)
        (λ fault. IsFirstTypeFault (presented_in types.now) (spelling type_name.now)
        (extends (placed_names_of imports.now) (sections_of sections.now)) fault) }
{
    let mentions = types.mentions(alloc, imports)?;
    let imported = mentions.as_slice();
    let union = union_of_mentions(alloc, imported)?;
    let declared = declare(alloc, union, type_name, sections)?;
    declare_equations(alloc, declared, type_name, sections)
}

// The presentation of a type that renames another one.
fn renaming(
    alloc: Global,
    types: &PresentedTypes<'_>,
    type_name: &Name,
    base: &Named,
    sort_pairs: &[PairText],
    op_pairs: &[PairText],
) -> Result<Presentation, TypeFault>
    requires { AreSoundTypes types.now }
    ensures { MatchResult result
        (λ p. IsPresented (presented_in types.now) (spelling type_name.now)
        (renames (placed_name_of base.now) (pairs_of sort_pairs.now op_pairs.now)) p)
        (λ fault. IsFirstTypeFault (presented_in types.now) (spelling type_name.now)
        (renames (placed_name_of base.now) (pairs_of sort_pairs.now op_pairs.now)) fault) }
{
    let presentation = types.named(alloc, &base.1)?;
    rename(alloc, presentation, type_name, sort_pairs, op_pairs)
}

// The types that an actualisation mentions.
#[derive(Clone, Copy)]
struct Mentioned<'a> {
    base: &'a Named,
    actuals: &'a [Named],
}

// The presentation of a type that actualises another one.
fn actualisation(
    alloc: Global,
    types: &PresentedTypes<'_>,
    type_name: &Name,
    mentioned: &Mentioned<'_>,
    sort_pairs: &[PairText],
    op_pairs: &[PairText],
) -> Result<Presentation, TypeFault>
    requires { AreSoundTypes types.now }
    ensures { MatchResult result
        (λ p. IsPresented (presented_in types.now) (spelling type_name.now)
        (actualises (placed_name_of mentioned.now.base.now)
        (placed_names_of mentioned.now.actuals.now) (pairs_of sort_pairs.now op_pairs.now)) p)
        (λ fault. IsFirstTypeFault (presented_in types.now) (spelling type_name.now)
        (actualises (placed_name_of mentioned.now.base.now)
        (placed_names_of mentioned.now.actuals.now) (pairs_of sort_pairs.now op_pairs.now))
        fault) }
{
    let base = types.named(alloc, &mentioned.base.1)?;
    if !base.is_formal() {
        return Err(not_formal(alloc, mentioned.base));
    }
    let mentions = types.mentions(alloc, mentioned.actuals)?;
    let given = mentions.as_slice();
    let actual = union_of_mentions(alloc, given)?;
    actualise(
        alloc,
        base,
        mentioned.base,
        actual,
        type_name,
        sort_pairs,
        op_pairs,
    )
}

// The fault of a mention of a type in which nothing is formal.
fn not_formal(alloc: Global, mention: &Named) -> TypeFault
    ensures { HoldsOfFault result (λ fault. fault ≡ nothing_formal
        (text_place_of mention.now.0) (spelling mention.now.1)) }
{
    match mention.1.copy(alloc) {
        Ok(name) => TypeFault::NotFormal {
            place: mention.0,
            name,
        },
        Err(_) => TypeFault::NoMemory,
    }
}
