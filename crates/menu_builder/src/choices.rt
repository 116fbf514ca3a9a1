//! The drafts of choices whose sides are choices again, gathered side by side.

ghost use Rattle.behaviour_semantics.specs.WellFormed.{Every};
ghost use Rattle.menu_builder.specs.Choices.{EntersSide, GathersDrafts, IsGathering, IsNothingGathered, Leaves};
ghost use Rattle.draft_parts.specs.DraftRules.{draft_within};
ghost use Rattle.draft_parts.specs.DraftTerms.{HasTermsOf};
ghost use Rattle.draft_parts.specs.Lists.{AreMadeBy, plain_drafts};
ghost use Rattle.menu_builder.specs.SharedShapes.{AreShared, below_all};
ghost use Rattle.draft_parts.specs.HandedOn.{plain_draft};
ghost use Rattle.lotos_base.specs.Signature.{Signature};
ghost use Rattle.std.specs.Prelude.{◌≡◌, IfOk, OnOk, Some};

use crate::shared_shapes::{SharedShape, below_path, first_shapes};
use behaviour_tree::Shape;
use draft_parts::{Draft, Variant};
use lotos_base::NoMemory;
use std::alloc::Global;
use std::mem;

/// The drafts of a choice that were gathered so far, and the sides of choices, the outermost
/// first, below which the next ones stand. Shapes with a part in common share it.
#[derive(Debug, Drop)]
pub struct ChoiceDrafts {
    path: Vec<Variant>,
    shapes: Vec<SharedShape>,
    drafts: Vec<Draft>,
}

impl ChoiceDrafts {
    /// No drafts. The next ones stand below no side.
    pub fn new(alloc: Global) -> Result<ChoiceDrafts, NoMemory>
        ensures { IfOk result (λ made. IsNothingGathered made) }
    {
        Ok(ChoiceDrafts {
            path: Vec::new(alloc),
            shapes: first_shapes(alloc)?,
            drafts: Vec::new(alloc),
        })
    }

    /// The next drafts stand below this side of a choice, which stands where they stood.
    pub fn enter(&mut self, side: Variant) -> Result<(), NoMemory>
        ensures { OnOk result (EntersSide side self.old self.new) }
    {
        self.path.push(side)?;
        Ok(())
    }

    /// The next drafts stand where they stood before the last side was entered.
    pub fn leave(&mut self)
        ensures { Leaves self.old self.new }
    {
        self.path.pop();
    }

    /// Gathers these drafts too.
    pub fn add(&mut self, drafts: Vec<Draft>) -> Result<(), NoMemory>
        requires { IsGathering self.old }
        ensures { OnOk result ((signature : Signature) → Every (HasTermsOf signature) drafts.items
            → GathersDrafts signature (plain_drafts drafts.items) self.old self.new) }
    {
        let mut more = drafts;
        put_below_path(&mut self.shapes, self.path.as_slice(), &mut more)?;
        self.drafts.append(&mut more)?;
        Ok(())
    }

    /// The drafts that were gathered.
    pub fn into_drafts(self) -> Vec<Draft>
        ensures { result.items ≡ self.drafts.items }
    {
        self.drafts
    }
}

// Puts the variants over the shape of each of the drafts.
fn put_below_path(
    shapes: &mut Vec<SharedShape>,
    path: &[Variant],
    drafts: &mut Vec<Draft>,
) -> Result<(), NoMemory>
    requires { AreShared shapes.old.items }
    ensures shared { OnOk result (AreShared shapes.new.items) }
    ensures made { OnOk result ((signature : Signature)
        → Every (HasTermsOf signature) drafts.old.items
        → AreMadeBy signature (λ d. Some (draft_within (below_all path.now) d))
        drafts.old.items drafts.new.items) }
{
    for i in 0..drafts.len() {
        put_draft_below(shapes, path, &mut drafts[i])?;
    }
    Ok(())
}

// Puts the variants over the shape of the draft.
fn put_draft_below(
    shapes: &mut Vec<SharedShape>,
    path: &[Variant],
    draft: &mut Draft,
) -> Result<(), NoMemory>
    requires { AreShared shapes.old.items }
    ensures shared { OnOk result (AreShared shapes.new.items) }
    ensures same { OnOk result (plain_draft draft.new
        ≡ draft_within (below_all path.now) (plain_draft draft.old)) }
    ensures over { OnOk result ((signature : Signature)
        → HasTermsOf signature draft.old → HasTermsOf signature draft.new) }
{
    let part = mem::replace(&mut draft.shape, Shape::Act);
    draft.shape = below_path(shapes, path, part)?;
    Ok(())
}
