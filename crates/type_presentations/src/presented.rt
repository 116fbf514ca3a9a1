//! Types with their presentations.

ghost use Rattle.lotos_base.specs.Name.{spelling};
ghost use Rattle.type_presentations.specs.MentionView.{AreSoundMentions, mentions_of};
ghost use Rattle.type_presentations.specs.PresentedView.{
  IsPresentationAt,
  IsSoundPresentation,
  presented_of,
};
ghost use Rattle.std.specs.Prelude.{◌≡◌, ◌∷◌, ◌++◌, [], IfOk, OnOk};
ghost use Rattle.syntax_trees.specs.TreeViews.{placed_names_of};
ghost use Rattle.type_definitions.specs.Flattened.{
  declared_with,
  mentions_with,
  presentation_named,
  without_formals,
};
ghost use Rattle.type_definitions.specs.TypeView.{declared_type_of};
ghost use Rattle.type_presentations.specs.PresentationView.{presentation_of};

use crate::{Mention, NamePositions, Presentation};
use lotos_base::{Name, NoMemory};
use std::alloc::Global;
use syntax_trees::Named;
use type_definitions::TypeText;

/// A type with its presentation.
#[derive(Drop)]
pub struct PresentedType<'a> {
    /// The type.
    pub text: TypeText<'a>,
    /// Its presentation.
    pub presentation: Presentation,
}

/// Types that have their presentations, in the order in which they were flattened, found by their
/// names. Under a name that none of them has stands a presentation of nothing.
#[derive(Drop)]
pub struct PresentedTypes<'a> {
    types: Vec<PresentedType<'a>>,
    names: NamePositions,
    nothing: Presentation,
}

impl<'a> PresentedTypes<'a> {
    ghost use Rattle.type_presentations.specs.PresentedView.{AreSoundTypes, presented_in};

    /// No types.
    pub fn new(alloc: Global) -> PresentedTypes<'a>
        ensures sound { AreSoundTypes result }
        ensures presented { presented_in result ≡ [] }
    {
        PresentedTypes {
            types: Vec::new(alloc),
            names: NamePositions::new(alloc),
            nothing: Presentation::new(alloc),
        }
    }

    /// Adds a type behind the others. Where memory was wanted, the types are not to be used after
    /// that.
    pub fn add(
        &mut self,
        alloc: Global,
        text: &TypeText<'a>,
        presentation: Presentation,
    ) -> Result<(), NoMemory>
        requires sound { AreSoundTypes self.old }
        requires presentation { IsSoundPresentation presentation }
        ensures sound { OnOk result (AreSoundTypes self.new) }
        ensures presented { OnOk result (presented_in self.new ≡ presented_in self.old
            ++ declared_with (declared_type_of text.now) (presentation_of presentation) ∷ []) }
    {
        let count = self.types.len();
        self.types.push(PresentedType {
            text: *text,
            presentation,
        })?;
        self.names.add(alloc, text.name, count)?;
        Ok(())
    }

    /// The presentation of the type of the name.
    pub fn named(&self, alloc: Global, name: &Name) -> Result<&Presentation, NoMemory>
        requires { AreSoundTypes self.now }
        ensures presentation { IfOk result (λ p. presentation_of p.now
            ≡ presentation_named (presented_in self.now) (spelling name.now)) }
        ensures sound { IfOk result (λ p. IsSoundPresentation p.now) }
    {
        match self.names.first(alloc, name)? {
            Some(number) => Ok(self.at(number)),
            None => Ok(&self.nothing),
        }
    }

    // The presentation of the type of this number.
    fn at(&self, number: usize) -> &Presentation
        requires { AreSoundTypes self.now }
        ensures presentation { IsPresentationAt (presented_in self.now) number
            (presentation_of result.now) }
        ensures sound { IsSoundPresentation result.now }
    {
        match self.types.get(number) {
            Some(presented) => &presented.presentation,
            None => &self.nothing,
        }
    }

    /// Mentions of these names, each with the presentation of its type.
    pub fn mentions<'b>(
        &'b self,
        alloc: Global,
        names: &'b [Named],
    ) -> Result<Vec<Mention<'b>>, NoMemory>
        requires { AreSoundTypes self.now }
        ensures mentions { IfOk result (λ made. mentions_of made.items
            ≡ mentions_with (presented_in self.now) (placed_names_of names.now)) }
        ensures sound { IfOk result (λ made. AreSoundMentions made.items) }
    {
        let mut made = Vec::with_capacity(alloc, names.len())?;
        for named in names {
            made.push(Mention {
                place: named.0,
                name: &named.1,
                presentation: self.named(alloc, &named.1)?,
            })?;
        }
        Ok(made)
    }

    /// The types in which nothing is formal, each mentioned at its own name.
    pub fn without_formals(&self, alloc: Global) -> Result<Vec<Mention<'_>>, NoMemory>
        requires { AreSoundTypes self.now }
        ensures mentions { IfOk result (λ made. mentions_of made.items
            ≡ without_formals (presented_in self.now)) }
        ensures sound { IfOk result (λ made. AreSoundMentions made.items) }
    {
        let mut made = Vec::new(alloc);
        for presented in &self.types {
            add_unless_formal(&mut made, presented)?;
        }
        Ok(made)
    }
}

// Adds a mention of the type, unless something is formal in it.
fn add_unless_formal<'a>(
    made: &mut Vec<Mention<'a>>,
    presented: &'a PresentedType<'_>,
) -> Result<(), NoMemory>
    requires { IsSoundPresentation presented.now.presentation }
    ensures mentions { OnOk result (mentions_of made.new.items ≡ mentions_of made.old.items
        ++ without_formals (presented_of presented.now ∷ [])) }
    ensures sound { OnOk result (AreSoundMentions made.old.items
        → AreSoundMentions made.new.items) }
{
    if presented.presentation.is_formal() {
        return Ok(());
    }
    made.push(Mention {
        place: presented.text.place,
        name: presented.text.name,
        presentation: &presented.presentation,
    })?;
    Ok(())
}
