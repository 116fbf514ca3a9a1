//! Types with their presentations and their formal equations.

ghost use Rattle.lotos_base.specs.Name.{spelling};
ghost use Rattle.lotos_base.specs.WrittenView.{placed_name_of};
ghost use Rattle.std.specs.Prelude.{◌≡◌, ◌∷◌, ◌++◌, [], IfOk, List, OnOk, slice_get};
ghost use Rattle.syntax_trees.specs.TreeViews.{placed_names_of};
ghost use Rattle.type_definitions.specs.Flattened.{declared_with};
ghost use Rattle.type_definitions.specs.FormalEquations.{
  FlattenedType,
  WithFormals,
  formals_joined,
  mentioned_formals,
  no_formals,
  with_formals_named,
};
ghost use Rattle.type_definitions.specs.TypeView.{declared_type_of};
ghost use Rattle.type_actualisation.specs.FormalLists.{AreFormalsOver, IsUnionWith};
ghost use Rattle.type_presentations.specs.EquationListView.{equations_in};
ghost use Rattle.type_presentations.specs.PresentationView.{presentation_of};
ghost use Rattle.type_presentations.specs.PresentedView.{IsSoundPresentation};

use crate::formal_lists::FormalUnion;
use lotos_base::{Name, NoMemory};
use std::alloc::Global;
use syntax_trees::Named;
use type_definitions::TypeText;
use type_presentations::{EquationList, NamePositions, Presentation, PresentedTypes};

/// Types that have their presentations, in the order in which they were flattened, with their
/// formal equations, found by their names.
#[derive(Drop)]
pub struct FormalTypes<'a> {
    /// The types with their presentations.
    pub types: PresentedTypes<'a>,
    formals: Vec<EquationList>,
    names: NamePositions,
    none: EquationList,
}

impl<'a> FormalTypes<'a> {
    ghost use Rattle.type_actualisation.specs.FormalTypesView.{AreFormalTypes, IsListNamed, list_at};

    /// No types.
    pub fn new(alloc: Global) -> FormalTypes<'a>
        ensures { AreFormalTypes [] result }
    {
        FormalTypes {
            types: PresentedTypes::new(alloc),
            formals: Vec::new(alloc),
            names: NamePositions::new(alloc),
            none: EquationList::new(alloc),
        }
    }

    /// Adds a type behind the others. Where memory was wanted, the types are not to be used after
    /// that.
    pub fn add(
        &mut self,
        alloc: Global,
        text: &TypeText<'a>,
        presentation: Presentation,
        formals: EquationList,
    ) -> Result<(), NoMemory>
        requires types { (all : List FlattenedType) × AreFormalTypes all self.old }
        requires presentation { IsSoundPresentation presentation }
        requires formals { AreFormalsOver (presentation_of presentation).signature formals }
        ensures { OnOk result ((all : List FlattenedType) (t : FlattenedType)
            → AreFormalTypes all self.old → t.mentioned
            ≡ declared_with (declared_type_of text.now) (presentation_of presentation)
            → t.formals ≡ equations_in formals → AreFormalTypes (all ++ t ∷ []) self.new) }
    {
        let count = self.formals.len();
        self.types.add(alloc, text, presentation)?;
        self.formals.push(formals)?;
        self.names.add(alloc, text.name, count)?;
        Ok(())
    }

    /// The formal equations of the type of the name.
    pub fn formals_named(&self, alloc: Global, name: &Name) -> Result<&EquationList, NoMemory>
        requires { (all : List FlattenedType) × AreFormalTypes all self.now }
        ensures { IfOk result (λ list. (all : List FlattenedType) → AreFormalTypes all self.now
            → IsListNamed all (spelling name.now) list.now) }
    {
        match self.names.first(alloc, name)? {
            Some(number) => Ok(self.at(number)),
            None => Ok(&self.none),
        }
    }

    // The list of this number.
    fn at(&self, number: usize) -> &EquationList
        ensures { result.now ≡ list_at self.now.none (slice_get self.now.formals.items number) }
    {
        match self.formals.get(number) {
            Some(list) => list,
            None => &self.none,
        }
    }

    /// The union of the types of these names, with their formal equations.
    pub fn union_named(&self, alloc: Global, names: &[Named]) -> Result<FormalUnion, NoMemory>
        requires { (all : List FlattenedType) × AreFormalTypes all self.now }
        ensures { IfOk result (λ union. (all : List FlattenedType) → AreFormalTypes all self.now
            → IsUnionWith (mentioned_formals all (placed_names_of names.now)) union) }
    {
        let mut union = FormalUnion::new(alloc);
        self.join_all(alloc, &mut union, names)?;
        Ok(union)
    }

    // Joins them to a union that has nothing.
    fn join_all(
        &self,
        alloc: Global,
        union: &mut FormalUnion,
        names: &[Named],
    ) -> Result<(), NoMemory>
        requires types { (all : List FlattenedType) × AreFormalTypes all self.now }
        requires nothing { IsUnionWith no_formals union.old }
        ensures { OnOk result ((all : List FlattenedType) → AreFormalTypes all self.now
            → IsUnionWith (mentioned_formals all (placed_names_of names.now)) union.new) }
    {
        for named in names {
            self.join_named(alloc, union, named)?;
        }
        Ok(())
    }

    // Joins the type of the name.
    fn join_named(
        &self,
        alloc: Global,
        union: &mut FormalUnion,
        named: &Named,
    ) -> Result<(), NoMemory>
        requires types { (all : List FlattenedType) × AreFormalTypes all self.now }
        requires union { (w : WithFormals) × IsUnionWith w union.old }
        ensures { OnOk result ((all : List FlattenedType) (w : WithFormals)
            → AreFormalTypes all self.now → IsUnionWith w union.old
            → IsUnionWith (formals_joined w (with_formals_named all (placed_name_of named.now)))
            union.new) }
    {
        let presentation = self.types.named(alloc, &named.1)?;
        let formals = self.formals_named(alloc, &named.1)?;
        union.join(alloc, presentation, formals)?;
        Ok(())
    }
}
