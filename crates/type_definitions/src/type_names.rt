//! The types of a text, found by their names.

ghost use Rattle.lotos_base.specs.Name.{folded, spelling};
ghost use Rattle.sort_terms.specs.NameIndex.{numbers_under};
ghost use Rattle.sort_terms.specs.Positions.{positions_of};
ghost use Rattle.std.proofs.Props.{props};
ghost use Rattle.std.specs.Prelude.{
  ◌≡◌,
  ◌∷◌,
  ◌++◌,
  [],
  ℕ,
  false,
  List,
  None,
  IfOk,
  MatchOption,
  MatchResult,
  slice_get,
  if◌then◌else◌,
};
ghost use Rattle.std.specs.Str.{bytes_eq};
ghost use Rattle.type_definitions.specs.DeclaredTypes.{is_type_name};
ghost use Rattle.type_definitions.specs.MentionFaults.{AreDeclaredOnce, second_declaration};
ghost use Rattle.type_definitions.specs.NameFaultView.{IsDouble, IsNameTaken};
ghost use Rattle.type_definitions.specs.TypeView.{
  declared_types_of,
  type_spellings,
};

use crate::name_faults::TypeNameFault;
use crate::type_texts::TypeText;
use lotos_base::{Name, NoMemory};
use sort_terms::name_index::NameIndex;
use std::alloc::Global;

/// Types that are found by their names. Their numbers are their positions.
#[derive(Drop)]
pub struct TypeNames<'a> {
    types: Vec<TypeText<'a>>,
    index: NameIndex,
    pub ghost indexed: { (key : List ℕ) → numbers_under index key
        ≡ positions_of key (type_spellings types.items) } by { Prim.hlevel props },
}

impl<'a> TypeNames<'a> {
    ghost use Rattle.type_definitions.specs.TypeNamesView.{IsNumberOf, types_in};

    /// The types by their names, or the first one whose name an earlier one has.
    pub fn of(alloc: Global, types: Vec<TypeText<'a>>) -> Result<TypeNames<'a>, TypeNameFault>
        ensures { MatchResult result (λ names. (types_in names
            ≡ declared_types_of types.entry.items)
            × AreDeclaredOnce (declared_types_of types.entry.items))
            (λ fault. IsDouble (second_declaration [] (declared_types_of types.entry.items))
            fault) }
    {
        let index = index_of_names(alloc, types.as_slice())?;
        Ok(TypeNames { types, index })
    }

    /// The types, by their numbers.
    pub fn types(&self) -> &[TypeText<'a>]
        ensures { result.now ≡ self.now.types.items }
    {
        self.types.as_slice()
    }

    /// The number of the type of this name, if there is one.
    pub fn number(&self, alloc: Global, name: &Name) -> Result<Option<usize>, NoMemory>
        ensures { IfOk result (λ found. MatchOption found
            (is_type_name (types_in self.now) (spelling name.now) ≡ false)
            (λ n. IsNumberOf (types_in self.now) (spelling name.now) n)) }
    {
        first_number(alloc, &self.index, name)
    }
}

// The first number under the name.
fn first_number(alloc: Global, index: &NameIndex, name: &Name) -> Result<Option<usize>, NoMemory>
    ensures { IfOk result (λ found. found
        ≡ slice_get (numbers_under index.now (folded (spelling name.now))) 0) }
{
    let numbers = index.numbers(alloc, name)?;
    Ok(numbers.first().copied())
}

// The numbers of the types under their names.
fn index_of_names(alloc: Global, types: &[TypeText<'_>]) -> Result<NameIndex, TypeNameFault>
    ensures { MatchResult result (λ index. ((key : List ℕ) → numbers_under index key
        ≡ positions_of key (type_spellings types.now))
        × AreDeclaredOnce (declared_types_of types.now))
        (λ fault. IsDouble (second_declaration [] (declared_types_of types.now)) fault) }
{
    let mut index = NameIndex::new(alloc);
    for number in 0..types.len() {
        add_name(alloc, &mut index, &types[number], number)?;
    }
    Ok(index)
}

// Adds the type under its name, or refuses a second one of the name.
fn add_name(
    alloc: Global,
    index: &mut NameIndex,
    text: &TypeText<'_>,
    number: usize,
) -> Result<(), TypeNameFault>
    ensures { MatchResult result (λ _. (slice_get (numbers_under index.old
        (folded (spelling text.now.name.now))) 0 ≡ None)
        × ((key : List ℕ) → numbers_under index.new key ≡ numbers_under index.old key
        ++ (if bytes_eq key (folded (spelling text.now.name.now)) then number ∷ [] else [])))
        (λ fault. IsNameTaken text.now (slice_get (numbers_under index.old
        (folded (spelling text.now.name.now))) 0) fault) }
{
    let known = first_number(alloc, index, text.name)?;
    if let Some(_) = known {
        return Err(TypeNameFault::DoubleType {
            place: text.place,
            name: text.name.copy(alloc)?,
        });
    }
    index.add(alloc, text.name, number)?;
    Ok(())
}
