//! Members of a signature, sorts and operations, found by their keys.

ghost use Rattle.type_presentations.specs.Keys.{
  name_key,
  operation_key,
  profile_key as key_of_profile,
  sort_key,
};
ghost use Rattle.type_presentations.specs.KeyLaws.{keys_tell};
ghost use Rattle.sort_terms.specs.Operations.{operation_of, sort_of};
ghost use Rattle.sort_terms.specs.WellFormedTest.{are_one_operation, are_one_sort};
ghost use Rattle.std.specs.Prelude.{
  ◌≡◌,
  ◌↔◌,
  ℕ,
  true,
  Bool,
  IfOk,
  List,
  None,
  Option,
  Some,
  refl,
};
ghost use Rattle.lotos_base.specs.Signature.{Operation, Sort as PlainSort};
ghost use Rattle.type_definitions.specs.Presentation.{
  first_position,
  is_same_operation,
  is_same_sort,
};
ghost use Rattle.type_definitions.specs.Union.{operation_place_in, sort_place_in};
ghost use Rattle.type_definitions.specs.Images.{operation_image};
ghost use Rattle.type_definitions.specs.ProfiledImage.{number_in};

use crate::keys::{profile_key, push_name, push_profile};
use lotos_base::NoMemory;
use sort_terms::{Op, Sort};
use std::alloc::Global;
use std::rc::Rc;
use type_definitions::op_image;

/// A member of a signature: a sort or an operation. Two that are the same are one member; two that
/// clash may not stand in one signature.
pub trait Keyed: Sized + Drop {
    ghost Plain: { Type 0 };

    /// What it is in a signature.
    ghost plain: { Self → Plain };
    /// Whether two are the same.
    ghost are_same: { Plain → Plain → Bool };
    /// Whether two clash, if they are not the same.
    ghost are_one: { Plain → Plain → Bool };
    /// The key of those that are the same.
    ghost key_of: { Plain → List ℕ };
    /// The key of those that clash.
    ghost clash_key_of: { Plain → List ℕ };
    /// The member over the new numbers of sorts.
    ghost image_by: { (ℕ → ℕ) → Plain → Plain };
    /// Where a member stands among others.
    ghost place_in: { List Plain → Option Plain → ℕ };

    /// The key that is that of all that are the same.
    fn key(&self, alloc: Global) -> Result<Vec<usize>, NoMemory>
        ensures { IfOk result (λ key. key.items ≡ key_of (plain self.now)) };

    /// The key that is that of all that clash with it.
    fn clash_key(&self, alloc: Global) -> Result<Vec<usize>, NoMemory>
        ensures { IfOk result (λ key. key.items ≡ clash_key_of (plain self.now)) };

    /// The member with the new number of each of its sorts, by the old one.
    fn image(&self, alloc: Global, sorts: &[u32]) -> Result<Self, NoMemory>
        ensures { IfOk result (λ image. plain image
            ≡ image_by (number_in sorts.now) (plain self.now)) };

    ghost same_keys: { (x y : Plain) → (key_of x ≡ key_of y) ↔ (are_same x y ≡ true) };

    ghost clash_keys: { (x y : Plain) → (clash_key_of x ≡ clash_key_of y) ↔ (are_one x y ≡ true) };

    ghost none_in: { (xs : List Plain) → place_in xs None ≡ 0 };

    ghost some_in: { (xs : List Plain) (x : Plain)
        → place_in xs (Some x) ≡ first_position (are_same x) xs };
}

impl Keyed for Sort {
    ghost Plain = { PlainSort };

    ghost plain = { sort_of };

    ghost are_same = { is_same_sort };

    ghost are_one = { are_one_sort };

    ghost key_of = { sort_key };

    ghost clash_key_of = { name_key };

    ghost image_by = { λ _ sort. sort };

    ghost place_in = { sort_place_in };

    ghost same_keys = { keys_tell.sorts };

    ghost clash_keys = { keys_tell.names };

    ghost none_in = { λ _. refl };

    ghost some_in = { λ _ _. refl };

    fn key(&self, alloc: Global) -> Result<Vec<usize>, NoMemory> {
        let mut key = Vec::new(alloc);
        key.push(self.name.spelled().len())?;
        push_name(&mut key, &self.name)?;
        push_name(&mut key, &self.origin)?;
        Ok(key)
    }

    fn clash_key(&self, alloc: Global) -> Result<Vec<usize>, NoMemory> {
        let mut key = Vec::new(alloc);
        push_name(&mut key, &self.name)?;
        Ok(key)
    }

    fn image(&self, alloc: Global, _sorts: &[u32]) -> Result<Sort, NoMemory> {
        self.copy(alloc)
    }
}

impl Keyed for Rc<Op> {
    ghost Plain = { Operation };

    ghost plain = { λ op. operation_of op.value };

    ghost are_same = { is_same_operation };

    ghost are_one = { are_one_operation };

    ghost key_of = { operation_key };

    ghost clash_key_of = { key_of_profile };

    ghost image_by = { operation_image };

    ghost place_in = { operation_place_in };

    ghost same_keys = { keys_tell.operations };

    ghost clash_keys = { keys_tell.profiles };

    ghost none_in = { λ _. refl };

    ghost some_in = { λ _ _. refl };

    fn key(&self, alloc: Global) -> Result<Vec<usize>, NoMemory> {
        let op: &Op = self;
        let mut key = Vec::new(alloc);
        key.push(op.name.spelled().len())?;
        push_profile(&mut key, op)?;
        push_name(&mut key, &op.name)?;
        push_name(&mut key, &op.origin)?;
        Ok(key)
    }

    fn clash_key(&self, alloc: Global) -> Result<Vec<usize>, NoMemory> {
        profile_key(alloc, self)
    }

    fn image(&self, alloc: Global, sorts: &[u32]) -> Result<Rc<Op>, NoMemory> {
        let image = op_image(alloc, self, sorts)?;
        Ok(Rc::new(alloc, image)?)
    }
}
