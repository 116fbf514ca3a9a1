//! Operations that are found by name, form and profile.

ghost use Rattle.type_presentations.specs.Keys.{profile_key as key_of_profile};
ghost use Rattle.sort_terms.specs.Operations.{operation_of};
ghost use Rattle.sort_terms.specs.WellFormedTest.{all_differ, are_one_operation};
ghost use Rattle.std.specs.List.{list_any};
ghost use Rattle.std.specs.Prelude.{
  ◌≡◌,
  false,
  true,
  List,
  IfOk,
  MatchOption,
  map,
};
ghost use Rattle.lotos_base.specs.Signature.{Operation};
ghost use Rattle.type_definitions.specs.Presentation.{first_position};

use indexmap::IndexSet;
use lotos_base::NoMemory;
use sort_terms::Op;
use std::alloc::Global;
use std::rc::Rc;
use type_presentations::profile_key;

/// The positions of operations, no two of which have one name, form and profile.
#[derive(Drop)]
pub struct ProfileIndex {
    profiles: IndexSet<Vec<usize>>,
}

impl ProfileIndex {
    ghost use Rattle.type_renaming.specs.ProfilesView.{HasProfiles};

    /// These operations.
    pub fn of(alloc: Global, ops: &[Rc<Op>]) -> Result<ProfileIndex, NoMemory>
        ensures { IfOk result (λ index. HasProfiles index
            (map (λ op. operation_of op.value) ops.now)) }
    {
        let mut profiles = IndexSet::new(alloc);
        for op in ops {
            profiles.insert(profile_key(alloc, op)?)?;
        }
        Ok(ProfileIndex { profiles })
    }

    /// The position of the operation of this name, form and profile, if there is one.
    pub fn position(&self, alloc: Global, op: &Op) -> Result<Option<usize>, NoMemory>
        ensures { IfOk result (λ found. (operations : List Operation)
            → HasProfiles self.now operations
            → all_differ are_one_operation operations ≡ true → MatchOption found
            (list_any (are_one_operation (operation_of op.now)) operations ≡ false)
            (λ n. (list_any (are_one_operation (operation_of op.now)) operations ≡ true)
            × (n ≡ first_position (are_one_operation (operation_of op.now)) operations))) }
    {
        let key = profile_key(alloc, op)?;
        Ok(self.profiles.get_index_of(&key))
    }
}
