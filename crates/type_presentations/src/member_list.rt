//! Members of a signature, each once.

ghost use Rattle.type_presentations.specs.KeyView.{keys_in_set};
ghost use Rattle.std.specs.Prelude.{
  ◌≡◌,
  ◌+◌,
  ◌^◌,
  ◌<◌,
  ◌≤◌,
  ◌∷◌,
  ◌++◌,
  ◌&&◌,
  [],
  ℕ,
  not,
  IfOk,
  OnOk,
  length,
  map,
  nat_lt,
  slice_get,
};
ghost use Rattle.std.specs.List.{list_any};
ghost use Rattle.std.specs.Str.{bytes_eq};
ghost use Rattle.sort_terms.specs.Operations.{operation_of, sort_of};
ghost use Rattle.sort_terms.specs.WellFormedTest.{all_differ};
ghost use Rattle.type_definitions.specs.Presentation.{first_position, presentation_limit, with_new};
ghost use Rattle.type_definitions.specs.ProfiledImage.{number_in};

use crate::key_set::KeySet;
use crate::members::Keyed;
use lotos_base::NoMemory;
use sort_terms::{Op, Sort};
use std::alloc::Global;
use std::rc::Rc;

// How many members a presentation has at most.
const LIMIT: usize = 65_536;

/// Members of a signature, each once, numbered from 0 in the order in which they came, with their
/// keys.
#[derive(Drop)]
pub struct MemberList<T> {
    members: Vec<T>,
    keys: KeySet,
    clash_keys: KeySet,
}

/// Sorts, each once.
pub type SortList = MemberList<Sort>;

/// Operations, each once.
pub type OperationList = MemberList<Rc<Op>>;

/// The number of a member that came, and whether it clashes.
#[derive(Drop)]
pub struct Added {
    /// Its number.
    pub number: u32,
    /// Whether it is new and clashes with one that was there.
    pub clashes: bool,
}

/// What became of members that came.
#[derive(Drop)]
pub struct Joined {
    /// Their new numbers, by the old ones.
    pub numbers: Vec<u32>,
    /// Whether one of them clashes.
    pub clash: bool,
}

impl MemberList<Sort> {
    ghost use Rattle.type_presentations.specs.SortListView.{sorts_in};

    /// The sorts.
    pub fn sorts(&self) -> &[Sort]
        ensures { map sort_of result.now ≡ sorts_in self.now }
    {
        self.members.as_slice()
    }

    /// The sorts, without their keys.
    pub fn into_sorts(self) -> Vec<Sort>
        ensures { map sort_of result.items ≡ sorts_in self }
    {
        self.members
    }
}

impl MemberList<Rc<Op>> {
    ghost use Rattle.type_presentations.specs.OperationListView.{operations_in};

    /// The operations.
    pub fn ops(&self) -> &[Rc<Op>]
        ensures { map (λ op. operation_of op.value) result.now ≡ operations_in self.now }
    {
        self.members.as_slice()
    }
}

impl<T: Keyed> MemberList<T> {
    ghost use Rattle.type_presentations.specs.MemberListView.{HasKeys, members_by};

    /// No members.
    pub fn new(alloc: Global) -> MemberList<T>
        ensures keyed { HasKeys T.plain T.key_of T.clash_key_of result }
        ensures members { members_by T.plain result ≡ [] }
    {
        MemberList {
            members: Vec::new(alloc),
            keys: KeySet::new(alloc),
            clash_keys: KeySet::new(alloc),
        }
    }

    /// Whether there are more members than a presentation has at most: 65,536.
    pub fn is_past_limit(&self) -> bool
        ensures { result ≡ nat_lt presentation_limit (length (members_by T.plain self.now)) }
    {
        LIMIT < self.members.len()
    }

    /// Adds a member at the end. A member that is there stays alone.
    pub fn add(&mut self, alloc: Global, member: T) -> Result<Added, NoMemory>
        requires keyed { HasKeys T.plain T.key_of T.clash_key_of self.old }
        requires few { length (members_by T.plain self.old) < 2 ^ 32 }
        ensures keyed { OnOk result (HasKeys T.plain T.key_of T.clash_key_of self.new) }
        ensures members { OnOk result (members_by T.plain self.new
            ≡ with_new T.are_same (members_by T.plain self.old) (T.plain member ∷ [])) }
        ensures number { IfOk result (λ added. added.number
            ≡ first_position (T.are_same (T.plain member)) (members_by T.plain self.new)) }
        ensures clashes { IfOk result (λ added.
            all_differ T.are_one (members_by T.plain self.new)
            ≡ (not added.clashes && all_differ T.are_one (members_by T.plain self.old))) }
    {
        let placed = self.keys.add(member.key(alloc)?)?;
        let number = placed.number as u32;
        if placed.is_new {
            let clashes = self.append(alloc, member)?;
            return Ok(Added { number, clashes });
        }
        Ok(Added {
            number,
            clashes: false,
        })
    }

    // Adds a member at the end, whose key is there, and answers whether it clashes.
    fn append(&mut self, alloc: Global, member: T) -> Result<bool, NoMemory>
        ensures keys { OnOk result (self.new.keys ≡ self.old.keys) }
        ensures clash_keys { OnOk result (keys_in_set self.new.clash_keys
            ≡ with_new bytes_eq (keys_in_set self.old.clash_keys)
            (T.clash_key_of (T.plain member) ∷ [])) }
        ensures members { OnOk result (members_by T.plain self.new
            ≡ members_by T.plain self.old ++ T.plain member ∷ []) }
        ensures clashes { IfOk result (λ clashes. clashes
            ≡ list_any (bytes_eq (T.clash_key_of (T.plain member)))
            (keys_in_set self.old.clash_keys)) }
    {
        let placed = self.clash_keys.add(member.clash_key(alloc)?)?;
        self.members.push(member)?;
        Ok(!placed.is_new)
    }

    /// Adds the members of the other list, one by one, with the new number of each of their sorts.
    pub fn join(
        &mut self,
        alloc: Global,
        other: &MemberList<T>,
        sorts: &[u32],
    ) -> Result<Joined, NoMemory>
        requires keyed { HasKeys T.plain T.key_of T.clash_key_of self.old }
        requires few { length (members_by T.plain self.old)
            + length (members_by T.plain other.now) ≤ 2 ^ 32 }
        ensures keyed { OnOk result (HasKeys T.plain T.key_of T.clash_key_of self.new) }
        ensures members { OnOk result (members_by T.plain self.new
            ≡ with_new T.are_same (members_by T.plain self.old)
            (map (T.image_by (number_in sorts.now)) (members_by T.plain other.now))) }
        ensures numbers { IfOk result (λ joined. (n : ℕ) → number_in joined.numbers.items n
            ≡ T.place_in (members_by T.plain self.new)
            (slice_get (map (T.image_by (number_in sorts.now)) (members_by T.plain other.now)) n)) }
        ensures clash { IfOk result (λ joined. all_differ T.are_one (members_by T.plain self.new)
            ≡ (not joined.clash && all_differ T.are_one (members_by T.plain self.old))) }
    {
        let mut numbers = Vec::with_capacity(alloc, other.members.len())?;
        let mut clash = false;
        for member in other.members.as_slice() {
            let image = member.image(alloc, sorts)?;
            let added = self.add(alloc, image)?;
            numbers.push(added.number)?;
            clash |= added.clashes;
        }
        Ok(Joined { numbers, clash })
    }
}
