//! Marks of what is formal.

ghost use Rattle.std.specs.Prelude.{◌≡◌, ◌∷◌, ◌++◌, [], OnOk, map, nat_eq};
ghost use Rattle.type_definitions.specs.Presentation.{is_marked_number, with_new};
ghost use Rattle.type_definitions.specs.ProfiledImage.{number_in};

use indexmap::IndexSet;
use lotos_base::NoMemory;
use std::alloc::Global;
use type_definitions::number_at;

/// Numbers that are marked, in the order in which they came.
#[derive(Drop)]
pub struct Marks {
    numbers: Vec<u32>,
    known: IndexSet<u32>,
}

impl Marks {
    ghost use Rattle.type_presentations.specs.MarksView.{IsKnown, marks_in};

    /// No marks.
    pub fn new(alloc: Global) -> Marks
        ensures known { IsKnown result }
        ensures marks { marks_in result ≡ [] }
    {
        Marks {
            numbers: Vec::new(alloc),
            known: IndexSet::new(alloc),
        }
    }

    /// The marked numbers.
    pub fn numbers(&self) -> &[u32]
        ensures { result.now ≡ marks_in self.now }
    {
        self.numbers.as_slice()
    }

    /// Whether the number is marked.
    pub fn has(&self, number: u32) -> bool
        requires { IsKnown self.now }
        ensures { result ≡ is_marked_number (marks_in self.now) number }
    {
        self.known.contains(&number)
    }

    /// Marks a number, behind those that are marked already. A marked number stays alone.
    pub fn add(&mut self, number: u32) -> Result<(), NoMemory>
        requires known { IsKnown self.old }
        ensures known { OnOk result (IsKnown self.new) }
        ensures marks { OnOk result (marks_in self.new
            ≡ with_new nat_eq (marks_in self.old) (number ∷ [])) }
    {
        let is_new = self.known.insert(number)?;
        if is_new {
            self.numbers.push(number)?;
            return Ok(());
        }
        Ok(())
    }

    /// Marks a number, behind those that are marked already, also where it is one of them.
    pub fn append(&mut self, number: u32) -> Result<(), NoMemory>
        requires known { IsKnown self.old }
        ensures known { OnOk result (IsKnown self.new) }
        ensures marks { OnOk result (marks_in self.new ≡ marks_in self.old ++ number ∷ []) }
    {
        self.known.insert(number)?;
        self.numbers.push(number)?;
        Ok(())
    }

    /// Marks the new number of each number that the other ones mark.
    pub fn join(&mut self, other: &Marks, numbers: &[u32]) -> Result<(), NoMemory>
        requires known { IsKnown self.old }
        ensures known { OnOk result (IsKnown self.new) }
        ensures marks { OnOk result (marks_in self.new ≡ with_new nat_eq (marks_in self.old)
            (map (number_in numbers.now) (marks_in other.now))) }
    {
        for number in other.numbers.as_slice() {
            self.add(number_at(numbers, *number))?;
        }
        Ok(())
    }
}
