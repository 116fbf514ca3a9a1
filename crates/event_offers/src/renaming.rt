//! Other numbers for the variables of terms, labels and conditions.

ghost use Rattle.behaviour_semantics.specs.Draft.{label_with};
ghost use Rattle.behaviour_semantics.specs.Replacement.{test_with};
ghost use Rattle.behaviour_tree.specs.BehaviourView.{terms_of};
ghost use Rattle.behaviour_tree.specs.BehaviourTerms.{profiles_of};
ghost use Rattle.behaviour_tree.specs.MoveView.{label_of};
ghost use Rattle.event_offers.specs.OfferView.{
  condition_of,
  condition_profiles,
  condition_sides,
  conditions_of,
  label_profiles,
};
ghost use Rattle.event_offers.specs.Renaming.{
  number_renamed,
  pair_instance,
  profiled_renaming_of,
  renaming_of,
};
ghost use Rattle.sort_terms.specs.SortedView.{profiled_in, term_in};
ghost use Rattle.std.specs.Prelude.{
  ◌≡◌,
  ◌+◌,
  IfOk,
  IsTrue,
  OnOk,
  ℕ,
  if◌then◌else◌,
  map,
  nat_lt,
  slice_get,
  unwrap_or,
};
ghost use Rattle.lotos_base.specs.Substitution.{substituted};
ghost use Rattle.term_match.specs.ProfiledInstance.{profiled_instance};

use crate::rebuilding::{Replacing, rebuilt};
use behaviour_tree::Label;
use lotos_base::NoMemory;
use sort_terms::{Sorted, Term};

/// What becomes of the numbers of variables. A number that would pass the last value of a `u64` is
/// answered as want of memory.
#[derive(Debug, Drop)]
pub enum Renaming {
    /// A number is raised where it is not below the first one.
    Raised {
        /// The first number that is raised.
        from: u64,
        /// By how much.
        by: u64,
    },
    /// A number is lowered by this much, to 0 at the least.
    Lowered(u64),
    /// A number becomes what stands at its position, and stays where nothing stands there.
    Placed(Vec<u64>),
}

impl Renaming {
    /// What the number becomes.
    pub fn number(&self, number: u64) -> Result<u64, NoMemory>
        ensures { IfOk result (λ n. n ≡ number_renamed self.now number) }
    {
        match self {
            Renaming::Raised { from, by } => raised(number, *from, *by),
            Renaming::Lowered(by) => Ok(number.saturating_sub(*by)),
            Renaming::Placed(places) => Ok(placed(places, number)),
        }
    }

    /// The term with the numbers of its variables changed.
    pub fn term(&self, term: &Sorted) -> Result<Sorted, NoMemory>
        ensures same { IfOk result
            (λ t. term_in t ≡ substituted (renaming_of self.now) (term_in term.now)) }
        ensures profiles { IfOk result (λ t. profiled_in t
            ≡ profiled_instance (profiled_renaming_of self.now) (profiled_in term.now)) }
    {
        Ok(Sorted::of(rebuilt(term.term(), self)?))
    }

    /// The terms with the numbers of their variables changed.
    pub fn terms(&self, terms: &Vec<Sorted>) -> Result<Vec<Sorted>, NoMemory>
        ensures same { IfOk result (λ made. terms_of made.items
            ≡ map (substituted (renaming_of self.now)) (terms_of terms.now.items)) }
        ensures profiles { IfOk result (λ made. profiles_of made.items
            ≡ map (profiled_instance (profiled_renaming_of self.now))
            (profiles_of terms.now.items)) }
    {
        let mut made = Vec::with_capacity(*terms.allocator(), terms.len())?;
        for term in terms {
            made.push(self.term(term)?)?;
        }
        Ok(made)
    }

    /// The label with the numbers of its variables changed.
    pub fn label(&self, label: &Label) -> Result<Label, NoMemory>
        ensures same { IfOk result
            (λ made. label_of made ≡ label_with (renaming_of self.now) (label_of label.now)) }
        ensures profiles { IfOk result (λ made. label_profiles made
            ≡ map (profiled_instance (profiled_renaming_of self.now))
            (label_profiles label.now)) }
    {
        match label {
            Label::Inner => Ok(Label::Inner),
            Label::Gate(gate, values) => Ok(Label::Gate(*gate, self.terms(values)?)),
            Label::Exit(values) => Ok(Label::Exit(self.terms(values)?)),
        }
    }

    /// The conditions with the numbers of their variables changed.
    pub fn conditions(
        &self,
        conditions: &Vec<(Sorted, Sorted)>,
    ) -> Result<Vec<(Sorted, Sorted)>, NoMemory>
        ensures same { IfOk result (λ made. conditions_of made.items
            ≡ map (test_with (renaming_of self.now)) (conditions_of conditions.now.items)) }
        ensures profiles { IfOk result (λ made. condition_profiles made.items
            ≡ map (pair_instance (profiled_renaming_of self.now))
            (condition_profiles conditions.now.items)) }
    {
        let mut made = Vec::with_capacity(*conditions.allocator(), conditions.len())?;
        for condition in conditions {
            let left = self.term(&condition.0)?;
            let right = self.term(&condition.1)?;
            made.push((left, right))?;
        }
        Ok(made)
    }

    /// Changes the numbers of the variables of the term where it stands. A term without variables
    /// is not touched.
    pub fn change(&self, term: &mut Sorted) -> Result<(), NoMemory>
        ensures same { OnOk result
            (term_in term.new ≡ substituted (renaming_of self.now) (term_in term.old)) }
        ensures profiles { OnOk result (profiled_in term.new
            ≡ profiled_instance (profiled_renaming_of self.now) (profiled_in term.old)) }
    {
        match term.term() {
            Term::Var { number, sort } => {
                let number = self.number(*number)?;
                let sort = *sort;
                *term = Sorted::of(Term::Var { number, sort });
                Ok(())
            }
            Term::Node { .. } => self.change_operation(term),
        }
    }

    // The same of a term that is not a variable itself.
    fn change_operation(&self, term: &mut Sorted) -> Result<(), NoMemory>
        ensures same { OnOk result
            (term_in term.new ≡ substituted (renaming_of self.now) (term_in term.old)) }
        ensures profiles { OnOk result (profiled_in term.new
            ≡ profiled_instance (profiled_renaming_of self.now) (profiled_in term.old)) }
    {
        if term.ground() {
            return Ok(());
        }
        let made = self.term(term)?;
        *term = made;
        Ok(())
    }

    // Changes the numbers of the variables of both sides where they stand.
    fn change_sides(&self, condition: &mut (Sorted, Sorted)) -> Result<(), NoMemory>
        ensures same { OnOk result (condition_of condition.new
            ≡ test_with (renaming_of self.now) (condition_of condition.old)) }
        ensures profiles { OnOk result (condition_sides condition.new
            ≡ pair_instance (profiled_renaming_of self.now) (condition_sides condition.old)) }
    {
        self.change(&mut condition.0)?;
        self.change(&mut condition.1)
    }

    /// The terms with the numbers of their variables changed, each where it stands.
    pub fn all_changed(&self, terms: Vec<Sorted>) -> Result<Vec<Sorted>, NoMemory>
        ensures same { IfOk result (λ made. terms_of made.items
            ≡ map (substituted (renaming_of self.now)) (terms_of terms.items)) }
        ensures profiles { IfOk result (λ made. profiles_of made.items
            ≡ map (profiled_instance (profiled_renaming_of self.now))
            (profiles_of terms.items)) }
    {
        if self.changes_nothing() {
            return Ok(terms);
        }
        let mut made = terms;
        for i in 0..made.len() {
            self.change(&mut made[i])?;
        }
        Ok(made)
    }

    /// The conditions with the numbers of their variables changed, each where it stands.
    pub fn changed_conditions(
        &self,
        conditions: Vec<(Sorted, Sorted)>,
    ) -> Result<Vec<(Sorted, Sorted)>, NoMemory>
        ensures same { IfOk result (λ made. conditions_of made.items
            ≡ map (test_with (renaming_of self.now)) (conditions_of conditions.items)) }
        ensures profiles { IfOk result (λ made. condition_profiles made.items
            ≡ map (pair_instance (profiled_renaming_of self.now))
            (condition_profiles conditions.items)) }
    {
        if self.changes_nothing() {
            return Ok(conditions);
        }
        let mut made = conditions;
        for i in 0..made.len() {
            self.change_sides(&mut made[i])?;
        }
        Ok(made)
    }

    // Whether it is seen at once that each number stays.
    fn changes_nothing(&self) -> bool
        ensures { IsTrue result → (n : ℕ) → number_renamed self.now n ≡ n }
    {
        match self {
            Renaming::Raised { from: _, by } => *by == 0,
            Renaming::Lowered(by) => *by == 0,
            Renaming::Placed(_) => false,
        }
    }
}

impl Replacing for Renaming {
    ghost put_for = { λ it. profiled_renaming_of it };

    fn put(&self, number: u64, sort: u32) -> Result<Term, NoMemory> {
        Ok(Term::Var {
            number: self.number(number)?,
            sort,
        })
    }
}

// The number raised where it is not below the first one.
fn raised(number: u64, from: u64, by: u64) -> Result<u64, NoMemory>
    ensures { IfOk result (λ n. n ≡ (if nat_lt number from then number else number + by)) }
{
    if number < from {
        return Ok(number);
    }
    match number.checked_add(by) {
        Some(sum) => Ok(sum),
        None => Err(NoMemory),
    }
}

// What stands at the position of the number, or the number itself.
fn placed(places: &Vec<u64>, number: u64) -> u64
    ensures { result ≡ unwrap_or (slice_get places.now.items number) number }
{
    match places.get(number as usize) {
        Some(place) => *place,
        None => number,
    }
}
