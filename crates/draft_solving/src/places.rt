//! Where variables stand: for each number of a variable the conditions in which it may stand, so
//! that a replacement looks at these alone.

ghost use Rattle.draft_solving.specs.Standing.{
  AreAllNoted,
  AreNoted,
  HoldsPlace,
  IsNoted,
  IsTestNoted,
  KeepsPlaces,
  noted_at,
  room,
};
ghost use Rattle.event_offers.specs.OfferView.{condition_of, conditions_of};
ghost use Rattle.sort_terms.specs.TermView.{bare_terms_of, term_of};
ghost use Rattle.std.specs.Prelude.{◌≡◌, ◌<◌, ℕ, IfOk, OnOk, length};

use lotos_base::NoMemory;
use sort_terms::{Sorted, Term};
use std::alloc::Global;
use std::mem;

/// For each number of a variable the places of the conditions in which it may stand.
#[derive(Debug, Drop)]
pub struct Places {
    lists: Vec<Vec<usize>>,
}

impl Places {
    /// The places of the variables with numbers below the count in the conditions.
    pub fn of(
        alloc: Global,
        count: usize,
        conditions: &Vec<(Sorted, Sorted)>,
    ) -> Result<Places, NoMemory>
        ensures size { IfOk result (λ made. room made ≡ count) }
        ensures noted { IfOk result
            (λ made. AreAllNoted made (conditions_of conditions.now.items)) }
    {
        let mut places = Places::none(alloc, count)?;
        for i in 0..conditions.len() {
            places.note_sides(&conditions[i], i)?;
        }
        Ok(places)
    }

    // No place for each number below the count.
    fn none(alloc: Global, count: usize) -> Result<Places, NoMemory>
        ensures size { IfOk result (λ made. room made ≡ count) }
    {
        let mut lists = Vec::with_capacity(alloc, count)?;
        for _ in 0..count {
            lists.push(Vec::new(alloc))?;
        }
        Ok(Places { lists })
    }

    // Notes the place at each variable of a condition.
    fn note_sides(&mut self, condition: &(Sorted, Sorted), place: usize) -> Result<(), NoMemory>
        ensures kept { OnOk result (KeepsPlaces self.old self.new) }
        ensures noted { OnOk result (IsTestNoted self.new place (condition_of condition.now)) }
    {
        self.note(condition.0.term(), place)?;
        self.note(condition.1.term(), place)
    }

    /// Notes the place at each variable of the term.
    #[cycle(noting)]
    pub fn note(&mut self, term: &Term, place: usize) -> Result<(), NoMemory>
        ensures kept { OnOk result (KeepsPlaces self.old self.new) }
        ensures noted { OnOk result (IsNoted self.new place (term_of term.now)) }
    {
        match term {
            Term::Var { number, .. } => self.add(*number, place),
            Term::Node { arguments, .. } => {
                if arguments.facts().is_ground {
                    return Ok(());
                }
                self.note_all(arguments.items(), place)
            }
        }
    }

    // Notes it at each variable of the terms.
    #[cycle(noting)]
    fn note_all(&mut self, terms: &Vec<Term>, place: usize) -> Result<(), NoMemory>
        ensures kept { OnOk result (KeepsPlaces self.old self.new) }
        ensures noted { OnOk result (AreNoted self.new place (bare_terms_of terms.now.items)) }
    {
        for term in terms {
            self.note(term, place)?;
        }
        Ok(())
    }

    // Notes the place at the number, if it is below the count.
    fn add(&mut self, number: u64, place: usize) -> Result<(), NoMemory>
        ensures kept { OnOk result (KeepsPlaces self.old self.new) }
        ensures noted { OnOk result
            (number < room self.new → HoldsPlace (noted_at self.new number) place) }
    {
        let number = number as usize;
        if number < self.lists.len() {
            self.lists[number].push(place)?;
        }
        Ok(())
    }

    /// How many places are noted at the number.
    pub fn count(&self, number: u64) -> usize
        ensures { result ≡ length (noted_at self.now number) }
    {
        match self.lists.get(number as usize) {
            Some(list) => list.len(),
            None => 0,
        }
    }

    /// The places that are noted at the number, which has none afterwards.
    pub fn taken(&mut self, number: u64) -> Vec<usize>
        ensures all { result.items ≡ noted_at self.old number }
        ensures others { (n : ℕ) → (number ≡ n → ⊥) → noted_at self.new n ≡ noted_at self.old n }
        ensures size { room self.new ≡ room self.old }
    {
        let alloc = *self.lists.allocator();
        let number = number as usize;
        if number < self.lists.len() {
            return mem::replace(&mut self.lists[number], Vec::new(alloc));
        }
        Vec::new(alloc)
    }
}
