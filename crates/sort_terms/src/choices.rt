//! What a written term may be at each sort.

ghost use Rattle.std.specs.Prelude.{◌≡◌, ◌||◌, ℕ, None, IfOk, OnOk, if◌then◌else◌, nat_eq};
ghost use Rattle.sort_terms.specs.Choices.{both, joined_readings};

use lotos_base::NoMemory;
use std::alloc::Global;
use std::collections::BTreeMap;

/// What stands at the head of a reading.
#[derive(Clone, Copy, Debug, PartialEq, Eq)]
pub enum Source {
    /// The variable with this number.
    Variable(u64),
    /// The operation with this number.
    Operation(u32),
}

/// What is known of the readings of a written term at one sort.
#[derive(Clone, Copy, Debug, PartialEq, Eq)]
pub struct Choice {
    /// The head of the one reading, or of one of them.
    pub source: Source,
    /// Whether there are two readings or more.
    pub several: bool,
}

/// The sorts of a written term's readings, each with what is known of them.
#[derive(Drop)]
pub struct Choices {
    by_sort: BTreeMap<u32, Choice>,
}

/// How many readings there are over all sorts.
#[derive(Clone, Copy, Debug, PartialEq, Eq)]
pub enum Found {
    /// None.
    Nothing,
    /// One, of this sort.
    One(u32),
    /// Two or more.
    Several,
}

impl Choices {
    ghost use Rattle.sort_terms.specs.ChoicesView.{choice_at, IsFound};

    /// No readings.
    pub fn new(alloc: Global) -> Choices
        ensures { (s : ℕ) → choice_at result s ≡ None }
    {
        Choices {
            by_sort: BTreeMap::new(alloc),
        }
    }

    /// Adds readings of a sort that have this head: one, or several.
    pub fn add(&mut self, sort: u32, source: Source, several: bool) -> Result<(), NoMemory>
        ensures { OnOk result ((s : ℕ) → choice_at self.new s
            ≡ (if nat_eq s sort then joined_readings
            (choice_at self.old sort) source several else choice_at self.old s)) }
    {
        let choice = match self.by_sort.get(&sort) {
            None => Choice { source, several },
            Some(known) => Choice {
                source: known.source,
                several: true,
            },
        };
        self.by_sort.insert(sort, choice)?;
        Ok(())
    }

    /// What is known of the readings of the sort.
    pub fn at(&self, sort: u32) -> Option<Choice>
        ensures { result ≡ choice_at self.now sort }
    {
        self.by_sort.get(&sort).copied()
    }

    /// How many readings there are over all sorts.
    pub fn found(&self) -> Found
        ensures { IsFound (choice_at self.now) result }
    {
        let Some((sort, choice)) = self.by_sort.first_key_value() else {
            return Found::Nothing;
        };
        if choice.several {
            return Found::Several;
        }
        if self.by_sort.len() > 1 {
            return Found::Several;
        }
        Found::One(*sort)
    }

    /// The sorts at which both terms have readings, with what is known of pairs of them.
    pub fn common(&self, alloc: Global, other: &Choices) -> Result<Choices, NoMemory>
        ensures { IfOk result (λ c. (s : ℕ) → choice_at c s ≡ both (choice_at self.now s)
            (choice_at other.now s)) }
    {
        let mut common = Choices::new(alloc);
        for (sort, choice) in self.by_sort.iter() {
            match other.at(*sort) {
                None => {}
                Some(second) => common.add(*sort, choice.source, choice.or_several(second))?,
            }
        }
        Ok(common)
    }
}

impl Choice {
    // Whether pairs have several readings: where one of the two has.
    fn or_several(&self, other: Choice) -> bool
        ensures { result ≡ (self.now.several || other.several) }
    {
        self.several || other.several
    }
}
