//! The gates that a text declares, by their numbers, and those that are visible.

ghost use Rattle.lotos_base.specs.Name.{spelling};
ghost use Rattle.scope_parts.specs.Choices.{choices_at, choices_follow, par_choices_at};
ghost use Rattle.scope_parts.specs.Behaviours.{numbers_from};
ghost use Rattle.scope_parts.specs.FaultView.{Answers};
ghost use Rattle.scope_parts.specs.GatesDeclared.{DeclaresOnce, declared, declared_one};
ghost use Rattle.scope_parts.specs.Numbering.{choice_names, each_once, spelled_names};
ghost use Rattle.scope_parts.specs.Resolution.{Is};
ghost use Rattle.std.specs.Prelude.{◌≡◌, [], IfOk, OnOk, length, map};
ghost use Rattle.syntax_trees.specs.TreeViews.{gate_choices_of, placed_names_of, sign_of};

use crate::bindings::Bindings;
use crate::doubles::first_double;
use crate::fault_order::beside;
use crate::gate_choices::{GateChoice, ParChoices};
use crate::gates::gates_at;
use crate::scope_faults::ScopeFault;
use crate::signs::meets_at;
use lotos_base::{Name, NoMemory};
use std::alloc::Global;
use syntax_trees::{GateText, Named, Sign};

/// The gates declared so far, and those that are visible.
#[derive(Drop)]
pub struct GateTable {
    /// The names of all gates, by their numbers.
    pub names: Vec<Name>,
    /// The gates that are visible.
    pub visible: Bindings,
}

impl GateTable {
    ghost use Rattle.scope_parts.specs.GatesView.{choice_in, entered_in, gates_in, pars_in};

    /// No gates.
    pub fn new(alloc: Global) -> GateTable
        ensures { gates_in result ≡ record { names = []; visible = [] } }
    {
        GateTable {
            names: Vec::new(alloc),
            visible: Bindings::new(alloc),
        }
    }

    /// Declares a gate, which gets the next number and hides the outer ones of its name.
    pub fn declare(&mut self, alloc: Global, name: &Name) -> Result<u32, NoMemory>
        ensures number { IfOk result (λ n. n ≡ length (gates_in self.old).names) }
        ensures declared { OnOk result (gates_in self.new
            ≡ declared_one (spelling name.now) (gates_in self.old)) }
    {
        let number = self.names.len();
        if number > 0xffff_ffff {
            return Err(NoMemory);
        }
        let kept = name.copy(alloc)?;
        self.visible.bind(alloc, name, number)?;
        self.names.push(kept)?;
        Ok(number as u32)
    }

    /// Declares the gates of a `hide`. A name that stands there more than once is one gate.
    pub fn hide_all(&mut self, alloc: Global, texts: &Vec<Named>) -> Result<Vec<u32>, NoMemory>
        ensures numbers { IfOk result (λ made. made.items
            ≡ numbers_from (length (gates_in self.old).names)
            (each_once (spelled_names (placed_names_of texts.now.items)))) }
        ensures declared { OnOk result (gates_in self.new
            ≡ declared (each_once (spelled_names (placed_names_of texts.now.items)))
            (gates_in self.old)) }
    {
        let mut before = Bindings::new(alloc);
        let mut numbers = Vec::with_capacity(alloc, texts.len())?;
        for (_, name) in texts {
            if let Some(number) = self.hide_one(alloc, &mut before, name)? {
                numbers.push(number)?;
            }
        }
        Ok(numbers)
    }

    // Declares a gate, unless its name was looked at before.
    fn hide_one(
        &mut self,
        alloc: Global,
        before: &mut Bindings,
        name: &Name,
    ) -> Result<Option<u32>, NoMemory>
        ensures { IfOk result (λ number. DeclaresOnce (spelling name.now)
            (entered_in before.old self.old) number (entered_in before.new self.new)) }
    {
        if let Some(_) = before.find(alloc, name)? {
            return Ok(None);
        }
        before.bind(alloc, name, 0)?;
        let number = self.declare(alloc, name)?;
        Ok(Some(number))
    }

    /// Declares the gates of a `choice`. Each list of gates sees the names before it. No name may
    /// stand twice.
    pub fn choices(
        &mut self,
        alloc: Global,
        texts: &Vec<GateText>,
    ) -> Result<Vec<GateChoice>, ScopeFault>
        ensures read { Answers (λ made. map choice_in made.items) result (Is (choices_at
            (gates_in self.old).visible (length (gates_in self.old).names)
            (gate_choices_of texts.now.items))) }
        ensures counted { IfOk result (λ made. length made.items ≡ length texts.now.items) }
        ensures declared { OnOk result (gates_in self.new
            ≡ declared (choice_names (gate_choices_of texts.now.items)) (gates_in self.old)) }
    {
        let double = first_double(alloc, texts)?;
        beside(double, self.following_choices(alloc, texts))
    }

    // The same, where a name may stand twice.
    fn following_choices(
        &mut self,
        alloc: Global,
        texts: &Vec<GateText>,
    ) -> Result<Vec<GateChoice>, ScopeFault>
        ensures read { Answers (λ made. map choice_in made.items) result (Is (choices_follow
            (gates_in self.old).visible (length (gates_in self.old).names)
            (gate_choices_of texts.now.items))) }
        ensures counted { IfOk result (λ made. length made.items ≡ length texts.now.items) }
        ensures declared { OnOk result (gates_in self.new
            ≡ declared (choice_names (gate_choices_of texts.now.items)) (gates_in self.old)) }
    {
        let mut made = Vec::with_capacity(alloc, texts.len())?;
        for text in texts {
            let among = gates_at(alloc, &self.visible, &text.among)?;
            let gate = self.declare(alloc, &text.name)?;
            made.push(GateChoice { gate, among })?;
        }
        Ok(made)
    }

    /// Declares the gates of a `par`, whose sign is looked at where each of them stands.
    pub fn pars(
        &mut self,
        alloc: Global,
        sign: &Sign,
        texts: &Vec<GateText>,
    ) -> Result<ParChoices, ScopeFault>
        ensures read { Answers pars_in result (Is (par_choices_at
            (gates_in self.old).visible (length (gates_in self.old).names) (sign_of sign.now)
            (gate_choices_of texts.now.items))) }
        ensures counted { IfOk result (λ made. length made.meets.items
            ≡ length made.choices.items) }
        ensures declared { OnOk result (gates_in self.new
            ≡ declared (choice_names (gate_choices_of texts.now.items)) (gates_in self.old)) }
    {
        let size = self.visible.size();
        let first = self.names.len();
        let choices = self.choices(alloc, texts)?;
        self.visible.cut_to(size);
        let meets = meets_at(alloc, &mut self.visible, first, sign, texts)?;
        Ok(ParChoices { choices, meets })
    }
}
