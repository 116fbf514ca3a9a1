//! Behaviours with their names resolved.

ghost use Rattle.behaviour_tree.specs.BehaviourTerms.{profiles_in};
ghost use Rattle.behaviour_tree.specs.BehaviourView.{behaviour_of};
ghost use Rattle.behaviour_tree.specs.Over.{AreTermsOf};
ghost use Rattle.lotos_base.specs.Name.{spelling};
ghost use Rattle.lotos_base.specs.WrittenView.{text_place_of};
ghost use Rattle.scope_parts.specs.Behaviours.{BehaviourIs, SignIs};
ghost use Rattle.scope_parts.specs.FaultView.{Answers};
ghost use Rattle.scope_parts.specs.Numbering.{accepted, gates_in, variable_count};
ghost use Rattle.behaviour_scopes.specs.Places.{places_written};
ghost use Rattle.behaviour_scopes.specs.PlacesView.{places_in};
ghost use Rattle.behaviour_scopes.specs.ResolverState.{BehaviourStandsFor, behind_in_state, next_numbers_at, passed};
ghost use Rattle.std.specs.Prelude.{
  ◌≡◌,
  ◌+◌,
  ◌∷◌,
  ◌++◌,
  [],
  IfOk,
  OnOk,
  length,
  map,
  option_map,
};
ghost use Rattle.syntax_trees.specs.TreeViews.{
  written_behaviour_of as written_behaviour,
  written_exit_value_of,
  gate_choices_of,
  lets_of,
  written_offer_of,
  placed_names_of,
  premiss_of,
  sign_of,
  written_variables_of,
};
ghost use Rattle.syntax_trees.specs.WrittenBehaviour as written;

use crate::bound_variables::{asked, let_bound};
use crate::nested::{under_gates, under_par, under_values};
use crate::resolver::Resolver;
use behaviour_tree::boxes::shared;
use behaviour_tree::{Beh, Meet};
use lotos_base::{Name, Place, Written};
use scope_parts::ScopeFault;
use scope_parts::gates::{gate_at, gates_at};
use scope_parts::sorts::variables_at;
use std::alloc::Global;
use std::rc::Rc;
use syntax_trees::{
    BehForm, BehText, ExitText, GateText, Named, OfferText, Sign, TestText, VarText,
};

impl Resolver<'_> {
    ghost use Rattle.behaviour_scopes.specs.ResolverView.{state_in};

    /// The behaviour that is written, or the first fault in it. The parts are looked at in the
    /// order of the text.
    #[cycle(behaviours)]
    pub fn behaviour(&mut self, alloc: Global, text: &BehText) -> Result<Beh, ScopeFault>
        ensures read { Answers behaviour_of result (BehaviourStandsFor (state_in self.old)
            (written_behaviour text.now)) }
        ensures passed { OnOk result (state_in self.new
            ≡ passed (written_behaviour text.now) (state_in self.old)) }
        ensures profiles { IfOk result (λ b. AreTermsOf (state_in self.old).signature
            (profiles_in b)) }
        ensures places { IfOk result (λ b. places_in b
            ≡ places_written (written_behaviour text.now)) }
    {
        match &text.form {
            BehForm::Stop => Ok(Beh::Stop),
            BehForm::Exit(values) => self.exit(alloc, text.place, values),
            BehForm::Call {
                name,
                gates,
                values,
            } => self.call(alloc, text.place, name, gates, values),
            BehForm::Action {
                gate,
                offers,
                test,
                next,
            } => self.action(alloc, text.place, next, gate, offers, test),
            BehForm::Inner(next) => {
                let behind = shared(alloc, self.behaviour(alloc, next)?)?;
                Ok(Beh::Inner(behind))
            }
            BehForm::Guard(test, next) => self.guard(alloc, text.place, next, test),
            BehForm::Hide(gates, inside) => self.hide(alloc, text.place, gates, inside),
            BehForm::Let(values, inside) => self.let_be(alloc, text.place, inside, values),
            BehForm::ChooseValue(variables, inside) => {
                self.choose_value(alloc, text.place, variables, inside)
            }
            BehForm::ChooseGate(gates, inside) => {
                self.choose_gate(alloc, text.place, gates, inside)
            }
            BehForm::ParGate(gates, sign, inside) => {
                self.par_gate(alloc, text.place, gates, sign, inside)
            }
            BehForm::Binary(sign, left, right) => {
                let first = shared(alloc, self.behaviour(alloc, left)?)?;
                self.signed(alloc, text.place, sign, right, first)
            }
        }
    }

    // An `exit`.
    fn exit(&self, alloc: Global, place: Place, values: &Vec<ExitText>) -> Result<Beh, ScopeFault>
        ensures read { Answers behaviour_of result (BehaviourStandsFor (state_in self.now)
            (written.exit (text_place_of place) (map written_exit_value_of values.now.items))) }
        ensures profiles { IfOk result (λ b. AreTermsOf (state_in self.now).signature
            (profiles_in b)) }
        ensures places { IfOk result (λ b. places_in b ≡ []) }
    {
        let values = self.terms.exit_values(alloc, &self.variables, values)?;
        Ok(Beh::Exit(values))
    }

    // A guarded behaviour.
    #[cycle(behaviours)]
    fn guard(
        &mut self,
        alloc: Global,
        place: Place,
        next: &BehText,
        test: &TestText,
    ) -> Result<Beh, ScopeFault>
        ensures read { Answers behaviour_of result (BehaviourStandsFor (state_in self.old)
            (written.guard (text_place_of place) (premiss_of test.now)
            (written_behaviour next.now))) }
        ensures passed { OnOk result (state_in self.new
            ≡ passed (written_behaviour next.now) (state_in self.old)) }
        ensures profiles { IfOk result (λ b. AreTermsOf (state_in self.old).signature
            (profiles_in b)) }
        ensures places { IfOk result (λ b. places_in b
            ≡ places_written (written_behaviour next.now)) }
    {
        let premiss = self.terms.test(alloc, &self.variables, test)?;
        let behind = shared(alloc, self.behaviour(alloc, next)?)?;
        Ok(Beh::Guard(premiss, behind))
    }

    // An action: its gate, its offers, and what sees the variables that they ask for.
    #[cycle(behaviours)]
    fn action(
        &mut self,
        alloc: Global,
        place: Place,
        next: &BehText,
        gate: &Name,
        offers: &Vec<OfferText>,
        test: &Option<TestText>,
    ) -> Result<Beh, ScopeFault>
        ensures read { Answers behaviour_of result (BehaviourStandsFor (state_in self.old)
            (written.action (text_place_of place) (spelling gate.now)
            (map written_offer_of offers.now.items) (option_map premiss_of test.now)
            (written_behaviour next.now))) }
        ensures passed { OnOk result (state_in self.new
            ≡ passed (written.action (text_place_of place) (spelling gate.now)
            (map written_offer_of offers.now.items) (option_map premiss_of test.now)
            (written_behaviour next.now)) (state_in self.old)) }
        ensures profiles { IfOk result (λ b. AreTermsOf (state_in self.old).signature
            (profiles_in b)) }
        ensures places { IfOk result (λ b. places_in b
            ≡ places_written (written_behaviour next.now)) }
    {
        let number = gate_at(alloc, &self.gates.visible, place, gate)?;
        let given = self
            .terms
            .offers(alloc, &self.variables, self.next_variable, offers)?;
        let size = self.variables.size();
        let seen = asked(alloc, &given)?;
        self.see(alloc, &seen)?;
        let predicate = self.terms.test_option(alloc, &self.variables, test)?;
        let behind = shared(alloc, self.behaviour(alloc, next)?)?;
        self.forget_variables(size);
        Ok(Beh::Action {
            gate: number,
            offers: given,
            test: predicate,
            next: behind,
        })
    }

    // A `hide`.
    #[cycle(behaviours)]
    fn hide(
        &mut self,
        alloc: Global,
        place: Place,
        gates: &Vec<Named>,
        inside: &BehText,
    ) -> Result<Beh, ScopeFault>
        ensures read { Answers behaviour_of result (BehaviourStandsFor (state_in self.old)
            (written.hide (text_place_of place) (placed_names_of gates.now.items)
            (written_behaviour inside.now))) }
        ensures passed { OnOk result (state_in self.new
            ≡ passed (written.hide (text_place_of place) (placed_names_of gates.now.items)
            (written_behaviour inside.now)) (state_in self.old)) }
        ensures profiles { IfOk result (λ b. AreTermsOf (state_in self.old).signature
            (profiles_in b)) }
        ensures places { IfOk result (λ b. places_in b
            ≡ places_written (written_behaviour inside.now)) }
    {
        let size = self.gates.visible.size();
        let hidden = self.gates.hide_all(alloc, gates)?;
        let within = shared(alloc, self.behaviour(alloc, inside)?)?;
        self.forget_gates(size);
        Ok(Beh::Hide(hidden, within))
    }

    // A `let`, whose terms do not see its variables.
    #[cycle(behaviours)]
    fn let_be(
        &mut self,
        alloc: Global,
        place: Place,
        inside: &BehText,
        values: &Vec<(VarText, Written)>,
    ) -> Result<Beh, ScopeFault>
        ensures read { Answers behaviour_of result (BehaviourStandsFor (state_in self.old)
            (written.let_be (text_place_of place) (lets_of values.now.items)
            (written_behaviour inside.now))) }
        ensures passed { OnOk result (state_in self.new
            ≡ passed (written.let_be (text_place_of place) (lets_of values.now.items)
            (written_behaviour inside.now)) (state_in self.old)) }
        ensures profiles { IfOk result (λ b. AreTermsOf (state_in self.old).signature
            (profiles_in b)) }
        ensures places { IfOk result (λ b. places_in b
            ≡ places_written (written_behaviour inside.now)) }
    {
        let bindings = self
            .terms
            .bindings(alloc, &self.variables, self.next_variable, values)?;
        let size = self.variables.size();
        let seen = let_bound(alloc, &bindings)?;
        self.see(alloc, &seen)?;
        let within = shared(alloc, self.behaviour(alloc, inside)?)?;
        self.forget_variables(size);
        Ok(Beh::Let(bindings, within))
    }

    // A `choice` of values.
    #[cycle(behaviours)]
    fn choose_value(
        &mut self,
        alloc: Global,
        place: Place,
        variables: &Vec<VarText>,
        inside: &BehText,
    ) -> Result<Beh, ScopeFault>
        ensures read { Answers behaviour_of result (BehaviourStandsFor (state_in self.old)
            (written.choose_value (text_place_of place) (written_variables_of variables.now.items)
            (written_behaviour inside.now))) }
        ensures passed { OnOk result (state_in self.new
            ≡ passed (written.choose_value (text_place_of place)
            (written_variables_of variables.now.items) (written_behaviour inside.now))
            (state_in self.old)) }
        ensures profiles { IfOk result (λ b. AreTermsOf (state_in self.old).signature
            (profiles_in b)) }
        ensures places { IfOk result (λ b. places_in b
            ≡ places_written (written_behaviour inside.now)) }
    {
        let chosen = variables_at(alloc, &self.terms.reader, self.next_variable, variables)?;
        let size = self.variables.size();
        self.see(alloc, &chosen)?;
        let within = self.behaviour(alloc, inside)?;
        self.forget_variables(size);
        Ok(under_values(alloc, chosen, within)?)
    }

    // A `choice` of gates.
    #[cycle(behaviours)]
    fn choose_gate(
        &mut self,
        alloc: Global,
        place: Place,
        gates: &Vec<GateText>,
        inside: &BehText,
    ) -> Result<Beh, ScopeFault>
        ensures read { Answers behaviour_of result (BehaviourStandsFor (state_in self.old)
            (written.choose_gate (text_place_of place) (gate_choices_of gates.now.items)
            (written_behaviour inside.now))) }
        ensures passed { OnOk result (state_in self.new
            ≡ passed (written.choose_gate (text_place_of place)
            (gate_choices_of gates.now.items) (written_behaviour inside.now))
            (state_in self.old)) }
        ensures profiles { IfOk result (λ b. AreTermsOf (state_in self.old).signature
            (profiles_in b)) }
        ensures places { IfOk result (λ b. places_in b
            ≡ places_written (written_behaviour inside.now)) }
    {
        let size = self.gates.visible.size();
        let choices = self.gates.choices(alloc, gates)?;
        let within = self.behaviour(alloc, inside)?;
        self.forget_gates(size);
        Ok(under_gates(alloc, choices, within)?)
    }

    // A `par`.
    #[cycle(behaviours)]
    fn par_gate(
        &mut self,
        alloc: Global,
        place: Place,
        gates: &Vec<GateText>,
        sign: &Sign,
        inside: &BehText,
    ) -> Result<Beh, ScopeFault>
        ensures read { Answers behaviour_of result (BehaviourStandsFor (state_in self.old)
            (written.par_gate (text_place_of place) (gate_choices_of gates.now.items)
            (sign_of sign.now) (written_behaviour inside.now))) }
        ensures passed { OnOk result (state_in self.new
            ≡ passed (written.par_gate (text_place_of place)
            (gate_choices_of gates.now.items) (sign_of sign.now)
            (written_behaviour inside.now)) (state_in self.old)) }
        ensures profiles { IfOk result (λ b. AreTermsOf (state_in self.old).signature
            (profiles_in b)) }
        ensures places { IfOk result (λ b. places_in b
            ≡ places_written (written_behaviour inside.now)) }
    {
        let size = self.gates.visible.size();
        let pars = self.gates.pars(alloc, sign, gates)?;
        let within = self.behaviour(alloc, inside)?;
        self.forget_gates(size);
        Ok(under_par(alloc, pars, within)?)
    }

    // What a sign with a behaviour on its left and one on its right stands for.
    #[cycle(behaviours)]
    fn signed(
        &mut self,
        alloc: Global,
        place: Place,
        sign: &Sign,
        right: &BehText,
        left: Rc<Beh>,
    ) -> Result<Beh, ScopeFault>
        ensures read { Answers behaviour_of result (SignIs (state_in self.old).signature
            (state_in self.old).scope (next_numbers_at (state_in self.old)) (sign_of sign.now)
            (behaviour_of left.value) (λ inside behind_in_state. BehaviourIs
            (state_in self.old).signature inside behind_in_state (written_behaviour right.now))) }
        ensures passed { OnOk result (state_in self.new
            ≡ behind_in_state (gates_in (written_behaviour right.now))
            (length (accepted (sign_of sign.now))
            + variable_count (written_behaviour right.now)) (state_in self.old)) }
        ensures profiles { AreTermsOf (state_in self.old).signature (profiles_in left.value)
            → IfOk result (λ b. AreTermsOf (state_in self.old).signature (profiles_in b)) }
        ensures places { IfOk result (λ b. places_in b
            ≡ places_in left.value ++ text_place_of place
            ∷ places_written (written_behaviour right.now)) }
    {
        match sign {
            Sign::Choice => {
                let right = shared(alloc, self.behaviour(alloc, right)?)?;
                Ok(Beh::Choice(place, left, right))
            }
            Sign::Interleave => {
                let right = shared(alloc, self.behaviour(alloc, right)?)?;
                Ok(Beh::Parallel(place, Meet::Nothing, left, right))
            }
            Sign::Full => {
                let right = shared(alloc, self.behaviour(alloc, right)?)?;
                Ok(Beh::Parallel(place, Meet::Everything, left, right))
            }
            Sign::Gates(names) => {
                let gates = gates_at(alloc, &self.gates.visible, names)?;
                let right = shared(alloc, self.behaviour(alloc, right)?)?;
                Ok(Beh::Parallel(place, Meet::Gates(gates), left, right))
            }
            Sign::Disable => {
                let right = shared(alloc, self.behaviour(alloc, right)?)?;
                Ok(Beh::Disable(place, left, right))
            }
            Sign::Enable(accepted) => {
                let seen = variables_at(alloc, &self.terms.reader, self.next_variable, accepted)?;
                let size = self.variables.size();
                self.see(alloc, &seen)?;
                let right = shared(alloc, self.behaviour(alloc, right)?)?;
                self.forget_variables(size);
                Ok(Beh::Enable(place, left, seen, right))
            }
        }
    }
}
