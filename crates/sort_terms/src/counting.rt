//! Counts the readings of each node of a written term, from its leaves up.

ghost use Rattle.lotos_base.specs.Name.{spelling};
ghost use Rattle.lotos_base.specs.WrittenLaws.{head_of};
ghost use Rattle.lotos_base.specs.WrittenTerm.{written_terms};
ghost use Rattle.lotos_base.specs.WrittenView.{
  form_of,
  placed_name_of,
  written_term_of,
  written_terms_of,
};
ghost use Rattle.lotos_base.specs.declared.written_terms.Written.{out-Written};
ghost use Rattle.sort_terms.specs.Asked.{allows};
ghost use Rattle.sort_terms.specs.ChoicesView.{choice_at};
ghost use Rattle.sort_terms.specs.EquationView.{variable_of};
ghost use Rattle.sort_terms.specs.Operations.{operation_of};
ghost use Rattle.sort_terms.specs.Positions.{positions_of};
ghost use Rattle.sort_terms.specs.ReaderView.{signature_read};
ghost use Rattle.sort_terms.specs.Reading.{IsAsked, IsBare, IsLastNamed, IsVisible, Reads};
ghost use Rattle.sort_terms.specs.ScopeView.{variables_in};
ghost use Rattle.sort_terms.specs.Suiting.{AllSuit, Means, Suits};
ghost use Rattle.sort_terms.specs.Tables.{
  combined,
  gathered,
  operation_offered,
  offered_by,
  only_variable,
  with_offer,
};
ghost use Rattle.sort_terms.specs.TableView.{table_of, tables_of};
ghost use Rattle.std.specs.Prelude.{
  ◌≡◌,
  ◌↔◌,
  ◌<◌,
  ℕ,
  None,
  IfOk,
  IsTrue,
  MatchOption,
  OnOk,
  length,
  map,
};
ghost use Rattle.lotos_base.specs.Names.{folded};

use crate::asked::Asked;
use crate::choices::{Choices, Source};
use crate::counted::Counted;
use crate::equations::Variable;
use crate::operations::Op;
use crate::reader::Reader;
use crate::scope::Scope;
use lotos_base::{Form, Name, NoMemory, Place, Written};

impl Reader<'_> {
    /// The written term with what is known of the readings of each of its nodes.
    #[cycle(counting)]
    pub(crate) fn counted(&self, scope: &Scope, written: &Written) -> Result<Counted, NoMemory>
        ensures { IfOk result (λ c. Suits (signature_read self.now) (variables_in scope.now)
            (written_term_of written.now) (table_of c)) }
    {
        let arguments = self.all_counted(scope, &written.args)?;
        let choices = self.choices(scope, written, &arguments)?;
        Ok(Counted { choices, arguments })
    }

    // The same of each of the written terms.
    #[cycle(counting)]
    fn all_counted(&self, scope: &Scope, written: &Vec<Written>) -> Result<Vec<Counted>, NoMemory>
        ensures { IfOk result (λ cs. AllSuit (signature_read self.now) (variables_in scope.now)
            (written_terms (written_terms_of written.now.items)) (tables_of cs.items)) }
    {
        let mut made = Vec::with_capacity(self.alloc, written.len())?;
        for term in written {
            made.push(self.counted(scope, term)?)?;
        }
        Ok(made)
    }

    // What is known of the readings of the written term, from what is known of its arguments.
    fn choices(
        &self,
        scope: &Scope,
        written: &Written,
        arguments: &Vec<Counted>,
    ) -> Result<Choices, NoMemory>
        requires { AllSuit (signature_read self.now) (variables_in scope.now)
            (written_terms (written_terms_of (out-Written written.now).args.items))
            (tables_of arguments.now.items) }
        ensures { IfOk result (λ c. (s : ℕ) → Means
            (λ t. Reads (signature_read self.now) (variables_in scope.now)
            (written_term_of written.now) t s) (choice_at c s)) }
    {
        let asked = self.asked(&written.sorts)?;
        match self.variable_at(scope, written)? {
            Some(variable) => self.variable_choices(asked, variable),
            None => self.operation_choices(&written.name, written.form, asked, arguments),
        }
    }

    // The variable that the node is, if it is one: the last one in scope of a bare name.
    fn variable_at<'s>(
        &self,
        scope: &'s Scope,
        written: &Written,
    ) -> Result<Option<&'s Variable>, NoMemory>
        ensures { IfOk result (λ found. MatchOption found
            (IsVisible (variables_in scope.now) (head_of written.now)
            (written_terms (written_terms_of (out-Written written.now).args.items)))
            (λ v. IsBare (head_of written.now)
            (written_terms (written_terms_of (out-Written written.now).args.items))
            × IsLastNamed (variables_in scope.now) (head_of written.now).name
            (variable_of v.now))) }
    {
        match written.form {
            Form::Infix => Ok(None),
            Form::Prefix => {
                if written.args.len() > 0 {
                    return Ok(None);
                }
                scope.last_named(self.alloc, &written.name)
            }
        }
    }

    // What the `of`s of a node allow.
    fn asked(&self, sorts: &Vec<(Place, Name)>) -> Result<Asked, NoMemory>
        ensures { IfOk result (λ asked. (s : ℕ)
            → IsTrue (allows asked s) ↔ IsAsked (signature_read self.now)
            (map placed_name_of sorts.now.items) s) }
    {
        let mut asked = Asked::Any;
        for (_, name) in sorts {
            asked = asked.and(self.sort_named(name)?);
        }
        Ok(asked)
    }

    // The one reading as a variable, if its sort is allowed.
    fn variable_choices(&self, asked: Asked, variable: &Variable) -> Result<Choices, NoMemory>
        ensures { IfOk result (λ c. (s : ℕ) → choice_at c s
            ≡ only_variable asked (variable_of variable.now) s) }
    {
        let mut choices = Choices::new(self.alloc);
        if asked.allows(variable.sort) {
            choices.add(variable.sort, Source::Variable(variable.number), false)?;
        }
        Ok(choices)
    }

    // The readings as operations of this name and form on the arguments.
    fn operation_choices(
        &self,
        name: &Name,
        form: Form,
        asked: Asked,
        arguments: &Vec<Counted>,
    ) -> Result<Choices, NoMemory>
        ensures { IfOk result (λ c. (s : ℕ) → choice_at c s
            ≡ gathered (operation_offered (signature_read self.now) (form_of form) asked
            (tables_of arguments.now.items)) s None
            (positions_of (folded (spelling name.now))
            (map (λ o. o.name) (signature_read self.now).operations))) }
    {
        let mut choices = Choices::new(self.alloc);
        for number in self.operations.numbers(self.alloc, name)? {
            self.add_operation(&mut choices, *number, form, asked, arguments)?;
        }
        Ok(choices)
    }

    // Adds the readings as the operation with this number.
    fn add_operation(
        &self,
        choices: &mut Choices,
        number: usize,
        form: Form,
        asked: Asked,
        arguments: &Vec<Counted>,
    ) -> Result<(), NoMemory>
        requires { number < length self.now.signature.now.ops.items }
        ensures { OnOk result ((s : ℕ) → choice_at choices.new s ≡ with_offer s
            (choice_at choices.old s) number
            (operation_offered (signature_read self.now) (form_of form) asked
            (tables_of arguments.now.items) number)) }
    {
        let op = &self.signature.ops()[number];
        match offer(op, form, asked, arguments) {
            None => Ok(()),
            Some((sort, several)) => choices.add(sort, Source::Operation(number as u32), several),
        }
    }
}

// The operation's result sort where it may stand at a node, and whether its arguments have several
// readings.
fn offer(op: &Op, form: Form, asked: Asked, arguments: &Vec<Counted>) -> Option<(u32, bool)>
    ensures { result ≡ offered_by (form_of form) asked (tables_of arguments.now.items)
        (operation_of op.now) }
{
    if op.form == form && asked.allows(op.result) {
        let several = several_readings(&op.arguments, arguments)?;
        Some((op.result, several))
    } else {
        None
    }
}

// Whether the arguments have several readings at these sorts, if they have one at all.
fn several_readings(sorts: &Vec<u32>, arguments: &Vec<Counted>) -> Option<bool>
    ensures { result ≡ combined sorts.now.items (tables_of arguments.now.items) }
{
    if sorts.len() != arguments.len() {
        return None;
    }
    let mut several = false;
    for i in 0..sorts.len() {
        let choice = arguments[i].choices.at(sorts[i])?;
        several = several || choice.several;
    }
    Some(several)
}
