//! Chosen forms of instances.

ghost use Rattle.path_order.specs.RulesView.{plain_rules_in, signature_in};
ghost use Rattle.sort_terms.specs.ProfiledTerm.{IsOf};
ghost use Rattle.sort_terms.specs.TermView.{profiled_of};
ghost use Rattle.std.specs.Prelude.{◌+◌, IfOk};
ghost use Rattle.term_rewriter.specs.Begun.{IsBegunOf, IsReadyForRoot, form_size};
ghost use Rattle.term_rewriter.specs.Form.{IsFormOf};
ghost use Rattle.term_rewriter.specs.Reduced.{IsReducedBelow};

use crate::filling::rewritten;
use crate::first_match::{first_match, rule_at};
use lotos_base::NoMemory;
use path_order::Rules;
use sort_terms::{Parts, Term};
use std::alloc::Global;

/// An instance of a term on the way to its chosen form.
#[derive(Debug, Drop)]
pub enum Progress {
    /// Its chosen form.
    Form(Term),
    /// An operation on the chosen forms of its arguments.
    Whole(Term),
}

/// The chosen form of an instance of the shape by irreducible terms: the arguments first, then the
/// first rule that matches at the root, and so on with what it makes. What stands at a variable of
/// the shape is taken as it is.
#[cycle(form)]
pub fn form(alloc: Global, rules: &Rules, shape: &Term, instance: Term) -> Result<Term, NoMemory>
    requires term { IsOf (signature_in rules.now) (profiled_of instance) }
    requires values { IsReducedBelow (signature_in rules.now) (plain_rules_in rules.now)
        (profiled_of shape.now) (profiled_of instance) }
    ensures { IfOk result (λ made. IsFormOf (signature_in rules.now) (plain_rules_in rules.now)
        (profiled_of instance) (profiled_of made)) }
{
    let mut begun = begun(alloc, rules, shape, instance)?;
    loop {
        match begun {
            Progress::Form(made) => return Ok(made),
            Progress::Whole(whole) => begun = after(alloc, rules, whole)?,
        }
    }
}

// The instance of the shape with its arguments in their chosen forms.
#[cycle(form)]
fn begun(alloc: Global, rules: &Rules, shape: &Term, instance: Term) -> Result<Progress, NoMemory>
    requires term { IsOf (signature_in rules.now) (profiled_of instance) }
    requires values { IsReducedBelow (signature_in rules.now) (plain_rules_in rules.now)
        (profiled_of shape.now) (profiled_of instance) }
    ensures { IfOk result (λ begun. IsBegunOf rules.now (profiled_of instance)
        (form_size rules.now (profiled_of instance) + 1) begun) }
{
    let Term::Node {
        arguments: shapes,
        ..
    } = shape
    else {
        return Ok(Progress::Form(instance));
    };
    match instance.into_parts() {
        Parts::Variable { number, sort } => Ok(Progress::Form(Term::Var { number, sort })),
        Parts::Operation {
            op,
            profile,
            arguments,
        } => {
            let parts = arguments.into_items()?;
            let mut forms = Vec::with_capacity(alloc, parts.len())?;
            let mut rest = parts.into_iter();
            for argument in shapes.items() {
                if let Some(part) = rest.next() {
                    forms.push(form(alloc, rules, argument, part)?)?;
                }
            }
            Ok(Progress::Whole(Term::node(op, profile, forms)?))
        }
    }
}

// What the first rule that matches makes of an operation on irreducible terms, with its arguments
// in their chosen forms; or the term itself where no rule matches.
#[cycle(form)]
fn after(alloc: Global, rules: &Rules, whole: Term) -> Result<Progress, NoMemory>
    requires { IsReadyForRoot rules.now (profiled_of whole) }
    ensures { IfOk result (λ next. IsBegunOf rules.now (profiled_of whole)
        (form_size rules.now (profiled_of whole)) next) }
{
    let Some(number) = first_match(alloc, rules, &whole)? else {
        return Ok(Progress::Form(whole));
    };
    let rule = rule_at(rules, number);
    let right = rule.right.term();
    let instance = rewritten(alloc, rule.left.term(), right, whole)?;
    begun(alloc, rules, right, instance)
}
