//! What is looked for among the actual types.

ghost use Rattle.type_renaming.specs.Actuals.{sought_operation};
ghost use Rattle.lotos_base.specs.Name.{spelling};
ghost use Rattle.lotos_base.specs.WrittenView.{form_of};
ghost use Rattle.sort_terms.specs.Operations.{operation_of};
ghost use Rattle.std.specs.Prelude.{◌≡◌, IfOk};
ghost use Rattle.type_definitions.specs.Actualisation.{actual_name, other_form};
ghost use Rattle.type_definitions.specs.Renaming.{pair_for};
ghost use Rattle.type_definitions.specs.ProfiledImage.{number_in};
ghost use Rattle.type_presentations.specs.PairIndexView.{pairs_in};

use lotos_base::{Form, Name, NoMemory};
use sort_terms::Op;
use std::alloc::Global;
use type_definitions::op_image;
use type_presentations::PairIndex;

/// The name that something formal has among the actual types: that of its pair, or its own.
pub fn name_among_actuals(
    alloc: Global,
    pairs: &PairIndex<'_>,
    name: &Name,
) -> Result<Name, NoMemory>
    ensures { IfOk result (λ made. spelling made
        ≡ actual_name (spelling name.now) (pair_for (pairs_in pairs.now) (spelling name.now))) }
{
    let found = pairs.pair_for(alloc, name)?;
    let Some(pair) = found else {
        let own = name.copy(alloc)?;
        return Ok(own);
    };
    let given = pair.given.copy(alloc)?;
    Ok(given)
}

/// The operation that is looked for in the form of the formal one.
pub fn sought_op(
    alloc: Global,
    pairs: &PairIndex<'_>,
    sorts: &[u32],
    op: &Op,
) -> Result<Op, NoMemory>
    ensures { IfOk result (λ made. operation_of made
        ≡ sought_operation (number_in sorts.now) (pairs_in pairs.now)
        (operation_of op.now).form (operation_of op.now)) }
{
    let mut image = op_image(alloc, op, sorts)?;
    image.name = name_among_actuals(alloc, pairs, &op.name)?;
    Ok(image)
}

/// The operation in the other form.
pub fn turned(mut op: Op) -> Op
    ensures { operation_of result ≡ record {
      name = (operation_of op).name;
      form = other_form (operation_of op).form;
      arguments = (operation_of op).arguments;
      result = (operation_of op).result;
      origin = (operation_of op).origin;
    } }
{
    op.form = turned_form(op.form);
    op
}

// The other form.
fn turned_form(form: Form) -> Form
    ensures { form_of result ≡ other_form (form_of form) }
{
    match form {
        Form::Prefix => Form::Infix,
        Form::Infix => Form::Prefix,
    }
}
