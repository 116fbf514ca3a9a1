//! The words that flatten a specification.

ghost use Rattle.certificate_verbs.specs.HandedOn.{flattening, specification_of};
ghost use Rattle.certificate_verbs.specs.declared.ended.Ended.TheVariants.{Done as done};
ghost use Rattle.flat_text.specs.FlatText.{flat_text};
ghost use Rattle.lotos_top.specs.Prepared.{CameTo, IsReady};
ghost use Rattle.sort_terms.specs.EquationView.{data_of};
ghost use Rattle.std.specs.Prelude.{◌≡◌, IfOk, MatchResult, Some, option_map};

use crate::opening::{Ready, ready_alone};
use certificate_verbs::{Alone, Ended, WithBook, failed_alone, founded_under};
use flat_text::write_flat;
use lotos_base::{NoMemory, Shelf};
use std::alloc::Global;

/// Makes ready what `flatten` prints.
pub fn flattened<F: Shelf>(
    alloc: Global,
    spec: &str,
    order: Option<&str>,
    shelf: &mut F,
) -> Result<Ready, NoMemory>
    ensures { MatchResult result
        (IsReady (Some (flattening spec.now (option_map (λ word. word.now) order.entry)))
        (F.state shelf.old) (F.state shelf.new))
        (λ _. CameTo (Some (flattening spec.now (option_map (λ word. word.now) order.entry)))
        (F.state shelf.old) (F.state shelf.new)) }
{
    match founded_under(alloc, spec, order, shelf) {
        Ok(known) => ready_alone(flat_alone(alloc, &known)),
        Err(fault) => ready_alone(failed_alone(alloc, spec, order, &fault)),
    }
}

// The flat text of what was accepted.
fn flat_alone(alloc: Global, known: &WithBook) -> Result<Alone, NoMemory>
    ensures { IfOk result (λ alone. (alone.text.items
        ≡ flat_text (data_of known.now.book.flat) (specification_of known.now.spec))
        × (alone.ended ≡ done)) }
{
    let mut text = Vec::new(alloc);
    write_flat(known.book.flat(), &known.spec, &mut text)?;
    Ok(Alone {
        text,
        ended: Ended::Done,
    })
}
