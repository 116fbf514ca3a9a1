//! A text that is printed with nothing behind it, and what it is where a file could not be got or a
//! specification is refused.

ghost use Rattle.certificate_verbs.specs.Finishing.{word_or_none};
ghost use Rattle.certificate_verbs.specs.Printed.{IsFaultPrinted, print_in};
ghost use Rattle.certificate_verbs.specs.declared.ended.Ended.TheVariants.{
  FileFault as file_fault,
  SpecRefused as spec_refused,
};
ghost use Rattle.command_words.specs.HandedOn.{refusal_text, refused_of};
ghost use Rattle.demo_walks.specs.HandedOn.{unread_text};
ghost use Rattle.std.specs.Prelude.{◌≡◌, IfOk, IfSome, option_map};

use crate::ended::Ended;
use command_words::{NotAccepted, Refused, refusal_line};
use demo_walks::push_text;
use lotos_base::NoMemory;
use std::alloc::Global;

/// A text that is printed with nothing behind it, and how the run ends then.
#[derive(Drop)]
pub struct Alone {
    /// The text.
    pub text: Vec<u8>,
    /// The status.
    pub ended: Ended,
}

/// What is printed where the specification is not accepted: the line of the file that could not be
/// got, or that of the refusal.
pub fn failed_alone(
    alloc: Global,
    spec: &str,
    order: Option<&str>,
    fault: &NotAccepted,
) -> Result<Alone, NoMemory>
    ensures { IfOk result (λ alone. IsFaultPrinted spec.now
        (option_map (λ word. word.now) order.entry) fault.now (print_in alone)) }
{
    match fault {
        NotAccepted::File { name } => unread_alone(alloc, name.as_slice()),
        NotAccepted::Spec(refused) => refused_alone(alloc, spec, order_name(order), refused),
        NotAccepted::NoMemory => Err(NoMemory),
    }
}

// The name of the order file, and nothing where there is none.
fn order_name(order: Option<&str>) -> &str
    ensures { result.now ≡ word_or_none (option_map (λ word. word.now) order.entry) }
{
    match order {
        None => "",
        Some(name) => name,
    }
}

// The line of a file that could not be got.
fn unread_alone(alloc: Global, name: &[u8]) -> Result<Alone, NoMemory>
    ensures { IfOk result
        (λ alone. (alone.text.items ≡ unread_text name.now) × (alone.ended ≡ file_fault)) }
{
    let mut text = Vec::new(alloc);
    push_text(&mut text, b"cannot read ")?;
    push_text(&mut text, name)?;
    push_text(&mut text, b"\n")?;
    Ok(Alone {
        text,
        ended: Ended::FileFault,
    })
}

// The line of a refusal.
fn refused_alone(
    alloc: Global,
    spec: &str,
    order: &str,
    refused: &Refused,
) -> Result<Alone, NoMemory>
    ensures { IfOk result (λ alone. IfSome (refused_of refused.now)
        (λ told. alone.text.items ≡ refusal_text spec.now order.now told)
        × (alone.ended ≡ spec_refused)) }
{
    let mut text = Vec::new(alloc);
    refusal_line(spec, order, refused, &mut text)?;
    Ok(Alone {
        text,
        ended: Ended::SpecRefused,
    })
}
