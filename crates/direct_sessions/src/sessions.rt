//! Steps of sessions with values that no line gives.

ghost use Rattle.demo_walks.specs.HandedOn.{AreGiven, IsLawfulSession, book_canon};
ghost use Rattle.sort_terms.specs.EquationView.{data_of};
ghost use Rattle.sort_terms.specs.SignatureView.{signature_of};
ghost use Rattle.spec_acceptance.specs.Acceptance.{Acceptance};
ghost use Rattle.spec_acceptance.specs.AcceptedView.{HoldsAccepted};
ghost use Rattle.std.specs.Prelude.{IfOk};

use crate::accepted::{accept, opened};
use demo_walks::values::CellValues;
use demo_walks::{Book, FreshMenus, Session, StepRefusal};
use lotos_base::NoMemory;
use sort_terms::{Signature, Sorted};
use spec_acceptance::Accepted;
use std::alloc::Global;
use std::test::Fail;

// The number 0 alone.
pub(crate) fn nought(alloc: Global, signature: &Signature) -> Result<Vec<Sorted>, Fail>
    ensures { IfOk result (λ made. AreGiven (signature_of signature.now) made.items) }
{
    let values = CellValues::read(alloc, signature)?;
    match values.put_by(alloc, 0)? {
        Some(listed) => Ok(listed),
        None => Err(Fail::new("there is no 0")),
    }
}

// Whether the first variable of the first entry does not take the values.
fn is_refused(session: &mut Session<FreshMenus>, values: Vec<Sorted>, book: &mut Book) -> bool
    requires lawful { IsLawfulSession (λ maker spec data_ canon. Unit {0})
        (data_of book.old.flat) (book_canon book.old) session.old }
    requires given { AreGiven (signature_of book.old.flat.signature) values.items }
{
    match session.step(1, values, book) {
        Err(StepRefusal::ValueSort { variable }) => variable == 0,
        _ => false,
    }
}

// The same in the session that begins with what was accepted.
fn is_refused_at_first(
    alloc: Global,
    accepted: Accepted,
    values: Vec<Sorted>,
) -> Result<bool, NoMemory>
    requires known { (acceptance : Acceptance) × HoldsAccepted acceptance accepted }
    requires given { AreGiven (signature_of accepted.book.flat.signature) values.items }
{
    let (mut session, mut book) = opened(alloc, accepted, FreshMenus)?;
    Ok(is_refused(&mut session, values, &mut book))
}

#[test]
fn a_value_of_another_sort(rt: HostRuntime) -> Result<(), Fail> {
    let alloc = rt.alloc();
    let text = "specification S [g] : noexit library NaturalNumber endlib
behaviour g ?x:Bool; stop endspec";
    let accepted = accept(alloc, text)?;
    let values = nought(alloc, &accepted.book.flat().signature)?;
    assert!(rt; is_refused_at_first(alloc, accepted, values)?);
    Ok(())
}
