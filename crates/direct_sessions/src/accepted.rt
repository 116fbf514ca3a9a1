//! What a text of one file is accepted as, and the session that begins with it.

ghost use Rattle.demo_walks.specs.HandedOn.{IsLawfulSession, book_canon};
ghost use Rattle.sort_terms.specs.EquationView.{data_of};
ghost use Rattle.sort_terms.specs.SignatureView.{signature_of};
ghost use Rattle.spec_acceptance.specs.Acceptance.{Acceptance};
ghost use Rattle.spec_acceptance.specs.AcceptedView.{HoldsAccepted};
ghost use Rattle.std.specs.Prelude.{◌≡◌, IfOk};

use demo_walks::{Book, MenuMaker, Session};
use lotos_base::{MemShelf, NoMemory};
use spec_acceptance::Accepted;
use std::alloc::Global;
use std::test::Fail;

/// What the text is accepted as, which has no parameters and mentions the shipped libraries alone.
pub fn accept(alloc: Global, text: &str) -> Result<Accepted, Fail>
    ensures { IfOk result (λ it. (acceptance : Acceptance) × HoldsAccepted acceptance it) }
{
    let mut files = Vec::new(alloc);
    files.push((
        String::from_str(alloc, "s")?,
        Vec::from_slice(alloc, text.as_bytes())?,
    ))?;
    let mut shelf = MemShelf::new(files, Vec::new(alloc));
    match Accepted::read(alloc, "s", None, &[], &mut shelf) {
        Ok(accepted) => Ok(accepted),
        Err(_) => Err(Fail::new("the text is refused")),
    }
}

/// The session that begins with what was accepted, and its book.
pub(crate) fn opened<M: MenuMaker>(
    alloc: Global,
    accepted: Accepted,
    maker: M,
) -> Result<(Session<M>, Book), NoMemory>
    requires known { (acceptance : Acceptance) × HoldsAccepted acceptance accepted }
    requires suited { M.suits maker accepted.spec (data_of accepted.book.flat)
        (book_canon accepted.book) }
    ensures lawful { IfOk result (λ made. IsLawfulSession M.suits (data_of made.1.flat)
        (book_canon made.1) made.0) }
    ensures signature { IfOk result (λ made. signature_of made.1.flat.signature
        ≡ signature_of accepted.book.flat.signature) }
{
    let Accepted {
        spec,
        ranks,
        book,
        start,
    } = accepted;
    let mut book = book;
    let session = Session::open(alloc, spec, ranks, start, maker, &mut book)?;
    Ok((session, book))
}
