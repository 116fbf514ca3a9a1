//! Certificates over data with the confluent rules of their equations.

ghost use Rattle.equation_book.specs.BookCanon.{book_canon};
ghost use Rattle.induct_check.specs.BookView.{book_theory};
ghost use Rattle.induct_check.specs.CheckView.{IsCertifiedText};
ghost use Rattle.induct_check.specs.TextFaults.{IsTextFault};
ghost use Rattle.induct_parts.specs.CertificateView.{lemmas_in};
ghost use Rattle.induct_parts.specs.FaultView.{HoldsAtLine};
ghost use Rattle.induct_parts.specs.SettingView.{AllLemmasHold, IsKnownLemma};
ghost use Rattle.lotos_base.proofs.Each.{Each};
ghost use Rattle.sort_terms.specs.EquationView.{data_of};
ghost use Rattle.std.specs.Prelude.{◌≡◌, ◌+◌, ◌<◌, ◌^◌, IfErr, IfOk, length};

use crate::checking::check_lemmas;
use equation_book::Book;
use induct_parts::at_line::AtLine;
use induct_parts::certificates::StatedLemma;
use std::alloc::Global;

/// Reads the text of a certificate over the data of the book, and checks it, as [`check_lemmas`]
/// does: each of its lemmas holds by induction then.
pub fn check_text(alloc: Global, book: &mut Book, text: &[u8]) -> Result<Vec<StatedLemma>, AtLine>
    requires { length text.now + 1 < 2 ^ 32 }
    ensures same_data { data_of book.new.flat ≡ data_of book.old.flat }
    ensures same_canon { book_canon book.new ≡ book_canon book.old }
    ensures certified { IfOk result (λ lemmas. IsCertifiedText (book_theory book.old) text.now
        (lemmas_in lemmas.items)) }
    ensures hold { IfOk result (λ lemmas. AllLemmasHold (data_of book.old.flat)
        (lemmas_in lemmas.items)) }
    ensures known { IfOk result (λ lemmas. Each (IsKnownLemma (data_of book.old.flat).signature)
        lemmas.items) }
    ensures refused { IfErr result (λ at. HoldsAtLine (IsTextFault (book_theory book.old) text.now)
        at) }
{
    let signature = book.flat().signature.copy()?;
    let rules = book.rules().copy()?;
    check_lemmas(alloc, &signature, &rules, text, book)
}
