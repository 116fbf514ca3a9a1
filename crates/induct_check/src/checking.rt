//! Whether the text of a certificate is right.

ghost use Rattle.induct_check.specs.CheckView.{IsCertifiedText, IsFirstOf};
ghost use Rattle.induct_check.specs.ReadingView.{read_text, stop_of};
ghost use Rattle.induct_check.specs.TextFaults.{
  ComesBeforeStop,
  IsTextFault,
  Stop as PlainStop,
  TextComesTo,
};
ghost use Rattle.induct_parts.specs.CertificateView.{
  certificate_in,
  lemmas_in,
  lines_of_certificate,
};
ghost use Rattle.induct_parts.specs.FaultView.{HoldsAtLine};
ghost use Rattle.induct_parts.specs.HandedOn.{AreSortedRulesOf};
ghost use Rattle.induct_parts.specs.SettingView.{
  AllLemmasHold,
  IsKnownCertificate,
  IsKnownLemma,
  known_theory,
};
ghost use Rattle.induct_parts.specs.declared.line_fault.LineFault.TheVariants.{BadLine};
ghost use Rattle.lotos_base.proofs.Each.{Each};
ghost use Rattle.path_order.specs.RulesView.{plain_rules_in};
ghost use Rattle.sort_terms.specs.SignatureView.{signature_of};
ghost use Rattle.std.specs.Option.{option_map};
ghost use Rattle.std.specs.Prelude.{
  ◌≡◌,
  ◌↔◌,
  ◌+◌,
  ◌<◌,
  ◌^◌,
  ℕ,
  IfErr,
  IfOk,
  IsTrue,
  List,
  None,
  Some,
  length,
};

use crate::known::Known;
use crate::reading::{Read, Stop, read_certificate};
use induct_parts::at_line::AtLine;
use induct_parts::certificates::StatedLemma;
use induct_parts::checking::check_certificate;
use induct_parts::first_faults_are_one;
use induct_parts::line_fault::LineFault;
use path_order::Rules;
use path_order::items::indexed;
use sort_terms::{Deciding, Reader, Signature};
use std::alloc::Global;

/// Reads the text of a certificate over the data, and checks it: its lemmas, in their order, each
/// of which holds by induction then, while the sort of each of its covers is covered by it.
/// Otherwise the first fault with its line, counted from 1: that of what was read, where it comes
/// before the line at which the text stops to read, or `BadLine` there.
pub fn check_lemmas<D: Deciding>(
    alloc: Global,
    signature: &Signature,
    rules: &Rules,
    text: &[u8],
    data_: &mut D,
) -> Result<Vec<StatedLemma>, AtLine>
    requires same_signature { signature_of signature.now ≡ (D.known_data data_.old).signature }
    requires rules_of { AreSortedRulesOf (D.known_data data_.old) (plain_rules_in rules.now) }
    requires short { length text.now + 1 < 2 ^ 32 }
    ensures same_data { D.known_data data_.new ≡ D.known_data data_.old }
    ensures same_canon { D.canon data_.new ≡ D.canon data_.old }
    ensures certified { IfOk result (λ lemmas. IsCertifiedText
        (known_theory (D.known_data data_.old) rules.now (D.canon data_.old)) text.now
        (lemmas_in lemmas.items)) }
    ensures hold { IfOk result (λ lemmas. AllLemmasHold (D.known_data data_.old)
        (lemmas_in lemmas.items)) }
    ensures known { IfOk result (λ lemmas. Each (IsKnownLemma (signature_of signature.now))
        lemmas.items) }
    ensures refused { IfErr result (λ at. HoldsAtLine (IsTextFault
        (known_theory (D.known_data data_.old) rules.now (D.canon data_.old)) text.now) at) }
{
    let reader = Reader::of(alloc, signature)?;
    let operations = indexed(alloc, signature.ops())?;
    let known = Known {
        alloc,
        signature,
        rules,
        reader: &reader,
        operations: &operations,
    };
    let read = read_certificate(&known, text)?;
    judged(alloc, signature, rules, read, data_)
}

// What is to be said of the text that comes to this.
fn judged<D: Deciding>(
    alloc: Global,
    signature: &Signature,
    rules: &Rules,
    read: Read,
    data_: &mut D,
) -> Result<Vec<StatedLemma>, AtLine>
    requires same_signature { signature_of signature.now ≡ (D.known_data data_.old).signature }
    requires rules_of { AreSortedRulesOf (D.known_data data_.old) (plain_rules_in rules.now) }
    requires known { IsKnownCertificate (signature_of signature.now) read.certificate }
    requires few { lines_of_certificate (certificate_in read.certificate) < 2 ^ 32 }
    ensures same_data { D.known_data data_.new ≡ D.known_data data_.old }
    ensures same_canon { D.canon data_.new ≡ D.canon data_.old }
    ensures certified { IfOk result (λ lemmas. (text : List ℕ)
        → TextComesTo (signature_of signature.now) text (read_text read)
        → IsCertifiedText (known_theory (D.known_data data_.old) rules.now (D.canon data_.old)) text
        (lemmas_in lemmas.items)) }
    ensures hold { IfOk result (λ lemmas. AllLemmasHold (D.known_data data_.old)
        (lemmas_in lemmas.items)) }
    ensures known { IfOk result (λ lemmas. Each (IsKnownLemma (signature_of signature.now))
        lemmas.items) }
    ensures refused { IfErr result (λ at. (text : List ℕ)
        → TextComesTo (signature_of signature.now) text (read_text read)
        → HoldsAtLine (IsTextFault
        (known_theory (D.known_data data_.old) rules.now (D.canon data_.old)) text) at) }
{
    first_faults_are_one();
    match check_certificate(alloc, signature, rules, &read.certificate, data_) {
        Ok(()) => accepted(read),
        Err(at) => Err(first_fault(read.stop, at)),
    }
}

// The lemmas of the text, unless it stops to read.
fn accepted(read: Read) -> Result<Vec<StatedLemma>, AtLine>
    ensures lemmas { IfOk result (λ lemmas. ((read_text read).stop ≡ None)
        × ((read_text read).certificate.lemmas ≡ lemmas_in lemmas.items)) }
    ensures same { IfOk result (λ lemmas. lemmas.items ≡ read.certificate.lemmas.items) }
    ensures stop { IfErr result (λ at. (stop : PlainStop) × ((read_text read).stop ≡ Some stop)
        × (at.line ≡ stop.line) × (at.fault ≡ BadLine)) }
{
    match read.stop {
        None => Ok(read.certificate.lemmas),
        Some(stop) => Err(AtLine {
            line: stop.line,
            fault: LineFault::BadLine,
        }),
    }
}

// The fault of what was read, if it comes before the stop, and otherwise the stop.
fn first_fault(stop: Option<Stop>, at: AtLine) -> AtLine
    ensures { IsFirstOf (option_map stop_of stop) at result }
{
    let Some(stop) = stop else {
        return at;
    };
    if comes_before(stop, &at) {
        return at;
    }
    AtLine {
        line: stop.line,
        fault: LineFault::BadLine,
    }
}

// Whether the fault comes before the stop.
fn comes_before(stop: Stop, at: &AtLine) -> bool
    ensures { IsTrue result ↔ HoldsAtLine (ComesBeforeStop (stop_of stop)) at.now }
{
    match at.fault {
        LineFault::NoTree(_) => !stop.early,
        LineFault::NoMemory => true,
        _ => at.line < stop.line,
    }
}
