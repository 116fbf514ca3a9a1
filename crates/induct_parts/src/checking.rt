//! Whether a certificate is right.

ghost use Rattle.induct_parts.specs.CertificateView.{
  certificate_in,
  lines_of_certificate,
  trees_in,
};
ghost use Rattle.induct_parts.specs.FaultView.{HoldsAtLine};
ghost use Rattle.induct_parts.specs.SettingView.{
  AllCovered,
  AllLemmasHold,
  IsKnownCertificate,
  known_theory,
  setting_covers,
  setting_signature,
};
ghost use Rattle.certificate_theory.specs.Certified.{
  AreComplete,
  IsCertified,
  IsFirstLack,
  IsInductionFault,
};
ghost use Rattle.certificate_theory.specs.Faults.{no_tree};
ghost use Rattle.path_order.specs.RulesView.{plain_rules_in};
ghost use Rattle.rewriting_theory.specs.Rule.{AreSortedRulesOf};
ghost use Rattle.sort_terms.specs.SignatureView.{signature_of};
ghost use Rattle.std.specs.Prelude.{◌≡◌, ◌<◌, ◌^◌, ℕ, IfErr, IfOk, suc};

use crate::at_line::AtLine;
use crate::certificates::{Certificate, PatternTree};
use crate::covers::check_covers;
use crate::lacks::first_lack;
use crate::lemmas::check_lemmas;
use crate::line_fault::LineFault;
use crate::setting::Setting;
use crate::trees::check_trees;
use path_order::Rules;
use sort_terms::{Deciding, Signature};
use std::alloc::Global;

/// Whether the certificate, which has fewer than 2^32 lines, is right over the data: the sort of
/// each cover is covered by it then, and each lemma holds by induction. Otherwise its first fault,
/// at its line, counted from 1: covers, trees and lemmas are looked at in their order, and that an
/// operation lacks a tree, at the line of the cover, behind the trees.
pub fn check_certificate<D: Deciding>(
    alloc: Global,
    signature: &Signature,
    rules: &Rules,
    certificate: &Certificate,
    data_: &mut D,
) -> Result<(), AtLine>
    requires same_signature { signature_of signature.now ≡ (D.known_data data_.old).signature }
    requires rules_of { AreSortedRulesOf (D.known_data data_.old) (plain_rules_in rules.now) }
    requires known { IsKnownCertificate (signature_of signature.now) certificate.now }
    requires few { lines_of_certificate (certificate_in certificate.now) < 2 ^ 32 }
    ensures same_data { D.known_data data_.new ≡ D.known_data data_.old }
    ensures same_canon { D.canon data_.new ≡ D.canon data_.old }
    ensures certified { IfOk result (λ u. IsCertified
        (known_theory (D.known_data data_.old) rules.now (D.canon data_.old))
        (certificate_in certificate.now)) }
    ensures covers { IfOk result (λ u. AllCovered (D.known_data data_.old).signature
        (plain_rules_in rules.now) (certificate_in certificate.now).covers) }
    ensures hold { IfOk result (λ u. AllLemmasHold (D.known_data data_.old)
        (certificate_in certificate.now).lemmas) }
    ensures refused { IfErr result (λ at. HoldsAtLine (IsInductionFault
        (known_theory (D.known_data data_.old) rules.now (D.canon data_.old))
        (certificate_in certificate.now)) at) }
{
    let covers = certificate.covers.as_slice();
    let trees = certificate.trees.as_slice();
    let lemmas = certificate.lemmas.as_slice();
    check_covers(signature, covers)?;
    let setting = Setting {
        alloc,
        signature,
        rules,
        covers,
    };
    let begin = check_trees(&setting, trees)?;
    check_complete(&setting, trees)?;
    check_lemmas(&setting, lemmas, begin, data_)
}

// That no operation lacks a tree.
fn check_complete(setting: &Setting, trees: &[PatternTree]) -> Result<(), AtLine>
    ensures complete { IfOk result (λ u. AreComplete (setting_signature setting.now)
        (setting_covers setting.now) (trees_in trees.now)) }
    ensures lacking { IfErr result (λ at. HoldsAtLine (λ line fault. (i : ℕ) × (f : ℕ)
        × IsFirstLack (setting_signature setting.now) (setting_covers setting.now)
        (trees_in trees.now) i f × (line ≡ suc i) × (fault ≡ no_tree f)) at) }
{
    match first_lack(setting.signature, setting.covers, trees) {
        None => Ok(()),
        Some((number, operation)) => Err(AtLine {
            line: number + 1,
            fault: LineFault::NoTree(operation),
        }),
    }
}
