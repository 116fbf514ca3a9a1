//! The patterns that are left in a tree.

ghost use Rattle.certificate_theory.specs.Patterns.{first_pattern};
ghost use Rattle.induct_check.specs.CertificateReading as plain;
ghost use Rattle.induct_check.specs.KnownView.{CoversHaveResults, known_signature};
ghost use Rattle.induct_parts.specs.CaseView.{IsKnownPattern, pattern_in, patterns_in};
ghost use Rattle.induct_parts.specs.CertificateView.{covers_in, tree_line_of};
ghost use Rattle.lotos_base.proofs.Each.{Each};
ghost use Rattle.lotos_base.specs.Signature.{IsOperation, Operation};
ghost use Rattle.std.specs.Prelude.{◌≡◌, IfOk};

use crate::known::Known;
use induct_parts::certificates::{Cover, TreeLine};
use induct_parts::line_fault::LineFault;
use induct_parts::patterns::{Pattern, first, pattern_line};
use induct_parts::setting::Setting;
use lotos_base::NoMemory;

/// The pattern that the tree of the operation begins with.
pub fn first_of_tree(known: &Known, operation: u32) -> Result<Pattern, NoMemory>
    requires { (o : Operation) × IsOperation (known_signature known.now) operation o }
    ensures first { IfOk result (λ pattern. (o : Operation)
        → IsOperation (known_signature known.now) operation o
        → pattern_in pattern ≡ first_pattern (record { number = operation; operation = o })) }
    ensures known { IfOk result (λ pattern. IsKnownPattern (pattern_in pattern)) }
{
    let setting = Setting {
        alloc: known.alloc,
        signature: known.signature,
        rules: known.rules,
        covers: &[],
    };
    first(&setting, operation)
}

/// The patterns that a line of a tree leaves of this one: none behind a leaf, and one for each
/// operation of the cover of the variable's sort behind a split; none where there is no such
/// variable, or no cover.
pub fn patterns_behind(
    known: &Known,
    covers: &[Cover],
    pattern: &Pattern,
    line: &TreeLine,
) -> Result<Vec<Pattern>, NoMemory>
    requires covers { CoversHaveResults (known_signature known.now) (covers_in covers.now) }
    requires pattern { IsKnownPattern (pattern_in pattern.now) }
    ensures made { IfOk result (λ made. patterns_in made.items
        ≡ plain.patterns_behind (known_signature known.now) (covers_in covers.now)
        (pattern_in pattern.now) (tree_line_of line.now)) }
    ensures known { IfOk result (λ made. Each IsKnownPattern (patterns_in made.items)) }
{
    let setting = Setting {
        alloc: known.alloc,
        signature: known.signature,
        rules: known.rules,
        covers,
    };
    match pattern_line(&setting, pattern, line) {
        Ok(patterns) => Ok(patterns),
        Err(LineFault::NoMemory) => Err(NoMemory),
        Err(_) => Ok(Vec::new(known.alloc)),
    }
}
