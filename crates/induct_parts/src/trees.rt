//! Trees of patterns, which show that covers are right.

ghost use Rattle.induct_parts.specs.CaseView.{IsKnownPattern, pattern_in, patterns_in};
ghost use Rattle.induct_parts.specs.CertificateView.{tree_in, tree_line_of, trees_in};
ghost use Rattle.induct_parts.specs.FaultView.{FromLine, HoldsAtLine, HoldsOfLineFault};
ghost use Rattle.induct_parts.specs.SettingView.{
  HasCoverResults,
  setting_covers,
  setting_rules,
  setting_signature,
  theory_in,
};
ghost use Rattle.certificate_theory.specs.InductionCertificate.{TreeLine as PlainLine};
ghost use Rattle.certificate_theory.specs.Certified.{
  IsRightTree,
  IsWrongTree,
  lines_of_tree,
  lines_of_trees,
  with_trees,
};
ghost use Rattle.certificate_theory.specs.Faults.{bad_line};
ghost use Rattle.certificate_theory.specs.Lines.{
  AreRightBehind,
  DealsWith,
  FailsToDeal,
  FirstIsWrong,
  LinesReach,
};
ghost use Rattle.certificate_theory.specs.Patterns.{IsWrongAtPattern, PatternComesTo};
ghost use Rattle.lotos_base.proofs.Each.{Each};
ghost use Rattle.lotos_base.specs.Equation.{Data};
ghost use Rattle.lotos_base.specs.Signature.{IsOperation, Operation};
ghost use Rattle.lotos_base.specs.Substitution.{is_listed as is_listed_in};
ghost use Rattle.lotos_base.specs.Term.{Term};
ghost use Rattle.std.specs.Prelude.{
  ◌≡◌,
  ◌∷◌,
  ◌+◌,
  ◌≤◌,
  ◌^◌,
  [],
  IfErr,
  IfOk,
  List,
  OnErr,
  OnOk,
  length,
  map,
  reverse,
};

use crate::at_line::AtLine;
use crate::certificates::{PatternTree, TreeLine};
use crate::line_fault::LineFault;
use crate::patterns::{Pattern, first, pattern_line};
use crate::piles::pile;
use crate::setting::Setting;

/// That each tree is right behind those before it: its operation has no other one, and its lines
/// deal with the operation on variables. Otherwise the first fault, with its line, where the lines
/// of the covers stand before, one a cover. The answer is the number of the line behind the trees.
pub fn check_trees(setting: &Setting, trees: &[PatternTree]) -> Result<usize, AtLine>
    requires covers { HasCoverResults setting.now }
    requires operations { Each (λ tree. (operation : Operation)
        × IsOperation (setting_signature setting.now) tree.operation operation) trees.now }
    requires few { 1 + length setting.now.covers.now + lines_of_trees (trees_in trees.now)
        ≤ 2 ^ 32 }
    ensures line { IfOk result (λ line. line ≡ 1 + length setting.now.covers.now
        + lines_of_trees (trees_in trees.now)) }
    ensures right { IfOk result (λ u. (data_ : Data) (canon : Term → Term) → AreRightBehind
        (IsRightTree (theory_in setting.now data_ canon) (setting_covers setting.now)) []
        (trees_in trees.now)) }
    ensures wrong { IfErr result (λ at. (data_ : Data) (canon : Term → Term)
        → HoldsAtLine (FirstIsWrong
        (IsRightTree (theory_in setting.now data_ canon) (setting_covers setting.now))
        (IsWrongTree (theory_in setting.now data_ canon) (setting_covers setting.now)) lines_of_tree
        (1 + length (setting_covers setting.now)) [] (trees_in trees.now)) at) }
{
    let mut line = 1 + setting.covers.len();
    for number in 0..trees.len() {
        let tree = &trees[number];
        check_tree(setting, &trees[..number], tree, line)?;
        line += 1 + tree.lines.len();
    }
    Ok(line)
}

// That the tree, which begins at this line, is right behind the others.
fn check_tree(
    setting: &Setting,
    earlier: &[PatternTree],
    tree: &PatternTree,
    begin: usize,
) -> Result<(), AtLine>
    requires covers { HasCoverResults setting.now }
    requires operation { (operation : Operation)
        × IsOperation (setting_signature setting.now) tree.now.operation operation }
    requires few { begin + 1 + length tree.now.lines.items ≤ 2 ^ 32 }
    ensures right { IfOk result (λ u. (data_ : Data) (canon : Term → Term)
        → IsRightTree (theory_in setting.now data_ canon) (setting_covers setting.now)
        (trees_in earlier.now) (tree_in tree.now)) }
    ensures wrong { IfErr result (λ at. (data_ : Data) (canon : Term → Term)
        → HoldsAtLine (FromLine begin
        (IsWrongTree (theory_in setting.now data_ canon) (setting_covers setting.now)
        (trees_in earlier.now) (tree_in tree.now))) at) }
{
    if has_tree(earlier, tree.operation) {
        let fault = LineFault::BadLine;
        return Err(AtLine { line: begin, fault });
    }
    let pattern = first(setting, tree.operation)?;
    deal(setting, pattern, tree.lines.as_slice(), begin + 1)
}

/// Whether one of the trees is that of the operation.
pub fn has_tree(trees: &[PatternTree], operation: u32) -> bool
    ensures { result ≡ is_listed_in (with_trees (trees_in trees.now)) operation }
{
    for tree in trees {
        if tree.operation == operation {
            return true;
        }
    }
    false
}

// That the lines, the first of which has this number, deal with the pattern.
fn deal(setting: &Setting, first: Pattern, lines: &[TreeLine], begin: usize) -> Result<(), AtLine>
    requires covers { HasCoverResults setting.now }
    requires known { IsKnownPattern (pattern_in first) }
    requires few { begin + length lines.now ≤ 2 ^ 32 }
    ensures right { IfOk result (λ u. DealsWith
        (PatternComesTo (setting_signature setting.now) (setting_rules setting.now)
        (setting_covers setting.now)) (pattern_in first ∷ []) (map tree_line_of lines.now)) }
    ensures wrong { IfErr result (λ at. HoldsAtLine (FromLine begin (FailsToDeal
        (PatternComesTo (setting_signature setting.now) (setting_rules setting.now)
        (setting_covers setting.now))
        (IsWrongAtPattern (setting_rules setting.now) (setting_covers setting.now)) bad_line
        (pattern_in first ∷ []) (map tree_line_of lines.now))) at) }
{
    let mut left = Vec::new(setting.alloc);
    left.push(first)?;
    for number in 0..lines.len() {
        match next(setting, &mut left, &lines[number]) {
            Ok(()) => {}
            Err(fault) => {
                let line = begin + number;
                return Err(AtLine { line, fault });
            }
        }
    }
    if !left.is_empty() {
        let line = begin + lines.len();
        let fault = LineFault::BadLine;
        return Err(AtLine { line, fault });
    }
    Ok(())
}

// What the line leaves of the first pattern that is left takes its place.
fn next(setting: &Setting, left: &mut Vec<Pattern>, line: &TreeLine) -> Result<(), LineFault>
    requires covers { HasCoverResults setting.now }
    requires known { Each (λ p. IsKnownPattern (pattern_in p)) (reverse left.old.items) }
    ensures comes { OnOk result (LinesReach
        (PatternComesTo (setting_signature setting.now) (setting_rules setting.now)
        (setting_covers setting.now)) (patterns_in (reverse left.old.items))
        (tree_line_of line.now ∷ []) (patterns_in (reverse left.new.items))) }
    ensures known { OnOk result
        (Each (λ p. IsKnownPattern (pattern_in p)) (reverse left.new.items)) }
    ensures wrong { IfErr result (λ fault. (rest : List PlainLine) → HoldsOfLineFault (FailsToDeal
        (PatternComesTo (setting_signature setting.now) (setting_rules setting.now)
        (setting_covers setting.now))
        (IsWrongAtPattern (setting_rules setting.now) (setting_covers setting.now)) bad_line
        (patterns_in (reverse left.old.items)) (tree_line_of line.now ∷ rest) 0) fault) }
{
    let Some(pattern) = left.pop() else {
        return Err(LineFault::BadLine);
    };
    let parts = pattern_line(setting, &pattern, line)?;
    Ok(pile(left, parts)?)
}
