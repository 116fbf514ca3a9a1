//! Patterns: what a line of a tree makes of one.

ghost use Rattle.induct_parts.specs.CaseView.{IsKnownPattern, pattern_in, patterns_in};
ghost use Rattle.induct_parts.specs.CertificateView.{tree_line_of};
ghost use Rattle.induct_parts.specs.FaultView.{HoldsOfLineFault};
ghost use Rattle.induct_parts.specs.SettingView.{
  HasCoverResults,
  setting_covers,
  setting_rules,
  setting_signature,
};
ghost use Rattle.certificate_theory.specs.InductionCertificate.{leaf_here, split_pattern};
ghost use Rattle.certificate_theory.specs.Covers.{
  HasResult,
  IsListedIn,
  cover_of as first_cover_of,
};
ghost use Rattle.certificate_theory.specs.Faults.{no_cover};
ghost use Rattle.certificate_theory.specs.Patterns.{
  IsWrongAtPattern,
  PatternComesTo,
  first_pattern,
  split_patterns,
  split_with,
};
ghost use Rattle.lotos_base.proofs.Each.{Each};
ghost use Rattle.lotos_base.specs.Path.{subterm};
ghost use Rattle.lotos_base.specs.Signature.{IsOperation, Operation};
ghost use Rattle.lotos_base.specs.Sorting.{Occurs};
ghost use Rattle.lotos_base.specs.Substitution.{is_listed as is_listed_in};
ghost use Rattle.lotos_base.specs.Term.{variable};
ghost use Rattle.rewriting_theory.specs.Matching.{Matches, NoMatch};
ghost use Rattle.rewriting_theory.specs.Rule.{IsRule, Rule};
ghost use Rattle.sort_terms.specs.Operations.{operation_of};
ghost use Rattle.sort_terms.specs.SortedView.{term_in};
ghost use Rattle.sort_terms.specs.TermView.{term_of};
ghost use Rattle.std.specs.Prelude.{
  ◌≡◌,
  ◌∷◌,
  ◌++◌,
  [],
  ℕ,
  IfErr,
  IfOk,
  IsFalse,
  IsTrue,
  List,
  MatchOption,
  None,
  OnOk,
  Some,
  if◌then◌else◌,
};

use crate::certificates::TreeLine;
use crate::covers::{cover_of, is_listed};
use crate::line_fault::LineFault;
use crate::operations::operation_on;
use crate::setting::Setting;
use crate::statements::put_in;
use lotos_base::NoMemory;
use sort_terms::{Op, Sorted, Term};
use term_match::paths::part_at;
use term_rewriter::first_match::first_match;

/// A pattern with the number of the next new variable, which is above those of its variables.
#[derive(Debug, Drop)]
pub struct Pattern {
    /// The number of the next new variable.
    pub next: u64,
    /// The pattern.
    pub term: Sorted,
}

/// The pattern that the tree of an operation begins with: the operation on different variables.
pub fn first(setting: &Setting, operation: u32) -> Result<Pattern, NoMemory>
    requires { (o : Operation) × IsOperation (setting_signature setting.now) operation o }
    ensures first { IfOk result (λ pattern. (o : Operation)
        → IsOperation (setting_signature setting.now) operation o
        → pattern_in pattern ≡ first_pattern (record { number = operation; operation = o })) }
    ensures known { IfOk result (λ pattern. IsKnownPattern (pattern_in pattern)) }
{
    let op = &setting.signature.ops()[operation as usize];
    let term = operation_on(setting.alloc, op, operation, 0)?;
    Ok(Pattern {
        next: op.arguments.len() as u64,
        term,
    })
}

/// The patterns that a line leaves of one, or what is wrong with the line.
pub type Patterns = Result<Vec<Pattern>, LineFault>;

/// The patterns that the line leaves of this one, or what is wrong with the line.
pub fn pattern_line(setting: &Setting, pattern: &Pattern, line: &TreeLine) -> Patterns
    requires covers { HasCoverResults setting.now }
    requires known { IsKnownPattern (pattern_in pattern.now) }
    ensures comes { IfOk result (λ parts. PatternComesTo (setting_signature setting.now)
        (setting_rules setting.now) (setting_covers setting.now) (pattern_in pattern.now)
        (tree_line_of line.now) (patterns_in parts.items)) }
    ensures known { IfOk result (λ parts. Each (λ p. IsKnownPattern (pattern_in p)) parts.items) }
    ensures wrong { IfErr result (λ fault. HoldsOfLineFault
        (IsWrongAtPattern (setting_rules setting.now) (setting_covers setting.now)
        (pattern_in pattern.now) (tree_line_of line.now)) fault) }
{
    match line {
        TreeLine::Split(path) => split(setting, pattern, path.as_slice()),
        TreeLine::Leaf => leaf(setting, pattern),
    }
}

// That some rule rewrites the pattern, so that nothing is left.
fn leaf(setting: &Setting, pattern: &Pattern) -> Patterns
    ensures comes { IfOk result (λ parts. PatternComesTo (setting_signature setting.now)
        (setting_rules setting.now) (setting_covers setting.now) (pattern_in pattern.now) leaf_here
        (patterns_in parts.items)) }
    ensures known { IfOk result (λ parts. Each (λ p. IsKnownPattern (pattern_in p)) parts.items) }
    ensures wrong { IfErr result (λ fault. HoldsOfLineFault
        (IsWrongAtPattern (setting_rules setting.now) (setting_covers setting.now)
        (pattern_in pattern.now) leaf_here) fault) }
{
    let found = some_rule_matches(setting, pattern)?;
    if !found {
        return Err(LineFault::NotReducible);
    }
    Ok(Vec::new(setting.alloc))
}

// Whether the left side of some rule matches the pattern.
fn some_rule_matches(setting: &Setting, pattern: &Pattern) -> Result<bool, NoMemory>
    ensures yes { IfOk result (λ found. IsTrue found → (rule : Rule)
        × IsRule (setting_rules setting.now) rule
        × Matches rule.left (term_in pattern.now.term)) }
    ensures none { IfOk result (λ found. IsFalse found
        → NoMatch (setting_rules setting.now) (term_in pattern.now.term)) }
{
    let found = first_match(setting.alloc, setting.rules, pattern.term.term())?;
    Ok(found.is_some())
}

// The patterns that are left behind a split of the variable at the path.
fn split(setting: &Setting, pattern: &Pattern, path: &[u32]) -> Patterns
    requires covers { HasCoverResults setting.now }
    requires known { IsKnownPattern (pattern_in pattern.now) }
    ensures comes { IfOk result (λ parts. PatternComesTo (setting_signature setting.now)
        (setting_rules setting.now) (setting_covers setting.now) (pattern_in pattern.now)
        (split_pattern path.now) (patterns_in parts.items)) }
    ensures known { IfOk result (λ parts. Each (λ p. IsKnownPattern (pattern_in p)) parts.items) }
    ensures wrong { IfErr result (λ fault. HoldsOfLineFault
        (IsWrongAtPattern (setting_rules setting.now) (setting_covers setting.now)
        (pattern_in pattern.now) (split_pattern path.now)) fault) }
{
    match variable_at(&pattern.term, path) {
        Some((number, sort)) => split_of(setting, pattern, number, sort),
        None => Err(LineFault::NoVariable),
    }
}

// The patterns that are left behind a split of this variable of the pattern.
fn split_of(setting: &Setting, pattern: &Pattern, number: u64, sort: u32) -> Patterns
    requires covers { HasCoverResults setting.now }
    requires occurs { Occurs number sort (term_in pattern.now.term) }
    requires known { IsKnownPattern (pattern_in pattern.now) }
    ensures made { IfOk result (λ parts. (operations : List ℕ)
        × (first_cover_of (setting_covers setting.now) sort ≡ Some operations)
        × (patterns_in parts.items ≡ split_patterns (setting_signature setting.now)
        (pattern_in pattern.now) number sort operations)) }
    ensures known { IfOk result (λ parts. Each (λ p. IsKnownPattern (pattern_in p)) parts.items) }
    ensures wrong { IfErr result (λ fault. HoldsOfLineFault
        (λ told. (first_cover_of (setting_covers setting.now) sort ≡ None) × (told ≡ no_cover))
        fault) }
{
    let Some(operations) = cover_of(setting.covers, sort) else {
        return Err(LineFault::NoCover);
    };
    let left = parts(setting, pattern, number, sort, operations)?;
    Ok(left)
}

// The variable at the path, if there is one.
fn variable_at(term: &Sorted, path: &[u32]) -> Option<(u64, u32)>
    ensures { MatchOption result
        ((n s : ℕ) → ¬ (subterm path.now (term_in term.now) ≡ Some (variable n s)))
        (λ found. subterm path.now (term_in term.now) ≡ Some (variable found.0 found.1)) }
{
    match part_at(term.term(), path) {
        Some(part) => variable_of(part),
        None => None,
    }
}

// The number and the sort of the variable, if the term is one.
fn variable_of(term: &Term) -> Option<(u64, u32)>
    ensures { MatchOption result ((n s : ℕ) → ¬ (term_of term.now ≡ variable n s))
        (λ found. term_of term.now ≡ variable found.0 found.1) }
{
    match term {
        Term::Var { number, sort } => Some((*number, *sort)),
        Term::Node { .. } => None,
    }
}

// The patterns with each of the operations put for the variable, in the order of the signature.
fn parts(
    setting: &Setting,
    pattern: &Pattern,
    number: u64,
    sort: u32,
    operations: &[u32],
) -> Result<Vec<Pattern>, NoMemory>
    requires results { (f : ℕ) → IsListedIn operations.now f
        → HasResult (setting_signature setting.now) sort f }
    requires occurs { Occurs number sort (term_in pattern.now.term) }
    requires known { IsKnownPattern (pattern_in pattern.now) }
    ensures made { IfOk result (λ parts. patterns_in parts.items
        ≡ split_patterns (setting_signature setting.now) (pattern_in pattern.now) number sort
        operations.now) }
    ensures known { IfOk result (λ parts. Each (λ p. IsKnownPattern (pattern_in p)) parts.items) }
{
    let mut made = Vec::new(setting.alloc);
    for operation in 0..setting.signature.ops().len() {
        add_if_listed(
            setting,
            pattern,
            number,
            operations,
            operation as u32,
            &mut made,
        )?;
    }
    Ok(made)
}

// The pattern with the operation put in behind the others, if the operation is listed.
fn add_if_listed(
    setting: &Setting,
    pattern: &Pattern,
    number: u64,
    operations: &[u32],
    operation: u32,
    made: &mut Vec<Pattern>,
) -> Result<(), NoMemory>
    requires operation { (o : Operation)
        × IsOperation (setting_signature setting.now) operation o
        × (IsListedIn operations.now operation
        → Occurs number o.result (term_in pattern.now.term)) }
    requires known { IsKnownPattern (pattern_in pattern.now) }
    ensures added { OnOk result ((o : Operation)
        → IsOperation (setting_signature setting.now) operation o
        → patterns_in made.new.items ≡ patterns_in made.old.items
        ++ (if is_listed_in operations.now operation
        then split_with (pattern_in pattern.now) number o.result
        (record { number = operation; operation = o }) ∷ []
        else [])) }
    ensures known { OnOk result (Each (λ p. IsKnownPattern (pattern_in p)) made.old.items
        → Each (λ p. IsKnownPattern (pattern_in p)) made.new.items) }
{
    if !is_listed(operations, operation) {
        return Ok(());
    }
    let op = &setting.signature.ops()[operation as usize];
    let part = part(setting, pattern, number, op, operation)?;
    made.push(part)?;
    Ok(())
}

// The pattern with the operation on new variables put for the variable.
fn part(
    setting: &Setting,
    pattern: &Pattern,
    number: u64,
    op: &Op,
    operation: u32,
) -> Result<Pattern, NoMemory>
    requires occurs { Occurs number op.now.result (term_in pattern.now.term) }
    requires known { IsKnownPattern (pattern_in pattern.now) }
    ensures made { IfOk result (λ part. pattern_in part ≡ split_with (pattern_in pattern.now)
        number op.now.result (record { number = operation; operation = operation_of op.now })) }
    ensures known { IfOk result (λ part. IsKnownPattern (pattern_in part)) }
{
    let Some(next) = pattern.next.checked_add(op.arguments.len() as u64) else {
        return Err(NoMemory);
    };
    let put = operation_on(setting.alloc, op, operation, pattern.next)?;
    let term = put_in(setting.alloc, &pattern.term, number, &put)?;
    Ok(Pattern { next, term })
}
