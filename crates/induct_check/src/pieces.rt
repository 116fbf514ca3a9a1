//! What each line of a certificate gives.

ghost use Rattle.induct_check.specs.CertificateLines.{
  line_form_of as plain_form_of,
  path_of as plain_path_of,
};
ghost use Rattle.induct_check.specs.CertificateReading.{
  among_covers_task,
  first_line as first_line_task,
  in_proof_task,
  in_tree_task,
  left_task,
  pattern_split as pattern_split_task,
  read_cover,
  read_left,
  read_right,
  read_tree,
  read_variables,
  right_task,
  line_task_of,
  variable_split,
};
ghost use Rattle.induct_check.specs.FormView.{IsShort, form_in};
ghost use Rattle.induct_check.specs.KnownView.{
  CoversHaveResults,
  HasKnownSignature,
  known_signature,
};
ghost use Rattle.induct_check.specs.NameView.{named_cases_in};
ghost use Rattle.induct_check.specs.PieceView.{
  AreKnownVariables,
  IsKnownPart,
  IsUnderstood,
  open_part_in,
};
ghost use Rattle.induct_parts.specs.CaseView.{IsKnownPattern, pattern_in, patterns_in};
ghost use Rattle.induct_parts.specs.CertificateView.{covers_in, tree_line_of};
ghost use Rattle.lotos_base.proofs.Each.{Each};
ghost use Rattle.lotos_base.specs.WrittenView.{written_term_of};
ghost use Rattle.sort_terms.specs.EquationView.{variable_of};
ghost use Rattle.std.specs.Option.{option_map};
ghost use Rattle.std.specs.Prelude.{
  ◌≡◌,
  ◌+◌,
  ◌<◌,
  ◌^◌,
  IfOk,
  MatchOption,
  length,
  map,
  reverse,
};

use crate::forms::{Form, form_of};
use crate::known::Known;
use crate::names::{NamedCase, cases_behind, number_named};
use crate::numbers::path_of;
use crate::operations::operations_of;
use crate::patterns::{first_of_tree, patterns_behind};
use crate::sides::{both_sides, side};
use crate::variables::lemma_variables;
use induct_parts::certificates::{Cover, ProofLine, TreeLine};
use induct_parts::covers::have_result;
use induct_parts::patterns::Pattern;
use induct_parts::statements::Statement;
use lotos_base::{Name, NoMemory, Written};
use lotos_grammar::texts_have_one_outcome;
use sort_terms::Variable;
use std::alloc::Global;

/// The part of a certificate that is being read.
#[derive(Debug, Drop)]
pub enum Part {
    /// None but covers so far.
    Covers,
    /// A tree, with the patterns that are left, the first one last.
    Tree(Vec<Pattern>),
    /// A lemma behind its first line, with its variables.
    Variables(Vec<Variable>),
    /// A lemma behind its second line, with its variables and its left side.
    Left(Vec<Variable>, Written),
    /// The proof of a lemma, with the names of the cases that are left, the first one last.
    Proof(Vec<NamedCase>),
}

/// What a line gives.
#[derive(Debug, Drop)]
pub enum Piece {
    /// A cover.
    Cover(Cover),
    /// The tree of an operation, without lines, and the pattern that it begins with.
    Tree(u32, Pattern),
    /// A line of a tree, with the patterns in place of the first one that is left.
    TreeLine(TreeLine, Vec<Pattern>),
    /// The variables of a lemma.
    Variables(Vec<Variable>),
    /// The variables of a lemma and its left side.
    Left(Vec<Variable>, Written),
    /// A lemma, without lines.
    Lemma(Vec<Variable>, Statement),
    /// A line of a proof, with the cases in place of the first one that is left, if it is replaced.
    ProofLine(ProofLine, Option<Vec<NamedCase>>),
}

/// What becomes of a line.
#[derive(Debug, Drop)]
pub enum LineOutcome {
    /// It gives a piece.
    Piece(Piece),
    /// It may not stand there, or names what is refused.
    Nothing,
    /// It is a right side, but has no pair of readings with the left one, or several.
    WithLeft,
}

/// What becomes of a line, where there is memory to read it.
pub type Outcome = Result<LineOutcome, NoMemory>;

/// What becomes of the line where this part is being read.
pub fn understood(known: &Known, covers: &[Cover], part: &Part, line: &[u8]) -> Outcome
    requires known { HasKnownSignature known.now }
    requires covers { CoversHaveResults (known_signature known.now) (covers_in covers.now) }
    requires part { IsKnownPart (known_signature known.now) (open_part_in part.now) }
    requires short { length line.now + 1 < 2 ^ 32 }
    ensures { IfOk result (IsUnderstood (known_signature known.now)
        (line_task_of (known_signature known.now) (covers_in covers.now) (open_part_in part.now)
        (plain_form_of line.now))) }
{
    let form = form_of(known.alloc, line)?;
    match part {
        Part::Covers => among_covers(known, form),
        Part::Tree(left) => in_tree(known, covers, left.as_slice(), form),
        Part::Variables(variables) => behind_variables(known, variables.as_slice(), form),
        Part::Left(variables, left) => behind_left(known, variables.as_slice(), left, form),
        Part::Proof(left) => in_proof(known, covers, left.as_slice(), form),
    }
}

// Among the covers.
fn among_covers(known: &Known, form: Form<'_>) -> Outcome
    requires known { HasKnownSignature known.now }
    requires short { IsShort (form_in form) }
    ensures { IfOk result (IsUnderstood (known_signature known.now)
        (among_covers_task (form_in form.entry))) }
{
    match form {
        Form::Cover(sort, items) => cover_piece(known, sort, items),
        Form::Tree(item) => tree_piece(known, item),
        Form::Lemma(text) => variables_piece(known, text),
        _ => Ok(LineOutcome::Nothing),
    }
}

// In a tree.
fn in_tree(known: &Known, covers: &[Cover], left: &[Pattern], form: Form<'_>) -> Outcome
    requires known { HasKnownSignature known.now }
    requires covers { CoversHaveResults (known_signature known.now) (covers_in covers.now) }
    requires patterns { Each IsKnownPattern (patterns_in (reverse left.now)) }
    requires short { IsShort (form_in form) }
    ensures { IfOk result (IsUnderstood (known_signature known.now)
        (in_tree_task (known_signature known.now) (covers_in covers.now)
        (patterns_in (reverse left.now)) (form_in form.entry))) }
{
    match form {
        Form::Tree(item) => tree_piece(known, item),
        Form::Split(word) => pattern_split(known, covers, left, word),
        Form::Lemma(text) => variables_piece(known, text),
        Form::Leaf => first_line(known, covers, left, TreeLine::Leaf),
        _ => Ok(LineOutcome::Nothing),
    }
}

// Behind the first line of a lemma.
fn behind_variables(known: &Known, variables: &[Variable], form: Form<'_>) -> Outcome
    requires known { HasKnownSignature known.now }
    requires variables { AreKnownVariables (known_signature known.now)
        (map variable_of variables.now) }
    requires short { IsShort (form_in form) }
    ensures { IfOk result (IsUnderstood (known_signature known.now)
        (left_task (map variable_of variables.now) (form_in form.entry))) }
{
    match form {
        Form::Left(term) => left_piece(known, variables, term),
        _ => Ok(LineOutcome::Nothing),
    }
}

// Behind the second line of a lemma.
fn behind_left(known: &Known, variables: &[Variable], left: &Written, form: Form<'_>) -> Outcome
    requires known { HasKnownSignature known.now }
    requires variables { AreKnownVariables (known_signature known.now)
        (map variable_of variables.now) }
    requires short { IsShort (form_in form) }
    ensures { IfOk result (IsUnderstood (known_signature known.now)
        (right_task (map variable_of variables.now) (written_term_of left.now)
        (form_in form.entry))) }
{
    match form {
        Form::Right(term) => right_piece(known, variables, left, term),
        _ => Ok(LineOutcome::Nothing),
    }
}

// In a proof.
fn in_proof(known: &Known, covers: &[Cover], left: &[NamedCase], form: Form<'_>) -> Outcome
    requires known { HasKnownSignature known.now }
    requires short { IsShort (form_in form) }
    ensures { IfOk result (IsUnderstood (known_signature known.now)
        (in_proof_task (known_signature known.now) (covers_in covers.now)
        (named_cases_in (reverse left.now)) (form_in form.entry))) }
{
    match form {
        Form::Split(word) => split_piece(known, covers, left, word),
        Form::Lemma(text) => variables_piece(known, text),
        Form::Use(use_) => Ok(LineOutcome::Piece(Piece::ProofLine(ProofLine::Use(use_), None))),
        Form::Same => Ok(LineOutcome::Piece(Piece::ProofLine(
            ProofLine::Same,
            Some(Vec::new(known.alloc)),
        ))),
        _ => Ok(LineOutcome::Nothing),
    }
}

// A cover.
fn cover_piece(known: &Known, sort: &[u8], items: &[u8]) -> Outcome
    requires { HasKnownSignature known.now }
    ensures { IfOk result (IsUnderstood (known_signature known.now)
        (read_cover sort.now items.now)) }
{
    let name = Name::of(Vec::from_slice(known.alloc, sort)?);
    let Some(number) = known.reader.sort_named(&name)? else {
        return Ok(LineOutcome::Nothing);
    };
    let Some(operations) = operations_of(known, items)? else {
        return Ok(LineOutcome::Nothing);
    };
    if !have_result(known.signature, operations.as_slice(), number) {
        return Ok(LineOutcome::Nothing);
    }
    Ok(LineOutcome::Piece(Piece::Cover(Cover {
        sort: number,
        operations,
    })))
}

// A tree.
fn tree_piece(known: &Known, item: &[u8]) -> Outcome
    requires { HasKnownSignature known.now }
    ensures { IfOk result (IsUnderstood (known_signature known.now) (read_tree item.now)) }
{
    texts_have_one_outcome();
    let Some(operations) = operations_of(known, item)? else {
        return Ok(LineOutcome::Nothing);
    };
    if operations.len() != 1 {
        return Ok(LineOutcome::Nothing);
    }
    let operation = operations[0];
    let pattern = first_of_tree(known, operation)?;
    Ok(LineOutcome::Piece(Piece::Tree(operation, pattern)))
}

// A split in a tree.
fn pattern_split(known: &Known, covers: &[Cover], left: &[Pattern], word: &[u8]) -> Outcome
    requires covers { CoversHaveResults (known_signature known.now) (covers_in covers.now) }
    requires patterns { Each IsKnownPattern (patterns_in (reverse left.now)) }
    ensures { IfOk result (IsUnderstood (known_signature known.now)
        (pattern_split_task (known_signature known.now) (covers_in covers.now)
        (patterns_in (reverse left.now)) (plain_path_of word.now))) }
{
    match path_of(known.alloc, word)? {
        None => Ok(LineOutcome::Nothing),
        Some(path) => first_line(known, covers, left, TreeLine::Split(path)),
    }
}

// A line of a tree, which deals with the first pattern that is left.
fn first_line(known: &Known, covers: &[Cover], left: &[Pattern], line: TreeLine) -> Outcome
    requires covers { CoversHaveResults (known_signature known.now) (covers_in covers.now) }
    requires patterns { Each IsKnownPattern (patterns_in (reverse left.now)) }
    ensures { IfOk result (IsUnderstood (known_signature known.now)
        (first_line_task (known_signature known.now) (covers_in covers.now)
        (patterns_in (reverse left.now)) (tree_line_of line))) }
{
    let [.., pattern] = left else {
        return Ok(LineOutcome::Nothing);
    };
    let patterns = patterns_behind(known, covers, pattern, &line)?;
    Ok(LineOutcome::Piece(Piece::TreeLine(line, patterns)))
}

// The variables of a lemma.
fn variables_piece(known: &Known, text: Option<&[u8]>) -> Outcome
    requires known { HasKnownSignature known.now }
    requires short { MatchOption text (Unit {0}) (λ t. length t.now + 1 < 2 ^ 32) }
    ensures { IfOk result (IsUnderstood (known_signature known.now)
        (read_variables (option_map (λ t. t.now) text.entry))) }
{
    match lemma_variables(known, text)? {
        None => Ok(LineOutcome::Nothing),
        Some(variables) => Ok(LineOutcome::Piece(Piece::Variables(variables))),
    }
}

// The left side of a lemma.
fn left_piece(known: &Known, variables: &[Variable], term: &[u8]) -> Outcome
    requires known { HasKnownSignature known.now }
    requires variables { AreKnownVariables (known_signature known.now)
        (map variable_of variables.now) }
    requires short { length term.now + 1 < 2 ^ 32 }
    ensures { IfOk result (IsUnderstood (known_signature known.now)
        (read_left (map variable_of variables.now) term.now)) }
{
    let Some(left) = side(known, variables, term)? else {
        return Ok(LineOutcome::Nothing);
    };
    let copies = variable_copies(known.alloc, variables)?;
    Ok(LineOutcome::Piece(Piece::Left(copies, left)))
}

// The right side of a lemma.
fn right_piece(known: &Known, variables: &[Variable], left: &Written, term: &[u8]) -> Outcome
    requires known { HasKnownSignature known.now }
    requires variables { AreKnownVariables (known_signature known.now)
        (map variable_of variables.now) }
    requires short { length term.now + 1 < 2 ^ 32 }
    ensures { IfOk result (IsUnderstood (known_signature known.now)
        (read_right (map variable_of variables.now) (written_term_of left.now) term.now)) }
{
    let Some(right) = side(known, variables, term)? else {
        return Ok(LineOutcome::Nothing);
    };
    let Some(statement) = both_sides(known, variables, left, &right)? else {
        return Ok(LineOutcome::WithLeft);
    };
    let copies = variable_copies(known.alloc, variables)?;
    Ok(LineOutcome::Piece(Piece::Lemma(copies, statement)))
}

// The same variables.
fn variable_copies(alloc: Global, variables: &[Variable]) -> Result<Vec<Variable>, NoMemory>
    ensures { IfOk result (λ made. map variable_of made.items ≡ map variable_of variables.now) }
{
    let mut made = Vec::with_capacity(alloc, variables.len())?;
    for variable in variables {
        made.push(variable.copy(alloc)?)?;
    }
    Ok(made)
}

// A split in a proof.
fn split_piece(known: &Known, covers: &[Cover], left: &[NamedCase], word: &[u8]) -> Outcome
    ensures { IfOk result (IsUnderstood (known_signature known.now)
        (variable_split (known_signature known.now) (covers_in covers.now)
        (named_cases_in (reverse left.now)) word.now)) }
{
    let [.., point] = left else {
        return Ok(LineOutcome::Piece(Piece::ProofLine(
            ProofLine::Split(0),
            Some(Vec::new(known.alloc)),
        )));
    };
    let name = Name::of(Vec::from_slice(known.alloc, word)?);
    let number = number_named(point.names.as_slice(), &name);
    let cases = cases_behind(known, covers, point, &name)?;
    Ok(LineOutcome::Piece(Piece::ProofLine(ProofLine::Split(number), Some(cases))))
}
