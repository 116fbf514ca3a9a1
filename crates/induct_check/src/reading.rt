//! The text of a certificate.

ghost use Rattle.induct_check.specs.CertificateReading.{
  lemma_with,
  new_lemma,
  new_proof_line,
  new_tree,
  nothing_read,
  proof_behind,
  stated_lemma,
  tree_behind,
  tree_with,
  with_last,
  with_piece,
};
ghost use Rattle.induct_check.specs.KnownView.{HasKnownSignature, known_signature};
ghost use Rattle.induct_check.specs.NameView.{named_cases_in};
ghost use Rattle.induct_check.specs.PieceView.{IsKnownPart, IsKnownPiece, open_part_in, piece_in};
ghost use Rattle.induct_check.specs.ReadingView.{IsKnownReading, read_text, reading_in, stopping};
ghost use Rattle.induct_check.specs.TextFaults.{
  LinesReadTo,
  TextComesTo,
  may_end as may_end_behind,
  stands_early as stands_early_in,
  stopped_at as plain_stopped_at,
};
ghost use Rattle.induct_parts.specs.CaseView.{IsKnownPattern, pattern_in, patterns_in};
ghost use Rattle.induct_parts.specs.CertificateView.{
  lemmas_in,
  proof_line_of,
  tree_line_of,
  trees_in,
};
ghost use Rattle.induct_parts.specs.HandedOn.{IsStated};
ghost use Rattle.induct_parts.specs.SettingView.{IsKnownCertificate, IsKnownLemma};
ghost use Rattle.induct_parts.specs.StatementView.{IsStatementOf, statement_of};
ghost use Rattle.lotos_base.proofs.Each.{Each};
ghost use Rattle.lotos_base.specs.Equation.{Variable as PlainVariable};
ghost use Rattle.lotos_base.specs.Signature.{IsOperation, Operation, Signature};
ghost use Rattle.sort_terms.specs.EquationView.{variable_of};
ghost use Rattle.std.specs.Option.{option_map};
ghost use Rattle.std.specs.Prelude.{
  ◌≡◌,
  ◌∷◌,
  ◌+◌,
  ◌<◌,
  ◌^◌,
  [],
  IfOk,
  OnOk,
  Some,
  length,
  map,
};

use crate::known::Known;
use crate::names::{NamedCase, first_names};
use crate::parts::{cut, part_at, parts_at};
use crate::pieces::{LineOutcome, Part, Piece, understood};
use induct_parts::certificates::{Certificate, PatternTree, ProofLine, StatedLemma, TreeLine};
use induct_parts::patterns::Pattern;
use induct_parts::piles::pile;
use induct_parts::statements::Statement;
use lotos_base::NoMemory;
use sort_terms::Variable;
use std::alloc::Global;

/// What was read, and the part that is being read.
#[derive(Debug, Drop)]
pub struct Reading {
    /// What was read, the lines of the open tree or proof among it.
    pub certificate: Certificate,
    /// The part that is being read.
    pub part: Part,
}

/// Where a text stops to read.
#[derive(Clone, Copy, Debug)]
pub struct Stop {
    /// The number of the line that is told.
    pub line: usize,
    /// Whether what does not read stands among the covers or in a tree.
    pub early: bool,
}

/// What a text comes to.
#[derive(Debug, Drop)]
pub struct Read {
    /// What was read.
    pub certificate: Certificate,
    /// Where the text stops to read, if it does.
    pub stop: Option<Stop>,
}

/// Reads the text of a certificate to its end, or to the first line that does not read.
pub fn read_certificate(known: &Known, text: &[u8]) -> Result<Read, NoMemory>
    requires known { HasKnownSignature known.now }
    requires short { length text.now + 1 < 2 ^ 32 }
    ensures read { IfOk result (λ read. TextComesTo (known_signature known.now) text.now
        (read_text read)) }
    ensures known { IfOk result (λ read. IsKnownCertificate (known_signature known.now)
        read.certificate) }
{
    let parts = parts_at(known.alloc, text, b'\n')?;
    read_parts(known, parts.as_slice())
}

// Reads the parts at line feeds.
fn read_parts(known: &Known, parts: &[&[u8]]) -> Result<Read, NoMemory>
    requires known { HasKnownSignature known.now }
    requires some { 0 < length parts.now }
    requires short { Each (λ part. length part + 1 < 2 ^ 32)
        (map (λ part. part.now) parts.now) }
    ensures read { IfOk result (λ read. LinesReadTo (known_signature known.now) 1 nothing_read
        (map (λ part. part.now) parts.now) (read_text read)) }
    ensures known { IfOk result (λ read. IsKnownCertificate (known_signature known.now)
        read.certificate) }
{
    let mut reading = Reading {
        certificate: Certificate {
            covers: Vec::new(known.alloc),
            trees: Vec::new(known.alloc),
            lemmas: Vec::new(known.alloc),
        },
        part: Part::Covers,
    };
    let stop = read_behind(known, parts, &mut reading)?;
    Ok(Read {
        certificate: reading.certificate,
        stop,
    })
}

// Reads the parts at line feeds behind nothing, and says where they stop to read.
fn read_behind(
    known: &Known,
    parts: &[&[u8]],
    reading: &mut Reading,
) -> Result<Option<Stop>, NoMemory>
    requires known { HasKnownSignature known.now }
    requires some { 0 < length parts.now }
    requires short { Each (λ part. length part + 1 < 2 ^ 32)
        (map (λ part. part.now) parts.now) }
    requires nothing { reading_in reading.old ≡ nothing_read }
    requires reading { IsKnownReading (known_signature known.now) reading.old }
    ensures read { IfOk result (λ stop. LinesReadTo (known_signature known.now) 1 nothing_read
        (map (λ part. part.now) parts.now) (stopping reading.new stop)) }
    ensures known { OnOk result (IsKnownReading (known_signature known.now) reading.new) }
{
    let last = parts.len() - 1;
    for number in 0..last {
        let line = part_at(parts, number);
        let covers = reading.certificate.covers.as_slice();
        match understood(known, covers, &reading.part, line)? {
            LineOutcome::Piece(piece) => add(known, reading, piece)?,
            LineOutcome::Nothing => return Ok(Some(stopped_at(reading, number + 1, line))),
            LineOutcome::WithLeft => return Ok(Some(stopped_at(reading, number, line))),
        }
    }
    Ok(ended(reading, last + 1, part_at(parts, last)))
}

// Where the text stops to read that stops at the line.
fn stopped_at(reading: &Reading, told: usize, line: &[u8]) -> Stop
    ensures { stopping reading.now (Some result)
        ≡ plain_stopped_at (reading_in reading.now) told line.now }
{
    let early = stands_early(&reading.part, cut(line).0);
    Stop { line: told, early }
}

// Where the text stops to read whose last part, which no line feed ends, is this, if it does.
fn ended(reading: &Reading, number: usize, rest: &[u8]) -> Option<Stop>
    ensures { (signature : Signature)
        → LinesReadTo signature number (reading_in reading.now) (rest.now ∷ [])
        (stopping reading.now result) }
{
    if !rest.is_empty() {
        return Some(stopped_at(reading, number, rest));
    }
    if may_end(&reading.part) {
        return None;
    }
    Some(Stop {
        line: number,
        early: false,
    })
}

// Whether the text may end: nothing of the head of a lemma is missing.
fn may_end(part: &Part) -> bool
    ensures { result ≡ may_end_behind (open_part_in part.now) }
{
    match part {
        Part::Variables(_) | Part::Left(_, _) => false,
        Part::Covers | Part::Tree(_) | Part::Proof(_) => true,
    }
}

// Whether a line with this first word stands among the covers or in a tree: behind a finished tree
// only that of another one does.
fn stands_early(part: &Part, word: &[u8]) -> bool
    ensures { result ≡ stands_early_in (open_part_in part.now) word.now }
{
    match part {
        Part::Covers => word == b"cover".as_slice() || word == b"tree".as_slice(),
        Part::Tree(left) => !left.is_empty() || word == b"tree".as_slice(),
        _ => false,
    }
}

// Adds the piece to what was read.
fn add(known: &Known, reading: &mut Reading, piece: Piece) -> Result<(), NoMemory>
    ensures added { OnOk result (reading_in reading.new
        ≡ with_piece (reading_in reading.old) (piece_in piece)) }
    ensures known { OnOk result (IsKnownReading (known_signature known.now) reading.old
        → IsKnownPiece (known_signature known.now) piece
        → IsKnownReading (known_signature known.now) reading.new) }
{
    match piece {
        Piece::Cover(cover) => {
            reading.certificate.covers.push(cover)?;
            reading.part = Part::Covers;
        }
        Piece::Tree(operation, pattern) => add_tree(reading, operation, pattern)?,
        Piece::TreeLine(line, patterns) => {
            add_tree_line(&mut reading.certificate.trees, line)?;
            replace_pattern(&mut reading.part, patterns)?;
        }
        Piece::Variables(variables) => reading.part = Part::Variables(variables),
        Piece::Left(variables, left) => reading.part = Part::Left(variables, left),
        Piece::Lemma(variables, statement) => add_lemma(known, reading, variables, statement)?,
        Piece::ProofLine(line, cases) => add_proof_line(reading, line, cases)?,
    }
    Ok(())
}

// Adds a tree, which begins with the pattern.
fn add_tree(reading: &mut Reading, operation: u32, pattern: Pattern) -> Result<(), NoMemory>
    ensures added { OnOk result (reading_in reading.new ≡ with_piece (reading_in reading.old)
        (new_tree operation (pattern_in pattern))) }
    ensures known { OnOk result ((signature : Signature) → IsKnownReading signature reading.old
        → (o : Operation) → IsOperation signature operation o → IsKnownPattern (pattern_in pattern)
        → IsKnownReading signature reading.new) }
{
    let alloc = *reading.certificate.trees.allocator();
    let mut left = Vec::new(alloc);
    left.push(pattern)?;
    let lines = Vec::new(alloc);
    let tree = PatternTree { operation, lines };
    reading.certificate.trees.push(tree)?;
    reading.part = Part::Tree(left);
    Ok(())
}

// In a tree, replaces the first pattern that is left by these.
fn replace_pattern(part: &mut Part, patterns: Vec<Pattern>) -> Result<(), NoMemory>
    ensures replaced { OnOk result (open_part_in part.new
        ≡ tree_behind (patterns_in patterns.items) (open_part_in part.old)) }
    ensures known { OnOk result
        ((signature : Signature) → IsKnownPart signature (open_part_in part.old)
        → Each IsKnownPattern (patterns_in patterns.items)
        → IsKnownPart signature (open_part_in part.new)) }
{
    let Part::Tree(left) = part else {
        return Ok(());
    };
    left.pop();
    Ok(pile(left, patterns)?)
}

// Adds a line to the last tree.
fn add_tree_line(trees: &mut Vec<PatternTree>, line: TreeLine) -> Result<(), NoMemory>
    ensures added { OnOk result (trees_in trees.new.items
        ≡ with_last (tree_with (tree_line_of line)) (trees_in trees.old.items)) }
    ensures known { OnOk result ((signature : Signature)
        → Each (λ tree. (o : Operation) × IsOperation signature tree.operation o) trees.old.items
        → Each (λ tree. (o : Operation) × IsOperation signature tree.operation o)
        trees.new.items) }
{
    let Some(mut tree) = trees.pop() else {
        return Ok(());
    };
    tree.lines.push(line)?;
    trees.push(tree)?;
    Ok(())
}

// Adds a lemma, whose proof begins.
fn add_lemma(
    known: &Known,
    reading: &mut Reading,
    variables: Vec<Variable>,
    statement: Statement,
) -> Result<(), NoMemory>
    ensures added { OnOk result (reading_in reading.new ≡ with_piece (reading_in reading.old)
        (new_lemma (map variable_of variables.items) (statement_of statement))) }
    ensures known { OnOk result (IsKnownReading (known_signature known.now) reading.old
        → IsStated (known_signature known.now)
        (stated_lemma (map variable_of variables.items) (statement_of statement))
        → IsStatementOf (known_signature known.now) statement
        → IsKnownReading (known_signature known.now) reading.new) }
{
    let first = first_names(known.alloc, variables.as_slice())?;
    let mut left = Vec::new(known.alloc);
    left.push(first)?;
    let sorts = sorts_of(known.alloc, variables.as_slice())?;
    reading.certificate.lemmas.push(StatedLemma {
        variables: sorts,
        statement,
        lines: Vec::new(known.alloc),
    })?;
    reading.part = Part::Proof(left);
    Ok(())
}

// The sorts of the variables.
fn sorts_of(alloc: Global, variables: &[Variable]) -> Result<Vec<u32>, NoMemory>
    ensures { IfOk result (λ sorts. sorts.items
        ≡ map (λ (v : PlainVariable). v.sort) (map variable_of variables.now)) }
{
    let mut sorts = Vec::with_capacity(alloc, variables.len())?;
    for variable in variables {
        sorts.push(variable.sort)?;
    }
    Ok(sorts)
}

// Adds a line to the last lemma, and replaces the first case that is left by these, if it is.
fn add_proof_line(
    reading: &mut Reading,
    line: ProofLine,
    cases: Option<Vec<NamedCase>>,
) -> Result<(), NoMemory>
    ensures added { OnOk result (reading_in reading.new ≡ with_piece (reading_in reading.old)
        (new_proof_line (proof_line_of line)
        (option_map (λ cs. named_cases_in cs.items) cases))) }
    ensures known { OnOk result ((signature : Signature) → IsKnownReading signature reading.old
        → IsKnownReading signature reading.new) }
{
    add_to_lemma(&mut reading.certificate.lemmas, line)?;
    match cases {
        None => Ok(()),
        Some(cases) => replace_first(&mut reading.part, cases),
    }
}

// Adds a line to the last lemma.
fn add_to_lemma(lemmas: &mut Vec<StatedLemma>, line: ProofLine) -> Result<(), NoMemory>
    ensures added { OnOk result (lemmas_in lemmas.new.items
        ≡ with_last (lemma_with (proof_line_of line)) (lemmas_in lemmas.old.items)) }
    ensures known { OnOk result ((signature : Signature)
        → Each (IsKnownLemma signature) lemmas.old.items
        → Each (IsKnownLemma signature) lemmas.new.items) }
{
    let Some(mut lemma) = lemmas.pop() else {
        return Ok(());
    };
    lemma.lines.push(line)?;
    lemmas.push(lemma)?;
    Ok(())
}

// In a proof, replaces the first case that is left by these.
fn replace_first(part: &mut Part, cases: Vec<NamedCase>) -> Result<(), NoMemory>
    ensures replaced { OnOk result (open_part_in part.new
        ≡ proof_behind (Some (named_cases_in cases.items)) (open_part_in part.old)) }
    ensures known { OnOk result
        ((signature : Signature) → IsKnownPart signature (open_part_in part.old)
        → IsKnownPart signature (open_part_in part.new)) }
{
    let Part::Proof(left) = part else {
        return Ok(());
    };
    left.pop();
    Ok(pile(left, cases)?)
}
