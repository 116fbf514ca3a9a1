//! The variables of a lemma.

ghost use Rattle.induct_check.specs.CertificateReading.{
  HaveOwnNames,
  AreLemmaVariables,
  AreNumbered,
  AreVariablesIn,
};
ghost use Rattle.induct_check.specs.KnownView.{HasKnownSignature, known_signature};
ghost use Rattle.induct_check.specs.VariableStates.{read_token, with_variable_sort};
ghost use Rattle.induct_check.specs.VariableView.{VariablesGoOn, HasEarlier, read_in};
ghost use Rattle.lotos_base.specs.Equation.{Variable as PlainVariable};
ghost use Rattle.lotos_base.specs.Name.{spelling};
ghost use Rattle.lotos_base.specs.WrittenView.{placed_name_of};
ghost use Rattle.lotos_rows.specs.Names.{AreVariables, named, spelled, variables_of_sort};
ghost use Rattle.sort_terms.specs.EquationView.{variable_of};
ghost use Rattle.sort_terms.specs.Reading.{IsSortNamed};
ghost use Rattle.std.specs.Option.{option_map};
ghost use Rattle.std.specs.Prelude.{
  ◌≡◌,
  ◌↔◌,
  ◌++◌,
  ◌<◌,
  ◌^◌,
  ℕ,
  IfOk,
  IsTrue,
  List,
  MatchOption,
  OnOk,
  length,
  map,
};
ghost use Rattle.syntax_trees.specs.TreeViews.{written_variables_of};
ghost use Rattle.syntax_trees.specs.WrittenVariable.{WrittenVariable};

use crate::known::Known;
use lotos_base::{Name, NoMemory};
use lotos_lexer::{LexFault, Token, kinds, lex};
use sort_terms::Variable;
use std::alloc::Global;
use std::cmp::min;
use syntax_trees::{Named, VarText};

/// What may come next.
#[derive(Clone, Copy, Debug)]
pub enum Awaited {
    /// The name of a variable.
    Name,
    /// Behind such a name, a comma or a colon.
    CommaOrColon,
    /// The name of a sort.
    Sort,
    /// Behind such a name, a comma or the end.
    CommaOrEnd,
}

/// The variables whose sorts were read, and the names of those behind them.
#[derive(Debug, Drop)]
pub struct VariablesRead {
    /// The variables.
    pub variables: Vec<VarText>,
    /// The names of the others.
    pub names: Vec<Named>,
    /// What may come next.
    pub awaited: Awaited,
}

/// The variables that the text of a lemma's first line declares, if it is there, and none without
/// it: `None` where it is no list of variables with sorts, where a sort is none of the signature,
/// or where a name stands twice.
pub fn lemma_variables(
    known: &Known,
    text: Option<&[u8]>,
) -> Result<Option<Vec<Variable>>, NoMemory>
    requires known { HasKnownSignature known.now }
    requires short { MatchOption text (Unit {0}) (λ t. length t.now < 2 ^ 32) }
    ensures { IfOk result (λ found. MatchOption found
        ((vs : List PlainVariable)
        → ¬ AreLemmaVariables (known_signature known.now) (option_map (λ t. t.now) text.entry) vs)
        (λ vs. AreLemmaVariables (known_signature known.now) (option_map (λ t. t.now) text.entry)
        (map variable_of vs.items))) }
{
    let Some(text) = text else {
        return Ok(Some(Vec::new(known.alloc)));
    };
    let Some(written) = variables_in(known.alloc, text)? else {
        return Ok(None);
    };
    numbered(known, written.as_slice())
}

// The variables that the text writes, if it is a list of variables with sorts.
fn variables_in(alloc: Global, text: &[u8]) -> Result<Option<Vec<VarText>>, NoMemory>
    requires { length text.now < 2 ^ 32 }
    ensures { IfOk result (λ found. MatchOption found
        ((ws : List WrittenVariable) → ¬ AreVariablesIn text.now ws)
        (λ vs. AreVariablesIn text.now (written_variables_of vs.items))) }
{
    match lex(alloc, text, 0) {
        Ok(tokens) => variables_of_tokens(alloc, text, tokens.as_slice()),
        Err(LexFault::NoMemory) => Err(NoMemory),
        Err(_) => Ok(None),
    }
}

// The variables that the tokens of the text write, if they do.
fn variables_of_tokens(
    alloc: Global,
    text: &[u8],
    tokens: &[Token],
) -> Result<Option<Vec<VarText>>, NoMemory>
    ensures { IfOk result (λ found. MatchOption found
        ((ws : List WrittenVariable) → ¬ AreVariables text.now tokens.now ws)
        (λ vs. AreVariables text.now tokens.now (written_variables_of vs.items))) }
{
    let mut read = VariablesRead {
        variables: Vec::new(alloc),
        names: Vec::new(alloc),
        awaited: Awaited::Name,
    };
    for token in tokens {
        if !next(alloc, text, *token, &mut read)? {
            return Ok(None);
        }
    }
    match read.awaited {
        Awaited::CommaOrEnd => Ok(Some(read.variables)),
        _ => Ok(None),
    }
}

// Reads the token, if it may stand there.
fn next(
    alloc: Global,
    text: &[u8],
    token: Token,
    read: &mut VariablesRead,
) -> Result<bool, NoMemory>
    ensures { IfOk result (λ fits. VariablesGoOn fits
        (read_token text.now (read_in read.old) token) (read_in read.new)) }
{
    match read.awaited {
        Awaited::Name => {
            if token.kind != kinds::NAME {
                return Ok(false);
            }
            read.names.push(name_of(alloc, text, token)?)?;
            read.awaited = Awaited::CommaOrColon;
            Ok(true)
        }
        Awaited::CommaOrColon => {
            if token.kind == kinds::COMMA {
                read.awaited = Awaited::Name;
                return Ok(true);
            }
            read.awaited = Awaited::Sort;
            Ok(token.kind == kinds::COLON)
        }
        Awaited::Sort => {
            if token.kind != kinds::NAME {
                return Ok(false);
            }
            let sort = name_of(alloc, text, token)?;
            add_sort(alloc, read, &sort)?;
            Ok(true)
        }
        Awaited::CommaOrEnd => {
            read.awaited = Awaited::Name;
            Ok(token.kind == kinds::COMMA)
        }
    }
}

// The bytes of a token. An end past the text counts as the text's.
fn bytes_of<'a>(text: &'a [u8], token: Token) -> &'a [u8]
    ensures { result.now ≡ spelled text.now token }
{
    let past = min(token.past as usize, text.len());
    let first = min(token.first as usize, past);
    &text[first..past]
}

// The name that a token is.
fn name_of(alloc: Global, text: &[u8], token: Token) -> Result<Named, NoMemory>
    ensures { IfOk result (λ name. placed_name_of name ≡ named text.now token) }
{
    let name = Name::of(Vec::from_slice(alloc, bytes_of(text, token))?);
    Ok((token.place, name))
}

// The names that wait are variables of this sort.
fn add_sort(alloc: Global, read: &mut VariablesRead, sort: &Named) -> Result<(), NoMemory>
    ensures { OnOk result (read_in read.new
        ≡ with_variable_sort (read_in read.old) (placed_name_of sort.now)) }
{
    add_variables(alloc, read.names.as_slice(), sort, &mut read.variables)?;
    read.names = Vec::new(alloc);
    read.awaited = Awaited::CommaOrEnd;
    Ok(())
}

// Puts a variable of the sort for each of the names behind the others.
fn add_variables(
    alloc: Global,
    names: &[Named],
    sort: &Named,
    variables: &mut Vec<VarText>,
) -> Result<(), NoMemory>
    ensures { OnOk result (written_variables_of variables.new.items
        ≡ written_variables_of variables.old.items
        ++ variables_of_sort (map placed_name_of names.now) (placed_name_of sort.now)) }
{
    for number in 0..names.len() {
        let name = &names[number];
        variables.push(VarText {
            place: name.0,
            name: name.1.copy(alloc)?,
            sort: sort.1.copy(alloc)?,
            sort_place: sort.0,
        })?;
    }
    Ok(())
}

// The variables with their numbers and the numbers of their sorts, if no two have one name and each
// sort is there.
fn numbered(known: &Known, written: &[VarText]) -> Result<Option<Vec<Variable>>, NoMemory>
    requires { HasKnownSignature known.now }
    ensures { IfOk result (λ found. MatchOption found
        ((vs : List PlainVariable) → HaveOwnNames (written_variables_of written.now)
        → ¬ AreNumbered (known_signature known.now) (written_variables_of written.now) vs)
        (λ vs. HaveOwnNames (written_variables_of written.now)
        × AreNumbered (known_signature known.now) (written_variables_of written.now)
        (map variable_of vs.items))) }
{
    let mut made = Vec::new(known.alloc);
    for number in 0..written.len() {
        if has_earlier(written, number) {
            return Ok(None);
        }
        let Some(variable) = numbered_variable(known, &written[number], number)? else {
            return Ok(None);
        };
        made.push(variable)?;
    }
    Ok(Some(made))
}

// The variable with its number and the number of its sort, if the sort is there.
fn numbered_variable(
    known: &Known,
    written: &VarText,
    number: usize,
) -> Result<Option<Variable>, NoMemory>
    requires { HasKnownSignature known.now }
    ensures { IfOk result (λ found. MatchOption found
        ((s : ℕ) → ¬ IsSortNamed (known_signature known.now) s (spelling written.now.sort))
        (λ v. (spelling v.name ≡ spelling written.now.name) × (v.number ≡ number)
        × IsSortNamed (known_signature known.now) v.sort (spelling written.now.sort))) }
{
    let Some(sort) = known.reader.sort_named(&written.sort)? else {
        return Ok(None);
    };
    Ok(Some(Variable {
        name: written.name.copy(known.alloc)?,
        number: number as u64,
        sort,
    }))
}

// Whether one of the variables before this one has its name.
fn has_earlier(written: &[VarText], number: usize) -> bool
    requires { number < length written.now }
    ensures { IsTrue result ↔ HasEarlier (written_variables_of written.now) number }
{
    for earlier in 0..number {
        if written[earlier].name.same(&written[number].name) {
            return true;
        }
    }
    false
}
