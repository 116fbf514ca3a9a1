//! Grammars that one token ahead decides, with their tables.

ghost use Rattle.std.specs.Prelude.{◌≡◌, ◌≢◌, ◌⊎◌, ℕ, ◌+◌, ◌*◌, ◌<◌, ◌≤◌, ◌++◌, reverse, length, IsTrue, IfOk, IfSome, IfNone, OnOk, MatchOption, option_map, Ok, Err, Some, slice_get, slice_index_or};

use crate::check::checked_table;
use crate::fault::TableFault;
use crate::lookup::entry_at;
use crate::symbol::{Row, Symbol};
use crate::written::WrittenTable;
use std::alloc::{AllocError, Global};
use std::marker::Model;

/// The rows of a grammar with their table.
#[derive(Drop)]
enum Rows {
    /// Rows that were checked, and the entries that were found: for each part and token the row.
    Checked { rows: Vec<Row>, entries: Vec<u32> },
    /// A table that stands written.
    Written(&'static WrittenTable),
}

/// A grammar that one token ahead decides: no part is barren, none has a left cycle, and no token
/// predicts two rows of one part. [`Grammar::checked`] makes one of any rows, [`Grammar::written`]
/// one of a table that stands written.
#[derive(Drop)]
pub struct Grammar {
    rows: Rows,
    parts: u16,
    tokens: u16,
    start: u16,
}

impl Model for Grammar {
    ghost use Rattle.ll_engine.specs.Language.{ContextFree};
    ghost use Rattle.ll_engine.specs.Grammar.{viewed, IsTableOf};

    ghost Value = { ContextFree };

    ghost view = { λ g. viewed g.rows g.parts g.tokens g.start };

    ghost invariant = { λ g. IsTableOf g.rows (viewed g.rows g.parts g.tokens g.start) };
}

impl Grammar {
    ghost use Rattle.ll_engine.specs.Derivation.{Production};
    ghost use Rattle.ll_engine.specs.View.{grammar_of, is_well_formed};
    ghost use Rattle.ll_engine.specs.Prediction.{
      IsPredictive,
      IsPredictedBy,
      IsFirstBarren,
      IsFirstLeftCyclic,
      IsFirstConflict,
    };
    ghost use Rattle.ll_engine.specs.Checked.{ExactlyWhere};
    ghost use Rattle.ll_engine.specs.Walk.{IsOnlyRow};
    ghost use Rattle.ll_engine.specs.WrittenTable.{written_grammar, IsTableWritten};

    /// Checks a grammar and makes its table. Parts are the numbers below `parts`, tokens those
    /// below `tokens`, and the number `tokens` stands for the end; `start` derives the sentences.
    ///
    /// Source: Aho, Lam, Sethi and Ullman, "Compilers", on the construction of a predictive parsing table.
    pub fn checked(
        alloc: Global,
        rows: Vec<Row>,
        parts: u16,
        tokens: u16,
        start: u16,
    ) -> Result<Grammar, TableFault>
        requires { IsTrue (is_well_formed (grammar_of rows.items parts tokens start)) }
        ensures grammar { IfOk result (λ grammar. grammar
            ≡ grammar_of rows.items parts tokens start) }
        ensures ok { let g = grammar_of rows.items parts tokens start in
            ExactlyWhere (IsPredictive g) result (Ok g) (Err TableFault.NoMemory) }
        ensures barren { let g = grammar_of rows.items parts tokens start in
            (part : ℕ) → ExactlyWhere (IsFirstBarren g part) result (Err (TableFault.Barren part))
            (Err TableFault.NoMemory) }
        ensures left_cycle { let g = grammar_of rows.items parts tokens start in
            (part : ℕ) → ExactlyWhere (IsFirstLeftCyclic g part) result
            (Err (TableFault.LeftCycle part)) (Err TableFault.NoMemory) }
        ensures conflict { let g = grammar_of rows.items parts tokens start in
            (part token : ℕ) → ExactlyWhere (IsFirstConflict g part token) result
            (Err (TableFault.Conflict part token)) (Err TableFault.NoMemory) }
    {
        match checked_table(alloc, &rows, parts, tokens, start) {
            Ok(entries) => Ok(Grammar {
                rows: Rows::Checked { rows, entries },
                parts,
                tokens,
                start,
            }),
            Err(fault) => Err(fault),
        }
    }

    /// The grammar of a table that stands written, with a start part. Nothing is copied and nothing
    /// is made.
    pub fn written(table: &'static WrittenTable, start: u16) -> Grammar
        requires { IsTableWritten (written_grammar table.now start) table.now }
        ensures { result ≡ written_grammar table.now start }
    {
        Grammar {
            rows: Rows::Written(table),
            parts: table.first_rows.len() as u16,
            tokens: table.tokens,
            start,
        }
    }

    /// How many tokens there are: a text's tokens are the numbers below.
    pub fn tokens(&self) -> u16
        ensures { result ≡ self.now.tokens }
    {
        self.tokens
    }

    /// The part that derives the sentences. A grammar that was made is well formed and predictive.
    pub(crate) fn start(&self) -> u16
        ensures start { result ≡ self.now.start }
        ensures well_formed { IsTrue (is_well_formed self.now) }
        ensures predictive { IsPredictive self.now }
    {
        self.start
    }

    /// The token at the place, or the number of the end behind the last.
    pub(crate) fn token_at(&self, tokens: &[u16], at: usize) -> u16
        ensures { result ≡ slice_index_or tokens.now at self.now.tokens }
    {
        tokens.get(at).copied().unwrap_or(self.tokens)
    }

    /// The only row of the part that the token, or the end, may predict.
    pub(crate) fn predicted(&self, part: u16, token: u16) -> Option<u32>
        requires part { part < self.now.parts }
        requires token { token ≤ self.now.tokens }
        ensures none { IfNone result ((r : ℕ) (row : Production)
            → slice_get self.now.rows r ≡ Some row → row.left ≡ part
            → ¬ IsPredictedBy self.now row token) }
        ensures some { IfSome result (IsOnlyRow self.now part token) }
    {
        match &self.rows {
            Rows::Checked { entries, .. } => entry_at(entries, self.tokens, part, token),
            Rows::Written(table) => table.row_at(part, token),
        }
    }

    /// The right side of the row with this number, if there is one.
    pub fn right_of(&self, row: u32) -> Option<&[Symbol]>
        ensures { option_map (λ right. right.now) result
            ≡ option_map (λ row. row.right) (slice_get self.now.rows row) }
    {
        match &self.rows {
            Rows::Checked { rows, .. } => match rows.get(row as usize) {
                Some(found) => Some(found.right.as_slice()),
                None => None,
            },
            Rows::Written(table) => match table.rows.get(row as usize) {
                Some(found) => Some(found.right),
                None => None,
            },
        }
    }

    /// Puts the row's right side on the stack, so that its first symbol is on top.
    pub(crate) fn push_right(&self, row: u32, stack: &mut Vec<Symbol>) -> Result<(), AllocError>
        ensures { OnOk result ((production : Production)
            → slice_get self.now.rows row ≡ Some production
            → reverse stack.new.items ≡ production.right ++ reverse stack.old.items) }
    {
        let Some(right) = self.right_of(row) else {
            return Ok(());
        };
        for i in 0..right.len() {
            stack.push(right[right.len() - 1 - i])?;
        }
        Ok(())
    }
}

/// The rows of a leftmost derivation, by their numbers, in the order in which it uses them.
#[derive(Debug, Drop)]
pub struct Tree {
    /// The row numbers.
    pub rows: Vec<u32>,
}
