//! Laws of what terms are written as. Each function carries a law as its contract and does nothing.

ghost use Rattle.session_laws.specs.WrittenLaws.{
  PairsWrittenHaveOneReading,
  ReadTermsMeanThemselves,
  TermsWrittenHaveOneReading,
  WrittenListsHaveOneReading,
  WrittenTermsHaveOneReading,
};

/// What a term is written as has one reading where its names mean what they are printed for: this
/// term, whether its sort is asked for or not (ISO 8807:1989, overloading of operations and scopes
/// of variables).
pub fn terms_in_scope_have_one_reading()
    ensures { TermsWrittenHaveOneReading }
{}

/// The same of two terms of one sort.
pub fn pairs_in_scope_have_one_reading()
    ensures { PairsWrittenHaveOneReading }
{}

/// The names in a term that was read where variables are visible mean there what they are printed
/// for.
pub fn read_terms_mean_themselves()
    ensures { ReadTermsMeanThemselves }
{}

/// What a ground term is written as has one reading, this term, whether its sort is asked for or
/// not (ISO 8807:1989, overloading of operations).
pub fn written_terms_have_one_reading()
    ensures { WrittenTermsHaveOneReading }
{}

/// The same of ground terms one by one.
pub fn written_lists_have_one_reading()
    ensures { WrittenListsHaveOneReading }
{}
