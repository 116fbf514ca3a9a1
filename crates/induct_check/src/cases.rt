//! Worked cases. Each function carries what the definitions say of some lines as its contract and
//! does nothing.

ghost use Rattle.induct_check.specs.LineCases.{
  LinesHaveForms,
  CertificateLinesHaveNoForm,
  TextsHaveLines,
  WordsArePaths,
};

/// Lines that have a form.
pub fn lines_have_forms()
    ensures { LinesHaveForms }
{}

/// Lines that have none.
pub fn lines_have_no_form()
    ensures { CertificateLinesHaveNoForm }
{}

/// Words that are paths, and others.
pub fn words_are_paths()
    ensures { WordsArePaths }
{}

/// The lines of texts.
pub fn texts_have_lines()
    ensures { TextsHaveLines }
{}
