//! How a run ends.

ghost use Rattle.certificate_verbs.specs.Status.{status_number};
ghost use Rattle.std.specs.Prelude.{◌≡◌};

/// How a run ends.
#[derive(Clone, Copy, Debug, PartialEq, Eq)]
pub enum Ended {
    /// The work is done, and the whole report is written.
    Done,
    /// The specification was refused, and the line of the refusal is written.
    SpecRefused,
    /// The words are no line of the usage, and the usage line is written.
    WordsRefused,
    /// A file could not be got, and the line that names it is written.
    FileFault,
    /// The input failed.
    InputFault,
    /// The output failed. What is written is the beginning of the report.
    OutputFault,
    /// Memory was wanted and not there. What is written is the beginning of the report.
    NoMemory,
    /// The input has more than 16,777,216 bytes.
    InputTooLong,
    /// A certificate was refused, and the line of the refusal is written.
    CertificateRefused,
}

impl Ended {
    /// The number that the program ends with: 0 to 8, in the order of the variants.
    pub fn status(self) -> u8
        ensures { result ≡ status_number self }
    {
        match self {
            Ended::Done => 0,
            Ended::SpecRefused => 1,
            Ended::WordsRefused => 2,
            Ended::FileFault => 3,
            Ended::InputFault => 4,
            Ended::OutputFault => 5,
            Ended::NoMemory => 6,
            Ended::InputTooLong => 7,
            Ended::CertificateRefused => 8,
        }
    }
}
