//! The words of the command line.

ghost use Rattle.command_words.specs.Words.{
  asked_by,
  asked_with_files,
  behind_by,
  bisimilarity,
  cells_said,
  cells_with,
  check,
  command_line,
  compared_with,
  cut_at_with,
  demonstration,
  ends_files,
  flattening_of,
  induced_with,
  induction,
  command_line_of,
  line_of_cut,
  line_with,
  session,
  takes_words,
  verb_named,
  verb_of,
  verbs,
};
ghost use Rattle.spec_acceptance.specs.HandedOn.{words_of};
ghost use Rattle.std.specs.Prelude.{◌≡◌, MatchOption, None, Some, decimal, map, option_map};
ghost use Rattle.std.specs.Str.{bytes_eq};

use itoa::Buffer;
use spec_acceptance::are_within_limits;

/// What the words ask for.
#[derive(Clone, Copy, Debug)]
pub enum Command<'a> {
    /// Read a specification and print the head of its report and the first menu.
    Check {
        /// The name of the specification's file.
        spec: &'a str,
        /// The name of the order file, if there is one.
        order: Option<&'a str>,
        /// The start values.
        values: &'a [String],
    },
    /// Do what `Check` does, then serve the session of the input.
    Run {
        /// The name of the specification's file.
        spec: &'a str,
        /// The name of the order file, if there is one.
        order: Option<&'a str>,
        /// The start values.
        values: &'a [String],
    },
    /// Make a specification of so many cells and walk it.
    Demo {
        /// How many cells, from 1 to 64.
        cells: u32,
    },
    /// Print the flat text of a specification.
    Flatten {
        /// The name of the specification's file.
        spec: &'a str,
        /// The name of the order file, if there is one.
        order: Option<&'a str>,
    },
    /// Check a certificate of bisimulation.
    Bisim {
        /// The name of the one specification's file.
        spec: &'a str,
        /// The name of the other specification's file.
        other: &'a str,
        /// The name of the certificate's file.
        pairs: &'a str,
    },
    /// Check a certificate of induction.
    Induct {
        /// The name of the specification's file.
        spec: &'a str,
        /// The name of the certificate's file.
        proofs: &'a str,
    },
}

/// The names of files and the start values that words have.
#[derive(Clone, Copy, Debug)]
pub struct Files<'a> {
    /// The name of the specification's file.
    pub spec: &'a str,
    /// The name of the order file, if there is one.
    pub order: Option<&'a str>,
    /// The start values.
    pub values: &'a [String],
}

/// What a verb does.
#[derive(Clone, Copy, Debug)]
pub enum Task {
    /// What `Command::Check` asks for.
    Check,
    /// What `Command::Run` asks for.
    Run,
    /// What `Command::Demo` asks for.
    Demo,
    /// What `Command::Flatten` asks for.
    Flatten,
    /// What `Command::Bisim` asks for.
    Bisim,
    /// What `Command::Induct` asks for.
    Induct,
}

/// A verb: the first word of a command line, and what may stand behind it.
#[derive(Clone, Copy, Debug)]
pub struct Verb {
    /// The word.
    pub word: &'static str,
    /// The fewest words behind it, up to `with`.
    pub least: usize,
    /// The most words behind it, up to `with`.
    pub most: usize,
    /// Whether `with` and start values may stand behind these.
    pub takes_values: bool,
    /// What it does.
    pub task: Task,
}

/// The verbs.
pub const VERBS: [Verb; 6] = [
    Verb {
        word: "check",
        least: 1,
        most: 2,
        takes_values: true,
        task: Task::Check,
    },
    Verb {
        word: "run",
        least: 1,
        most: 2,
        takes_values: true,
        task: Task::Run,
    },
    Verb {
        word: "demo",
        least: 1,
        most: 1,
        takes_values: false,
        task: Task::Demo,
    },
    Verb {
        word: "flatten",
        least: 1,
        most: 2,
        takes_values: false,
        task: Task::Flatten,
    },
    Verb {
        word: "bisim",
        least: 3,
        most: 3,
        takes_values: false,
        task: Task::Bisim,
    },
    Verb {
        word: "induct",
        least: 2,
        most: 2,
        takes_values: false,
        task: Task::Induct,
    },
];

/// The usage line: what may stand behind each verb.
pub const USAGE: &[u8] = b"usage: lotos check SPEC [ORDER] [with TERM...] \
    | run SPEC [ORDER] [with TERM...] \
    | demo N \
    | flatten SPEC [ORDER] \
    | bisim SPEC OTHER PAIRS \
    | induct SPEC PROOFS\n";

/// The words behind a verb.
#[derive(Clone, Copy, Debug)]
pub struct Behind<'a> {
    /// Those up to `with`.
    pub files: &'a [String],
    /// Whether `with` is there.
    pub has_with: bool,
    /// The start values behind it.
    pub values: &'a [String],
}

/// What the words ask for, and `None` exactly where they are no line that is built.
///
/// Built are `check SPEC`, `check SPEC ORDER`, `run SPEC` and `run SPEC ORDER`, each of these with
/// `with` and any number of words behind it, `demo N` with N from 1 to 64 in decimal without a
/// leading zero, `flatten SPEC` and `flatten SPEC ORDER`, `bisim SPEC OTHER PAIRS` and
/// `induct SPEC PROOFS`, where no name of a file is `with`. The words are at most 65,536 and have
/// at most 1,048,576 bytes together. Takes no memory.
pub fn parse_command(words: &[String]) -> Option<Command<'_>>
    ensures { MatchOption result (command_line (words_of words.now) ≡ None)
        (λ command. command_line (words_of words.now) ≡ Some (command_line_of command)) }
{
    if !are_within_limits(words) {
        return None;
    }
    let [word, rest @ ..] = words else {
        return None;
    };
    match find_verb(word.as_str()) {
        Some(verb) => with_verb(verb, rest),
        None => None,
    }
}

// The verb with this word.
fn find_verb(word: &str) -> Option<Verb>
    ensures { option_map verb_of result ≡ verb_named word.now verbs }
{
    verb_among(word, &VERBS)
}

// The first of the verbs with this word.
fn verb_among(word: &str, among: &[Verb]) -> Option<Verb>
    ensures { option_map verb_of result ≡ verb_named word.now (map verb_of among.now) }
{
    for verb in among {
        if word == verb.word {
            return Some(*verb);
        }
    }
    None
}

// What the verb asks for with the words behind it.
fn with_verb(verb: Verb, words: &[String]) -> Option<Command<'_>>
    ensures { option_map command_line_of result
        ≡ line_of_cut (verb_of verb) (cut_at_with (words_of words.now)) }
{
    let behind = behind_verb(words);
    if !takes(verb, behind) {
        return None;
    }
    with_task(verb.task, behind.files, behind.values)
}

// The words behind a verb, cut at `with`.
fn behind_verb(words: &[String]) -> Behind<'_>
    ensures { behind_by result ≡ cut_at_with (words_of words.now) }
{
    for index in 0..words.len() {
        if ends(words[index].as_str()) {
            return Behind {
                files: &words[..index],
                has_with: true,
                values: &words[index + 1..],
            };
        }
    }
    Behind {
        files: words,
        has_with: false,
        values: &[],
    }
}

// Whether the word ends the names of files.
fn ends(word: &str) -> bool
    ensures { result ≡ ends_files word.now }
{
    word == "with"
}

// Whether the verb takes the words behind it.
fn takes(verb: Verb, behind: Behind<'_>) -> bool
    ensures { result ≡ takes_words (verb_of verb) (behind_by behind.entry) }
{
    let given = behind.files.len();
    verb.least <= given && given <= verb.most && (verb.takes_values || !behind.has_with)
}

// What the task asks for with these files and start values.
fn with_task<'a>(task: Task, files: &'a [String], values: &'a [String]) -> Option<Command<'a>>
    ensures { option_map command_line_of result
        ≡ line_with task (words_of files.now) (words_of values.now) }
{
    match task {
        Task::Check => checked(named_files(files, values)),
        Task::Run => served(named_files(files, values)),
        Task::Demo => demonstrated(number_of_cells(files)),
        Task::Flatten => flattened(named_files(files, values)),
        Task::Bisim => compared(files),
        Task::Induct => induced(files),
    }
}

// The names of files, and the start values.
fn named_files<'a>(files: &'a [String], values: &'a [String]) -> Option<Files<'a>>
    ensures { option_map asked_by result
        ≡ asked_with_files (words_of files.now) (words_of values.now) }
{
    match files {
        [spec] => Some(Files {
            spec: spec.as_str(),
            order: None,
            values,
        }),
        [spec, order] => Some(Files {
            spec: spec.as_str(),
            order: Some(order.as_str()),
            values,
        }),
        _ => None,
    }
}

// The command that reads the files.
fn checked(files: Option<Files<'_>>) -> Option<Command<'_>>
    ensures { option_map command_line_of result
        ≡ option_map check (option_map asked_by files.entry) }
{
    match files {
        Some(files) => Some(Command::Check {
            spec: files.spec,
            order: files.order,
            values: files.values,
        }),
        None => None,
    }
}

// The command that serves a session of the files.
fn served(files: Option<Files<'_>>) -> Option<Command<'_>>
    ensures { option_map command_line_of result
        ≡ option_map session (option_map asked_by files.entry) }
{
    match files {
        Some(files) => Some(Command::Run {
            spec: files.spec,
            order: files.order,
            values: files.values,
        }),
        None => None,
    }
}

// The demonstration of so many cells.
fn demonstrated(cells: Option<u32>) -> Option<Command<'static>>
    ensures { option_map command_line_of result ≡ option_map demonstration cells }
{
    match cells {
        Some(cells) => Some(Command::Demo { cells }),
        None => None,
    }
}

// The command that prints the flat text of the files.
fn flattened(files: Option<Files<'_>>) -> Option<Command<'_>>
    ensures { option_map command_line_of result
        ≡ option_map flattening_of (option_map asked_by files.entry) }
{
    match files {
        Some(files) => Some(Command::Flatten {
            spec: files.spec,
            order: files.order,
        }),
        None => None,
    }
}

// The command that checks a certificate of bisimulation.
fn compared(files: &[String]) -> Option<Command<'_>>
    ensures { option_map command_line_of result
        ≡ option_map bisimilarity (compared_with (words_of files.now)) }
{
    match files {
        [spec, other, pairs] => Some(Command::Bisim {
            spec: spec.as_str(),
            other: other.as_str(),
            pairs: pairs.as_str(),
        }),
        _ => None,
    }
}

// The command that checks a certificate of induction.
fn induced(files: &[String]) -> Option<Command<'_>>
    ensures { option_map command_line_of result
        ≡ option_map induction (induced_with (words_of files.now)) }
{
    match files {
        [spec, proofs] => Some(Command::Induct {
            spec: spec.as_str(),
            proofs: proofs.as_str(),
        }),
        _ => None,
    }
}

// How many cells the one word there is says.
fn number_of_cells(files: &[String]) -> Option<u32>
    ensures { result ≡ cells_with (words_of files.now) }
{
    match files {
        [word] => cells_in(word.as_str()),
        _ => None,
    }
}

// How many cells the word says: a number from 1 to 64 in decimal.
fn cells_in(word: &str) -> Option<u32>
    ensures { result ≡ cells_said word.now }
{
    for below in 0..64u32 {
        if is_decimal_of(word, below + 1) {
            return Some(below + 1);
        }
    }
    None
}

// Whether the word is the number in decimal.
fn is_decimal_of(word: &str, number: u32) -> bool
    ensures { result ≡ bytes_eq word.now (decimal number) }
{
    let mut buffer = Buffer::new();
    word == buffer.format(number as u128)
}
