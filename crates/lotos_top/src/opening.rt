//! What is made ready before anything is written: the specification with its first menu, or the
//! line that says why there is none.

ghost use Rattle.certificate_verbs.specs.HandedOn.{
  Acceptance,
  AcceptsText,
  CommandLine,
  Did,
  Failed,
  HoldsAccepted,
  IsAccepted,
  IsSummary,
  ShelfState,
  are_within,
  asked_acceptance,
  check,
  command_line,
  demonstration,
  goes_on,
  head_text,
  session,
  usage_text,
  words_of,
};
ghost use Rattle.certificate_verbs.specs.Printed.{IsFaultPrinted, print_in};
ghost use Rattle.certificate_verbs.specs.declared.ended.Ended.TheVariants.{
  Done as done,
  WordsRefused as words_refused,
};
ghost use Rattle.lotos_base.specs.Name.{spelling};
ghost use Rattle.lotos_top.specs.Opening.{SessionBegins, opening_text};
ghost use Rattle.lotos_top.specs.Parts.{OpensSession};
ghost use Rattle.lotos_top.specs.Prepared.{
  CameTo,
  FailsAlone,
  IsLawfulAt,
  IsMadeReady,
  IsReady,
  NamesNoFile,
  begun,
};
ghost use Rattle.sort_terms.specs.EquationView.{data_of};
ghost use Rattle.sort_terms.specs.SignatureView.{signature_of};
ghost use Rattle.std.specs.Prelude.{
  ◌≡◌,
  ◌++◌,
  [],
  None,
  Option,
  Some,
  IfOk,
  IsTrue,
  MatchResult,
  OnOk,
  codes,
  option_map,
};

use crate::certificates::{compared, induced};
use crate::flattening::flattened;
use certificate_verbs::{
    Accepted, Alone, Book, Command, Ended, NotAccepted, Session, Spec, USAGE, demo_text,
    failed_alone, menu_text, parse_command, push_number, push_text, write_summary,
};
use lotos_base::{MemShelf, NoMemory, Shelf};
use menu_parts::PartMenus;
use sort_terms::Signature;
use std::alloc::Global;

/// A specification that is accepted, where its session begins.
#[derive(Drop)]
pub struct Opened {
    /// The session at its start.
    pub session: Session<PartMenus>,
    /// The data, whose equality is decided.
    pub book: Book,
}

/// What comes before a session: the text that is printed, and the signature by which the session
/// reads and prints terms.
#[derive(Drop)]
pub struct Front {
    /// The text.
    pub text: Vec<u8>,
    /// The signature.
    pub signature: Signature,
}

/// What is ready: a text that is printed with nothing behind it, or a session that is served.
#[derive(Drop)]
pub enum Ready {
    /// The text.
    Alone(Alone),
    /// Where the session begins.
    Session(Opened),
}

/// Makes ready what the words ask for.
pub fn prepare<F: Shelf>(alloc: Global, words: &[String], shelf: &mut F) -> Result<Ready, NoMemory>
    ensures { MatchResult result
        (IsReady (command_line (words_of words.now))
        (F.state shelf.old) (F.state shelf.new))
        (λ _. CameTo (command_line (words_of words.now))
        (F.state shelf.old) (F.state shelf.new)) }
{
    match parse_command(words) {
        Some(
            Command::Check {
                spec,
                order,
                values,
            },
        ) => checked(alloc, spec, order, values, shelf),
        Some(
            Command::Run {
                spec,
                order,
                values,
            },
        ) => served(alloc, spec, order, values, shelf),
        Some(Command::Demo { cells }) => demonstrated(alloc, cells),
        Some(Command::Flatten { spec, order }) => flattened(alloc, spec, order, shelf),
        Some(Command::Bisim { spec, other, pairs }) => {
            compared(alloc, spec, other, pairs, shelf)
        }
        Some(Command::Induct { spec, proofs }) => induced(alloc, spec, proofs, shelf),
        None => usage_ready(alloc),
    }
}

/// Makes ready a text that was made.
pub fn ready_alone(made: Result<Alone, NoMemory>) -> Result<Ready, NoMemory>
    ensures { IsMadeReady made result }
{
    match made {
        Ok(alone) => Ok(Ready::Alone(alone)),
        Err(fault) => Err(fault),
    }
}

// Makes ready what `check` prints.
fn checked<F: Shelf>(
    alloc: Global,
    spec: &str,
    order: Option<&str>,
    values: &[String],
    shelf: &mut F,
) -> Result<Ready, NoMemory>
    requires { IsTrue (are_within (words_of values.now)) }
    ensures { MatchResult result
        (IsReady (Some (check (asked_acceptance spec.now (option_map (λ word. word.now) order.entry)
        (words_of values.now))))
        (F.state shelf.old) (F.state shelf.new))
        (λ _. CameTo
        (Some (check (asked_acceptance spec.now (option_map (λ word. word.now) order.entry)
        (words_of values.now))))
        (F.state shelf.old) (F.state shelf.new)) }
{
    match open(alloc, spec, order, values, shelf) {
        Ok(opened) => ready_alone(opened_alone(alloc, &opened)),
        Err(fault) => ready_alone(failed_alone(alloc, spec, order, &fault)),
    }
}

// Makes ready what `run` serves.
fn served<F: Shelf>(
    alloc: Global,
    spec: &str,
    order: Option<&str>,
    values: &[String],
    shelf: &mut F,
) -> Result<Ready, NoMemory>
    requires { IsTrue (are_within (words_of values.now)) }
    ensures { MatchResult result
        (IsReady
        (Some (session (asked_acceptance spec.now (option_map (λ word. word.now) order.entry)
        (words_of values.now))))
        (F.state shelf.old) (F.state shelf.new))
        (λ _. CameTo
        (Some (session (asked_acceptance spec.now (option_map (λ word. word.now) order.entry)
        (words_of values.now))))
        (F.state shelf.old) (F.state shelf.new)) }
{
    match open(alloc, spec, order, values, shelf) {
        Ok(opened) => Ok(Ready::Session(opened)),
        Err(fault) => ready_alone(failed_alone(alloc, spec, order, &fault)),
    }
}

/// Accepts the specification, and makes its first menu.
pub fn open<F: Shelf>(
    alloc: Global,
    spec: &str,
    order: Option<&str>,
    values: &[String],
    shelf: &mut F,
) -> Result<Opened, NotAccepted>
    requires { IsTrue (are_within (words_of values.now)) }
    ensures { MatchResult result
        (λ opened. Did (F.state shelf.old) (F.state shelf.new)
        (OpensSession
        (IsAccepted (asked_acceptance spec.now (option_map (λ word. word.now) order.entry)
        (words_of values.now))))
        (goes_on (begun opened)) × IsLawfulAt opened)
        (Failed (F.state shelf.old) (F.state shelf.new)
        (OpensSession
        (IsAccepted (asked_acceptance spec.now (option_map (λ word. word.now) order.entry)
        (words_of values.now))))) }
{
    let accepted = Accepted::read(alloc, spec, order, values, shelf)?;
    Ok(begin(alloc, accepted)?)
}

// The same of a specification with this text, where there is no file.
fn open_text(alloc: Global, text: &[u8]) -> Result<Opened, NotAccepted>
    ensures { MatchResult result
        (λ opened. OpensSession (AcceptsText text.now None []) [] (goes_on (begun opened))
        × IsLawfulAt opened)
        (FailsAlone (OpensSession (AcceptsText text.now None []))) }
{
    let mut no_files = MemShelf::new(Vec::new(alloc), Vec::new(alloc));
    let accepted = Accepted::of_text(alloc, text, None, &[], &mut no_files)?;
    Ok(begin(alloc, accepted)?)
}

// The session of what was accepted, at its beginning.
fn begin(alloc: Global, accepted: Accepted) -> Result<Opened, NoMemory>
    requires known { (acceptance : Acceptance) × HoldsAccepted acceptance accepted }
    ensures { (acceptance : Acceptance) → HoldsAccepted acceptance accepted
        → IfOk result (λ opened. SessionBegins acceptance (begun opened) × IsLawfulAt opened) }
{
    let Accepted {
        spec,
        ranks,
        book,
        start,
    } = accepted;
    let mut book = book;
    let maker = PartMenus::open(&spec)?;
    let session = Session::open(alloc, spec, ranks, start, maker, &mut book)?;
    Ok(Opened { session, book })
}

/// Appends the head of a report and the menu.
pub fn push_opening(opened: &Opened, into: &mut Vec<u8>) -> Result<(), NoMemory>
    ensures { OnOk result (into.new.items ≡ into.old.items ++ opening_text (begun opened.now)) }
{
    push_head(opened.session.spec(), &opened.book, into)?;
    menu_text(
        &opened.book.flat().signature,
        opened.session.spec(),
        opened.session.menu(),
        into,
    )?;
    Ok(())
}

// Appends the head of a report.
fn push_head(spec: &Spec, book: &Book, into: &mut Vec<u8>) -> Result<(), NoMemory>
    ensures { OnOk result (into.new.items ≡ into.old.items
        ++ head_text (spelling spec.now.name) (data_of book.now.flat)) }
{
    let flat = book.flat();
    push_text(into, b"accepted ")?;
    push_text(into, spec.name.spelled())?;
    push_text(into, b"\ndata: ")?;
    push_number(into, flat.signature.sorts().len() as u128)?;
    push_text(into, b" sorts, ")?;
    push_number(into, flat.signature.ops().len() as u128)?;
    push_text(into, b" operations, ")?;
    push_number(into, flat.equations.len() as u128)?;
    push_text(into, b" equations\n")
}

/// What comes before the session of an accepted specification.
pub fn front_of(alloc: Global, opened: &Opened) -> Result<Front, NoMemory>
    ensures { IfOk result (λ front. (front.text.items ≡ opening_text (begun opened.now))
        × (signature_of front.signature ≡ signature_of opened.now.book.flat.signature)) }
{
    let mut text = Vec::new(alloc);
    push_opening(opened, &mut text)?;
    let signature = opened.book.flat().signature.copy()?;
    Ok(Front { text, signature })
}

/// What is printed for an accepted specification where no session is served.
pub fn opened_alone(alloc: Global, opened: &Opened) -> Result<Alone, NoMemory>
    ensures { IfOk result (λ alone. (alone.text.items ≡ opening_text (begun opened.now))
        × (alone.ended ≡ done)) }
{
    let mut text = Vec::new(alloc);
    push_opening(opened, &mut text)?;
    Ok(Alone {
        text,
        ended: Ended::Done,
    })
}

// Makes ready what `demo` prints. Nothing is asked of the shelf, and no file is lacking.
fn demonstrated(alloc: Global, cells: u32) -> Result<Ready, NoMemory>
    ensures { (now : ShelfState) → MatchResult result
        (IsReady (Some (demonstration cells)) now now)
        (λ _. CameTo (Some (demonstration cells)) now now) }
{
    let text = demo_text(alloc, cells)?;
    match open_text(alloc, text.as_slice()) {
        Ok(mut opened) => ready_alone(summary_alone(alloc, &mut opened, cells)),
        Err(fault) => ready_alone(refused_demonstration(alloc, &fault)),
    }
}

// What is printed for a demonstration that is refused. Its text mentions no library that is not
// shipped, so it asks for no file; where it did, memory would be said to be wanted.
fn refused_demonstration(alloc: Global, fault: &NotAccepted) -> Result<Alone, NoMemory>
    ensures { IfOk result (λ alone. NamesNoFile fault.now
        × IsFaultPrinted (codes "demo") None fault.now (print_in alone)) }
{
    match fault {
        NotAccepted::File { .. } => Err(NoMemory),
        NotAccepted::Spec(_) => failed_alone(alloc, "demo", None, fault),
        NotAccepted::NoMemory => Err(NoMemory),
    }
}

// What is printed for a demonstration whose text is accepted.
fn summary_alone(alloc: Global, opened: &mut Opened, cells: u32) -> Result<Alone, NoMemory>
    requires lawful { IsLawfulAt opened.old }
    requires at_start { opened.old.session.course.history.items ≡ [] }
    ensures { IfOk result (λ alone. IsSummary (begun opened.old).basis
        (begun opened.old).progress.situation cells alone.text.items × (alone.ended ≡ done)) }
{
    let mut text = Vec::new(alloc);
    write_summary(
        alloc,
        &mut opened.session,
        &mut opened.book,
        cells,
        &mut text,
    )?;
    Ok(Alone {
        text,
        ended: Ended::Done,
    })
}

// Makes ready the usage line, for words that are no line.
fn usage_ready(alloc: Global) -> Result<Ready, NoMemory>
    ensures { (line : Option CommandLine) (now : ShelfState) → line ≡ None → MatchResult result
        (IsReady line now now) (λ _. CameTo line now now) }
{
    Ok(Ready::Alone(usage_alone(alloc)?))
}

/// The usage line.
pub fn usage_alone(alloc: Global) -> Result<Alone, NoMemory>
    ensures { IfOk result
        (λ alone. (alone.text.items ≡ usage_text) × (alone.ended ≡ words_refused)) }
{
    Ok(Alone {
        text: Vec::from_slice(alloc, USAGE)?,
        ended: Ended::WordsRefused,
    })
}
