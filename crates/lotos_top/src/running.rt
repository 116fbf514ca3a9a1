//! The whole program over any outside.

ghost use Rattle.certificate_verbs.specs.HandedOn.{IsServing, command_line, words_of};
ghost use Rattle.certificate_verbs.specs.Printed.{print_in};
ghost use Rattle.lotos_top.specs.Bisimilarity.{YesMeansBisimilar};
ghost use Rattle.lotos_top.specs.Causes.{AnswersHaveCauses};
ghost use Rattle.lotos_top.specs.Headline.{Headline};
ghost use Rattle.lotos_top.specs.Induction.{YesMeansInductive};
ghost use Rattle.lotos_top.specs.Opening.{opening_text};
ghost use Rattle.lotos_top.specs.Prepared.{IsLawfulAt, beginning_of, begun};
ghost use Rattle.lotos_top.specs.Run.{Ran, ServesSession, Writes, ended_by, streams};
ghost use Rattle.lotos_top.specs.Settled.{IsSettled};
ghost use Rattle.menu_parts.specs.KeptMenus.{MakerSuits};
ghost use Rattle.sort_terms.specs.SignatureView.{signature_of};
ghost use Rattle.std.specs.Prelude.{◌≡◌, MatchResult};

use crate::opening::{Front, Opened, Ready, front_of, prepare};
use certificate_verbs::{
    Alone, Ended, HistoryLines, accepted_certificates_show_bisimilarity,
    accepted_starts_do_the_same, certificates_come_to_one_thing, first_faults_are_one,
    lines_lead_on, met_requirements_hold, serve_input, served_lines_are_answered,
};
use line_server::{SessionEnd, write_whole};
use lotos_base::{Failed, NoMemory, Shelf, Sink, Source};
use menu_parts::PartMenus;
use sort_terms::Reader;
use std::alloc::Global;

/// Does what the words ask for.
///
/// `check` gets the specification, its libraries and the order file from the shelf, and prints the
/// head of the report and the exact menu of the state in which the specification begins. `run` goes
/// on with the session of the input: it answers each line and prints the answer before it reads on.
/// `demo` makes a specification of so many cells, walks through its session and prints the summary;
/// it asks nothing of the shelf and reads no input. `flatten` gets the files that `check` gets and
/// prints the flat text of the specification, whatever start values its parameters get. `bisim`
/// gets the files of two specifications and a certificate of bisimulation, and says how many pairs
/// it lists. `induct` gets those of one specification and a certificate of induction, and says how
/// many lemmas it has and which of them meet the requirements of the specification's types.
///
/// The answer is `WordsRefused` exactly where the words are no line of the usage, `FileFault` where
/// a file could not be got, `SpecRefused` where the specification is refused, whose first fault is
/// printed, `CertificateRefused` where a certificate is, likewise, `InputFault` exactly where the
/// input's count of faults rose, `InputTooLong` where byte 16,777,217 of the session was read, and
/// else `Done`. In place of each stands `OutputFault` exactly where the output's count of faults
/// rose, and `NoMemory` where memory was wanted; then what is written is a beginning of the report.
///
/// The input is not read behind its end or its fault, nor behind a fault of the output; the output
/// is not written behind its fault. At most 16,777,217 bytes of the input are read.
pub fn run<F: Shelf, S: Source, K: Sink>(
    alloc: Global,
    words: &[String],
    shelf: &mut F,
    input: &mut S,
    output: &mut K,
) -> Ended
    ensures ran { Ran (command_line (words_of words.now))
        (F.state shelf.old) (F.state shelf.new)
        (streams (S.state input.old) (K.state output.old))
        (streams (S.state input.new) (K.state output.new))
        result }
    ensures causes { AnswersHaveCauses (command_line (words_of words.now))
        (F.state shelf.old) (F.state shelf.new)
        (streams (S.state input.old) (K.state output.old))
        (streams (S.state input.new) (K.state output.new))
        result }
    ensures settled { IsSettled (command_line (words_of words.now))
        (F.state shelf.old) (F.state shelf.new)
        (streams (S.state input.old) (K.state output.old))
        (streams (S.state input.new) (K.state output.new))
        result }
    ensures headline { Headline (command_line (words_of words.now))
        (F.state shelf.old) (F.state shelf.new)
        (streams (S.state input.old) (K.state output.old))
        (streams (S.state input.new) (K.state output.new))
        result }
    ensures bisimilar { YesMeansBisimilar (command_line (words_of words.now))
        (F.state shelf.old) (F.state shelf.new)
        (streams (S.state input.old) (K.state output.old))
        (streams (S.state input.new) (K.state output.new))
        result }
    ensures inductive { YesMeansInductive (command_line (words_of words.now))
        (F.state shelf.old) (F.state shelf.new)
        (streams (S.state input.old) (K.state output.old))
        (streams (S.state input.new) (K.state output.new))
        result }
{
    // (These do nothing. They carry the laws that the clauses stand on.)
    lines_lead_on();
    served_lines_are_answered();
    accepted_certificates_show_bisimilarity();
    accepted_starts_do_the_same();
    certificates_come_to_one_thing();
    first_faults_are_one();
    met_requirements_hold();
    run_over(alloc, words, shelf, input, output)
}

// Does what the words ask for.
fn run_over<F: Shelf, S: Source, K: Sink>(
    alloc: Global,
    words: &[String],
    shelf: &mut F,
    input: &mut S,
    output: &mut K,
) -> Ended
    ensures { Ran (command_line (words_of words.now))
        (F.state shelf.old) (F.state shelf.new)
        (streams (S.state input.old) (K.state output.old))
        (streams (S.state input.new) (K.state output.new))
        result }
{
    match prepare(alloc, words, shelf) {
        Ok(Ready::Alone(alone)) => print(&alone, output),
        Ok(Ready::Session(opened)) => match serve(alloc, opened, shelf, input, output) {
            Ok(ended) => ended,
            Err(NoMemory) => Ended::NoMemory,
        },
        Err(NoMemory) => Ended::NoMemory,
    }
}

// Prints a text with nothing behind it.
fn print<K: Sink>(alone: &Alone, output: &mut K) -> Ended
    ensures { Writes (print_in alone.now) (K.state output.old) (K.state output.new) result }
{
    match write_whole(output, alone.text.as_slice()) {
        Ok(()) => alone.ended,
        Err(Failed) => Ended::OutputFault,
    }
}

// Serves the session of an accepted specification. Where memory is wanted before its first line,
// nothing is written.
fn serve<F: Shelf, S: Source, K: Sink>(
    alloc: Global,
    opened: Opened,
    shelf: &mut F,
    input: &mut S,
    output: &mut K,
) -> Result<Ended, NoMemory>
    requires lawful { IsLawfulAt opened }
    ensures { MatchResult result
        (ServesSession (begun opened)
        (F.state shelf.old) (F.state shelf.new)
        (streams (S.state input.old) (K.state output.old))
        (streams (S.state input.new) (K.state output.new)))
        (λ _. ((F.state shelf.new)
        ≡ (F.state shelf.old))
        × ((streams (S.state input.new) (K.state output.new))
        ≡ (streams (S.state input.old) (K.state output.old)))) }
{
    let front = front_of(alloc, &opened)?;
    serve_front(alloc, &front, opened, shelf, input, output)
}

// Serves the session behind its front.
fn serve_front<F: Shelf, S: Source, K: Sink>(
    alloc: Global,
    front: &Front,
    opened: Opened,
    shelf: &mut F,
    input: &mut S,
    output: &mut K,
) -> Result<Ended, NoMemory>
    requires text { front.now.text.items ≡ opening_text (begun opened) }
    requires over { signature_of front.now.signature ≡ signature_of opened.book.flat.signature }
    requires lawful { IsLawfulAt opened }
    ensures { MatchResult result
        (ServesSession (begun opened)
        (F.state shelf.old) (F.state shelf.new)
        (streams (S.state input.old) (K.state output.old))
        (streams (S.state input.new) (K.state output.new)))
        (λ _. ((F.state shelf.new)
        ≡ (F.state shelf.old))
        × ((streams (S.state input.new) (K.state output.new))
        ≡ (streams (S.state input.old) (K.state output.old)))) }
{
    let reader = Reader::of(alloc, &front.signature)?;
    let Opened { session, book } = opened;
    let mut lines = HistoryLines {
        signature: &front.signature,
        reader,
        session,
        book,
    };
    Ok(serve_behind(
        alloc,
        front.text.as_slice(),
        &mut lines,
        shelf,
        input,
        output,
    ))
}

// Writes the text, and serves the session behind it.
fn serve_behind<F: Shelf, S: Source, K: Sink>(
    alloc: Global,
    text: &[u8],
    lines: &mut HistoryLines<'_, PartMenus>,
    shelf: &mut F,
    input: &mut S,
    output: &mut K,
) -> Ended
    requires text { text.now ≡ opening_text (beginning_of lines.old) }
    requires serving { IsServing MakerSuits lines.old }
    ensures { ServesSession (beginning_of lines.old)
        (F.state shelf.old) (F.state shelf.new)
        (streams (S.state input.old) (K.state output.old))
        (streams (S.state input.new) (K.state output.new))
        result }
{
    match write_whole(output, text) {
        Ok(()) => end_of(serve_input(alloc, lines, shelf, input, output)),
        Err(Failed) => Ended::OutputFault,
    }
}

// How the run ends by the end of its session.
fn end_of(end: SessionEnd) -> Ended
    ensures { result ≡ ended_by end }
{
    match end {
        SessionEnd::Finished => Ended::Done,
        SessionEnd::InputFailed => Ended::InputFault,
        SessionEnd::InputTooLong => Ended::InputTooLong,
        SessionEnd::OutputFailed => Ended::OutputFault,
        SessionEnd::NoMemory => Ended::NoMemory,
    }
}
