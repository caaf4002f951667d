//! The top call.

ghost use Rattle.std.specs.Prelude.{◌≡◌, ◌⊎◌, ◌++◌, ℕ, List, [], Option, Some, None, Err, IfOk, IfSome, OnOk, OnErr, true};
ghost use Rattle.ql_base.specs.declared.limits.Limits.{Limits};
ghost use Rattle.ql_base.specs.Outside.{Appends, HasRisen};
ghost use Rattle.ql_forms.specs.Form.{Forms};
ghost use Rattle.ql_forms.specs.View.{forms_of};
ghost use Rattle.ql_expand.specs.Core.{Program};
ghost use Rattle.ql_world.specs.Event.{turns};
ghost use Rattle.ql_world.specs.Run.{Story};
ghost use Rattle.ql_host.specs.Host.{Told, AreNames};
ghost use Rattle.ql_meaning.specs.Legal.{Legal};
ghost use Rattle.ql_meaning.specs.Meaning.{program_told, program_planned};
ghost use Rattle.ql_compile.specs.Compile.{compiled};
ghost use Rattle.ql_top.specs.Acts.{AnswersSome, ReplaysSome, SpansSome, Gives, IsRunOf, told_in, stop_in, output_in, lines_in};
ghost use Rattle.ql_top.specs.PlainWords.{IsPlain};
ghost use Rattle.ql_top.specs.Reading.{ReadsAll, HoldsTaken, RisesBy, ReadFaults};
ghost use Rattle.ql_top.specs.Replay.{AnswersReplay};
ghost use Rattle.ql_top.specs.Run.{CleansUpAlong};
ghost use Rattle.ql_top.specs.Span.{AnswersSpan};
ghost use Rattle.ql_top.specs.Status.{status_of};
ghost use Rattle.ql_top.specs.Summary.{summary};
ghost use Rattle.ql_top.specs.Top.{Makes, Refusal, IsSource, IsSourceOf, HasSource, ReadsSource, LeavesSource, LeavesBook, LeavesJournal, IsCutOff, Written, Answers, AnswersTaken, AnswersTrial, IsAnswer, IsGenerated, StopsOrFails, IsSilent, Tells, WriteFaults, SaysStatus};
ghost use Rattle.ql_top.specs.Words.{asked, texts_of, limits_of, IsInRange, IsSize, IsAsked};
ghost use Rattle.ql_top.specs.declared.words.Command.{Command};
ghost use Rattle.ql_top.specs.declared.words.Options.{Options};

use crate::accept::accept;
use crate::error_line::write_error_line;
use crate::laws::{
    at_most_one_program, names_can_be_printed, one_planned_schedule, plain_words_ask,
    programs_are_accepted, refused_at_most_once,
};
use crate::reading::read_text;
use crate::replay::answer_replay;
use crate::show::lines_of;
use crate::span::answer_span;
use crate::status::{Ended, Status, status_of};
use crate::summary::write_summary;
use crate::words::{Command, Options, asked};
use crate::worker::run;
use crate::writing::write_text;
use ql_base::limits::Limits;
use ql_base::names::Names;
use ql_base::outside::{Failed, Sink, Source};
use ql_base::sure::SureSource;
use ql_code::code::Code;
use ql_code::listing::write_listing;
use ql_compile::laws::{code_follows_program, code_is_planned_as_program};
use ql_expand::laws::forms_have_kinds_of_their_own;
use ql_forms::text::Text;
use ql_host::told::Told;
use ql_journal::write::write_journal;
use ql_meaning::laws::{journals_are_legal, killed_only_clean_up};
use ql_scope::laws::{names_have_kinds_of_their_own, scoped_is_compilable};
use ql_vectors::generate::generate;
use ql_world::event::Stop;
use std::alloc::{AllocError, Global};

#[cfg(test)]
mod tests;

/// Does what the words ask for: reads the source or generates one, or reads a book, and writes output, a
/// journal, and a line on `err` where not all went well. A run is that of one worker, however many are
/// asked for, under the limits of the words.
///
/// It always returns. A source or a book that doesn't tell its bytes, as a file, is answered as one in
/// memory with the bytes that were taken from it. The book is a journal, which `replay` follows along
/// the source, and of which `span` tells the work.
pub fn one<S: Source, B: Source, O: Sink, J: Sink, E: Sink>(
    alloc: Global,
    words: &[&str],
    source: &mut S,
    book: &mut B,
    out: &mut O,
    journal: &mut J,
    err: &mut E,
) -> Ended
    // The words ask for nothing exactly where that is the answer, want of memory aside.
    ensures words { result.status ≡ Status.Words → asked (texts_of words.now) ≡ None }
    ensures no_words { asked (texts_of words.now) ≡ None → (result.status ≡ Status.Words) ⊎ (result.status ≡ Status.NoMemory) }

    // Plain words ask for the command and the numbers that they write.
    ensures plain { (command : Command) → IsPlain (texts_of words.now) command → asked (texts_of words.now) ≡ Some command }

    // The source is refused for the first fault of its text, or else of its forms, or else of its
    // names, or else since its code is too long. Else a check says that it is a program, a show writes
    // the forms, a list writes the code, and of a run output, journal and status are those of the
    // meaning's run along the schedule that the journal itself spells, as a host told them. That
    // schedule is the one of one worker, the journal is legal, and the killed only clean up.
    ensures answer { (command : Command) (bytes : List ℕ) → asked (texts_of words.now) ≡ Some command → ReadsSource command → S.left source.old ≡ Some bytes
        → Answers command result bytes (S.left source.new) (O.held out.old) (O.held out.new) (J.held journal.old) (J.held journal.new) }

    // That holds of every source, for the bytes that were taken.
    ensures every { (command : Command) → asked (texts_of words.now) ≡ Some command → ReadsSource command
        → AnswersTaken command result (S.left source.old) (S.left source.new) (O.held out.old) (O.held out.new) (J.held journal.old) (J.held journal.new) }

    // It holds of a trial, for the text that is generated; its output ends with a summary.
    ensures trial { (seed size : ℕ) (options : Options) → asked (texts_of words.now) ≡ Some (Command.Trial seed size options)
        → AnswersTrial seed size options result (O.held out.old) (O.held out.new) (J.held journal.old) (J.held journal.new) }

    // And the text itself is what gen writes.
    ensures generated { (seed size : ℕ) → asked (texts_of words.now) ≡ Some (Command.Gen seed size)
        → IsGenerated result.status seed size (O.held out.old) (O.held out.new) (J.held journal.old) (J.held journal.new) }

    // Of `replay` the source is refused as that of any command. Else the book is followed along its program: it is one of the
    // program's journals, and the output of that run is written; or it isn't, and the status tells the first line at which it
    // differs from all of them. That holds of every source and book, for the bytes that were taken.
    ensures replayed { (bytes held : List ℕ) → asked (texts_of words.now) ≡ Some Command.Replay → S.left source.old ≡ Some bytes → B.left book.old ≡ Some held
        → AnswersReplay result.status bytes (S.left source.new) held (B.left book.new) (O.held out.old) (O.held out.new) }
    ensures every_replay { asked (texts_of words.now) ≡ Some Command.Replay
        → HoldsTaken (λ bytes left. HoldsTaken (λ held rest. AnswersReplay result.status bytes left held rest (O.held out.old) (O.held out.new))
        (B.left book.old) (B.left book.new)) (S.left source.old) (S.left source.new) }

    // Of `span` the book is refused for its length, or else for its first line outside the grammar, or else for want of a stop
    // line. Else the three lines of its work, its span and its chain are written. That holds of every book, too.
    ensures spanned { (held : List ℕ) → asked (texts_of words.now) ≡ Some Command.Span → B.left book.old ≡ Some held
        → AnswersSpan result.status held (B.left book.new) (O.held out.old) (O.held out.new) }
    ensures every_span { asked (texts_of words.now) ≡ Some Command.Span
        → HoldsTaken (λ held rest. AnswersSpan result.status held rest (O.held out.old) (O.held out.new)) (B.left book.old) (B.left book.new) }

    // A host has told of the run just where there is one. Of that run the schedule is the one of one
    // worker, the journal is legal, and the killed only clean up.
    ensures told { Tells (asked (texts_of words.now)) result.status result.told }
    ensures planned { (command : Command) (bytes : List ℕ) (program : Program) (told : Told) → asked (texts_of words.now) ≡ Some command
        → IsSourceOf command (S.left source.old) bytes → result.told ≡ Some told → (is : IsSource bytes program)
        → program_planned is.names program (limits_of command) (turns told.story.journal.events) ≡ true }
    ensures legal { IfSome result.told (λ told. Legal told.story.journal.events) }
    ensures cleans { (command : Command) (bytes : List ℕ) (program : Program) (told : Told) → asked (texts_of words.now) ≡ Some command
        → IsSourceOf command (S.left source.old) bytes → result.told ≡ Some told → (is : IsSource bytes program)
        → CleansUpAlong is.names program (limits_of command) (turns told.story.journal.events) }

    // What must be refused is, unless memory or the source fails before.
    ensures refused { (command : Command) (bytes : List ℕ) (kind at : ℕ) → asked (texts_of words.now) ≡ Some command
        → IsSourceOf command (S.left source.old) bytes → Refusal bytes kind at
        → (result.status ≡ Status.Refused kind at) ⊎ ((result.status ≡ Status.NoMemory) ⊎ (result.status ≡ Status.ReadFault)) }

    // The status is that of the stop of the program's whole run by one worker, unless memory or an end
    // fails. There is at most one such run.
    ensures stops { (command : Command) (bytes : List ℕ) (program : Program) (schedule : List ℕ) (story : Story) → asked (texts_of words.now) ≡ Some command
        → IsSourceOf command (S.left source.old) bytes → (LeavesJournal (Some command) → ⊥) → (is : IsSource bytes program)
        → program_told is.names program (limits_of command) schedule ≡ Some story → program_planned is.names program (limits_of command) schedule ≡ true
        → StopsOrFails result.status story.stop }

    // Where the words ask for something and no fault of an end rose, what came of the command is the answer, or want of memory.
    ensures complete { (command : Command) → asked (texts_of words.now) ≡ Some command → (HasRisen (S.faults source.old) (S.faults source.new) → ⊥)
        → (HasRisen (B.faults book.old) (B.faults book.new) → ⊥) → (HasRisen (O.faults out.old) (O.faults out.new) → ⊥)
        → (HasRisen (J.faults journal.old) (J.faults journal.new) → ⊥) → IsAnswer result.status }

    // The counts of faults rise just where a fault is the answer.
    ensures read_faults { ReadFaults result.status (S.faults source.old) (S.faults source.new) (B.faults book.old) (B.faults book.new) }
    ensures write_faults { WriteFaults result.status (O.faults out.old) (O.faults out.new) (J.faults journal.old) (J.faults journal.new) }

    // What is written, and what is left alone.
    ensures silent { IsSilent result.status → (O.held out.new ≡ O.held out.old) × (J.held journal.new ≡ J.held journal.old) }
    ensures says { SaysStatus result.status (E.held err.old) (E.held err.new) (E.faults err.old) (E.faults err.new) }
    ensures quiet { result.status ≡ Status.Done → (E.held err.new ≡ E.held err.old) × (E.faults err.new ≡ E.faults err.old) }
    ensures no_source { LeavesSource (asked (texts_of words.now)) → (S.left source.new ≡ S.left source.old) × (S.faults source.new ≡ S.faults source.old) }
    ensures no_journal { LeavesJournal (asked (texts_of words.now)) → (J.held journal.new ≡ J.held journal.old) × (J.faults journal.new ≡ J.faults journal.old) }
    ensures no_book { LeavesBook (asked (texts_of words.now)) → (B.left book.new ≡ B.left book.old) × (B.faults book.new ≡ B.faults book.old) }
{
    // Facts that the clauses rest on; the calls do nothing.
    plain_words_ask();
    programs_are_accepted();
    at_most_one_program();
    one_planned_schedule();
    let ended = answer(alloc, words, source, book, out, journal);
    let _ = write_error_line(err, ended.status);
    ended
}

/// The answer, before its line is written.
fn answer<S: Source, B: Source, O: Sink, J: Sink>(
    alloc: Global,
    words: &[&str],
    source: &mut S,
    book: &mut B,
    out: &mut O,
    journal: &mut J,
) -> Ended
    ensures words { result.status ≡ Status.Words → asked (texts_of words.now) ≡ None }
    ensures no_words { asked (texts_of words.now) ≡ None → (result.status ≡ Status.Words) ⊎ (result.status ≡ Status.NoMemory) }
    ensures answer { (command : Command) → asked (texts_of words.now) ≡ Some command → ReadsSource command
        → AnswersSome command result (S.left source.old) (S.left source.new) (O.held out.old) (O.held out.new) (J.held journal.old) (J.held journal.new) }
    ensures trial { (seed size : ℕ) (options : Options) → asked (texts_of words.now) ≡ Some (Command.Trial seed size options)
        → AnswersTrial seed size options result (O.held out.old) (O.held out.new) (J.held journal.old) (J.held journal.new) }
    ensures generated { (seed size : ℕ) → asked (texts_of words.now) ≡ Some (Command.Gen seed size)
        → IsGenerated result.status seed size (O.held out.old) (O.held out.new) (J.held journal.old) (J.held journal.new) }
    ensures replayed { asked (texts_of words.now) ≡ Some Command.Replay
        → ReplaysSome result.status (S.left source.old) (S.left source.new) (B.left book.old) (B.left book.new) (O.held out.old) (O.held out.new) }
    ensures spanned { asked (texts_of words.now) ≡ Some Command.Span → SpansSome result.status (B.left book.old) (B.left book.new) (O.held out.old) (O.held out.new) }
    ensures told { Tells (asked (texts_of words.now)) result.status result.told }
    ensures read_faults { ReadFaults result.status (S.faults source.old) (S.faults source.new) (B.faults book.old) (B.faults book.new) }
    ensures write_faults { WriteFaults result.status (O.faults out.old) (O.faults out.new) (J.faults journal.old) (J.faults journal.new) }
    ensures silent { IsSilent result.status → (O.held out.new ≡ O.held out.old) × (J.held journal.new ≡ J.held journal.old) }
    ensures no_source { LeavesSource (asked (texts_of words.now)) → (S.left source.new ≡ S.left source.old) × (S.faults source.new ≡ S.faults source.old) }
    ensures no_journal { LeavesJournal (asked (texts_of words.now)) → (J.held journal.new ≡ J.held journal.old) × (J.faults journal.new ≡ J.faults journal.old) }
    ensures no_book { LeavesBook (asked (texts_of words.now)) → (B.left book.new ≡ B.left book.old) × (B.faults book.new ≡ B.faults book.old) }
{
    match asked(alloc, words) {
        Ok(Some(command)) => answer_command(alloc, command, source, book, out, journal),
        Ok(None) => untold(Status::Words),
        Err(_) => untold(Status::NoMemory),
    }
}

/// The answer of a command.
fn answer_command<S: Source, B: Source, O: Sink, J: Sink>(
    alloc: Global,
    command: Command,
    source: &mut S,
    book: &mut B,
    out: &mut O,
    journal: &mut J,
) -> Ended
    requires range { IsInRange command }
    ensures words { result.status ≡ Status.Words → ⊥ }
    ensures answer { ReadsSource command
        → AnswersSome command result (S.left source.old) (S.left source.new) (O.held out.old) (O.held out.new) (J.held journal.old) (J.held journal.new) }
    ensures trial { (seed size : ℕ) (options : Options) → command ≡ Command.Trial seed size options
        → AnswersTrial seed size options result (O.held out.old) (O.held out.new) (J.held journal.old) (J.held journal.new) }
    ensures generated { (seed size : ℕ) → command ≡ Command.Gen seed size
        → IsGenerated result.status seed size (O.held out.old) (O.held out.new) (J.held journal.old) (J.held journal.new) }
    ensures replayed { command ≡ Command.Replay
        → ReplaysSome result.status (S.left source.old) (S.left source.new) (B.left book.old) (B.left book.new) (O.held out.old) (O.held out.new) }
    ensures spanned { command ≡ Command.Span → SpansSome result.status (B.left book.old) (B.left book.new) (O.held out.old) (O.held out.new) }
    ensures told { Tells (Some command) result.status result.told }
    ensures read_faults { ReadFaults result.status (S.faults source.old) (S.faults source.new) (B.faults book.old) (B.faults book.new) }
    ensures write_faults { WriteFaults result.status (O.faults out.old) (O.faults out.new) (J.faults journal.old) (J.faults journal.new) }
    ensures silent { IsSilent result.status → (O.held out.new ≡ O.held out.old) × (J.held journal.new ≡ J.held journal.old) }
    ensures no_source { LeavesSource (Some command) → (S.left source.new ≡ S.left source.old) × (S.faults source.new ≡ S.faults source.old) }
    ensures no_journal { LeavesJournal (Some command) → (J.held journal.new ≡ J.held journal.old) × (J.faults journal.new ≡ J.faults journal.old) }
    ensures no_book { LeavesBook (Some command) → (B.left book.new ≡ B.left book.old) × (B.faults book.new ≡ B.faults book.old) }
{
    match command {
        Command::Gen { seed, size } => answer_gen(alloc, seed, size, out, journal),
        Command::Trial {
            seed,
            size,
            options,
        } => answer_trial(alloc, seed, size, options, out, journal),
        Command::Replay => untold(answer_replay(alloc, source, book, out)),
        Command::Span => untold(answer_span(alloc, book, out)),
        Command::Check | Command::Show | Command::List | Command::Run(_) => {
            answer_source(alloc, command, source, out, journal)
        }
    }
}

/// The answer of a command that reads the source.
fn answer_source<S: Source, O: Sink, J: Sink>(
    alloc: Global,
    command: Command,
    source: &mut S,
    out: &mut O,
    journal: &mut J,
) -> Ended
    requires range { IsInRange command }
    requires reads { HasSource command }
    ensures words { result.status ≡ Status.Words → ⊥ }
    ensures answer { AnswersSome command result (S.left source.old) (S.left source.new) (O.held out.old) (O.held out.new) (J.held journal.old) (J.held journal.new) }
    ensures told { Tells (Some command) result.status result.told }
    ensures read_faults { RisesBy result.status (S.faults source.old) (S.faults source.new) }
    ensures write_faults { WriteFaults result.status (O.faults out.old) (O.faults out.new) (J.faults journal.old) (J.faults journal.new) }
    ensures silent { IsSilent result.status → (O.held out.new ≡ O.held out.old) × (J.held journal.new ≡ J.held journal.old) }
    ensures no_journal { LeavesJournal (Some command) → (J.held journal.new ≡ J.held journal.old) × (J.faults journal.new ≡ J.faults journal.old) }
{
    // A fact that the condition of the answer rests on; the call does nothing.
    names_can_be_printed();
    match read_text(alloc, source) {
        Ok(text) => answer_text(alloc, command, text, out, journal),
        Err(status) => untold(status),
    }
}

/// The answer of a trial: that of a command on the text that is generated.
fn answer_trial<O: Sink, J: Sink>(
    alloc: Global,
    seed: u64,
    size: u32,
    options: Options,
    out: &mut O,
    journal: &mut J,
) -> Ended
    requires size { IsSize size }
    requires limits { IsAsked options.limits }
    ensures words { result.status ≡ Status.Words → ⊥ }
    ensures read { result.status ≡ Status.ReadFault → ⊥ }
    ensures answer { AnswersTrial seed size options result (O.held out.old) (O.held out.new) (J.held journal.old) (J.held journal.new) }
    ensures told { Tells (Some (Command.Trial seed size options)) result.status result.told }
    ensures write_faults { WriteFaults result.status (O.faults out.old) (O.faults out.new) (J.faults journal.old) (J.faults journal.new) }
    ensures silent { IsSilent result.status → (O.held out.new ≡ O.held out.old) × (J.held journal.new ≡ J.held journal.old) }
{
    let command = Command::Trial {
        seed,
        size,
        options,
    };
    match generate(alloc, seed, size) {
        Ok(bytes) => { answer_source(alloc, command, &mut SureSource::new(bytes), out, journal) }
        Err(_) => untold(Status::NoMemory),
    }
}

/// The answer of a command that writes the text that is generated.
fn answer_gen<O: Sink, J: Sink>(
    alloc: Global,
    seed: u64,
    size: u32,
    out: &mut O,
    journal: &mut J,
) -> Ended
    requires size { IsSize size }
    ensures words { result.status ≡ Status.Words → ⊥ }
    ensures read { result.status ≡ Status.ReadFault → ⊥ }
    ensures answer { IsGenerated result.status seed size (O.held out.old) (O.held out.new) (J.held journal.old) (J.held journal.new) }
    ensures told { result.told ≡ None }
    ensures write_faults { WriteFaults result.status (O.faults out.old) (O.faults out.new) (J.faults journal.old) (J.faults journal.new) }
    ensures silent { IsSilent result.status → (O.held out.new ≡ O.held out.old) × (J.held journal.new ≡ J.held journal.old) }
    ensures no_journal { (J.held journal.new ≡ J.held journal.old) × (J.faults journal.new ≡ J.faults journal.old) }
{
    match generate(alloc, seed, size) {
        Ok(output) => write_texts(Texts::Alone { output }, out, journal),
        Err(_) => untold(Status::NoMemory),
    }
}

/// This status, and no run.
fn untold(status: Status) -> Ended
    ensures status { result.status ≡ status }
    ensures told { result.told ≡ None }
{
    Ended { status, told: None }
}

/// The answer for the forms of a source.
fn answer_text<O: Sink, J: Sink>(
    alloc: Global,
    command: Command,
    text: Text,
    out: &mut O,
    journal: &mut J,
) -> Ended
    requires names { AreNames text.names }
    requires range { IsInRange command }
    requires reads { HasSource command }
    ensures answer { (old new : Option (List ℕ)) → ReadsAll text old new
        → AnswersSome command result old new (O.held out.old) (O.held out.new) (J.held journal.old) (J.held journal.new) }
    ensures told { Tells (Some command) result.status result.told }
    ensures read { result.status ≡ Status.ReadFault → ⊥ }
    ensures words { result.status ≡ Status.Words → ⊥ }
    ensures write_faults { WriteFaults result.status (O.faults out.old) (O.faults out.new) (J.faults journal.old) (J.faults journal.new) }
    ensures silent { IsSilent result.status → (O.held out.new ≡ O.held out.old) × (J.held journal.new ≡ J.held journal.old) }
    ensures no_journal { LeavesJournal (Some command) → (J.held journal.new ≡ J.held journal.old) × (J.faults journal.new ≡ J.faults journal.old) }
{
    // Facts that the clauses rest on; the calls do nothing.
    refused_at_most_once();
    programs_are_accepted();
    forms_have_kinds_of_their_own();
    names_have_kinds_of_their_own();
    match texts_of(alloc, command, text) {
        Ok(texts) => write_texts(texts, out, journal),
        Err(status) => untold(status),
    }
}

/// What a command writes. All of it is there before the first byte is written.
#[derive(Drop)]
enum Texts {
    /// What a host told of a run, and the text of its journal.
    Ran {
        told: Told,
        lines: Vec<u8>,
    },
    /// What a host told of a trial, its output with the summary, and the text of its journal.
    Tried {
        told: Told,
        output: Vec<u8>,
        lines: Vec<u8>,
    },
    /// An output, with no journal.
    Alone {
        output: Vec<u8>,
    },
}

/// The texts of a command on the forms of a source, unless something is wrong with them.
fn texts_of(alloc: Global, command: Command, text: Text) -> Result<Texts, Status>
    requires names { AreNames text.names }
    requires range { IsInRange command }
    requires reads { HasSource command }
    ensures texts { Gives command result text.names (forms_of text.forms) }
    ensures no_journal { LeavesJournal (Some command) → IfOk result (λ texts. lines_in texts ≡ []) }
{
    match accept(alloc, &text) {
        Ok(code) => match command {
            Command::Run(options) => texts_of_run(alloc, options, text.names, code),
            Command::Show => texts_of_show(alloc, &text),
            Command::Check => texts_of_check(alloc),
            Command::List => texts_of_list(alloc, &text.names, &code),
            Command::Trial {
                seed,
                size,
                options,
            } => texts_of_trial(alloc, seed, size, options, text.names, code),
            // They make nothing of a source alone.
            Command::Gen { .. } | Command::Replay | Command::Span => unreachable!(),
        },
        Err(status) => Err(status),
    }
}

/// The texts of the run of a program's code.
fn texts_of_run(alloc: Global, options: Options, names: Names, code: Code) -> Result<Texts, Status>
    requires names { AreNames names }
    requires limits { IsAsked options.limits }
    ensures { (forms : Forms) (program : Program) → Makes names forms program → code ≡ compiled program → Gives (Command.Run options) result names forms }
{
    // Facts that the clause rests on; the calls do nothing.
    scoped_is_compilable();
    code_follows_program();
    code_is_planned_as_program();
    journals_are_legal();
    killed_only_clean_up();
    match run_code(alloc, options.limits, names, code) {
        Ok((told, lines)) => Ok(Texts::Ran { told, lines }),
        Err(_) => Err(Status::NoMemory),
    }
}

/// The texts of the trial of a program's code.
fn texts_of_trial(
    alloc: Global,
    seed: u64,
    size: u32,
    options: Options,
    names: Names,
    code: Code,
) -> Result<Texts, Status>
    requires names { AreNames names }
    requires limits { IsAsked options.limits }
    ensures { (forms : Forms) (program : Program) → Makes names forms program → code ≡ compiled program → Gives (Command.Trial seed size options) result names forms }
{
    // Facts that the clause rests on; the calls do nothing.
    scoped_is_compilable();
    code_follows_program();
    code_is_planned_as_program();
    journals_are_legal();
    killed_only_clean_up();
    let Ok((told, lines)) = run_code(alloc, options.limits, names, code) else {
        return Err(Status::NoMemory);
    };
    match with_summary(alloc, told.output(), seed, size, told.stop()) {
        Ok(output) => Ok(Texts::Tried {
            told,
            output,
            lines,
        }),
        Err(_) => Err(Status::NoMemory),
    }
}

/// What was printed, and the summary of a trial.
fn with_summary(
    alloc: Global,
    printed: &[u8],
    seed: u64,
    size: u32,
    stop: Stop,
) -> Result<Vec<u8>, AllocError>
    ensures { IfOk result (λ output. output.items ≡ printed.now ++ summary seed size stop) }
{
    let mut output = Vec::from_slice(alloc, printed)?;
    write_summary(seed, size, stop, &mut output)?;
    Ok(output)
}

/// Runs this code by one worker under these limits: what a host tells of it, and the text of its journal.
fn run_code(
    alloc: Global,
    limits: Limits,
    names: Names,
    code: Code,
) -> Result<(Told, Vec<u8>), AllocError>
    requires names { AreNames names }
    requires limits { IsAsked limits }
    ensures { IfOk result (λ ran. IsRunOf code names limits ran.0 ran.1.items) }
{
    let told = run(alloc, code, names, limits)?;
    let mut lines = Vec::new(alloc);
    write_journal(alloc, told.journal(), &mut lines)?;
    Ok((told, lines))
}

/// Each form of a source on a line of its own.
fn texts_of_show(alloc: Global, text: &Text) -> Result<Texts, Status>
    ensures texts { (program : Program) → Makes text.now.names (forms_of text.now.forms) program → Gives Command.Show result text.now.names (forms_of text.now.forms) }
    ensures no_journal { IfOk result (λ texts. lines_in texts ≡ []) }
{
    match lines_of(alloc, text) {
        Ok(output) => Ok(Texts::Alone { output }),
        Err(_) => Err(Status::NoMemory),
    }
}

/// That nothing refuses a source.
fn texts_of_check(alloc: Global) -> Result<Texts, Status>
    ensures texts { (names : List (List ℕ)) (forms : Forms) (program : Program) → Makes names forms program → Gives Command.Check result names forms }
    ensures no_journal { IfOk result (λ texts. lines_in texts ≡ []) }
{
    match Vec::from_slice(alloc, b"ok\n") {
        Ok(output) => Ok(Texts::Alone { output }),
        Err(_) => Err(Status::NoMemory),
    }
}

/// The listing of a program's code.
fn texts_of_list(alloc: Global, names: &Names, code: &Code) -> Result<Texts, Status>
    ensures texts { (forms : Forms) (program : Program) → Makes names.now forms program → code.now ≡ compiled program → Gives Command.List result names.now forms }
    ensures no_journal { IfOk result (λ texts. lines_in texts ≡ []) }
{
    let mut output = Vec::new(alloc);
    match write_listing(alloc, code, names, &mut output) {
        Ok(()) => Ok(Texts::Alone { output }),
        Err(_) => Err(Status::NoMemory),
    }
}

/// Writes the texts of a command.
fn write_texts<O: Sink, J: Sink>(texts: Texts, out: &mut O, journal: &mut J) -> Ended
    ensures written { Written result.status (stop_in texts) (output_in texts) (lines_in texts) (O.held out.old) (O.held out.new) (J.held journal.old) (J.held journal.new) }
    ensures told { result.told ≡ told_in texts }
    ensures loud { IsSilent result.status → ⊥ }
    ensures write_faults { WriteFaults result.status (O.faults out.old) (O.faults out.new) (J.faults journal.old) (J.faults journal.new) }
    ensures no_journal { lines_in texts ≡ [] → (J.held journal.new ≡ J.held journal.old) × (J.faults journal.new ≡ J.faults journal.old) }
{
    match texts {
        Texts::Ran { told, lines } => {
            let status = write_stopped(told.stop(), told.output(), lines.as_slice(), out, journal);
            Ended {
                status,
                told: Some(told),
            }
        }
        Texts::Tried {
            told,
            output,
            lines,
        } => {
            let status = write_stopped(
                told.stop(),
                output.as_slice(),
                lines.as_slice(),
                out,
                journal,
            );
            Ended {
                status,
                told: Some(told),
            }
        }
        Texts::Alone { output } => untold(write_stopped(
            Stop::Done,
            output.as_slice(),
            b"",
            out,
            journal,
        )),
    }
}

/// Writes an output and the lines of a journal. The status is that of the stop, where both were taken.
fn write_stopped<O: Sink, J: Sink>(
    stop: Stop,
    output: &[u8],
    lines: &[u8],
    out: &mut O,
    journal: &mut J,
) -> Status
    ensures written { Written result stop output.now lines.now (O.held out.old) (O.held out.new) (J.held journal.old) (J.held journal.new) }
    ensures loud { IsSilent result → ⊥ }
    ensures write_faults { WriteFaults result (O.faults out.old) (O.faults out.new) (J.faults journal.old) (J.faults journal.new) }
    ensures no_journal { lines.now ≡ [] → (J.held journal.new ≡ J.held journal.old) × (J.faults journal.new ≡ J.faults journal.old) }
{
    match write_both(out, output, journal, lines) {
        Ok(()) => status_of(stop),
        Err(Failed) => Status::WriteFault,
    }
}

/// Writes the output, and once that was taken whole the journal.
fn write_both<O: Sink, J: Sink>(
    out: &mut O,
    output: &[u8],
    journal: &mut J,
    lines: &[u8],
) -> Result<(), Failed>
    ensures output { OnOk result (Appends output.now (O.held out.old) (O.held out.new)) }
    ensures journal { OnOk result (Appends lines.now (J.held journal.old) (J.held journal.new)) }
    ensures cut_off { OnErr result (IsCutOff output.now lines.now (O.held out.old) (O.held out.new) (J.held journal.old) (J.held journal.new)) }
    ensures kept { OnOk result ((O.faults out.new ≡ O.faults out.old) × (J.faults journal.new ≡ J.faults journal.old)) }
    ensures failed { OnErr result (WriteFaults Status.WriteFault (O.faults out.old) (O.faults out.new) (J.faults journal.old) (J.faults journal.new)) }
    ensures no_lines { lines.now ≡ [] → (J.held journal.new ≡ J.held journal.old) × (J.faults journal.new ≡ J.faults journal.old) }
{
    match write_text(out, output) {
        Ok(()) => write_text(journal, lines),
        Err(Failed) => Err(Failed),
    }
}
