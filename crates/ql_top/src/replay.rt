//! A book that a source is followed along, as a command.

ghost use Rattle.std.specs.Prelude.{◌≡◌, ℕ, List, Option};
ghost use Rattle.ql_code.specs.Machine.{code_told};
ghost use Rattle.ql_host.specs.Host.{AreNames};
ghost use Rattle.ql_top.specs.Acts.{HoldsOfBook, ReplaysSome};
ghost use Rattle.ql_top.specs.Reading.{ReadsAll, RisesBy, ReadFaults};
ghost use Rattle.ql_top.specs.Replay.{EndsFollowing};
ghost use Rattle.ql_top.specs.Top.{IsSilent, WriteFaults};

use crate::accept::accept;
use crate::laws::{names_can_be_printed, programs_are_accepted, refused_at_most_once};
use crate::reading::read_text;
use crate::status::Status;
use crate::writing::write_output;
use ql_base::names::Names;
use ql_base::outside::{Sink, Source};
use ql_code::code::Code;
use ql_compile::laws::code_follows_program;
use ql_expand::laws::forms_have_kinds_of_their_own;
use ql_forms::text::Text;
use ql_replay::laws::verdicts_carry_over;
use ql_replay::replay::replay;
use ql_replay::verdict::{ReplayFault, Verdict};
use ql_scope::laws::{names_have_kinds_of_their_own, scoped_is_compilable};
use std::alloc::Global;

/// Reads a source, and where nothing refuses it follows the book along its program: where the book is one of its journals the
/// output of that run is written.
pub fn answer_replay<S: Source, B: Source, O: Sink>(
    alloc: Global,
    source: &mut S,
    book: &mut B,
    out: &mut O,
) -> Status
    ensures answer { ReplaysSome result (S.left source.old) (S.left source.new) (B.left book.old) (B.left book.new) (O.held out.old) (O.held out.new) }
    ensures words { result ≡ Status.Words → ⊥ }
    ensures read_faults { ReadFaults result (S.faults source.old) (S.faults source.new) (B.faults book.old) (B.faults book.new) }
    ensures write_faults { (count : ℕ) → WriteFaults result (O.faults out.old) (O.faults out.new) count count }
    ensures silent { IsSilent result → O.held out.new ≡ O.held out.old }
{
    // A fact that the condition of the answer rests on; the call does nothing.
    names_can_be_printed();
    match read_text(alloc, source) {
        Ok(text) => replay_text(alloc, text, book, out),
        Err(status) => status,
    }
}

/// The same for the forms of a source that was read.
fn replay_text<B: Source, O: Sink>(alloc: Global, text: Text, book: &mut B, out: &mut O) -> Status
    requires names { AreNames text.names }
    ensures answer { (old new : Option (List ℕ)) → ReadsAll text old new
        → ReplaysSome result old new (B.left book.old) (B.left book.new) (O.held out.old) (O.held out.new) }
    ensures words { result ≡ Status.Words → ⊥ }
    ensures read_faults { RisesBy result (B.faults book.old) (B.faults book.new) }
    ensures write_faults { (count : ℕ) → WriteFaults result (O.faults out.old) (O.faults out.new) count count }
    ensures silent { IsSilent result → O.held out.new ≡ O.held out.old }
{
    // Facts that the clauses rest on; the calls do nothing.
    refused_at_most_once();
    programs_are_accepted();
    forms_have_kinds_of_their_own();
    names_have_kinds_of_their_own();
    scoped_is_compilable();
    code_follows_program();
    verdicts_carry_over();
    match accept(alloc, &text) {
        Ok(code) => follow_code(alloc, code, text.names, book, out),
        Err(status) => status,
    }
}

/// Follows the book along this code.
fn follow_code<B: Source, O: Sink>(
    alloc: Global,
    code: Code,
    names: Names,
    book: &mut B,
    out: &mut O,
) -> Status
    requires names { AreNames names }
    ensures answer { HoldsOfBook (λ held rest. EndsFollowing result (code_told names code) held rest (O.held out.old) (O.held out.new)) (B.left book.old) (B.left book.new) }
    ensures read_faults { RisesBy result (B.faults book.old) (B.faults book.new) }
    ensures write_faults { (count : ℕ) → WriteFaults result (O.faults out.old) (O.faults out.new) count count }
    ensures silent { IsSilent result → O.held out.new ≡ O.held out.old }
{
    match replay(alloc, code, names, book) {
        Ok(Verdict::Same(output)) => write_output(out, output.as_slice()),
        Ok(Verdict::Differs { line }) => Status::Differs { line },
        Err(ReplayFault::Book) => Status::ReadFault,
        Err(ReplayFault::Memory(_)) => Status::NoMemory,
    }
}
