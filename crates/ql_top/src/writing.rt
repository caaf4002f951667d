//! A whole text is written.

ghost use Rattle.std.specs.Prelude.{◌≡◌, ◌≤◌, ◌<◌, ◌+◌, ℕ, [], IfOk, OnOk, OnErr, length, take, drop};
ghost use Rattle.ql_base.specs.Outside.{HasRisen, Appends, AppendsFront};
ghost use Rattle.ql_top.specs.Top.{Shows, WriteFaults};

use crate::status::Status;
use ql_base::outside::{Failed, Sink};

/// The greatest number of bytes that one call of a sink is offered.
const MOST: usize = 4096;

/// Writes the text by calls with the next bytes, at most 4,096 of them. What a call leaves is offered
/// again; a call that failed isn't tried again.
pub fn write_text<S: Sink>(sink: &mut S, text: &[u8]) -> Result<(), Failed>
    ensures whole { OnOk result (Appends text.now (S.held sink.old) (S.held sink.new)) }
    ensures kept { OnOk result (S.faults sink.new ≡ S.faults sink.old) }
    ensures front { OnErr result (AppendsFront text.now (S.held sink.old) (S.held sink.new)) }
    ensures failed { OnErr result (HasRisen (S.faults sink.old) (S.faults sink.new)) }
    ensures nothing { text.now ≡ [] → result ≡ Ok tt }
{
    let mut at = 0;
    'pieces: while at < text.len() {
        match write_piece(sink, text, at) {
            Ok(n) => at += n,
            Err(Failed) => return Err(Failed),
        }
    }
    Ok(())
}

/// Writes the output of a command that goes no other way. The status is done, where all of it was taken.
pub fn write_output<O: Sink>(out: &mut O, output: &[u8]) -> Status
    ensures shows { Shows result output.now (O.held out.old) (O.held out.new) }
    ensures faults { (count : ℕ) → WriteFaults result (O.faults out.old) (O.faults out.new) count count }
{
    match write_text(out, output) {
        Ok(()) => Status::Done,
        Err(Failed) => Status::WriteFault,
    }
}

// One call, with the next bytes from this place on.
fn write_piece<S: Sink>(sink: &mut S, text: &[u8], at: usize) -> Result<usize, Failed>
    requires { at < length text.now }
    ensures some { IfOk result (λ n. (0 < n) × (at + n ≤ length text.now)) }
    ensures written { IfOk result (λ n. Appends (take n (drop at text.now)) (S.held sink.old) (S.held sink.new)) }
    ensures kept { OnOk result (S.faults sink.new ≡ S.faults sink.old) }
    ensures same { OnErr result (S.held sink.new ≡ S.held sink.old) }
    ensures failed { OnErr result (HasRisen (S.faults sink.old) (S.faults sink.new)) }
{
    let most = (text.len() - at).min(MOST);
    sink.write(&text[at..at + most])
}
