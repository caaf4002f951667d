//! Names in the lines that are written.

ghost use Rattle.std.specs.Prelude.{◌≡◌};
ghost use Rattle.ql_world.specs.Text.{fault_name, limit_name};
ghost use Rattle.ql_top.specs.Texts.{refusal_name};

use ql_base::fault::RunFault;
use ql_base::limits::LimitKind;

/// The name of a run error.
pub fn fault_name(kind: RunFault) -> &'static [u8]
    ensures { result.now ≡ fault_name kind }
{
    match kind {
        RunFault::Overflow => b"overflow",
        RunFault::NotNumber => b"notnumber",
        RunFault::NotPair => b"notpair",
        RunFault::DivZero => b"divzero",
        RunFault::Unbound => b"unbound",
        RunFault::NoCatch => b"nocatch",
        RunFault::DeadFuture => b"deadfuture",
        RunFault::DeadClosure => b"deadclosure",
        RunFault::WrongCount => b"wrongcount",
        RunFault::NotFunction => b"notfunction",
        RunFault::InCleanup => b"incleanup",
    }
}

/// The name of a limit.
pub fn limit_name(kind: LimitKind) -> &'static [u8]
    ensures { result.now ≡ limit_name kind }
{
    match kind {
        LimitKind::Cells => b"cells",
        LimitKind::Procs => b"procs",
        LimitKind::Output => b"output",
    }
}

/// The name of a kind of refusal.
#[tactic(auto, unfolding(crate::specs::Texts::refusal_name))]
pub fn refusal_name(kind: u8) -> &'static [u8]
    ensures { result.now ≡ refusal_name kind }
{
    match kind {
        1 => b"badbyte",
        2 => b"strayclose",
        3 => b"baddot",
        4 => b"badnumber",
        5 => b"longname",
        6 => b"toodeep",
        7 => b"toolong",
        8 => b"unfinished",
        10 => b"badtop",
        11 => b"reservedname",
        12 => b"unbound",
        13 => b"nofunction",
        14 => b"twice",
        15 => b"wrongcount",
        17 => b"shadow",
        18 => b"toomany",
        19 => b"codetoolong",
        20 => b"badline",
        21 => b"nostop",
        22 => b"bigbook",
        _ => b"badshape",
    }
}
