//! The summary of a trial.

ghost use Rattle.std.specs.Prelude.{◌≡◌, ◌++◌, OnOk};
ghost use Rattle.ql_top.specs.Summary.{summary};

use ql_journal::write::{put_numbers, put_stop};
use ql_world::event::Stop;
use std::alloc::AllocError;

/// Appends the line that tells the numbers of a trial and how its run stopped. An `Err` is want of memory; some of the line may
/// stand then.
pub fn write_summary(seed: u64, size: u32, stop: Stop, to: &mut Vec<u8>) -> Result<(), AllocError>
    ensures { OnOk result (to.new.items ≡ to.old.items ++ summary seed size stop) }
{
    to.extend_from_slice(b"trial")?;
    put_numbers(to, &[seed, u64::from(size)])?;
    put_stop(to, stop)?;
    to.extend_from_slice(b"\n")
}
