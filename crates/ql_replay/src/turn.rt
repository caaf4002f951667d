//! Turns of a book.

ghost use Rattle.std.specs.Prelude.{◌≡◌, ◌<◌, ◌≤◌, ◌-◌, IfOk, OnOk};
ghost use Rattle.ql_replay.specs.Replay.{can_end, of_turn};
ghost use Rattle.ql_replay.specs.Following.{Tells, TakesMore};

use crate::followed::Followed;
use std::alloc::AllocError;

/// Takes more ticks of a turn that has so many, at most as many as it lacks. It is 0 where it takes none.
fn take_more<H: Followed>(host: &mut H, p: u32, taken: u64, all: u64) -> Result<u64, AllocError>
    requires { taken < all }
    ensures same { OnOk result ((H.host host.new ≡ H.host host.old) × (H.line host.new ≡ H.line host.old)) }
    ensures few { IfOk result (λ n. n ≤ all - taken) }
    ensures took { IfOk result (λ n. TakesMore (H.host host.old) p taken n (H.world host.old) (H.world host.new)) }
{
    if taken > 0 && !host.is_quiet() {
        return Ok(0);
    }
    if host.has_stopped() {
        return Ok(0);
    }
    host.ticks(p, all - taken)
}

/// Whether a turn of the process can end here.
fn can_end<H: Followed>(host: &mut H, p: u32) -> bool
    ensures same { (H.host host.new ≡ H.host host.old) × ((H.line host.new ≡ H.line host.old) × (H.world host.new ≡ H.world host.old)) }
    ensures can { result ≡ can_end (H.host host.old) (H.world host.old) p }
{
    !host.is_quiet() || host.has_stopped() || host.has_other(p)
}

/// Takes a whole turn, where the run can go on by it.
pub fn take_turn<H: Followed>(host: &mut H, p: u32, n: u64) -> Result<bool, AllocError>
    ensures same { OnOk result ((H.host host.new ≡ H.host host.old) × (H.line host.new ≡ H.line host.old)) }
    ensures took { IfOk result (λ took. Tells took (of_turn (H.host host.old) (H.world host.old) p n) (H.world host.new)) }
{
    if n == 0 || host.goes_on(p) {
        return Ok(false);
    }
    let mut taken = 0;
    'ticks: while taken < n {
        let more = take_more(host, p, taken, n)?;
        if more == 0 {
            return Ok(false);
        }
        taken += more;
    }
    Ok(can_end(host, p))
}
