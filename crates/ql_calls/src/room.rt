//! Room for more things, which numbers of 32 bits count.

ghost use Rattle.std.specs.Prelude.{◌≡◌, ◌+◌, ◌<◌, ◌≤◌, ◌++◌, ◌∷◌, [], OnOk, IsOk, vec_len, vec_capacity};
ghost use Rattle.ql_calls.specs.Room.{room};

use std::alloc::AllocError;

/// How many things numbers of 32 bits count.
const MOST: usize = 4_294_967_295;

/// For how many more things there is room.
pub(crate) fn room<T>(things: &Vec<T>) -> u64
    ensures { result ≡ room (vec_capacity things.now) (vec_len things.now) }
{
    things.capacity().min(MOST).saturating_sub(things.len()) as u64
}

/// Makes room for so many more.
pub(crate) fn make_room<T>(things: &mut Vec<T>, n: u64) -> Result<(), AllocError>
    ensures items { things.new.items ≡ things.old.items }
    ensures len { vec_len things.new ≡ vec_len things.old }
    ensures capacity { vec_capacity things.old ≤ vec_capacity things.new }
    ensures ok { OnOk result (n ≤ room (vec_capacity things.new) (vec_len things.new)) }
    ensures room { n ≤ room (vec_capacity things.old) (vec_len things.old) → IsOk result }
{
    if n > MOST.saturating_sub(things.len()) as u64 {
        return Err(AllocError);
    }
    things.reserve(n as usize)
}

/// Adds a thing last.
pub(crate) fn put<T: Drop>(things: &mut Vec<T>, thing: T)
    requires { 0 < room (vec_capacity things.old) (vec_len things.old) }
    ensures items { things.new.items ≡ things.old.items ++ thing ∷ [] }
    ensures len { vec_len things.new ≡ vec_len things.old + 1 }
    ensures few { vec_len things.new ≤ 4294967295 }
    ensures capacity { vec_capacity things.old ≤ vec_capacity things.new }
{
    let _ = things.push(thing);
}
