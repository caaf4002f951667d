//! Room for processes that a tick makes.

ghost use Rattle.std.specs.Prelude.{◌≡◌, ◌<◌, ◌≤◌, ◌+◌, ◌++◌, length, vec_capacity, vec_len};

use ql_proc::process::Proc;

/// Takes processes in, after the others.
pub fn take_in(procs: &mut Vec<Proc>, made: Vec<Proc>)
    requires { vec_len procs.old + length made.items ≤ vec_capacity procs.old }
    ensures { procs.new.items ≡ procs.old.items ++ made.items }
{
    'moves: for proc in made {
        let _ = procs.push(proc);
    }
}
