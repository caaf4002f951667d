//! Programs: what a source means once its sugar is expanded.

ghost use Rattle.std.specs.Prelude.{◌≡◌, true, map};
ghost use Rattle.ql_expand.specs.Core.{program};
ghost use Rattle.ql_expand.specs.Primitives.{program_below};
ghost use Rattle.ql_expand.specs.View.{function_of, cores_of};

use crate::core_form::{Core, Function};
use sqlite_items::Items;

/// A program, everything in the order of the source, whose constants it shares. It keeps that each
/// number in it is that of a name.
#[derive(Drop)]
pub struct Program<'a> {
    pub functions: Items<Function<'a>>,
    /// The names of the `defvar` forms, with repeats.
    pub globals: Items<u32>,
    /// The top forms but for the functions.
    pub body: Items<Core<'a>>,
    /// How many names the source's table has, the reserved words among them.
    pub names: u32,
    pub ghost numbered: { program_below names (program (map function_of functions) globals (cores_of body)) ≡ true },
}
