//! Programs that are in scope.

ghost use Rattle.std.specs.Prelude.{◌≡◌};
ghost use Rattle.ql_expand.specs.Core as core;
ghost use Rattle.ql_expand.specs.View.{name_of};
ghost use Rattle.ql_expand.specs.ProgramView.{program_of};
ghost use Rattle.ql_scope.specs.Scoped.{HasScope};
ghost use Rattle.ql_scope.specs.Stored.{is_stored};

use crate::variable::Variable;
use indexmap::IndexSet;
use ql_base::numbers::Offset;
use ql_expand::core_form::VarName;
use ql_expand::program::Program;

/// A program in which nothing is wrong with the names.
#[derive(Drop)]
pub struct Scoped<'a> {
    pub program: Program<'a>,
    /// The variables that some `setq` names.
    pub(crate) stored: IndexSet<Variable>,
    pub ghost scoped: { ∥ HasScope (program_of program) program.names stored.keys ∥₁ },
}

impl<'a> Scoped<'a> {
    /// The program.
    pub fn program(&self) -> &Program<'a>
        ensures { result.now ≡ self.now.program }
    {
        &self.program
    }

    /// Whether some `setq` names the variable of the binder with this offset and name.
    pub fn is_stored(&self, binder: Offset, name: &VarName) -> bool
        ensures { result ≡ is_stored (program_of self.now.program) (core.binder binder.0 (name_of name.now)) }
    {
        match *name {
            VarName::Sym(number) => self.stored.contains(&Variable {
                at: binder.0,
                name: number,
            }),
            VarName::Hidden(_) => false,
        }
    }
}
