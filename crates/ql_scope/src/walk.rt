//! The way through the forms of a program, with the binders above each of them.

ghost use Rattle.std.specs.Prelude.{◌≡◌, ◌≤◌, ◌++◌, ◌∷◌, List, [], IfOk, OnOk, length, map, take};
ghost use Rattle.ql_expand.specs.Core as core;
ghost use Rattle.ql_expand.specs.Core.{lambda};
ghost use Rattle.ql_base.specs.Refusal.{fault, first_of, where_true};
ghost use Rattle.ql_expand.specs.Primitives.{count_of};
ghost use Rattle.ql_expand.specs.View.{core_of, node_of, cores_of, binder_of, binders_of, bounds_of, name_of, function_of};
ghost use Rattle.ql_scope.specs.Scope.{core_faults, node_faults, cores_faults, arguments_faults, values_faults, list_faults, binder_faults, use_faults, count_faults, functions_faults, binders_in, names_at, head_of, parameter_count};
ghost use Rattle.ql_scope.specs.Stored.{stored_in, stored_in_node, stored_in_cores, stored_in_values, stored_in_functions, binder_set};
ghost use Rattle.ql_scope.specs.CheckWalk.{Adds, above, place_in, seen_under, variable_of};

use crate::binder_stack::BinderStack;
use crate::table::{numbers_among, parameter_counts, value_at};
use crate::variable::Variable;
use indexmap::IndexSet;
use ql_base::numbers::Offset;
use ql_base::refusal::{Fault, FaultKind, find_if};
use ql_expand::core_form::{Binder, Bound, Core, Function, Node, VarName};
use ql_expand::program::Program;
use std::alloc::{AllocError, Global};
use std::marker::Model;

/// What is found on the way: the first fault, and the variables that some `setq` names.
#[derive(Drop)]
pub struct Found {
    pub first: Option<Fault>,
    pub stored: IndexSet<Variable>,
}

/// How many parameters or bindings a list has at most, and how many arguments `funcall`.
const MOST: usize = 16;

/// A walk through a program: what the place at hand sees, and what was found so far.
#[derive(Drop)]
pub struct Walk<'p, 'a> {
    program: &'p Program<'a>,
    /// By number, how many parameters the first function of that name has.
    parameters: Vec<Option<usize>>,
    /// By number, whether it is that of a global.
    globals: Vec<Option<()>>,
    above: BinderStack,
    first: Option<Fault>,
    stored: IndexSet<Variable>,
}

impl<'p, 'a> Model for Walk<'p, 'a> {
    ghost use Rattle.std.specs.Prelude.{map};
    ghost use Rattle.ql_expand.specs.View.{function_of};
    ghost use Rattle.ql_scope.specs.Scope.{head_of};
    ghost use Rattle.ql_scope.specs.CheckTables.{HasTables};
    ghost use Rattle.ql_scope.specs.CheckWalk.{Walk, variable_of};

    ghost Value = { Walk };

    ghost view = { λ s. record {
      seen = record {
        functions = map head_of (map function_of s.program.now.functions);
        globals = s.program.now.globals;
        row = s.above;
      };
      first = s.first;
      stored = map variable_of s.stored.keys;
    } };

    ghost invariant = { λ s. HasTables (map head_of (map function_of s.program.now.functions)) s.program.now.globals s.parameters.items s.globals.items };
}

impl<'p, 'a> Walk<'p, 'a> {
    /// A walk at the top of a program, with the first fault so far.
    pub fn new(
        alloc: Global,
        program: &'p Program<'a>,
        first: Option<Fault>,
    ) -> Result<Walk<'p, 'a>, AllocError>
        ensures { IfOk result (λ s. s ≡ record {
          seen = record {
            functions = map head_of (map function_of program.now.functions);
            globals = program.now.globals;
            row = [];
          };
          first = first;
          stored = [];
        }) }
    {
        let parameters = parameter_counts(alloc, program.names, program.functions.as_slice())?;
        let globals = numbers_among(alloc, program.names, program.globals.as_slice())?;
        Ok(Walk {
            program,
            parameters,
            globals,
            above: BinderStack::new(alloc, program.names)?,
            first,
            stored: IndexSet::new(alloc),
        })
    }

    /// The first fault, and the variables that some `setq` names.
    pub fn finish(self) -> Found
        ensures first { result.first ≡ self.entry.first }
        ensures stored { map variable_of result.stored.keys ≡ self.entry.stored }
    {
        let Walk { first, stored, .. } = self;
        Found { first, stored }
    }

    /// Functions, which see no variables but their parameters.
    pub fn functions(&mut self, functions: &[Function<'a>]) -> Result<(), AllocError>
        requires { self.old.seen.row ≡ [] }
        ensures { OnOk result (Adds self.old self.new (λ s. functions_faults (place_in s) (map function_of functions.now)) (λ s. stored_in_functions (map function_of functions.now))) }
    {
        for function in functions {
            self.under_params(&function.body, function.params.as_slice())?;
        }
        Ok(())
    }

    /// A core form at the place at hand.
    #[cycle(walk)]
    pub fn core(&mut self, core: &Core<'a>) -> Result<(), AllocError>
        ensures { OnOk result (Adds self.old self.new (λ s. core_faults (place_in s) (core_of core.now)) (λ s. stored_in (above s) (core_of core.now))) }
    {
        self.node(core.at, &core.node)
    }

    #[cycle(walk)]
    fn node(&mut self, at: Offset, node: &Node<'a>) -> Result<(), AllocError>
        ensures { OnOk result (Adds self.old self.new (λ s. node_faults (place_in s) at.0 (node_of node.now)) (λ s. stored_in_node (above s) (node_of node.now))) }
    {
        match node {
            Node::Const(_) => Ok(()),
            Node::Var(name) => {
                self.used(*name, at);
                Ok(())
            }
            Node::Setq { name, named, value } => {
                self.set(*name, *named)?;
                self.core(value.get())
            }
            Node::If { test, then, other } => {
                self.core(test.get())?;
                self.core(then.get())?;
                self.core(other.get())
            }
            Node::Progn(forms) => self.cores(forms.as_slice()),
            Node::Let { binds, body } => {
                self.values(binds.as_slice())?;
                self.under_variables(body.get(), binds.as_slice())
            }
            Node::Prim { args, .. } => self.cores(args.as_slice()),
            Node::Print(form) => self.core(form.get()),
            Node::Call { name, named, args } => {
                self.called(*name, *named, args.as_slice());
                self.cores(args.as_slice())
            }
            Node::Funcall { fun, args, .. } => {
                self.core(fun.get())?;
                self.arguments(args.as_slice())
            }
            Node::Lambda { params, body } => { self.under_params(body.get(), params.as_slice()) }
            Node::Qlet { prop, binds, body } => {
                self.core(prop.get())?;
                self.values(binds.as_slice())?;
                self.under_variables(body.get(), binds.as_slice())
            }
            Node::Qlambda { prop, params, body } => {
                self.core(prop.get())?;
                self.under_params(body.get(), params.as_slice())
            }
            Node::Catch { tag, body } => {
                self.core(tag.get())?;
                self.core(body.get())
            }
            Node::Qcatch { tag, body } => {
                self.core(tag.get())?;
                self.core(body.get())
            }
            Node::Throw { tag, value } => {
                self.core(tag.get())?;
                self.core(value.get())
            }
            Node::Protect { value, cleanup } => {
                self.core(value.get())?;
                self.core(cleanup.get())
            }
            Node::Defvar { value, .. } => self.core(value.get()),
        }
    }

    /// Core forms at the place at hand.
    #[cycle(walk)]
    pub fn cores(&mut self, cores: &[Core<'a>]) -> Result<(), AllocError>
        ensures { OnOk result (Adds self.old self.new (λ s. cores_faults (place_in s) (cores_of cores.now)) (λ s. stored_in_cores (above s) (cores_of cores.now))) }
    {
        for core in cores {
            self.core(core)?;
        }
        Ok(())
    }

    // The arguments of `funcall`.
    #[cycle(walk)]
    fn arguments(&mut self, cores: &[Core<'a>]) -> Result<(), AllocError>
        ensures { OnOk result (Adds self.old self.new (λ s. arguments_faults (place_in s) 0 (cores_of cores.now)) (λ s. stored_in_cores (above s) (cores_of cores.now))) }
    {
        for (i, core) in cores.iter().enumerate() {
            self.find_if(i == MOST, FaultKind::TooMany, core.at);
            self.core(core)?;
        }
        Ok(())
    }

    // The values of bindings, which don't see the variables.
    #[cycle(walk)]
    fn values(&mut self, binds: &[Bound<'a>]) -> Result<(), AllocError>
        ensures { OnOk result (Adds self.old self.new (λ s. values_faults (place_in s) (bounds_of binds.now)) (λ s. stored_in_values (above s) (bounds_of binds.now))) }
    {
        for bound in binds {
            self.core(&bound.value)?;
        }
        Ok(())
    }

    // A body under the variables of bindings.
    #[cycle(walk)]
    fn under_variables(&mut self, body: &Core<'a>, binds: &[Bound<'a>]) -> Result<(), AllocError>
        ensures { OnOk result (Adds self.old self.new (λ s. node_faults (place_in s) 0 (lambda (binders_in (bounds_of binds.now)) (core_of body.now))) (λ s. stored_in_node (above s) (lambda (binders_in (bounds_of binds.now)) (core_of body.now)))) }
    {
        let outer = self.depth();
        self.bind_variables(binds)?;
        self.core(body)?;
        self.leave(outer);
        Ok(())
    }

    // A body under parameters.
    #[cycle(walk)]
    fn under_params(&mut self, body: &Core<'a>, params: &[Binder]) -> Result<(), AllocError>
        ensures { OnOk result (Adds self.old self.new (λ s. node_faults (place_in s) 0 (lambda (binders_of params.now) (core_of body.now))) (λ s. stored_in_node (above s) (lambda (binders_of params.now) (core_of body.now)))) }
    {
        let outer = self.depth();
        self.bind_params(params)?;
        self.core(body)?;
        self.leave(outer);
        Ok(())
    }

    // Goes under parameters, and finds what is wrong in their list.
    fn bind_params(&mut self, params: &[Binder]) -> Result<(), AllocError>
        ensures first { OnOk result (self.new.first ≡ first_of self.old.first (list_faults (place_in self.old.seen) (binders_of params.now))) }
        ensures stored { OnOk result (self.new.stored ≡ self.old.stored) }
        ensures seen { OnOk result (self.new.seen ≡ seen_under (binders_of params.now) self.old.seen) }
    {
        let outer = self.depth();
        for binder in params {
            self.bind(outer, *binder)?;
        }
        Ok(())
    }

    // Goes under the variables of bindings, and finds what is wrong in their list.
    fn bind_variables(&mut self, binds: &[Bound<'a>]) -> Result<(), AllocError>
        ensures first { OnOk result (self.new.first ≡ first_of self.old.first (list_faults (place_in self.old.seen) (binders_in (bounds_of binds.now)))) }
        ensures stored { OnOk result (self.new.stored ≡ self.old.stored) }
        ensures seen { OnOk result (self.new.seen ≡ seen_under (binders_in (bounds_of binds.now)) self.old.seen) }
    {
        let outer = self.depth();
        for bound in binds {
            self.bind(outer, bound.binder)?;
        }
        Ok(())
    }

    // Goes under a binder, and finds what is wrong with it, where so many binders are outside of its list.
    fn bind(&mut self, outer: usize, binder: Binder) -> Result<(), AllocError>
        requires { outer ≤ length self.old.seen.row }
        ensures first { (before listed : List core.Binder) → self.old.seen.row ≡ before ++ listed → outer ≡ length before → OnOk result (self.new.first ≡ first_of self.old.first (binder_faults self.old.seen.globals (names_at listed) (length listed) (binder_of binder))) }
        ensures stored { OnOk result (self.new.stored ≡ self.old.stored) }
        ensures seen { OnOk result (self.new.seen ≡ seen_under (binder_of binder ∷ []) self.old.seen) }
    {
        let listed = self.above.len() - outer;
        find_if(
            &mut self.first,
            listed == MOST,
            FaultKind::TooMany,
            binder.at,
        );
        if let VarName::Sym(name) = binder.name {
            let is_listed = self.above.is_named_inside(outer, name);
            find_if(&mut self.first, is_listed, FaultKind::Twice, binder.at);
            let is_global = value_at(&self.globals, name).is_some();
            find_if(&mut self.first, is_global, FaultKind::Shadow, binder.at);
        }
        self.above.push(binder)
    }

    // How many binders are above.
    fn depth(&self) -> usize
        ensures { result ≡ length self.now.seen.row }
    {
        self.above.len()
    }

    // Goes back to where so many binders were above.
    fn leave(&mut self, outer: usize)
        ensures { self.new ≡ record self.old { seen = record self.old.seen { row = take outer self.old.seen.row } } }
    {
        self.above.keep(outer);
    }

    // A use of a variable.
    fn used(&mut self, name: VarName, at: Offset)
        ensures { Adds self.old self.new (λ s. use_faults (place_in s) at.0 (name_of name)) (λ s. []) }
    {
        let VarName::Sym(name) = name else {
            return;
        };
        let is_seen = self.above.is_named(name) || value_at(&self.globals, name).is_some();
        find_if(&mut self.first, !is_seen, FaultKind::Unbound, at);
    }

    // A `setq` of this variable.
    fn set(&mut self, name: VarName, named: Offset) -> Result<(), AllocError>
        ensures { OnOk result (Adds self.old self.new (λ s. use_faults (place_in s) named.0 (name_of name)) (λ s. binder_set (above s) (name_of name))) }
    {
        self.used(name, named);
        let VarName::Sym(number) = name else {
            return Ok(());
        };
        if let Some(at) = self.above.innermost(number) {
            self.stored.insert(Variable { at, name: number })?;
        }
        Ok(())
    }

    // A call of a function of the program.
    fn called(&mut self, name: u32, named: Offset, args: &[Core<'a>])
        ensures { Adds self.old self.new (λ s. count_faults named.0 (count_of (cores_of args.now)) (parameter_count s.functions name)) (λ s. []) }
    {
        match value_at(&self.parameters, name) {
            None => self.find_if(true, FaultKind::NoFunction, named),
            Some(count) => self.find_if(args.len() != count, FaultKind::WrongCount, named),
        }
    }

    // Finds this fault where the test holds.
    fn find_if(&mut self, holds: bool, kind: FaultKind, at: Offset)
        ensures { Adds self.old self.new (λ s. where_true holds (fault kind at.0)) (λ s. []) }
    {
        find_if(&mut self.first, holds, kind, at);
    }
}
