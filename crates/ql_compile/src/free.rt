//! The names that occur free in a form.

ghost use Rattle.std.specs.Prelude.{◌≡◌, ◌∷◌, [], IfOk, OnOk, take, length};
ghost use Rattle.ql_expand.specs.Core.{Name};
ghost use Rattle.ql_expand.specs.View.{binders_of, bounds_of, core_of, cores_of, name_of, node_of};
ghost use Rattle.ql_scope.specs.Scope.{binders_in};
ghost use Rattle.ql_compile.specs.Compile.{free, free_in_cores, free_in_node, free_in_values, is_name_among, without_all};
ghost use Rattle.ql_compile.specs.Free.{Finds, with_names};

use crate::names::Names;
use ql_expand::core_form::{Binder, Bound, Core, Node, VarName};
use std::alloc::{AllocError, Global};
use std::marker::Model;

/// The names that occur free in a body and that its parameters don't bind.
pub fn free_names(alloc: Global, params: &[Binder], body: &Core) -> Result<Names, AllocError>
    ensures { IfOk result (λ names. (x : Name) → is_name_among x names ≡ is_name_among x (without_all (binders_of params.now) (free (core_of body.now)))) }
{
    let mut walk = Walk {
        bound: Names::new(alloc),
        found: Names::new(alloc),
    };
    walk.under_params(body, params)?;
    let Walk { found, .. } = walk;
    Ok(found)
}

// A walk through a form.
#[derive(Drop)]
struct Walk {
    /// The names that are bound at the place at hand. An inner binder of a name that is bound already
    /// adds nothing, so that the names of inner binders alone stand last.
    bound: Names,
    /// The names found so far that occur free.
    found: Names,
}

impl Model for Walk {
    ghost use Rattle.ql_compile.specs.Free.{Gathered};

    ghost Value = { Gathered };

    ghost view = { λ s. record { bound = s.bound; found = s.found } };

    ghost invariant = { λ s. Unit {0} };
}

impl Walk {
    #[cycle(free)]
    fn core(&mut self, core: &Core) -> Result<(), AllocError>
        ensures { OnOk result (Finds self.old self.new (free (core_of core.now))) }
    {
        self.node(&core.node)
    }

    #[cycle(free)]
    fn node(&mut self, node: &Node) -> Result<(), AllocError>
        ensures { OnOk result (Finds self.old self.new (free_in_node (node_of node.now))) }
    {
        match node {
            Node::Const(_) => Ok(()),
            Node::Var(name) => self.used(*name),
            Node::Setq { name, value, .. } => {
                self.used(*name)?;
                self.core(value.get())
            }
            Node::If { test, then, other } => {
                self.core(test.get())?;
                self.core(then.get())?;
                self.core(other.get())
            }
            Node::Progn(forms) => self.cores(forms.as_slice()),
            Node::Let { binds, body } => {
                self.values(binds.as_slice())?;
                self.under_variables(body.get(), binds.as_slice())
            }
            Node::Prim { args, .. } => self.cores(args.as_slice()),
            Node::Print(form) => self.core(form.get()),
            Node::Call { args, .. } => self.cores(args.as_slice()),
            Node::Funcall { fun, args, .. } => {
                self.core(fun.get())?;
                self.cores(args.as_slice())
            }
            Node::Lambda { params, body } => self.under_params(body.get(), params.as_slice()),
            Node::Qlet { prop, binds, body } => {
                self.core(prop.get())?;
                self.values(binds.as_slice())?;
                self.under_variables(body.get(), binds.as_slice())
            }
            Node::Qlambda { prop, params, body } => {
                self.core(prop.get())?;
                self.under_params(body.get(), params.as_slice())
            }
            Node::Catch { tag, body } => {
                self.core(tag.get())?;
                self.core(body.get())
            }
            Node::Qcatch { tag, body } => {
                self.core(tag.get())?;
                self.core(body.get())
            }
            Node::Throw { tag, value } => {
                self.core(tag.get())?;
                self.core(value.get())
            }
            Node::Protect { value, cleanup } => {
                self.core(value.get())?;
                self.core(cleanup.get())
            }
            Node::Defvar { name, value, .. } => {
                self.used(VarName::Sym(*name))?;
                self.core(value.get())
            }
        }
    }

    #[cycle(free)]
    fn cores(&mut self, cores: &[Core]) -> Result<(), AllocError>
        ensures { OnOk result (Finds self.old self.new (free_in_cores (cores_of cores.now))) }
    {
        for core in cores {
            self.core(core)?;
        }
        Ok(())
    }

    // The values of bindings, which don't see the variables.
    #[cycle(free)]
    fn values(&mut self, binds: &[Bound]) -> Result<(), AllocError>
        ensures { OnOk result (Finds self.old self.new (free_in_values (bounds_of binds.now))) }
    {
        for bound in binds {
            self.core(&bound.value)?;
        }
        Ok(())
    }

    // A body under the variables of bindings.
    #[cycle(free)]
    fn under_variables(&mut self, body: &Core, binds: &[Bound]) -> Result<(), AllocError>
        ensures { OnOk result (Finds self.old self.new (without_all (binders_in (bounds_of binds.now)) (free (core_of body.now)))) }
    {
        let outer = self.count();
        self.bind_variables(binds)?;
        self.core(body)?;
        self.leave(outer);
        Ok(())
    }

    // A body under parameters.
    #[cycle(free)]
    fn under_params(&mut self, body: &Core, params: &[Binder]) -> Result<(), AllocError>
        ensures { OnOk result (Finds self.old self.new (without_all (binders_of params.now) (free (core_of body.now)))) }
    {
        let outer = self.count();
        self.bind_params(params)?;
        self.core(body)?;
        self.leave(outer);
        Ok(())
    }

    fn bind_params(&mut self, params: &[Binder]) -> Result<(), AllocError>
        ensures bound { OnOk result (self.new.bound ≡ with_names self.old.bound (binders_of params.now)) }
        ensures found { OnOk result (self.new.found ≡ self.old.found) }
    {
        for binder in params {
            self.bound.insert(binder.name)?;
        }
        Ok(())
    }

    fn bind_variables(&mut self, binds: &[Bound]) -> Result<(), AllocError>
        ensures bound { OnOk result (self.new.bound ≡ with_names self.old.bound (binders_in (bounds_of binds.now))) }
        ensures found { OnOk result (self.new.found ≡ self.old.found) }
    {
        for bound in binds {
            self.bound.insert(bound.binder.name)?;
        }
        Ok(())
    }

    // How many names are bound.
    fn count(&self) -> usize
        ensures { result ≡ length self.now.bound }
    {
        self.bound.len()
    }

    // Goes back to where so many names were bound.
    fn leave(&mut self, outer: usize)
        ensures { self.new ≡ record self.old { bound = take outer self.old.bound } }
    {
        self.bound.keep(outer);
    }

    // A use of a variable.
    fn used(&mut self, name: VarName) -> Result<(), AllocError>
        ensures { OnOk result (Finds self.old self.new (name_of name ∷ [])) }
    {
        if !self.bound.contains(name) {
            self.found.insert(name)?;
        }
        Ok(())
    }
}
