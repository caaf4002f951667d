//! How long the code of a program is, and where its functions begin.

ghost use Rattle.std.specs.Prelude.{◌≡◌, ◌+◌, ◌≤◌, ◌∷◌, ◌++◌, [], ℕ, Err, None, IfOk, OnOk, length, map};
ghost use Rattle.ql_expand.specs.ProgramView.{program_of};
ghost use Rattle.ql_expand.specs.View.{bounds_of, core_of, cores_of, function_of, node_of};
ghost use Rattle.ql_compile.specs.Compile.{compiled, places_from, places_of};
ghost use Rattle.ql_compile.specs.Laws.{IsTooLong};
ghost use Rattle.ql_compile.specs.Measure.{counted, offsets_of, offsets_of_cores, offsets_of_forms, offsets_of_functions, offsets_of_joined, offsets_of_node, offsets_of_tops, offsets_of_values};
ghost use Rattle.ql_compile.specs.declared.compile.CompileRefusal.TheVariants.{TooLong};

use crate::compile::CompileRefusal;
use ql_base::numbers::Offset;
use ql_expand::core_form::{Bound, Core, Function, Node};
use ql_expand::program::Program;
use std::alloc::{AllocError, Global};

/// How many instructions code has at most.
const MOST: u32 = 65_535;

/// The places where the functions of a program begin, unless its code is too long.
pub fn measure(alloc: Global, program: &Program) -> Result<Vec<u32>, CompileRefusal>
    ensures places { IfOk result (λ places. places.items ≡ map (λ f. f.1) (places_of (program_of program.now))) }
    ensures short { IfOk result (λ places. length (compiled (program_of program.now)).instructions ≤ 65535) }
    ensures too_long { (at : ℕ) → result ≡ Err (TooLong at) → IsTooLong (compiled (program_of program.now)) at }
{
    let mut meter = Meter {
        count: 0,
        over: None,
    };
    meter.tops(program.body.as_slice());
    // The end of the program, which belongs to no form.
    meter.step(Offset(0));
    let places = match meter.functions(alloc, program.functions.as_slice()) {
        Ok(places) => places,
        Err(error) => return Err(CompileRefusal::Memory(error)),
    };
    match meter.over {
        None => Ok(places),
        Some(at) => Err(CompileRefusal::TooLong { at: at.0 }),
    }
}

/// Counts instructions in the order of the code.
#[derive(Drop)]
struct Meter {
    /// How many there were, as far as code may have them.
    count: u32,
    /// The offset of the first one that is too many.
    over: Option<Offset>,
}

impl Meter {
    // One more instruction, which belongs to the core form with this offset.
    fn step(&mut self, at: Offset)
        ensures { self.new ≡ counted self.old (at.0 ∷ []) }
    {
        if self.count < MOST {
            self.count += 1;
        } else if self.over.is_none() {
            self.over = Some(at);
        }
    }

    // The top forms, each with the drop of its value.
    fn tops(&mut self, cores: &[Core])
        ensures { self.new ≡ counted self.old (offsets_of_tops (cores_of cores.now)) }
    {
        for core in cores {
            self.core(core);
            self.step(core.at);
        }
    }

    // Functions, each with its return. They begin at these places, unless that is too many instructions.
    fn functions(&mut self, alloc: Global, functions: &[Function]) -> Result<Vec<u32>, AllocError>
        ensures count { OnOk result (self.new ≡ counted self.old (offsets_of_functions (map function_of functions.now))) }
        ensures places { self.old.over ≡ None → self.old.count + length (offsets_of_functions (map function_of functions.now)) ≤ 65535 → IfOk result (λ places. places.items ≡ map (λ f. f.1) (places_from self.old.count (map function_of functions.now))) }
    {
        let mut places = Vec::new(alloc);
        for function in functions {
            places.push(self.count)?;
            self.core(&function.body);
            self.step(function.at);
        }
        Ok(places)
    }

    #[cycle(walk)]
    fn core(&mut self, core: &Core)
        ensures { self.new ≡ counted self.old (offsets_of (core_of core.now)) }
    {
        self.node(core.at, &core.node);
    }

    #[cycle(walk)]
    fn node(&mut self, at: Offset, node: &Node)
        ensures { self.new ≡ counted self.old (offsets_of_node at.0 (node_of node.now)) }
    {
        match node {
            Node::Const(_) => self.step(at),
            Node::Var(_) => self.step(at),
            Node::Setq { value, .. } => self.operator(at, value.get()),
            Node::If { test, then, other } => {
                self.core(test.get());
                self.step(at);
                self.core(then.get());
                self.step(at);
                self.core(other.get());
            }
            Node::Progn(forms) => self.forms(at, forms.as_slice()),
            Node::Let { binds, body } => {
                self.values(binds.as_slice());
                self.around(at, body.get());
            }
            Node::Prim { args, .. } => {
                self.cores(args.as_slice());
                self.step(at);
            }
            Node::Print(form) => self.operator(at, form.get()),
            Node::Call { args, .. } => {
                self.cores(args.as_slice());
                self.step(at);
            }
            Node::Funcall { ignored, fun, args } => {
                self.core(fun.get());
                self.cores(args.as_slice());
                self.step(at);
                if !*ignored {
                    self.step(at);
                }
            }
            Node::Lambda { body, .. } => self.around(at, body.get()),
            Node::Qlet { prop, binds, body } => {
                self.core(prop.get());
                self.step(at);
                self.joined(binds.as_slice());
                // The jump past the touch of futures, and the touch. The bind and the slide stand round the body.
                self.step(at);
                self.step(at);
                self.around(at, body.get());
            }
            Node::Qlambda { prop, body, .. } => {
                self.core(prop.get());
                self.around(at, body.get());
            }
            Node::Catch { tag, body } => {
                self.core(tag.get());
                self.around(at, body.get());
            }
            Node::Qcatch { tag, body } => {
                self.core(tag.get());
                self.around(at, body.get());
            }
            Node::Throw { tag, value } => {
                self.core(tag.get());
                self.operator(at, value.get());
            }
            Node::Protect { value, cleanup } => {
                self.around(at, value.get());
                self.operator(at, cleanup.get());
            }
            Node::Defvar { value, .. } => self.operator(at, value.get()),
        }
    }

    // An instruction after the form whose value it takes.
    #[cycle(walk)]
    fn operator(&mut self, at: Offset, operand: &Core)
        ensures { self.new ≡ counted self.old (offsets_of (core_of operand.now) ++ at.0 ∷ []) }
    {
        self.core(operand);
        self.step(at);
    }

    // A form between two instructions.
    #[cycle(walk)]
    fn around(&mut self, at: Offset, body: &Core)
        ensures { self.new ≡ counted self.old (at.0 ∷ (offsets_of (core_of body.now) ++ at.0 ∷ [])) }
    {
        self.step(at);
        self.core(body);
        self.step(at);
    }

    // Operands.
    #[cycle(walk)]
    fn cores(&mut self, cores: &[Core])
        ensures { self.new ≡ counted self.old (offsets_of_cores (cores_of cores.now)) }
    {
        for core in cores {
            self.core(core);
        }
    }

    // The values of bindings.
    #[cycle(walk)]
    fn values(&mut self, binds: &[Bound])
        ensures { self.new ≡ counted self.old (offsets_of_values (bounds_of binds.now)) }
    {
        for bound in binds {
            self.core(&bound.value);
        }
    }

    // The same, each with its join.
    #[cycle(walk)]
    fn joined(&mut self, binds: &[Bound])
        ensures { self.new ≡ counted self.old (offsets_of_joined (bounds_of binds.now)) }
    {
        for bound in binds {
            self.core(&bound.value);
            self.step(bound.value.at);
        }
    }

    // The forms of a progn, each but the last with the drop of its value. It has a value even without forms.
    #[cycle(walk)]
    fn forms(&mut self, at: Offset, forms: &[Core])
        ensures { self.new ≡ counted self.old (offsets_of_forms at.0 (cores_of forms.now)) }
    {
        let Some((last, others)) = forms.split_last() else {
            self.step(at);
            return;
        };
        for form in others {
            self.core(form);
            self.step(form.at);
        }
        self.core(last);
    }
}
