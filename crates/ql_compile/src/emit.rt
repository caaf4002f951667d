//! The instructions of a program, one after another.
//!
//! An instruction that leads on to a place which isn't known yet leaves a hole, an `end` that stands for what comes
//! later. The hole is filled as soon as that place is reached.

ghost use Rattle.std.specs.Prelude.{◌≡◌, ◌+◌, ◌++◌, ◌∷◌, [], None, List, length, IfOk, OnOk, map};
ghost use Rattle.ql_expand.specs.ProgramView.{program_of};
ghost use Rattle.ql_expand.specs.View.{binders_of, bounds_of, constant_of, core_of, cores_of, function_of, name_of, node_of};
ghost use Rattle.ql_expand.specs.Core.{constant, variable};
ghost use Rattle.ql_scope.specs.Scope.{binders_in};
ghost use Rattle.ql_code.specs.Code as spec;
ghost use Rattle.ql_code.specs.Code.{Instruction, instruction};
ghost use Rattle.ql_code.specs.declared.code.Op.TheVariants.{Branch as branch, Catch as catch, End as end, Exit as exit, Jump as jump, Leave as leave, Protect as protect, Qcatch as qcatch, Return as return, Slide as slide};
ghost use Rattle.ql_meaning.specs.Context.{context_of};
ghost use Rattle.ql_compile.specs.Compile.{Scope, body_scope, captured, caught_slots, entry_of, find_in, instructions_of, mask, places_of, call_op, place_called, starts_of, write_op};
ghost use Rattle.ql_compile.specs.Emission.{HasWords};
ghost use Rattle.ql_compile.specs.Emitting.{Binds, Closes, Emits, Gathers, called, Fills, closing, closure_code, context_in, core_code, cores_code, dropped, followed, forms_code, function_code, functions_code, joined_code, just, node_code, places_in, tops_code, under_code, values_code, within};

use crate::captured::{Captured, capture, mask, push_variables};
use crate::frame::Frame;
use crate::lookup::{Lookup, primitive};
use crate::number::number;
use crate::output::Output;
use crate::quotes::Quotes;
use ql_base::numbers::Offset;
use ql_base::reserved::Reserved;
use ql_code::code::{FunEntry, Op};
use ql_expand::core_form::{Binder, Bound, Constant, Core, Function, Node, VarName};
use ql_scope::scoped::Scoped;
use ql_world::word::Word;
use sqlite_items::Items;
use std::alloc::{AllocError, Global};

/// Instructions, each with its offset.
#[derive(Drop)]
pub struct Emitted {
    pub ops: Vec<Op>,
    pub offsets: Vec<Offset>,
}

/// The instructions of a program, whose functions have these entries.
pub fn emit(
    alloc: Global,
    scoped: &Scoped,
    entries: &[FunEntry],
    quotes: &Quotes,
) -> Result<Emitted, AllocError>
    requires entries { entries.now ≡ map (entry_of (context_of (program_of scoped.now.program))) (places_of (program_of scoped.now.program)) }
    requires words { HasWords (context_of (program_of scoped.now.program)) quotes.now.words.entries }
    ensures as_many { IfOk result (λ e. length e.ops.items ≡ length e.offsets.items) }
    ensures instructions { IfOk result (λ e. spec.instructions_of e.ops.items e.offsets.items ≡ instructions_of (context_of (program_of scoped.now.program)) (places_of (program_of scoped.now.program)) (program_of scoped.now.program)) }
{
    let lookup = Lookup::new(alloc, scoped, entries, quotes)?;
    let output = whole(&lookup)?;
    let (ops, offsets) = output.finish();
    Ok(Emitted { ops, offsets })
}

// The instructions of a program.
fn whole(lookup: &Lookup) -> Result<Output, AllocError>
    ensures { IfOk result (λ is. is ≡ instructions_of (context_of (program_of lookup.now.scoped.now.program)) (places_of (program_of lookup.now.scoped.now.program)) (program_of lookup.now.scoped.now.program)) }
{
    let program = lookup.scoped.program();
    let mut emitter = Emitter {
        lookup,
        frame: Frame::new(lookup.alloc),
        output: Output::new(lookup.alloc),
    };
    emitter.tops(program.body.as_slice())?;
    emitter.add(Op::End, Offset(0))?;
    emitter.functions(program.functions.as_slice())?;
    let Emitter { output, .. } = emitter;
    Ok(output)
}

/// The slots of the frame at hand, and the instructions so far.
#[derive(Drop)]
struct Emitter<'p, 'q, 'a> {
    lookup: &'p Lookup<'q, 'a>,
    frame: Frame,
    output: Output,
}

/// A closure whose body is under way.
#[derive(Drop)]
struct Opened {
    /// The place of the instruction that makes it.
    hole: usize,
    /// The frame outside of it.
    outer: Frame,
    slots: Items<u32>,
}

impl<'p, 'q, 'a> Emitter<'p, 'q, 'a> {
    // Each top form, and a drop of its value.
    fn tops(&mut self, cores: &[Core<'a>]) -> Result<(), AllocError>
        requires { self.old.frame ≡ [] }
        ensures { OnOk result (Emits self.old self.new (tops_code (cores_of cores.now))) }
    {
        for core in cores {
            self.core(core)?;
            self.add(Op::Drop, core.at)?;
        }
        Ok(())
    }

    // The bodies of functions.
    fn functions(&mut self, functions: &[Function<'a>]) -> Result<(), AllocError>
        requires { self.old.frame ≡ [] }
        ensures { OnOk result (Emits self.old self.new (functions_code (map function_of functions.now))) }
    {
        for function in functions {
            self.function(function)?;
        }
        Ok(())
    }

    // The body of a function, whose frame has its parameters.
    fn function(&mut self, function: &Function<'a>) -> Result<(), AllocError>
        requires { self.old.frame ≡ [] }
        ensures { OnOk result (Emits self.old self.new (function_code (function_of function.now))) }
    {
        let outer = self.frame.len();
        push_variables(
            &mut self.frame,
            self.lookup.scoped,
            function.params.as_slice(),
        )?;
        self.core(&function.body)?;
        self.add(Op::Return, function.at)?;
        self.frame.keep(outer);
        Ok(())
    }

    // A core form, whose value stays on top of the frame's slots.
    #[cycle(emit)]
    fn core(&mut self, core: &Core<'a>) -> Result<(), AllocError>
        ensures { OnOk result (Emits self.old self.new (core_code (core_of core.now))) }
    {
        self.node(core.at, &core.node)
    }

    #[cycle(emit)]
    fn node(&mut self, at: Offset, node: &Node<'a>) -> Result<(), AllocError>
        ensures { OnOk result (Emits self.old self.new (node_code at.0 (node_of node.now))) }
    {
        match node {
            Node::Const(constant) => self.constant(at, *constant),
            Node::Var(name) => self.variable(at, *name),
            Node::Setq { name, value, .. } => {
                self.core(value.get())?;
                self.assign(at, *name)
            }
            Node::If { test, then, other } => {
                self.core(test.get())?;
                let branch = self.hole(at)?;
                self.core(then.get())?;
                let jump = self.hole(at)?;
                self.branch_here(branch)?;
                self.core(other.get())?;
                self.jump_here(jump)
            }
            Node::Progn(forms) => self.forms(at, forms.as_slice()),
            Node::Let { binds, body } => {
                self.values(binds.as_slice())?;
                self.under(at, body.get(), binds.as_slice())
            }
            Node::Prim { op, args } => {
                self.cores(args.as_slice())?;
                self.add(primitive(*op), at)
            }
            Node::Print(form) => {
                self.core(form.get())?;
                self.add(Op::Print, at)
            }
            Node::Call { name, args, .. } => {
                self.cores(args.as_slice())?;
                self.call(at, *name, args.as_slice())
            }
            Node::Funcall { ignored, fun, args } => {
                self.core(fun.get())?;
                self.cores_above(args.as_slice())?;
                self.funcall(at, *ignored, args.as_slice())
            }
            Node::Lambda { params, body } => {
                self.closure(at, false, body.get(), params.as_slice())
            }
            Node::Qlet { prop, binds, body } => {
                self.core(prop.get())?;
                let hole = self.hole(at)?;
                let starts = self.joined(binds.as_slice())?;
                self.gather(at, hole, starts)?;
                self.under(at, body.get(), binds.as_slice())
            }
            Node::Qlambda { prop, params, body } => {
                self.core(prop.get())?;
                self.closure(at, true, body.get(), params.as_slice())
            }
            Node::Catch { tag, body } => {
                self.core(tag.get())?;
                let hole = self.hole(at)?;
                self.core(body.get())?;
                self.catch_here(at, hole)
            }
            Node::Qcatch { tag, body } => {
                self.core(tag.get())?;
                let hole = self.hole(at)?;
                self.core(body.get())?;
                self.qcatch_here(at, hole)
            }
            Node::Throw { tag, value } => {
                self.core(tag.get())?;
                self.core_above(value.get())?;
                self.add(Op::Throw, at)
            }
            Node::Protect { value, cleanup } => {
                let hole = self.hole(at)?;
                self.core(value.get())?;
                self.protect_here(at, hole)?;
                self.core_above(cleanup.get())?;
                self.add(Op::EndClean, at)
            }
            Node::Defvar { name, value, .. } => {
                self.core(value.get())?;
                self.assign(at, VarName::Sym(*name))
            }
        }
    }

    // A core form above an operand.
    #[cycle(emit)]
    fn core_above(&mut self, core: &Core<'a>) -> Result<(), AllocError>
        ensures { OnOk result (Emits self.old self.new (λ e. core_code (core_of core.now) (within e (None ∷ e.frame)))) }
    {
        let outer = self.frame.len();
        self.frame.push_operand()?;
        self.core(core)?;
        self.frame.keep(outer);
        Ok(())
    }

    // Operands, each above those before it.
    #[cycle(emit)]
    fn cores(&mut self, cores: &[Core<'a>]) -> Result<(), AllocError>
        ensures { OnOk result (Emits self.old self.new (cores_code (cores_of cores.now))) }
    {
        let outer = self.frame.len();
        for core in cores {
            self.core(core)?;
            self.frame.push_operand()?;
        }
        self.frame.keep(outer);
        Ok(())
    }

    // Operands above one more.
    #[cycle(emit)]
    fn cores_above(&mut self, cores: &[Core<'a>]) -> Result<(), AllocError>
        ensures { OnOk result (Emits self.old self.new (λ e. cores_code (cores_of cores.now) (within e (None ∷ e.frame)))) }
    {
        let outer = self.frame.len();
        self.frame.push_operand()?;
        self.cores(cores)?;
        self.frame.keep(outer);
        Ok(())
    }

    // The values of bindings, each above those before it.
    #[cycle(emit)]
    fn values(&mut self, binds: &[Bound<'a>]) -> Result<(), AllocError>
        ensures { OnOk result (Emits self.old self.new (values_code (bounds_of binds.now))) }
    {
        let outer = self.frame.len();
        for bound in binds {
            self.core(&bound.value)?;
            self.frame.push_operand()?;
        }
        self.frame.keep(outer);
        Ok(())
    }

    // The same, each with its join. The answer is the places where they begin.
    #[cycle(emit)]
    fn joined(&mut self, binds: &[Bound<'a>]) -> Result<Vec<u32>, AllocError>
        ensures starts { IfOk result (λ starts. starts.items ≡ starts_of (length self.old.output) (bounds_of binds.now)) }
        ensures code { OnOk result (Emits self.old self.new (joined_code (bounds_of binds.now))) }
    {
        let outer = self.frame.len();
        let mut starts = Vec::new(self.lookup.alloc);
        for bound in binds {
            self.here_into(&mut starts)?;
            self.core(&bound.value)?;
            self.add(Op::Join, bound.value.at)?;
            self.frame.push_operand()?;
        }
        self.frame.keep(outer);
        Ok(starts)
    }

    // Forms in turn, of which all but the last are dropped.
    #[cycle(emit)]
    fn forms(&mut self, at: Offset, forms: &[Core<'a>]) -> Result<(), AllocError>
        ensures { OnOk result (Emits self.old self.new (forms_code at.0 (cores_of forms.now))) }
    {
        if forms.is_empty() {
            return self.add(Op::Lit(Word::Sym(Reserved::Nil.number())), at);
        }
        for (i, form) in forms.iter().enumerate() {
            self.core(form)?;
            self.drop_if(i + 1 < forms.len(), form.at)?;
        }
        Ok(())
    }

    // A body under the variables of bindings, whose values are on top.
    #[cycle(emit)]
    fn under(&mut self, at: Offset, body: &Core<'a>, binds: &[Bound<'a>]) -> Result<(), AllocError>
        ensures { OnOk result (Emits self.old self.new (under_code at.0 (binders_in (bounds_of binds.now)) (core_of body.now))) }
    {
        let outer = self.frame.len();
        self.bind(at, binds)?;
        self.core(body)?;
        self.slide(at, binds.len(), outer)
    }

    // A closure or a process closure.
    #[cycle(emit)]
    fn closure(
        &mut self,
        at: Offset,
        is_process: bool,
        body: &Core<'a>,
        params: &[Binder],
    ) -> Result<(), AllocError>
        ensures { OnOk result (Emits self.old self.new (closure_code at.0 is_process (binders_of params.now) (core_of body.now))) }
    {
        let opened = self.open(at, params, body)?;
        self.core(body)?;
        self.close(at, is_process, params, opened)
    }

    // An instruction more.
    fn add(&mut self, op: Op, at: Offset) -> Result<(), AllocError>
        ensures { OnOk result (Emits self.old self.new (just op at.0)) }
    {
        self.output.push(op, at)
    }

    // Pushes a constant.
    fn constant(&mut self, at: Offset, value: Constant) -> Result<(), AllocError>
        ensures { OnOk result (Emits self.old self.new (node_code at.0 (constant (constant_of value.entry)))) }
    {
        let op = self.lookup.constant(value);
        self.add(op, at)
    }

    // Pushes the value of a variable.
    fn variable(&mut self, at: Offset, name: VarName) -> Result<(), AllocError>
        ensures { OnOk result (Emits self.old self.new (node_code at.0 (variable (name_of name)))) }
    {
        let op = self.lookup.read(&self.frame, name);
        self.add(op, at)
    }

    // Gives a variable the top word.
    fn assign(&mut self, at: Offset, name: VarName) -> Result<(), AllocError>
        ensures { OnOk result (Emits self.old self.new (λ e. just (write_op (context_in e) (find_in e.frame (name_of name)) (name_of name)) at.0 e)) }
    {
        let op = self.lookup.write(&self.frame, name);
        self.add(op, at)
    }

    // Calls a function of the program.
    fn call(&mut self, at: Offset, name: u32, args: &[Core<'a>]) -> Result<(), AllocError>
        ensures { OnOk result (Emits self.old self.new (λ e. just (call_op (context_in e) (place_called (places_in e) name) (cores_of args.now)) at.0 e)) }
    {
        let op = self.lookup.call(name, args)?;
        self.add(op, at)
    }

    // Calls a closure. A value that is used is touched.
    fn funcall(&mut self, at: Offset, ignored: bool, args: &[Core<'a>]) -> Result<(), AllocError>
        ensures { OnOk result (Emits self.old self.new (λ e. called ignored at.0 (cores_of args.now))) }
    {
        let count = number(args.len())?;
        if ignored {
            return self.add(Op::FuncallDrop(count), at);
        }
        self.add(Op::Funcall(count), at)?;
        self.add(Op::Touch(1), at)
    }

    // Drops the top word, where it isn't needed.
    fn drop_if(&mut self, unneeded: bool, at: Offset) -> Result<(), AllocError>
        ensures { OnOk result (Emits self.old self.new (λ e. dropped unneeded at.0)) }
    {
        if unneeded {
            self.add(Op::Drop, at)?;
        }
        Ok(())
    }

    // The next place.
    fn here(&self) -> Result<u32, AllocError>
        ensures { IfOk result (λ place. place ≡ length self.now.output) }
    {
        number(self.output.len())
    }

    // The next place, as one more of these.
    fn here_into(&self, places: &mut Vec<u32>) -> Result<(), AllocError>
        ensures { OnOk result (places.new.items ≡ places.old.items ++ length self.now.output ∷ []) }
    {
        let place = self.here()?;
        places.push(place)?;
        Ok(())
    }

    // A place for an instruction that is known later.
    fn hole(&mut self, at: Offset) -> Result<usize, AllocError>
        ensures place { IfOk result (λ place. place ≡ length self.old.output) }
        ensures hole { OnOk result (Emits self.old self.new (just end at.0)) }
    {
        let place = self.output.len();
        self.add(Op::End, at)?;
        Ok(place)
    }

    // Puts an instruction where a hole was left.
    fn fill(&mut self, hole: usize, op: Op)
        ensures { Fills self.old self.new hole op }
    {
        self.output.replace(hole, op);
    }

    // Where the test was nil, the way goes on here.
    fn branch_here(&mut self, hole: usize) -> Result<(), AllocError>
        ensures { OnOk result (Fills self.old self.new hole (branch (length self.old.output))) }
    {
        let next = self.here()?;
        self.fill(hole, Op::Branch(next));
        Ok(())
    }

    // The way from before the other form goes on here.
    fn jump_here(&mut self, hole: usize) -> Result<(), AllocError>
        ensures { OnOk result (Fills self.old self.new hole (jump (length self.old.output))) }
    {
        let next = self.here()?;
        self.fill(hole, Op::Jump(next));
        Ok(())
    }

    // The end of a catch, which is left for the place behind it.
    fn catch_here(&mut self, at: Offset, hole: usize) -> Result<(), AllocError>
        ensures { OnOk result (Closes self.old self.new hole (catch (length self.old.output + 1)) (instruction exit at.0)) }
    {
        self.add(Op::Exit, at)?;
        let next = self.here()?;
        self.fill(hole, Op::Catch(next));
        Ok(())
    }

    // The end of a catch that waits for all that is at work within it.
    fn qcatch_here(&mut self, at: Offset, hole: usize) -> Result<(), AllocError>
        ensures { OnOk result (Closes self.old self.new hole (qcatch (length self.old.output + 1)) (instruction exit at.0)) }
    {
        self.add(Op::Exit, at)?;
        let next = self.here()?;
        self.fill(hole, Op::Qcatch(next));
        Ok(())
    }

    // The end of a protected body. Its cleanup begins behind it.
    fn protect_here(&mut self, at: Offset, hole: usize) -> Result<(), AllocError>
        ensures { OnOk result (Closes self.old self.new hole (protect (length self.old.output + 1)) (instruction leave at.0)) }
    {
        self.add(Op::Leave, at)?;
        let next = self.here()?;
        self.fill(hole, Op::Protect(next));
        Ok(())
    }

    // Behind the values of a `qlet`, which begin at these places: the end of the way on which they were got in order,
    // and the place where their futures are touched.
    fn gather(&mut self, at: Offset, hole: usize, starts: Vec<u32>) -> Result<(), AllocError>
        ensures { OnOk result (Gathers self.old self.new at.0 hole starts.items) }
    {
        let count = number(starts.len())?;
        let jump = self.hole(at)?;
        let touched = self.here()?;
        self.add(Op::Touch(count), at)?;
        let bound = self.here()?;
        self.fill(jump, Op::Jump(bound));
        self.fill(
            hole,
            Op::Qlet {
                starts: Items::from_vec(starts),
                touched,
                bound,
            },
        );
        Ok(())
    }

    // Makes variables of the top words.
    fn bind(&mut self, at: Offset, binds: &[Bound<'a>]) -> Result<(), AllocError>
        ensures { OnOk result (Binds self.old self.new at.0 (binders_in (bounds_of binds.now))) }
    {
        let binders = binders_of_bounds(self.lookup.alloc, binds)?;
        let count = number(binders.len())?;
        let mask = mask(self.lookup.scoped, &binders)?;
        self.add(Op::Bind { count, mask }, at)?;
        push_variables(&mut self.frame, self.lookup.scoped, &binders)
    }

    // Takes so many variables away from under the top word, back to a frame of this length.
    fn slide(&mut self, at: Offset, count: usize, outer: usize) -> Result<(), AllocError>
        ensures { (above below : Scope) → self.old.frame ≡ above ++ below → outer ≡ length below → OnOk result (self.new ≡ within (followed self.old (instruction (slide count) at.0 ∷ [])) below) }
    {
        let count = number(count)?;
        self.add(Op::Slide(count), at)?;
        self.frame.keep(outer);
        Ok(())
    }

    // Goes into the body of a closure.
    fn open(&mut self, at: Offset, params: &[Binder], body: &Core<'a>) -> Result<Opened, AllocError>
        ensures hole { IfOk result (λ o. o.hole ≡ length self.old.output) }
        ensures outer { IfOk result (λ o. o.outer ≡ self.old.frame) }
        ensures slots { IfOk result (λ o. o.slots ≡ caught_slots (captured (context_in self.old) self.old.frame (binders_of params.now) (core_of body.now))) }
        ensures inner { OnOk result (self.new ≡ within (followed self.old (instruction end at.0 ∷ [])) (body_scope (context_in self.old) self.old.frame (binders_of params.now) (core_of body.now))) }
    {
        let Captured { slots, frame } = capture(
            self.lookup.alloc,
            self.lookup.scoped,
            &self.frame,
            params,
            body,
        )?;
        let hole = self.hole(at)?;
        let outer = std::mem::replace(&mut self.frame, frame);
        Ok(Opened { hole, outer, slots })
    }

    // Leaves the body of a closure, which is made where it began.
    fn close(
        &mut self,
        at: Offset,
        is_process: bool,
        params: &[Binder],
        opened: Opened,
    ) -> Result<(), AllocError>
        ensures { (before after : List Instruction) (i : Instruction) → self.old.output ≡ before ++ i ∷ after → opened.hole ≡ length before → OnOk result (self.new ≡ within (record self.old { output = before ++ instruction (closing is_process (length params.now) (mask (context_in self.old) (binders_of params.now)) opened.slots (length self.old.output + 1)) i.at ∷ (after ++ instruction return at.0 ∷ []) }) opened.outer) }
    {
        let Opened { hole, outer, slots } = opened;
        self.add(Op::Return, at)?;
        let next = self.here()?;
        let op = closing(
            is_process,
            number(params.len())?,
            mask(self.lookup.scoped, params)?,
            slots,
            next,
        );
        self.fill(hole, op);
        self.frame = outer;
        Ok(())
    }
}

// Makes a closure, or a process closure.
fn closing(is_process: bool, params: u32, mask: u32, slots: Items<u32>, next: u32) -> Op
    ensures { result ≡ closing is_process params mask slots next }
{
    if is_process {
        Op::Qlambda {
            params,
            mask,
            slots,
            next,
        }
    } else {
        Op::Close {
            params,
            mask,
            slots,
            next,
        }
    }
}

// The variables of bindings.
fn binders_of_bounds(alloc: Global, binds: &[Bound]) -> Result<Vec<Binder>, AllocError>
    ensures { IfOk result (λ binders. binders_of binders.items ≡ binders_in (bounds_of binds.now)) }
{
    let mut binders = Vec::with_capacity(alloc, binds.len())?;
    for bound in binds {
        binders.push(bound.binder)?;
    }
    Ok(binders)
}
