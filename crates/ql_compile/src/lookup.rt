//! What a program's names and constants are in its code.

ghost use Rattle.std.specs.Prelude.{◌≡◌, IfOk, map};
ghost use Rattle.ql_expand.specs.ProgramView.{program_of};
ghost use Rattle.ql_expand.specs.View.{constant_of, cores_of, name_of};
ghost use Rattle.ql_code.specs.declared.code.Op.TheVariants.{Lit};
ghost use Rattle.ql_meaning.specs.Context.{Context, constant_word, context_of};
ghost use Rattle.ql_compile.specs.Compile.{call_op, entry_of, find_in, place_called, places_of, primitive_op, read_op, write_op};
ghost use Rattle.ql_compile.specs.Emission.{HasFunctions, HasGlobals, HasWords, global_of};

use crate::frame::Frame;
use crate::number::number;
use crate::quotes::Quotes;
use crate::table::{functions_by_name, globals_by_name};
use ql_base::reserved::Reserved;
use ql_code::code::{FunEntry, Op};
use ql_expand::core_form::{Constant, Core, VarName};
use ql_scope::scoped::Scoped;
use ql_scope::table::value_at;
use std::alloc::{AllocError, Global};

/// A program with its tables.
#[derive(Drop)]
pub struct Lookup<'p, 'a> {
    pub alloc: Global,
    pub scoped: &'p Scoped<'a>,
    quotes: &'p Quotes,
    /// By number, the first function of that name.
    functions: Vec<Option<FunEntry>>,
    /// By number, the place of the first global of that name.
    globals: Vec<Option<u32>>,
    pub ghost has_functions: { HasFunctions (context_of (program_of scoped.now.program)) (places_of (program_of scoped.now.program)) functions.items },
    pub ghost has_globals: { HasGlobals scoped.now.program.globals globals.items },
    pub ghost has_words: { HasWords (context_of (program_of scoped.now.program)) quotes.now.words.entries },
}

impl<'p, 'a> Lookup<'p, 'a> {
    /// The tables of a program, whose functions have these entries.
    pub fn new(
        alloc: Global,
        scoped: &'p Scoped<'a>,
        entries: &[FunEntry],
        quotes: &'p Quotes,
    ) -> Result<Lookup<'p, 'a>, AllocError>
        requires entries { entries.now ≡ map (entry_of (context_of (program_of scoped.now.program))) (places_of (program_of scoped.now.program)) }
        requires words { HasWords (context_of (program_of scoped.now.program)) quotes.now.words.entries }
        ensures { IfOk result (λ l. l.scoped.now ≡ scoped.now) }
    {
        let program = scoped.program();
        let functions = functions_by_name(
            alloc,
            program.names,
            program.functions.as_slice(),
            entries,
        )?;
        let globals = globals_by_name(alloc, program.names, program.globals.as_slice())?;
        Ok(Lookup {
            alloc,
            scoped,
            quotes,
            functions,
            globals,
        })
    }

    /// Pushes a constant.
    pub fn constant(&self, constant: Constant) -> Op
        ensures { result ≡ Lit (constant_word (context_of (program_of self.now.scoped.now.program)) (constant_of constant.entry)) }
    {
        Op::Lit(self.quotes.word(constant))
    }

    /// Pushes the value of a variable, which has a slot of this frame or is a global.
    pub fn read(&self, frame: &Frame, name: VarName) -> Op
        ensures { result ≡ read_op (context_of (program_of self.now.scoped.now.program)) (find_in frame.now (name_of name)) (name_of name) }
    {
        match frame.find(name) {
            Some(place) if place.stored => Op::BoxGet(place.slot),
            Some(place) => Op::Local(place.slot),
            None => Op::GlobalGet(self.global(name)),
        }
    }

    /// Gives a variable the top word.
    pub fn write(&self, frame: &Frame, name: VarName) -> Op
        ensures { result ≡ write_op (context_of (program_of self.now.scoped.now.program)) (find_in frame.now (name_of name)) (name_of name) }
    {
        match frame.find(name) {
            Some(place) => Op::BoxSet(place.slot),
            None => Op::GlobalSet(self.global(name)),
        }
    }

    // The place of a global. A program in scope has no variable that is neither bound nor a global.
    fn global(&self, name: VarName) -> u32
        ensures { result ≡ global_of (context_of (program_of self.now.scoped.now.program)) (name_of name) }
    {
        match name {
            VarName::Sym(number) => value_at(&self.globals, number).unwrap_or(0),
            VarName::Hidden(_) => 0,
        }
    }

    /// Calls the function of this name. A program in scope calls no other.
    pub fn call(&self, name: u32, args: &[Core]) -> Result<Op, AllocError>
        ensures { IfOk result (λ op. op ≡ call_op (context_of (program_of self.now.scoped.now.program)) (place_called (places_of (program_of self.now.scoped.now.program)) name) (cores_of args.now)) }
    {
        let Some(entry) = value_at(&self.functions, name) else {
            return Ok(Op::End);
        };
        let args = number(args.len())?;
        Ok(Op::Call {
            place: entry.place,
            args,
            mask: entry.mask,
        })
    }
}

/// Computes by the primitive of this number. Only the one that makes pairs may need memory, and has an instruction of
/// its own.
pub fn primitive(number: u32) -> Op
    ensures { (x : Context) → result ≡ primitive_op x number }
{
    if number == Reserved::Cons.number() {
        Op::Cons
    } else {
        Op::Prim(number)
    }
}
