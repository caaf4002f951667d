//! Instructions, and the code that they make.

ghost use Rattle.std.specs.Prelude.{◌≡◌, ◌<◌, ◌≤◌, length, option_map, slice_get, Some};
ghost use Rattle.ql_world.specs.Text.{AreOrdered};
ghost use Rattle.ql_code.specs.Code.{code_of};
ghost use Rattle.ql_code.specs.Sound.{Sound};

use ql_base::numbers::Offset;
use ql_world::word::Word;
use sqlite_items::Items;
use std::marker::Model;

/// An instruction. Places are counted from 0, and slots from the bottom of the frame. A mask is the sum of 2 ^ i for
/// each stored variable i.
#[derive(Debug, Drop)]
pub enum Op {
    /// Pushes a word.
    Lit(Word),
    /// Pushes the word in a slot.
    Local(u32),
    /// Pushes the word in the box of a slot.
    BoxGet(u32),
    /// Pushes the word of a global.
    GlobalGet(u32),
    /// Puts the top word into the box of a slot.
    BoxSet(u32),
    /// Gives the top word to a global.
    GlobalSet(u32),
    /// Takes a word, and goes to this place where it is nil.
    Branch(u32),
    /// Goes to this place.
    Jump(u32),
    /// Takes the top slot away.
    Drop,
    /// Takes so many slots away from under the top word.
    Slide(u32),
    /// Makes variables of the top words.
    Bind {
        count: u32,
        mask: u32,
    },
    /// Calls the function that begins at this place.
    Call {
        place: u32,
        args: u32,
        mask: u32,
    },
    /// Goes back to the caller with the top word.
    Return,
    /// Makes a closure, whose body is next, and goes on at `next`.
    Close {
        params: u32,
        mask: u32,
        slots: Items<u32>,
        next: u32,
    },
    /// Calls the closure under so many arguments.
    Funcall(u32),
    /// The same, where the value isn't used.
    FuncallDrop(u32),
    /// Waits until none of so many words on top is a future.
    Touch(u32),
    /// Takes a proposition, and gets the values of bindings in order or by children. These begin at the places in
    /// `starts`. Their futures are touched at the place `touched`, and bound at the place `bound`.
    Qlet {
        starts: Items<u32>,
        touched: u32,
        bound: u32,
    },
    /// The end of a child.
    Join,
    /// Takes a proposition, and makes a closure or a process closure, whose body is next.
    Qlambda {
        params: u32,
        mask: u32,
        slots: Items<u32>,
        next: u32,
    },
    /// Takes a tag, and opens a catch, which is left for this place.
    Catch(u32),
    /// The same with a catch that waits for all that is at work within it.
    Qcatch(u32),
    /// Leaves the innermost catch with the top word.
    Exit,
    /// Takes a tag and a word, and throws.
    Throw,
    /// Begins a protected body. Its cleanup begins at this place.
    Protect(u32),
    /// Ends a protected body with the top word.
    Leave,
    /// Ends a cleanup.
    EndClean,
    /// Computes by the primitive with this number among the reserved words.
    Prim(u32),
    /// Makes a pair of the two words on top.
    Cons,
    /// Prints the top word.
    Print,
    /// The end of the program.
    End,
}

/// A function.
#[derive(Clone, Copy, Debug, PartialEq, Eq)]
pub struct FunEntry {
    /// The place of its first instruction.
    pub place: u32,
    /// The number of its parameters.
    pub params: u32,
    /// Which of them are stored.
    pub mask: u32,
}

/// The code of a program. It keeps that it is sound: at each place it is known what stands on the frame.
#[derive(Drop)]
pub struct Code {
    ops: Vec<Op>,
    offsets: Vec<Offset>,
    quoted: Vec<(Word, Word)>,
    entries: Vec<FunEntry>,
    globals: u32,
}

impl Model for Code {
    ghost use Rattle.std.specs.Prelude.{◌≡◌, ◌≤◌, length};
    ghost use Rattle.ql_code.specs.Code.{Code, code_of};
    ghost use Rattle.ql_code.specs.Sound.{Sound};
    ghost use Rattle.ql_world.specs.Text.{AreOrdered};

    ghost Value = { Code };

    ghost view = { λ c. code_of c.ops.items c.offsets.items c.quoted.items c.entries.items c.globals };

    ghost invariant = { λ c. (length c.ops.items ≡ length c.offsets.items) × (1 ≤ length c.ops.items) × (length c.ops.items ≤ 65535) × AreOrdered c.quoted.items × ∥ Sound (code_of c.ops.items c.offsets.items c.quoted.items c.entries.items c.globals) ∥₁ };
}

impl Code {
    /// The code of these instructions, each with its offset.
    pub fn new(
        ops: Vec<Op>,
        offsets: Vec<Offset>,
        quoted: Vec<(Word, Word)>,
        entries: Vec<FunEntry>,
        globals: u32,
    ) -> Code
        requires as_many { length ops.items ≡ length offsets.items }
        requires some { 1 ≤ length ops.items }
        requires few { length ops.items ≤ 65535 }
        requires ordered { AreOrdered quoted.items }
        requires sound { ∥ Sound (code_of ops.items offsets.items quoted.items entries.items globals) ∥₁ }
        ensures { result ≡ code_of ops.items offsets.items quoted.items entries.items globals }
    {
        Code {
            ops,
            offsets,
            quoted,
            entries,
            globals,
        }
    }

    /// How many instructions there are.
    pub fn len(&self) -> u32
        ensures count { result ≡ length self.now.instructions }
        ensures some { 1 ≤ result }
        ensures few { result ≤ 65535 }
        ensures sound { ∥ Sound self.now ∥₁ }
    {
        self.ops.len() as u32
    }

    /// The instruction at a place.
    pub fn at(&self, place: u32) -> &Op
        requires { place < length self.now.instructions }
        ensures { option_map (λ i. i.op) (slice_get self.now.instructions place) ≡ Some result.now }
    {
        &self.ops[place as usize]
    }

    /// The offset of the core form that the instruction at a place belongs to.
    pub fn offset(&self, place: u32) -> Offset
        requires { place < length self.now.instructions }
        ensures { option_map (λ i. i.at) (slice_get self.now.instructions place) ≡ Some result.0 }
    {
        self.offsets[place as usize]
    }

    /// The pairs of its quoted data.
    pub fn quoted(&self) -> &[(Word, Word)]
        ensures same { result.now ≡ self.now.quoted }
        ensures ordered { AreOrdered result.now }
    {
        &self.quoted
    }

    /// Its functions.
    pub fn entries(&self) -> &[FunEntry]
        ensures { result.now ≡ self.now.entries }
    {
        &self.entries
    }

    /// The number of its globals.
    pub fn globals(&self) -> u32
        ensures { result ≡ self.now.globals }
    {
        self.globals
    }
}
