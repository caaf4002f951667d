//! Instructions that are added one after another, and that may be changed later.

ghost use Rattle.std.specs.Prelude.{◌≡◌, ◌<◌, ◌++◌, ◌∷◌, [], List, OnErr, OnOk, length, slice_set};
ghost use Rattle.ql_code.specs.Code.{Instruction, instruction, instructions_of};

use ql_base::numbers::Offset;
use ql_code::code::Op;
use std::alloc::{AllocError, Global};
use std::marker::Model;

/// Instructions, each with its offset.
#[derive(Drop)]
pub struct Output {
    ops: Vec<Op>,
    offsets: Vec<Offset>,
}

impl Model for Output {
    ghost use Rattle.std.specs.Prelude.{◌≡◌, List, length};
    ghost use Rattle.ql_code.specs.Code.{Instruction, instructions_of};

    ghost Value = { List Instruction };

    ghost view = { λ o. instructions_of o.ops.items o.offsets.items };

    ghost invariant = { λ o. length o.ops.items ≡ length o.offsets.items };
}

impl Output {
    /// No instructions.
    pub fn new(alloc: Global) -> Output
        ensures { result ≡ [] }
    {
        Output {
            ops: Vec::new(alloc),
            offsets: Vec::new(alloc),
        }
    }

    /// How many instructions there are.
    pub fn len(&self) -> usize
        ensures { result ≡ length self.now }
    {
        self.ops.len()
    }

    /// One more instruction.
    pub fn push(&mut self, op: Op, at: Offset) -> Result<(), AllocError>
        ensures { OnOk result (self.new ≡ self.old ++ instruction op at.0 ∷ []) }
    {
        push_one(&mut self.offsets, at)?;
        if let Err(error) = push_one(&mut self.ops, op) {
            self.offsets.pop();
            return Err(error);
        }
        Ok(())
    }

    /// Changes what the instruction at this place does, if there is one.
    pub fn replace(&mut self, place: usize, op: Op)
        ensures { (before after : List Instruction) (i : Instruction) → self.old ≡ before ++ i ∷ after → place ≡ length before → self.new ≡ before ++ instruction op i.at ∷ after }
    {
        if place < self.ops.len() {
            put(&mut self.ops, place, op);
        }
    }

    /// The instructions and their offsets.
    pub fn finish(self) -> (Vec<Op>, Vec<Offset>)
        ensures as_many { length result.0.items ≡ length result.1.items }
        ensures same { instructions_of result.0.items result.1.items ≡ self }
    {
        let Output { ops, offsets } = self;
        (ops, offsets)
    }
}

// One item more. Where there is no memory for it, it is dropped.
fn push_one<T: Drop>(items: &mut Vec<T>, item: T) -> Result<(), AllocError>
    ensures ok { OnOk result (items.new.items ≡ items.old.items ++ item ∷ []) }
    ensures err { OnErr result (items.new.items ≡ items.old.items) }
{
    items.push(item)?;
    Ok(())
}

// Another item at this index.
fn put<T: Drop>(items: &mut Vec<T>, at: usize, item: T)
    requires { at < length items.old.items }
    ensures { items.new.items ≡ slice_set items.old.items at item }
{
    items[at] = item;
}
