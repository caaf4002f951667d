//! Ticks that compute.

ghost use Rattle.std.specs.Prelude.{◌≡◌, ◌<◌, ◌+◌, ◌∷◌, OnOk, OnErr, None, Some, length, drop as without_first};
ghost use Rattle.ql_world.specs.Operator.{of_one, computed};
ghost use Rattle.ql_code.specs.declared.code.Op.{Op};
ghost use Rattle.ql_code.specs.declared.code.Op.TheVariants as ops;
ghost use Rattle.ql_code.specs.Machine.{settled, word, words, operand_count};
ghost use Rattle.ql_proc.specs.Points.{point_of};
ghost use Rattle.ql_proc.specs.Slots.{HasWords};
ghost use Rattle.ql_cells.specs.Making.{part_given};
ghost use Rattle.ql_host.specs.Awaited.{awaited};
ghost use Rattle.ql_host.specs.Computing.{IsComputing};
ghost use Rattle.ql_host.specs.World.{Keeps};
ghost use Rattle.ql_host.specs.Acting.{Takes, StandsAt, IsKept};

use crate::room::{Room, take_room};
use crate::setting::Setting;
use crate::shared::Shared;
use crate::ticks::values::stop;
use ql_base::fault::RunFault;
use ql_base::limits::LimitKind;
use ql_proc::process::Proc;
use ql_proc::settle::next_place;
use ql_tree::person::Person;
use ql_world::event::Stop;
use ql_world::operator::{Computed, Operator, of_symbol};
use ql_world::word::Word;
use std::alloc::AllocError;

/// Makes a pair of the topmost two words.
pub fn cons(
    s: Setting,
    shared: &mut Shared,
    proc: &mut Proc,
    p: u32,
    person: Person,
    at: u64,
) -> Result<(), AllocError>
    requires { StandsAt s p person shared.old proc.old ops.Cons at }
    ensures takes { OnOk result (Takes s.entry p person shared.old proc.old shared.new proc.new) }
    ensures keeps { OnOk result (Keeps shared.old shared.new) }
    ensures kept { OnErr result (IsKept shared.old proc.old shared.new proc.new) }
{
    compute(s, shared, proc, p, person, Operator::Cons, at)
}

/// Computes by a primitive.
pub fn prim(
    s: Setting,
    shared: &mut Shared,
    proc: &mut Proc,
    p: u32,
    person: Person,
    symbol: u32,
    at: u64,
) -> Result<(), AllocError>
    requires here { StandsAt s p person shared.old proc.old (ops.Prim symbol) at }
    requires calm { awaited (ops.Prim symbol) proc.old.stack.items ≡ None }
    ensures takes { OnOk result (Takes s.entry p person shared.old proc.old shared.new proc.new) }
    ensures keeps { OnOk result (Keeps shared.old shared.new) }
    ensures kept { OnErr result (IsKept shared.old proc.old shared.new proc.new) }
{
    let Some(operator) = of_symbol(symbol) else {
        // No: the primitives have these symbols.
        return Ok(());
    };
    compute(s, shared, proc, p, person, operator, at)
}

/// Computes by an operator, whatever instruction asks for it.
fn compute(
    s: Setting,
    shared: &mut Shared,
    proc: &mut Proc,
    p: u32,
    person: Person,
    operator: Operator,
    at: u64,
) -> Result<(), AllocError>
    requires { (op : Op) × IsComputing s p person shared.old proc.old op at operator }
    ensures takes { OnOk result (Takes s.entry p person shared.old proc.old shared.new proc.new) }
    ensures keeps { OnOk result (Keeps shared.old shared.new) }
    ensures kept { OnErr result (IsKept shared.old proc.old shared.new proc.new) }
{
    let room = Room {
        cells: 1,
        futures: 0,
        tree: 0,
        events: 2,
        stack: 0,
    };
    take_room(shared, proc, room)?;
    let Some(found) = compute_on(shared, proc, operator) else {
        // No: the operands of an instruction are there.
        return Ok(());
    };
    match found {
        Computed::Gives(w) => {
            give(s, proc, operator, w);
            shared.history.tick(p);
            Ok(())
        }
        Computed::Fails(kind) => {
            stop(shared, p, Stop::Fault { kind, proc: p, at });
            Ok(())
        }
        Computed::Joins(a, d) => {
            if shared.cells.room() == 0 {
                let kind = LimitKind::Cells;
                stop(shared, p, Stop::Limit { kind });
                return Ok(());
            }
            let pair = shared.cells.put_pair(a, d);
            give(s, proc, operator, pair);
            shared.history.tick(p);
            Ok(())
        }
    }
}

/// What an operator makes of its operands.
fn compute_on(shared: &Shared, proc: &Proc, operator: Operator) -> Option<Computed>
    requires { HasWords (operand_count (Some operator)) proc.now.stack.items }
    ensures { result ≡ computed shared.now.cells.pairs operator (words (operand_count (Some operator)) proc.now.stack.items) }
{
    if operator.takes_one() {
        let w = proc.top_word()?;
        Some(compute_on_one(shared, operator, w))
    } else {
        let (a, b) = proc.top_two()?;
        Some(operator.of_two(a, b))
    }
}

/// What an operator makes of one operand.
fn compute_on_one(shared: &Shared, operator: Operator, w: Word) -> Computed
    ensures { result ≡ of_one shared.now.cells.pairs operator w }
{
    match operator {
        Operator::Car => part(shared.cells.car(w)),
        Operator::Cdr => part(shared.cells.cdr(w)),
        _ => operator.of_one(w),
    }
}

fn part(found: Option<Word>) -> Computed
    ensures { result ≡ part_given found }
{
    match found {
        Some(w) => Computed::Gives(w),
        None => Computed::Fails(RunFault::NotPair),
    }
}

/// Puts a word in place of the operands of an operator, and goes on.
fn give(s: Setting, proc: &mut Proc, operator: Operator, w: Word)
    requires place { proc.old.place < length s.code.now.instructions }
    requires words { HasWords (operand_count (Some operator)) proc.old.stack.items }
    ensures { point_of proc.new ≡ settled s.entry.code.now.instructions (proc.old.place + 1) (word w ∷ without_first (operand_count (Some operator)) proc.old.stack.items) }
{
    if operator.takes_one() {
        let next = next_place(s.code, proc.place);
        proc.replace_one(s.code, next, w);
    } else {
        proc.replace_two(s.code, w);
    }
}
