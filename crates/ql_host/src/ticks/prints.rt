//! The tick that prints.

ghost use Rattle.std.specs.Prelude.{◌≡◌, ◌-◌, ◌∷◌, [], ◌++◌, IfOk, OnOk, OnErr, None, length, option_map};
ghost use Rattle.ql_world.specs.Text.{value_text, text_up_to, IsBefore};
ghost use Rattle.ql_code.specs.declared.code.Op.TheVariants as ops;
ghost use Rattle.ql_host.specs.Awaited.{awaited};
ghost use Rattle.ql_host.specs.World.{Keeps};
ghost use Rattle.ql_host.specs.Acting.{Takes, StandsAt, IsKept};

use crate::room::{Room, take_room};
use crate::setting::Setting;
use crate::shared::Shared;
use crate::ticks::values::stop;
use ql_base::limits::LimitKind;
use ql_proc::process::Proc;
use ql_tree::person::Person;
use ql_world::event::Stop;
use ql_world::word::Word;
use std::alloc::AllocError;

/// Prints the top word on a line of its own.
pub fn print(
    s: Setting,
    shared: &mut Shared,
    proc: &mut Proc,
    p: u32,
    person: Person,
    at: u64,
) -> Result<(), AllocError>
    requires here { StandsAt s p person shared.old proc.old ops.Print at }
    requires calm { awaited ops.Print proc.old.stack.items ≡ None }
    ensures takes { OnOk result (Takes s.entry p person shared.old proc.old shared.new proc.new) }
    ensures keeps { OnOk result (Keeps shared.old shared.new) }
    ensures kept { OnErr result (IsKept shared.old proc.old shared.new proc.new) }
{
    let room = Room {
        cells: 0,
        futures: 0,
        tree: 0,
        events: 2,
        stack: 0,
    };
    take_room(shared, proc, room)?;
    let Some(w) = proc.top_word() else {
        // No: the operands of an instruction are there.
        return Ok(());
    };
    let Some(text) = line_of(s, shared, w)? else {
        let kind = LimitKind::Output;
        stop(shared, p, Stop::Limit { kind });
        return Ok(());
    };
    shared.output.reserve(text.len() as u64)?;
    shared.output.print(&text);
    proc.pass_on(s.code);
    shared.history.tick(p);
    Ok(())
}

/// The text of a word, and a line feed. None comes exactly where the output may not grow by so much.
fn line_of(s: Setting, shared: &Shared, w: Word) -> Result<Option<Vec<u8>>, AllocError>
    requires { IsBefore (length shared.now.cells.pairs) w }
    ensures { IfOk result (λ line. option_map (λ v. v.items) line ≡ text_up_to (s.entry.limits.output - length shared.now.output.bytes) (value_text s.entry.names.now shared.now.cells.pairs w ++ 10 ∷ [])) }
{
    let left = s.limits.output.saturating_sub(shared.output.len());
    if left == 0 {
        return Ok(None);
    }
    match shared.cells.text(s.names, w, left - 1)? {
        None => Ok(None),
        Some(text) => ended(text),
    }
}

/// A text with a line feed.
fn ended(text: Vec<u8>) -> Result<Option<Vec<u8>>, AllocError>
    ensures { IfOk result (λ line. option_map (λ v. v.items) line ≡ Some (text.items ++ 10 ∷ [])) }
{
    let mut line = text;
    line.push(10)?;
    Ok(Some(line))
}
