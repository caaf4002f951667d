//! Boxes for variables that are stored.

ghost use Rattle.std.specs.Prelude.{◌≡◌, ◌<◌, ◌≤◌, ◌+◌, ◌^◌, ◌++◌, IfOk, OnOk, OnErr, length};
ghost use Rattle.ql_world.specs.Tick.{words_boxed};
ghost use Rattle.ql_code.specs.Code.{unmasked};
ghost use Rattle.ql_code.specs.Machine.{words};
ghost use Rattle.ql_proc.specs.Slots.{HasWords};
ghost use Rattle.ql_host.specs.Boxes.{AfterBoxes};
ghost use Rattle.ql_host.specs.Room.{with_room};

use crate::room::{Room, take_room};
use crate::shared::Shared;
use crate::ticks::values::stop;
use ql_base::limits::LimitKind;
use ql_cells::cells::Cells;
use ql_proc::process::Proc;
use ql_world::event::Stop;
use ql_world::word::Word;
use std::alloc::{AllocError, Global};

/// Of the words of variables, those of the stored ones. A bit of the mask says of each variable whether it is stored,
/// the lowest of the first.
pub fn stored_words(alloc: Global, words: &[Word], mask: u32) -> Result<Vec<Word>, AllocError>
    ensures { IfOk result (λ stored. stored.items ≡ words_boxed (unmasked (length words.now) mask) words.now) }
{
    let mut stored = Vec::new(alloc);
    let mut rest = mask;
    'words: for w in words {
        if rest % 2 == 1 {
            stored.push(*w)?;
        }
        rest /= 2;
    }
    Ok(stored)
}

/// The same of so many words on top of a stack.
fn stored_on(proc: &Proc, alloc: Global, count: u32, mask: u32) -> Result<Vec<Word>, AllocError>
    requires { HasWords count proc.now.stack.items }
    ensures { IfOk result (λ stored. stored.items ≡ words_boxed (unmasked count mask) (words count proc.now.stack.items)) }
{
    if mask == 0 {
        return Ok(Vec::new(alloc));
    }
    let words = proc.words(alloc, count)?;
    stored_words(alloc, &words, mask)
}

/// Makes boxes with these words, one after another, and gives the number of the first.
pub fn put_boxes(cells: &mut Cells, words: &[Word]) -> u32
    requires some_room { 0 < cells.old.spare }
    requires room { length words.now ≤ cells.old.spare }
    requires allowed { cells.old.made + length words.now ≤ cells.old.limit }
    ensures first { result ≡ length cells.old.boxes }
    ensures numbers { result + length words.now ≤ 4294967295 }
    ensures made { cells.new ≡ record cells.old { boxes = cells.old.boxes ++ words.now; made = cells.old.made + length words.now; spare = cells.new.spare } }
    ensures spare { cells.old.spare ≤ cells.new.spare + length words.now }
{
    let first = cells.box_count();
    'words: for w in words {
        cells.put_box(*w);
    }
    first
}

/// Makes the boxes of variables that so many words on top become, in a tick that pushes so much besides, and gives the
/// number of the first. None is given where the tick meets the limit of cells.
pub fn take_boxes(
    shared: &mut Shared,
    proc: &mut Proc,
    p: u32,
    count: u32,
    mask: u32,
    stack: u64,
) -> Result<Option<u32>, AllocError>
    requires words { HasWords count proc.old.stack.items }
    requires small { shared.old.history.ticks < 2 ^ 63 }
    ensures proc { proc.new ≡ record proc.old { stack = record proc.old.stack { room = proc.new.stack.room } } }
    ensures made { IfOk result (λ first. AfterBoxes (words_boxed (unmasked count mask) (words count proc.old.stack.items)) shared.old shared.new p first) }
    ensures stack { OnOk result (stack ≤ proc.new.stack.room) }
    ensures kept { OnErr result (shared.new ≡ with_room shared.old shared.new) }
    ensures events { OnErr result (shared.old.history.spare ≤ shared.new.history.spare) }
{
    let stored = stored_on(proc, *shared.globals.allocator(), count, mask)?;
    let room = Room {
        cells: stored.len() as u64 + 1,
        futures: 0,
        tree: 0,
        events: 2,
        stack,
    };
    take_room(shared, proc, room)?;
    if stored.len() as u64 > shared.cells.room() {
        stop(
            shared,
            p,
            Stop::Limit {
                kind: LimitKind::Cells,
            },
        );
        return Ok(None);
    }
    Ok(Some(put_boxes(&mut shared.cells, &stored)))
}
