//! Turns of eager process closures.

ghost use Rattle.std.specs.Prelude.{◌≡◌, ◌<◌, ◌≤◌, ◌+◌, IfOk, List, length, map};
ghost use Rattle.ql_world.specs.declared.word.Word.TheVariants.{Fut as future};
ghost use Rattle.ql_world.specs.World.{numbers};
ghost use Rattle.ql_world.specs.Tick.{with_boxes, with_futures};
ghost use Rattle.ql_code.specs.Machine.{Point};
ghost use Rattle.ql_host.specs.World.{world_of};
ghost use Rattle.ql_host.specs.Turns.{IsTurn};

use crate::shared::Shared;
use crate::ticks::boxes::{put_boxes, stored_words};
use crate::ticks::spawns::next_future;
use ql_future::futures::Futures;
use ql_world::word::Word;
use std::alloc::{AllocError, Global};

/// A turn of an eager closure, before its call is there.
#[derive(Drop)]
pub struct Turn {
    /// The futures for its parameters.
    pub futures: Vec<u32>,
    /// The words of its parameters.
    pub words: Vec<Word>,
    /// Those of the parameters that are stored.
    pub stored: Vec<Word>,
}

/// The next turn of a closure with so many parameters, of which these bits are stored.
pub fn next_turn(
    alloc: Global,
    futures: &Futures,
    count: u32,
    mask: u32,
) -> Result<Turn, AllocError>
    ensures { IfOk result (λ turn. IsTurn (length futures.now.states + 1) count mask turn) }
{
    let first = next_future(futures)?;
    let futures = numbers_from(alloc, first, count)?;
    let words = future_words(alloc, &futures)?;
    let stored = stored_words(alloc, &words, mask)?;
    Ok(Turn {
        futures,
        words,
        stored,
    })
}

/// So many numbers from this one on.
fn numbers_from(alloc: Global, first: u32, count: u32) -> Result<Vec<u32>, AllocError>
    ensures { IfOk result (λ made. made.items ≡ numbers first count) }
{
    if count > u32::MAX - first {
        return Err(AllocError);
    }
    let mut made = Vec::new(alloc);
    'numbers: for n in 0..count {
        made.push(first + n)?;
    }
    Ok(made)
}

/// The words of futures.
fn future_words(alloc: Global, futures: &[u32]) -> Result<Vec<Word>, AllocError>
    ensures { IfOk result (λ words. words.items ≡ map future futures.now) }
{
    let mut words = Vec::new(alloc);
    'futures: for f in futures {
        words.push(Word::Fut(*f))?;
    }
    Ok(words)
}

/// Makes the futures and the boxes of a turn.
pub fn put_turn(shared: &mut Shared, turn: &Turn)
    requires futures { length turn.now.futures.items ≤ shared.old.futures.spare }
    requires some_room { 0 < shared.old.cells.spare }
    requires room { length turn.now.stored.items ≤ shared.old.cells.spare }
    requires allowed { shared.old.cells.made + length turn.now.stored.items ≤ shared.old.cells.limit }
    ensures world { (threads : List Point) → world_of shared.new threads ≡ with_boxes (with_futures (world_of shared.old threads) (length turn.now.futures.items)) turn.now.stored.items }
    ensures same { shared.new ≡ record shared.old { cells = shared.new.cells; futures = shared.new.futures } }
    ensures limit { shared.new.cells.limit ≡ shared.old.cells.limit }
{
    shared.futures.add_all(turn.futures.len() as u64);
    put_boxes(&mut shared.cells, &turn.stored);
}
