//! What the processes of a run share.

use crate::history::History;
use crate::output::Output;
use ql_calls::calls::Calls;
use ql_cells::cells::Cells;
use ql_future::futures::Futures;
use ql_tree::tree::Tree;
use ql_world::event::Stop;
use ql_world::word::Word;

/// All of a run but the threads of its processes.
#[derive(Drop)]
pub struct Shared {
    pub cells: Cells,
    pub futures: Futures,
    /// The processes beside their threads, and the catches.
    pub tree: Tree,
    pub calls: Calls,
    /// Each with its word once it has one.
    pub globals: Vec<Option<Word>>,
    pub output: Output,
    pub history: History,
    /// How many protects were begun.
    pub protects: u64,
    /// The error or the limit that the last tick met.
    pub mark: Option<Stop>,
}
