//! What a run is of: its code, its names and its limits.

use ql_base::limits::Limits;
use ql_base::names::Names;
use ql_code::code::Code;
use std::alloc::Global;

/// What a run is of.
#[derive(Clone, Copy)]
pub struct Setting<'a> {
    pub code: &'a Code,
    pub names: &'a Names,
    pub limits: Limits,
    /// Where its memory comes from.
    pub alloc: Global,
}
