//! Variables of a source.

/// A variable that some `setq` names: the offset of its binder, and the number of its name.
#[derive(Clone, Copy, Debug, PartialEq, Eq, Hash)]
pub struct Variable {
    pub at: u64,
    pub name: u32,
}
