//! The ticks, one function for each kind, by what they are about.

pub mod awaits;
pub mod boxes;
pub mod calls;
pub mod catches;
pub mod closes;
pub mod frames;
pub mod makes;
pub mod making;
pub mod marks;
pub mod primitives;
pub mod prints;
pub mod replies;
pub mod spawns;
pub mod unwinding;
pub mod values;
