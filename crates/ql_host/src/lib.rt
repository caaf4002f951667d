//! The run of code: who can step, which process is picked, and what each tick does to the tables, one function for each
//! kind of tick. `Host` puts these together. Its type keeps that its state is that of the meaning after the schedule which its
//! events spell.
#![tactic(auto)]

pub mod history;
pub mod host;
pub mod kill;
pub mod output;
pub mod pick;
pub mod ready;
pub mod room;
pub mod setting;
pub mod shared;
pub mod step;
pub mod ticks;
pub mod told;
pub mod turns;
pub mod waits;
pub mod work;
