//! What closures capture.

ghost use Rattle.std.specs.Prelude.{◌≡◌, IfOk, OnOk, map, reverse};
ghost use Rattle.ql_expand.specs.ProgramView.{program_of};
ghost use Rattle.ql_expand.specs.View.{binders_of, core_of};
ghost use Rattle.ql_meaning.specs.Context.{context_of, stored_among};
ghost use Rattle.ql_compile.specs.Compile.{body_scope, captured, caught, caught_slots, mask, scope_of, with_variables};
ghost use Rattle.ql_compile.specs.Free.{caught_of};

use crate::frame::Frame;
use crate::free::free_names;
use crate::names::Names;
use crate::number::number;
use ql_expand::core_form::{Binder, Core, VarName};
use ql_scope::scoped::Scoped;
use sqlite_items::Items;
use std::alloc::{AllocError, Global};

/// What a closure captures, and the frame of its body.
#[derive(Drop)]
pub struct Captured {
    /// The slots that it captures, in rising order.
    pub slots: Items<u32>,
    /// Its parameters, and above them what it has captured.
    pub frame: Frame,
}

/// A variable that a closure captures.
#[derive(Clone, Copy)]
pub struct Taken {
    /// Its slot in the frame around the closure.
    pub slot: u32,
    pub name: VarName,
    /// Whether the slot holds the box that it lives in.
    pub stored: bool,
}

/// What a closure with these parameters and this body captures of a frame.
pub fn capture(
    alloc: Global,
    scoped: &Scoped,
    frame: &Frame,
    params: &[Binder],
    body: &Core,
) -> Result<Captured, AllocError>
    ensures slots { IfOk result (λ c. c.slots ≡ caught_slots (captured (context_of (program_of scoped.now.program)) frame.now (binders_of params.now) (core_of body.now))) }
    ensures frame { IfOk result (λ c. c.frame ≡ body_scope (context_of (program_of scoped.now.program)) frame.now (binders_of params.now) (core_of body.now)) }
{
    let names = free_names(alloc, params, body)?;
    let mut taken = take_named(alloc, frame, names)?;
    // The topmost one was found first.
    taken.reverse();
    Ok(Captured {
        slots: slots_of(alloc, taken.as_slice())?,
        frame: body_frame(alloc, scoped, params, taken.as_slice())?,
    })
}

// The last variable of each of these names, from the top of the frame down. A name that was found is taken away, so
// that the variables that it hides stay out, and so that the search ends with the last name.
fn take_named(alloc: Global, frame: &Frame, mut names: Names) -> Result<Vec<Taken>, AllocError>
    ensures { IfOk result (λ taken. map caught_of taken.items ≡ caught frame.now names) }
{
    let mut taken = Vec::new(alloc);
    let mut at = frame.len();
    while at > 0 && !names.is_empty() {
        at -= 1;
        let Some((name, stored)) = frame.slot(at) else {
            continue;
        };
        if names.remove(name) {
            let slot = number(at)?;
            taken.push(Taken { slot, name, stored })?;
        }
    }
    Ok(taken)
}

// The slots of captured variables.
fn slots_of(alloc: Global, taken: &[Taken]) -> Result<Items<u32>, AllocError>
    ensures { IfOk result (λ slots. slots ≡ map (λ t. t.slot) taken.now) }
{
    let mut slots = Vec::new(alloc);
    for variable in taken {
        slots.push(variable.slot)?;
    }
    Ok(Items::from_vec(slots))
}

// The frame of a body with these parameters and captured variables, the last of which is on top.
fn body_frame(
    alloc: Global,
    scoped: &Scoped,
    params: &[Binder],
    taken: &[Taken],
) -> Result<Frame, AllocError>
    ensures { IfOk result (λ frame. frame ≡ scope_of (reverse (map caught_of taken.now)) (binders_of params.now) (stored_among (context_of (program_of scoped.now.program)) (binders_of params.now))) }
{
    let mut frame = Frame::new(alloc);
    push_variables(&mut frame, scoped, params)?;
    for variable in taken {
        frame.push_variable(variable.name, variable.stored)?;
    }
    Ok(frame)
}

/// Variables on top of a frame, the last one on top.
pub fn push_variables(
    frame: &mut Frame,
    scoped: &Scoped,
    binders: &[Binder],
) -> Result<(), AllocError>
    ensures { OnOk result (frame.new ≡ with_variables (binders_of binders.now) (stored_among (context_of (program_of scoped.now.program)) (binders_of binders.now)) frame.old) }
{
    for binder in binders {
        frame.push_variable(binder.name, scoped.is_stored(binder.at, &binder.name))?;
    }
    Ok(())
}

/// Which of these variables are stored, as a mask. One of more than 32 bits is answered as want of memory; a program
/// in scope has at most 16 variables in a place.
pub fn mask(scoped: &Scoped, binders: &[Binder]) -> Result<u32, AllocError>
    ensures { IfOk result (λ m. m ≡ mask (context_of (program_of scoped.now.program)) (binders_of binders.now)) }
{
    let mut mask = 0;
    for i in (0..binders.len()).rev() {
        if mask > u32::MAX / 2 {
            return Err(AllocError);
        }
        let binder = &binders[i];
        let bit = u32::from(scoped.is_stored(binder.at, &binder.name));
        mask = bit + 2 * mask;
    }
    Ok(mask)
}
