//! The blocks of a generated program.

ghost use Rattle.std.specs.Prelude.{◌≡◌, ◌++◌, OnOk, decimal};
ghost use Rattle.ql_vectors.specs.GenText.{next_state, block_of, line};

use itoa::Buffer;
use std::alloc::{AllocError, Global};

/// What a line of a generated program does: each sends one number to the accumulator, in its own way.
#[derive(Clone, Copy, Debug, PartialEq, Eq)]
pub enum Block {
    /// from a variable
    Variable,
    /// from one of two processes, whose values are awaited at the binding
    Awaited,
    /// from a process whose value is awaited where it is used
    Future,
    /// from a process that throws it
    Thrown,
}

/// The state after `state`, which chooses the next block.
pub fn next_state(state: u64) -> u64
    ensures { result ≡ next_state state }
{
    state
        .wrapping_mul(6_364_136_223_846_793_005)
        .wrapping_add(1_442_695_040_888_963_407)
}

impl Block {
    /// The block that a state chooses, by its two highest bits.
    pub fn of_state(state: u64) -> Block
        ensures { result ≡ block_of state }
    {
        match state >> 62 {
            0 => Block::Variable,
            1 => Block::Awaited,
            2 => Block::Future,
            _ => Block::Thrown,
        }
    }
}

/// Appends the line of a block that sends `number`.
pub fn put_line(text: &mut Vec<u8>, block: Block, number: u32) -> Result<(), AllocError>
    ensures { OnOk result (text.new.items ≡ text.old.items ++ line block number) }
{
    match block {
        Block::Variable => put_around(text, b"(funcall acc (let ((a ", number, b")) a))\n"),
        Block::Awaited => put_around(
            text,
            b"(funcall acc (qlet t ((a (fib 5)) (b ",
            number,
            b")) (+ b (- a 5))))\n",
        ),
        Block::Future => put_around(
            text,
            b"(funcall acc (qlet 'eager ((a ",
            number,
            b")) (+ a 0)))\n",
        ),
        Block::Thrown => put_around(
            text,
            b"(funcall acc (catch 'k (qlet t ((a (throw 'k ",
            number,
            b"))) a)))\n",
        ),
    }
}

fn put_around(
    text: &mut Vec<u8>,
    before: &[u8],
    number: u32,
    after: &[u8],
) -> Result<(), AllocError>
    ensures { OnOk result (text.new.items ≡ text.old.items ++ (before.now ++ (decimal number ++ after.now))) }
{
    let mut digits = Buffer::new();
    text.extend_from_slice(before)?;
    text.extend_from_slice(digits.format(number).as_bytes())?;
    text.extend_from_slice(after)
}
