//! The generated program.

ghost use Rattle.std.specs.Prelude.{◌≡◌, ◌≤◌, IfOk};
ghost use Rattle.ql_vectors.specs.GenText.{gen_text};

use crate::block::{Block, next_state, put_line};
use std::alloc::{AllocError, Global};

const HEAD: &[u8] = b"(defvar total 0)
(defvar acc (qlambda t (n) (setq total (+ total n))))
(defun fib (n) (if (< n 2) n (+ (fib (- n 1)) (fib (- n 2)))))
";

/// The source of a program with `size` blocks, chosen by `seed`. Its processes send the numbers 1 to `size` to an
/// accumulator, and the last line prints their sum.
pub fn generate(alloc: Global, seed: u64, size: u32) -> Result<Vec<u8>, AllocError>
    requires some { 1 ≤ size }
    requires most { size ≤ 3000 }
    ensures { IfOk result (λ text. text.items ≡ gen_text seed size) }
{
    let mut text = Vec::from_slice(alloc, HEAD)?;
    let mut state = seed;
    'blocks: for number in 1..=size {
        state = next_state(state);
        put_line(&mut text, Block::of_state(state), number)?;
    }
    text.extend_from_slice(b"(print total)\n")?;
    Ok(text)
}
