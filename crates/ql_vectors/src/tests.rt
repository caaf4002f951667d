//! A generated program as it is written down, and the table beside it.

use crate::generate::generate;
use crate::vector::vectors;
use std::alloc::Global;

const EACH_BLOCK: &[u8] = b"(defvar total 0)
(defvar acc (qlambda t (n) (setq total (+ total n))))
(defun fib (n) (if (< n 2) n (+ (fib (- n 1)) (fib (- n 2)))))
(funcall acc (let ((a 1)) a))
(funcall acc (qlet 'eager ((a 2)) (+ a 0)))
(funcall acc (catch 'k (qlet t ((a (throw 'k 3))) a)))
(funcall acc (qlet t ((a (fib 5)) (b 4)) (+ b (- a 5))))
(print total)
";

#[test]
fn a_block_of_each_kind(rt: HostRuntime) {
    let alloc: Global = rt.alloc();
    let text = generate(alloc, 6, 4).expect(&rt, "memory");
    assert!(&rt; text.as_slice() == EACH_BLOCK, "four blocks");
}

#[test]
fn the_generated_vector_is_generated(rt: HostRuntime) {
    let alloc: Global = rt.alloc();
    let text = generate(alloc, 0, 1).expect(&rt, "memory");
    let mut found = 0;
    for vector in vectors() {
        if text.as_slice() == vector.source {
            assert!(&rt; vector.output == b"1\n".as_slice(), "its sum");
            found = 1;
        }
    }
    assert_eq!(&rt; found, 1);
}
