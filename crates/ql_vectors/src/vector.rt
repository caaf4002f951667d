//! Programs, each with what a run of it answers.

ghost use Rattle.std.specs.Prelude.{◌≡◌, length};

/// A program, and what `ql run` answers on it, without options.
#[derive(Clone, Copy, Debug)]
pub struct Vector {
    /// what it shows
    pub name: &'static str,
    /// the program
    pub source: &'static [u8],
    /// the exit status
    pub code: u8,
    /// what it prints
    pub output: &'static [u8],
}

static VECTORS: [Vector; 30] = [
    Vector {
        name: "a sum",
        source: b"(print (+ 1 2))",
        code: 0,
        output: b"3\n",
    },
    Vector {
        name: "nothing",
        source: b"",
        code: 0,
        output: b"",
    },
    Vector {
        name: "a comment alone",
        source: b"; only this",
        code: 0,
        output: b"",
    },
    Vector {
        name: "the greatest integer",
        source: b"(print 9223372036854775807)",
        code: 0,
        output: b"9223372036854775807\n",
    },
    Vector {
        name: "an integer past the greatest",
        source: b"(print 9223372036854775808)",
        code: 1,
        output: b"",
    },
    Vector {
        name: "an integer below zero",
        source: b"(print -9223372036854775808)",
        code: 0,
        output: b"-9223372036854775808\n",
    },
    Vector {
        name: "a sum past the greatest integer",
        source: b"(print (+ 9223372036854775807 1))",
        code: 3,
        output: b"",
    },
    Vector {
        name: "a list with dots",
        source: b"(print '(a . (b . (c . 4))))",
        code: 0,
        output: b"(a b c . 4)\n",
    },
    Vector {
        name: "a list without its end",
        source: b"(print (car '(1 2))",
        code: 1,
        output: b"",
    },
    Vector {
        name: "an end without a list",
        source: b")",
        code: 1,
        output: b"",
    },
    Vector {
        name: "two forms after a dot",
        source: b"(a . b c)",
        code: 1,
        output: b"",
    },
    Vector {
        name: "an unbound variable",
        source: b"(print x)",
        code: 1,
        output: b"",
    },
    Vector {
        name: "a parameter twice",
        source: b"(defun f (a a) a)",
        code: 1,
        output: b"",
    },
    Vector {
        name: "a throw in a cleanup that nothing catches",
        source: b"(unwind-protect 1 (throw 'k 2))",
        code: 3,
        output: b"",
    },
    Vector {
        name: "two functions that call each other",
        source: b"(defun ev (n) (if (= n 0) t (od (- n 1)))) (defun od (n) (if (= n 0) nil (ev (- n 1)))) (print (ev 10))",
        code: 0,
        output: b"t\n",
    },
    Vector {
        name: "two processes and their sum",
        source: b"(defun fib (n) (if (< n 2) n (+ (fib (- n 1)) (fib (- n 2))))) (print (qlet t ((a (fib 10)) (b (fib 10))) (+ a b)))",
        code: 0,
        output: b"110\n",
    },
    Vector {
        name: "a throw in a process that nothing catches",
        source: b"(qlet 'eager ((x (throw 'no 1))) (print 2))",
        code: 3,
        output: b"2\n",
    },
    Vector {
        name: "a throw kills a spinning sibling",
        source: b"(defun spin () (spin)) (print (catch 'k (qlet t ((a (spin)) (b (throw 'k 7)) (c 5)) a)))",
        code: 0,
        output: b"7\n",
    },
    Vector {
        name: "a throw kills the processes of a catch within",
        source: b"(defun spin () (spin)) (print (catch 'a (qlet t ((x (catch 'b (qlet t ((y (spin))) y))) (z (throw 'a 9))) x)))",
        code: 0,
        output: b"9\n",
    },
    Vector {
        name: "a catch exit kills the process of a future",
        source: b"(print (catch 'k (qlet 'eager ((x 5)) x)))",
        code: 3,
        output: b"",
    },
    Vector {
        name: "a killed process runs its cleanup",
        source: b"(defun spin () (spin)) (print (catch 'k (qlet t ((a (unwind-protect (spin) (print 'cleanup))) (b (throw 'k 1))) a)))",
        code: 0,
        output: b"1\ncleanup\n",
    },
    Vector {
        name: "a catch waits until the queue is empty",
        source: b"(print (let ((s 0)) (qcatch 'q (let ((c (qlambda t (n) (setq s (+ s n))))) (funcall c 1) (funcall c 2) (funcall c 3) nil)) s))",
        code: 0,
        output: b"6\n",
    },
    Vector {
        name: "a queue of ten calls",
        source: b"(print (let ((s 0)) (qcatch 'q (let ((c (qlambda t (n) (setq s (+ s n))))) (funcall c 1) (funcall c 2) (funcall c 3) (funcall c 4) (funcall c 5) (funcall c 6) (funcall c 7) (funcall c 8) (funcall c 9) (funcall c 10) nil)) s))",
        code: 0,
        output: b"55\n",
    },
    Vector {
        name: "a process closure that calls itself",
        source: b"(defvar c nil) (setq c (qlambda t (n) (funcall c n))) (funcall c 1)",
        code: 5,
        output: b"",
    },
    Vector {
        name: "a call of a process closure that was killed",
        source: b"(funcall (catch 'k (qlambda t (n) n)) 1)",
        code: 3,
        output: b"",
    },
    Vector {
        name: "an eager process closure",
        source: b"(let ((c (qlambda 'eager (x) (print 'ready) (print x)))) (funcall c 5))",
        code: 0,
        output: b"ready\n5\nready\n",
    },
    Vector {
        name: "a value with a text past the limit",
        source: b"(defun dbl (n x) (if (= n 0) x (dbl (- n 1) (cons x x)))) (print (dbl 40 nil))",
        code: 6,
        output: b"",
    },
    Vector {
        name: "processes that spawn without end",
        source: b"(defun bomb () (qlet t ((a (bomb)) (b (bomb))) nil)) (bomb)",
        code: 6,
        output: b"",
    },
    Vector {
        name: "a generated program",
        source: b"(defvar total 0)\n(defvar acc (qlambda t (n) (setq total (+ total n))))\n(defun fib (n) (if (< n 2) n (+ (fib (- n 1)) (fib (- n 2)))))\n(funcall acc (let ((a 1)) a))\n(print total)\n",
        code: 0,
        output: b"1\n",
    },
    Vector {
        name: "a product that stops at zero",
        source: b"(defun prod (l) (cond ((null l) 1) ((consp l) (qlet t ((a (prod (car l))) (b (prod (cdr l)))) (* a b))) ((= l 0) (throw 'zero 0)) (t l))) (print (catch 'zero (prod '((2 3) (4 5) 6)))) (print (catch 'zero (prod '((2 3) (0 5) 6))))",
        code: 0,
        output: b"720\n0\n",
    },
];

/// The programs, from simple ones to those with many processes. It takes no memory.
pub fn vectors() -> &'static [Vector]
    ensures { length result.now ≡ 30 }
{
    &VECTORS
}
