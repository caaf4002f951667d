//! What is true of generated programs, as functions that do nothing.

ghost use Rattle.std.specs.Prelude.{ℕ, ◌≤◌, length};
ghost use Rattle.ql_vectors.specs.GenText.{gen_text};

/// A generated program is within the limit on a source, 1,048,576 bytes.
pub fn generated_texts_are_short()
    ensures short { (seed size : ℕ) → size ≤ 3000 → length (gen_text seed size) ≤ 1048576 }
{}
