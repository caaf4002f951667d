//! What a value has to tell so that it can lie in a turn.

ghost use Rattle.std.specs.Prelude.{List};

/// A value that lies in a turn while no thread has it. Contracts look no further into it.
pub trait Kept {
    /// What a program is, as contracts see it.
    type Program;

    /// What one entry of a journal is, as contracts see it.
    type Entry;

    /// The program, the same of each value of a turn.
    ghost program: { Self → Self.Program };

    /// The journal, which goes on from turn to turn.
    ghost journal: { Self → List Self.Entry };
}
