//! Words, and the slots that hold them.

ghost use Rattle.std.specs.Prelude.{◌≡◌};

/// A value. Pairs count from 0, symbols by their place among the names, all else from 1.
#[derive(Clone, Copy, Debug, PartialEq, Eq)]
pub enum Word {
    /// An integer.
    Int(i64),
    /// A symbol.
    Sym(u32),
    /// A pair.
    Pair(u32),
    /// A closure.
    Fun(u32),
    /// A process closure.
    Proc(u32),
    /// A future.
    Fut(u32),
}

/// A variable's place.
#[derive(Clone, Copy, Debug, PartialEq, Eq)]
pub enum Slot {
    /// Its word.
    Val(Word),
    /// The box that it lives in.
    Cell(u32),
}

impl Word {
    ghost use Rattle.ql_world.specs.Operator.{is_pair, is_number, is_name};
    ghost use Rattle.ql_world.specs.Word.{of_bool, is_nil, identical, is_future, pair_in};

    /// The word of a truth value.
    pub fn of_bool(holds: bool) -> Word
        ensures { result ≡ of_bool holds }
    {
        if holds { Word::Sym(1) } else { Word::Sym(0) }
    }

    /// Whether it is nil.
    pub fn is_nil(self) -> bool
        ensures { result ≡ is_nil self }
    {
        match self {
            Word::Sym(n) => n == 0,
            _ => false,
        }
    }

    /// Whether it is a future.
    pub fn is_future(self) -> bool
        ensures { result ≡ is_future self }
    {
        match self {
            Word::Fut(_) => true,
            _ => false,
        }
    }

    /// Whether it is a pair.
    pub fn is_pair(self) -> bool
        ensures { result ≡ is_pair self }
    {
        match self {
            Word::Pair(_) => true,
            _ => false,
        }
    }

    /// Whether it is an integer.
    pub fn is_number(self) -> bool
        ensures { result ≡ is_number self }
    {
        match self {
            Word::Int(_) => true,
            _ => false,
        }
    }

    /// Whether it is a symbol.
    pub fn is_symbol(self) -> bool
        ensures { result ≡ is_name self }
    {
        match self {
            Word::Sym(_) => true,
            _ => false,
        }
    }

    /// The number of a pair.
    pub fn pair(self) -> Option<u32>
        ensures { result ≡ pair_in self }
    {
        match self {
            Word::Pair(i) => Some(i),
            _ => None,
        }
    }

    /// Whether it is the same: integers and symbols by value, all else by identity.
    pub fn is_identical(self, other: Word) -> bool
        ensures { result ≡ identical self other }
    {
        match (self, other) {
            (Word::Int(y), Word::Int(z)) => y == z,
            (Word::Sym(m), Word::Sym(n)) => m == n,
            (Word::Pair(m), Word::Pair(n)) => m == n,
            (Word::Fun(m), Word::Fun(n)) => m == n,
            (Word::Proc(m), Word::Proc(n)) => m == n,
            (Word::Fut(m), Word::Fut(n)) => m == n,
            _ => false,
        }
    }
}
