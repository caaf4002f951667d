//! Names by number.

ghost use Rattle.std.specs.Prelude.{◌≡◌, ◌<◌, ◌≤◌, ◌^◌, IfOk, OnOk, OnErr, length, map, [], Some, slice_get, slice_index_or};
ghost use Rattle.ql_base.specs.Names.{AreDistinct, BeginsWithReserved, HasNumber, reserved, with_name, with_names};
ghost use Rattle.ql_base.specs.Reserved.{letters};

use crate::reserved::{ALL, Reserved};
use indexmap::IndexSet;
use std::alloc::{AllocError, Global};
use std::marker::Model;

// How many names a table can hold.
const MOST_NAMES: usize = 4_294_967_295;

/// A table of names without repeats, numbered from 0 in the order in which they were first seen. It
/// begins with the reserved words.
#[derive(Drop)]
pub struct Names {
    alloc: Global,
    texts: IndexSet<Vec<u8>>,
}

impl Model for Names {
    ghost use Rattle.std.specs.Prelude.{List, ℕ, map};

    ghost Value = { List (List ℕ) };

    ghost view = { λ n. map (λ t. t.items) n.texts.keys };

    ghost use Rattle.ql_base.specs.Names.{IsTable};

    ghost invariant = { λ n. IsTable (map (λ t. t.items) n.texts.keys) };
}

impl Names {
    /// The reserved words alone.
    pub fn new(alloc: Global) -> Result<Names, AllocError>
        ensures reserved { IfOk result (λ names. names ≡ reserved) }
        ensures distinct { IfOk result (λ names. AreDistinct names) }
    {
        let texts = texts_of(alloc, &ALL)?;
        Ok(Names { alloc, texts })
    }

    /// How many names there are.
    pub fn len(&self) -> u32
        ensures count { result ≡ length self.now }
        ensures distinct { AreDistinct self.now }
        ensures reserved { BeginsWithReserved self.now }
    {
        self.texts.len() as u32
    }

    /// Gives the number of `text`, adding it last where it is new. A table of 4,294,967,295 names is
    /// full: one more is want of memory. After want of memory the names are as before.
    pub fn number(&mut self, text: &[u8]) -> Result<u32, AllocError>
        ensures ok { IfOk result (λ n. HasNumber self.old text.now n self.new) }
        ensures err { OnErr result (self.new ≡ self.old) }
        ensures distinct { AreDistinct self.new }
        ensures small { length self.new < 2 ^ 32 }
    {
        if let Some(n) = self.texts.get_index_of(text) {
            return Ok(n as u32);
        }
        let n = self.texts.len();
        if n == MOST_NAMES {
            return Err(AllocError);
        }
        let owned = Vec::from_slice(self.alloc, text)?;
        self.texts.insert(owned)?;
        Ok(n as u32)
    }

    /// The name of this number.
    pub fn text(&self, n: u32) -> &[u8]
        requires { n < length self.now }
        ensures name { Some result.now ≡ slice_get self.now n }
        ensures distinct { AreDistinct self.now }
    {
        &self.texts[n as usize]
    }

    /// The name of this number, or no letters where there is none.
    pub fn letters(&self, n: u32) -> &[u8]
        ensures { result.now ≡ slice_index_or self.now n [] }
    {
        if n < self.len() { self.text(n) } else { b"" }
    }
}

// The letters of each of these words in turn, once.
fn texts_of(alloc: Global, words: &[Reserved]) -> Result<IndexSet<Vec<u8>>, AllocError>
    ensures { IfOk result (λ texts. map (λ text. text.items) texts.keys ≡ with_names [] (map letters words.now)) }
{
    let mut texts = IndexSet::with_capacity(alloc, words.len())?;
    for word in words {
        insert_word(alloc, &mut texts, word.letters())?;
    }
    Ok(texts)
}

// Adds this word last, unless it is there.
fn insert_word(alloc: Global, texts: &mut IndexSet<Vec<u8>>, word: &[u8]) -> Result<(), AllocError>
    ensures { OnOk result (map (λ text. text.items) texts.new.keys ≡ with_name (map (λ text. text.items) texts.old.keys) word.now) }
{
    texts.insert(Vec::from_slice(alloc, word)?)?;
    Ok(())
}

#[cfg(test)]
mod tests {
    use super::*;

    #[test]
    fn numbers_names_in_the_order_first_seen(rt: HostRuntime) -> Result<(), AllocError> {
        let mut names = Names::new(rt.alloc())?;
        let numbers: [(&[u8], u32); 9] = [
            (b"nil", 0),
            (b"t", 1),
            (b"quote", 2),
            (b"list", 45),
            (b"x", 46),
            (b"Nil", 47),
            (b"x", 46),
            (b"", 48),
            (b"Nil", 47),
        ];
        for (text, number) in numbers {
            assert!(rt; names.number(text)? == number);
        }
        assert_eq!(rt; names.len(), 49);
        for (text, number) in numbers {
            assert!(rt; number < names.len() && names.text(number) == text);
        }
        Ok(())
    }
}
