//! Pairs, boxes and closures by number.

ghost use Rattle.std.specs.Prelude.{◌≡◌, ◌+◌, ◌-◌, ◌<◌, ◌≤◌, ◌++◌, ◌∷◌, [], ℕ, leb, not, false, IfOk, IsOk, OnOk, OnErr, length, option_copied, option_map, slice_get, vec_capacity, vec_len};
ghost use Rattle.ql_world.specs.declared.word.Word.TheVariants.{Pair as pair, Fun as closure};
ghost use Rattle.ql_world.specs.declared.operator.Operator.TheVariants.{Car as car, Cdr as cdr};
ghost use Rattle.ql_world.specs.Operator.{of_one};
ghost use Rattle.ql_world.specs.Text.{short_text, value_text, text_up_to, AreOrdered, IsBefore};
ghost use Rattle.ql_world.specs.Short.{IsShort};
ghost use Rattle.ql_world.specs.World.{change, numbered};
ghost use Rattle.ql_cells.specs.Cells.{allows, most_numbers, spare_of};
ghost use Rattle.ql_cells.specs.Making.{is_full, part_given};
ghost use Rattle.ql_cells.specs.Names.{ArePrintedNames};

use ql_base::names::Names;
use ql_world::short::Short;
use ql_world::text::value_text;
use ql_world::word::Word;
use ql_world::world::Closure;
use std::alloc::{AllocError, Global};
use std::marker::Model;
use thiserror::Error;

// How many pairs there can be, and how many boxes and how many closures.
const MOST_NUMBERS: usize = 4_294_967_295;

/// Why a cell was not made.
#[derive(Debug, Drop, Error)]
pub enum CellFault {
    /// As many were made as may be.
    #[error("no more cells may be made")]
    Full,
    #[error("out of memory")]
    Memory(AllocError),
}

/// The pairs, boxes and closures of a run. A pair names only pairs before it.
#[derive(Drop)]
pub struct Cells {
    alloc: Global,
    limit: u64,
    pairs: Vec<(Word, Word)>,
    boxes: Vec<Word>,
    closures: Vec<Closure>,
    made: u64,
}

impl Model for Cells {
    ghost use Rattle.std.specs.Prelude.{◌≤◌, min, vec_capacity, vec_len};
    ghost use Rattle.ql_world.specs.Text.{AreOrdered};
    ghost use Rattle.ql_cells.specs.Cells as seen;

    ghost Value = { seen.Cells };

    ghost view = { λ c. record {
      limit = c.limit;
      pairs = c.pairs.items;
      boxes = c.boxes.items;
      closures = c.closures.items;
      made = c.made;
      spare = min (min (seen.spare_of (vec_capacity c.pairs) (vec_len c.pairs)) (seen.spare_of (vec_capacity c.boxes) (vec_len c.boxes))) (seen.spare_of (vec_capacity c.closures) (vec_len c.closures));
    } };

    ghost invariant = { λ c. AreOrdered c.pairs.items × (c.made ≤ c.limit) };
}

impl Cells {
    /// The quoted pairs alone. At most `limit` pairs, boxes and closures may be made.
    pub fn new(alloc: Global, limit: u64, quoted: Vec<(Word, Word)>) -> Cells
        requires { AreOrdered quoted.items }
        ensures { result ≡ record { limit = limit; pairs = quoted.items; boxes = []; closures = []; made = 0; spare = 0 } }
    {
        Cells {
            alloc,
            limit,
            pairs: quoted,
            boxes: Vec::new(alloc),
            closures: Vec::new(alloc),
            made: 0,
        }
    }

    /// Makes room for so many more of each kind. There can be 4,294,967,295 of each: beyond that there is no memory.
    pub fn reserve(&mut self, n: u64) -> Result<(), AllocError>
        ensures same { self.new ≡ record self.old { spare = self.new.spare } }
        ensures ok { OnOk result (n ≤ self.new.spare) }
        ensures room { n ≤ self.old.spare → IsOk result }
        ensures spare { self.old.spare ≤ self.new.spare }
    {
        reserve_in(&mut self.pairs, n)?;
        reserve_in(&mut self.boxes, n)?;
        reserve_in(&mut self.closures, n)
    }

    /// For how many more of each kind there is room.
    pub fn spare(&self) -> u64
        ensures { result ≡ self.now.spare }
    {
        spare_in(&self.pairs)
            .min(spare_in(&self.boxes))
            .min(spare_in(&self.closures))
    }

    /// How many more may be made.
    pub fn room(&self) -> u64
        ensures value { result ≡ self.now.limit - self.now.made }
        ensures within { self.now.made ≤ self.now.limit }
        ensures allowed { (n : ℕ) → leb n result ≡ allows self.now n }
    {
        self.limit - self.made
    }

    // Whether no more may be made.
    fn is_full(&self) -> bool
        ensures full { result ≡ not (allows self.now 1) }
        ensures allowed { result ≡ false → self.now.made < self.now.limit }
    {
        self.made == self.limit
    }

    /// Makes a pair. A refused call changes nothing but the room.
    pub fn cons(&mut self, a: Word, d: Word) -> Result<Word, CellFault>
        requires first { IsBefore (length self.old.pairs) a }
        requires second { IsBefore (length self.old.pairs) d }
        ensures word { IfOk result (λ w. w ≡ pair (length self.old.pairs)) }
        ensures made { OnOk result (self.new ≡ record self.old { pairs = self.old.pairs ++ (a, d) ∷ []; made = self.old.made + 1; spare = self.new.spare }) }
        ensures err { OnErr result (self.new ≡ record self.old { spare = self.new.spare }) }
        ensures full { is_full result ≡ not (allows self.old 1) }
        ensures room { self.old.made < self.old.limit → 0 < self.old.spare → IsOk result }
        ensures spare { self.old.spare ≤ self.new.spare + 1 }
    {
        if self.is_full() {
            return Err(CellFault::Full);
        }
        let number = push_last(&mut self.pairs, (a, d))?;
        self.made += 1;
        Ok(Word::Pair(number))
    }

    /// Makes a pair where there is room.
    pub fn put_pair(&mut self, a: Word, d: Word) -> Word
        requires first { IsBefore (length self.old.pairs) a }
        requires second { IsBefore (length self.old.pairs) d }
        requires room { 0 < self.old.spare }
        requires allowed { self.old.made < self.old.limit }
        ensures word { result ≡ pair (length self.old.pairs) }
        ensures made { self.new ≡ record self.old { pairs = self.old.pairs ++ (a, d) ∷ []; made = self.old.made + 1; spare = self.new.spare } }
        ensures spare { self.old.spare ≤ self.new.spare + 1 }
    {
        let number = put_last(&mut self.pairs, (a, d));
        self.made += 1;
        Word::Pair(number)
    }

    /// How many boxes were made, where there is room for more.
    pub fn box_count(&self) -> u32
        requires { 0 < self.now.spare }
        ensures count { result ≡ length self.now.boxes }
        ensures numbers { length self.now.boxes + self.now.spare ≤ most_numbers }
    {
        self.boxes.len() as u32
    }

    /// Makes a box with this word, and gives its number. A refused call changes nothing but the room.
    pub fn new_box(&mut self, w: Word) -> Result<u32, CellFault>
        ensures number { IfOk result (λ b. b ≡ length self.old.boxes) }
        ensures made { OnOk result (self.new ≡ record self.old { boxes = self.old.boxes ++ w ∷ []; made = self.old.made + 1; spare = self.new.spare }) }
        ensures err { OnErr result (self.new ≡ record self.old { spare = self.new.spare }) }
        ensures full { is_full result ≡ not (allows self.old 1) }
        ensures room { self.old.made < self.old.limit → 0 < self.old.spare → IsOk result }
        ensures spare { self.old.spare ≤ self.new.spare + 1 }
    {
        if self.is_full() {
            return Err(CellFault::Full);
        }
        let number = push_last(&mut self.boxes, w)?;
        self.made += 1;
        Ok(number)
    }

    /// Makes a box with this word where there is room, and gives its number.
    pub fn put_box(&mut self, w: Word) -> u32
        requires room { 0 < self.old.spare }
        requires allowed { self.old.made < self.old.limit }
        ensures number { result ≡ length self.old.boxes }
        ensures made { self.new ≡ record self.old { boxes = self.old.boxes ++ w ∷ []; made = self.old.made + 1; spare = self.new.spare } }
        ensures spare { self.old.spare ≤ self.new.spare + 1 }
    {
        let number = put_last(&mut self.boxes, w);
        self.made += 1;
        number
    }

    /// Makes a closure. A refused call changes nothing but the room.
    pub fn new_closure(&mut self, made: Closure) -> Result<Word, CellFault>
        ensures word { IfOk result (λ w. w ≡ closure (length self.old.closures + 1)) }
        ensures made { OnOk result (self.new ≡ record self.old { closures = self.old.closures ++ made ∷ []; made = self.old.made + 1; spare = self.new.spare }) }
        ensures err { OnErr result (self.new ≡ record self.old { spare = self.new.spare }) }
        ensures full { is_full result ≡ not (allows self.old 1) }
        ensures room { self.old.made < self.old.limit → 0 < self.old.spare → IsOk result }
        ensures spare { self.old.spare ≤ self.new.spare + 1 }
    {
        if self.is_full() {
            return Err(CellFault::Full);
        }
        let place = push_last(&mut self.closures, made)?;
        self.made += 1;
        Ok(Word::Fun(place + 1))
    }

    /// Makes a closure where there is room.
    pub fn put_closure(&mut self, made: Closure) -> Word
        requires room { 0 < self.old.spare }
        requires allowed { self.old.made < self.old.limit }
        ensures word { result ≡ closure (length self.old.closures + 1) }
        ensures made { self.new ≡ record self.old { closures = self.old.closures ++ made ∷ []; made = self.old.made + 1; spare = self.new.spare } }
        ensures spare { self.old.spare ≤ self.new.spare + 1 }
    {
        let place = put_last(&mut self.closures, made);
        self.made += 1;
        Word::Fun(place + 1)
    }

    /// The first word of a pair, and of nil itself. None comes where `w` is neither.
    pub fn car(&self, w: Word) -> Option<Word>
        ensures part { of_one self.now.pairs car w ≡ part_given result }
        ensures ordered { AreOrdered self.now.pairs }
    {
        match w {
            Word::Pair(i) => Some(pair_at(&self.pairs, i)?.0),
            Word::Sym(0) => Some(w),
            _ => None,
        }
    }

    /// The second word of a pair, and of nil itself. None comes where `w` is neither.
    pub fn cdr(&self, w: Word) -> Option<Word>
        ensures part { of_one self.now.pairs cdr w ≡ part_given result }
        ensures ordered { AreOrdered self.now.pairs }
    {
        match w {
            Word::Pair(i) => Some(pair_at(&self.pairs, i)?.1),
            Word::Sym(0) => Some(w),
            _ => None,
        }
    }

    /// The word of a box.
    pub fn get_box(&self, b: u32) -> Option<Word>
        ensures { result ≡ slice_get self.now.boxes b }
    {
        word_at(&self.boxes, b)
    }

    /// Puts a word in a box. Where there is no such box, nothing changes.
    pub fn set_box(&mut self, b: u32, w: Word)
        ensures { self.new ≡ record self.old { boxes = change (λ y. w) self.old.boxes b } }
    {
        put_word(&mut self.boxes, b, w);
    }

    /// The closure with this number, from 1.
    pub fn closure(&self, f: u32) -> Option<&Closure>
        ensures { option_copied result ≡ numbered self.now.closures f }
    {
        closure_in(&self.closures, f)
    }

    /// The printed text of `w`. None comes exactly where it is longer than `cap` bytes.
    pub fn text(&self, names: &Names, w: Word, cap: u64) -> Result<Option<Vec<u8>>, AllocError>
        requires { IsBefore (length self.now.pairs) w }
        ensures { IfOk result (λ told. option_map (λ v. v.items) told ≡ text_up_to cap (value_text names.now self.now.pairs w)) }
    {
        value_text(self.alloc, &self.pairs, names, w, cap)
    }

    /// The text of `w` as a journal tells it: the printed text, or `#long` where that has more than 64 bytes.
    pub fn short_text(&self, names: &Names, w: Word) -> Result<Short, AllocError>
        requires there { IsBefore (length self.now.pairs) w }
        requires printed { ArePrintedNames names.now }
        ensures text { IfOk result (λ told. told ≡ short_text names.now self.now.pairs w) }
        ensures short { IfOk result (λ told. IsShort told) }
    {
        match self.text(names, w, 64)? {
            Some(text) => Ok(Short::new(&text)),
            None => Ok(Short::new(b"#long")),
        }
    }
}

// The pair with this number.
fn pair_at(pairs: &[(Word, Word)], i: u32) -> Option<(Word, Word)>
    ensures { result ≡ slice_get pairs.now i }
{
    pairs.get(i as usize).copied()
}

// The word at this place.
fn word_at(words: &[Word], at: u32) -> Option<Word>
    ensures { result ≡ slice_get words.now at }
{
    words.get(at as usize).copied()
}

// Puts a word in place of another.
fn put_word(words: &mut Vec<Word>, at: u32, w: Word)
    ensures items { words.new.items ≡ change (λ y. w) words.old.items at }
    ensures len { vec_len words.new ≡ vec_len words.old }
    ensures capacity { vec_capacity words.new ≡ vec_capacity words.old }
{
    let place = at as usize;
    if place < words.len() {
        words[place] = w;
    }
}

// The closure with this number.
fn closure_in(closures: &[Closure], f: u32) -> Option<&Closure>
    ensures { option_copied result ≡ numbered closures.now f }
{
    if f == 0 {
        return None;
    }
    closures.get(f as usize - 1)
}

// For how many more there is room.
fn spare_in<T>(things: &Vec<T>) -> u64
    ensures { result ≡ spare_of (vec_capacity things.now) (vec_len things.now) }
{
    things
        .capacity()
        .min(MOST_NUMBERS)
        .saturating_sub(things.len()) as u64
}

// Makes room for so many more.
fn reserve_in<T>(things: &mut Vec<T>, n: u64) -> Result<(), AllocError>
    ensures items { things.new.items ≡ things.old.items }
    ensures ok { OnOk result (n ≤ spare_of (vec_capacity things.new) (vec_len things.new)) }
    ensures spare { spare_of (vec_capacity things.old) (vec_len things.old) ≤ spare_of (vec_capacity things.new) (vec_len things.new) }
    ensures room { n ≤ spare_of (vec_capacity things.old) (vec_len things.old) → IsOk result }
{
    if n > MOST_NUMBERS.saturating_sub(things.len()) as u64 {
        return Err(AllocError);
    }
    things.reserve(n as usize)
}

// Adds one, and gives its place.
fn push_last<T: Drop>(things: &mut Vec<T>, thing: T) -> Result<u32, CellFault>
    ensures place { IfOk result (λ n. n ≡ length things.old.items) }
    ensures below { IfOk result (λ n. n < most_numbers) }
    ensures memory { is_full result ≡ false }
    ensures ok { OnOk result (things.new.items ≡ things.old.items ++ thing ∷ []) }
    ensures err { OnErr result (things.new.items ≡ things.old.items) }
    ensures room { 0 < spare_of (vec_capacity things.old) (vec_len things.old) → IsOk result }
    ensures spare { spare_of (vec_capacity things.old) (vec_len things.old) ≤ spare_of (vec_capacity things.new) (vec_len things.new) + 1 }
{
    reserve_in(things, 1).map_err(CellFault::Memory)?;
    Ok(put_last(things, thing))
}

// Adds one, in memory that is there already, and gives its place.
fn put_last<T: Drop>(things: &mut Vec<T>, thing: T) -> u32
    requires { 0 < spare_of (vec_capacity things.old) (vec_len things.old) }
    ensures place { result ≡ length things.old.items }
    ensures items { things.new.items ≡ things.old.items ++ thing ∷ [] }
    ensures spare { spare_of (vec_capacity things.old) (vec_len things.old) ≤ spare_of (vec_capacity things.new) (vec_len things.new) + 1 }
{
    let place = things.len();
    match things.push(thing) {
        Ok(()) => {}
        Err(_) => unreachable!(),
    }
    place as u32
}
