//! The printed text of a word.

ghost use Rattle.std.specs.Prelude.{◌≡◌, ◌<◌, ◌≤◌, ◌+◌, ◌*◌, ◌++◌, ◌∷◌, [], IfOk, OnOk, length, nat_lt, option_map, slice_get, Some};
ghost use Rattle.ql_world.specs.Text.{number_text, plain_text, end_text, value_text, IsBefore, AreOrdered, text_up_to};
ghost use Rattle.ql_world.specs.declared.word.Word.TheVariants.{Sym};
ghost use Rattle.ql_world.specs.declared.text.Part.TheVariants.{Item, Rest};
ghost use Rattle.ql_world.specs.Parts.{part_text, parts_text, IsPartBefore, ArePartsBefore};

use crate::word::Word;
use itoa::Buffer;
use ql_base::names::Names;
use std::alloc::{AllocError, Global};

// What is still to be written.
#[derive(Clone, Copy)]
pub(crate) enum Part {
    // a word
    Item(Word),
    // what stands in a list after an item
    Rest(Word),
}

/// The printed text of `w`. None comes exactly where it is longer than `cap` bytes.
pub fn value_text(
    alloc: Global,
    pairs: &[(Word, Word)],
    names: &Names,
    w: Word,
    cap: u64,
) -> Result<Option<Vec<u8>>, AllocError>
    requires ordered { AreOrdered pairs.now }
    requires there { IsBefore (length pairs.now) w }
    ensures { IfOk result (λ told. option_map (λ v. v.items) told ≡ text_up_to cap (value_text names.now pairs.now w)) }
{
    let mut text = Vec::new(alloc);
    let mut todo = Vec::new(alloc);
    todo.push(Part::Item(w))?;
    'parts: while let Some(part) = todo.pop() {
        put_part(&mut text, &mut todo, pairs, names, part)?;
        if is_longer(&text, cap) {
            return Ok(None);
        }
    }
    Ok(Some(text))
}

fn is_longer(text: &[u8], cap: u64) -> bool
    ensures { result ≡ nat_lt cap (length text.now) }
{
    text.len() as u64 > cap
}

// Writes what stands before the words of a part, and leaves those for later.
fn put_part(
    text: &mut Vec<u8>,
    todo: &mut Vec<Part>,
    pairs: &[(Word, Word)],
    names: &Names,
    part: Part,
) -> Result<(), AllocError>
    requires ordered { AreOrdered pairs.now }
    requires there { IsPartBefore (length pairs.now) part }
    requires all_there { ArePartsBefore (length pairs.now) todo.old.items }
    ensures same { OnOk result (text.new.items ++ parts_text names.now pairs.now todo.new.items ≡ text.old.items ++ (part_text names.now pairs.now part ++ parts_text names.now pairs.now todo.old.items)) }
    ensures all_there { OnOk result (ArePartsBefore (length pairs.now) todo.new.items) }
    ensures fewer { OnOk result (length todo.new.items + 2 * length text.old.items ≤ length todo.old.items + 2 * length text.new.items) }
{
    match part {
        Part::Item(w) => match w.pair() {
            Some(i) => {
                let pair = pair_at(pairs, i);
                text.push(b'(')?;
                put_later(todo, pair)
            }
            None => put_plain(text, names, w),
        },
        Part::Rest(w) => match w.pair() {
            Some(i) => {
                let pair = pair_at(pairs, i);
                text.push(b' ')?;
                put_later(todo, pair)
            }
            None => put_end(text, names, w),
        },
    }
}

fn pair_at(pairs: &[(Word, Word)], i: u32) -> (Word, Word)
    requires { i < length pairs.now }
    ensures { slice_get pairs.now i ≡ Some result }
{
    pairs[i as usize]
}

fn put_later(todo: &mut Vec<Part>, pair: (Word, Word)) -> Result<(), AllocError>
    ensures { OnOk result (todo.new.items ≡ (todo.old.items ++ Rest pair.1 ∷ []) ++ Item pair.0 ∷ []) }
{
    todo.push(Part::Rest(pair.1))?;
    todo.push(Part::Item(pair.0))?;
    Ok(())
}

fn put_end(text: &mut Vec<u8>, names: &Names, w: Word) -> Result<(), AllocError>
    ensures { OnOk result (text.new.items ≡ text.old.items ++ end_text names.now w) }
{
    if !w.is_nil() {
        text.extend_from_slice(b" . ")?;
        put_plain(text, names, w)?;
    }
    text.push(b')')?;
    Ok(())
}

// A word that is no pair.
fn put_plain(text: &mut Vec<u8>, names: &Names, w: Word) -> Result<(), AllocError>
    ensures { OnOk result (text.new.items ≡ text.old.items ++ plain_text names.now w) }
{
    match w {
        Word::Int(n) => {
            let mut digits = Buffer::new();
            text.extend_from_slice(digits.format(n).as_bytes())
        }
        Word::Sym(n) => put_symbol(text, names, n),
        Word::Pair(_) => Ok(()),
        Word::Fun(n) => put_numbered(text, b"function", n),
        Word::Proc(n) => put_numbered(text, b"process", n),
        Word::Fut(n) => put_numbered(text, b"future", n),
    }
}

fn put_symbol(text: &mut Vec<u8>, names: &Names, n: u32) -> Result<(), AllocError>
    ensures { OnOk result (text.new.items ≡ text.old.items ++ plain_text names.now (Sym n)) }
{
    if n < names.len() {
        text.extend_from_slice(names.letters(n))
    } else {
        put_numbered(text, b"symbol", n)
    }
}

fn put_numbered(text: &mut Vec<u8>, kind: &[u8], n: u32) -> Result<(), AllocError>
    ensures { OnOk result (text.new.items ≡ text.old.items ++ number_text kind.now n) }
{
    let mut digits = Buffer::new();
    text.extend_from_slice(b"#<")?;
    text.extend_from_slice(kind)?;
    text.push(b' ')?;
    text.extend_from_slice(digits.format(n).as_bytes())?;
    text.push(b'>')?;
    Ok(())
}
