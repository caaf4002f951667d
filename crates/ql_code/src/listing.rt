//! The listing of a code.

ghost use Rattle.std.specs.Prelude.{◌≡◌, ◌<◌, ◌++◌, ◌∷◌, [], IfOk, OnOk, OnErr, length, true, false, slice_get, slice_index_or};
ghost use Rattle.ql_world.specs.Text.{value_text, and_numbers, IsBefore, IsPast, AreOrdered};
ghost use Rattle.ql_code.specs.Listing.{listing, line_at, name_of, operands_text, op_text};

use crate::code::{Code, Op};
use itoa::Buffer;
use ql_base::names::Names;
use ql_world::text::value_text;
use ql_world::word::Word;
use std::alloc::{AllocError, Global};

/// Appends the listing of `code`: a line for each instruction, with its place, its name, its operands and the offset
/// of its form. After want of memory `to` is as before.
pub fn write_listing(
    alloc: Global,
    code: &Code,
    names: &Names,
    to: &mut Vec<u8>,
) -> Result<(), AllocError>
    ensures ok { OnOk result (to.new.items ≡ to.old.items ++ listing names.now code.now) }
    ensures err { OnErr result (to.new.items ≡ to.old.items) }
{
    let text = listing_of(alloc, code, names)?;
    to.extend_from_slice(&text)
}

fn listing_of(alloc: Global, code: &Code, names: &Names) -> Result<Vec<u8>, AllocError>
    ensures { IfOk result (λ text. text.items ≡ listing names.now code.now) }
{
    let mut text = Vec::new(alloc);
    'places: for place in 0..code.len() {
        put_line(&mut text, alloc, code, names, place)?;
    }
    Ok(text)
}

fn put_line(
    text: &mut Vec<u8>,
    alloc: Global,
    code: &Code,
    names: &Names,
    place: u32,
) -> Result<(), AllocError>
    requires { place < length code.now.instructions }
    ensures { OnOk result (text.new.items ≡ text.old.items ++ line_at names.now code.now.quoted place (slice_get code.now.instructions place)) }
{
    let mut digits = Buffer::new();
    text.extend_from_slice(digits.format(place).as_bytes())?;
    text.push(b' ')?;
    put_op(text, alloc, code.quoted(), names, code.at(place))?;
    text.extend_from_slice(b" @")?;
    text.extend_from_slice(digits.format(code.offset(place).0).as_bytes())?;
    text.push(b'\n')?;
    Ok(())
}

fn put_op(
    text: &mut Vec<u8>,
    alloc: Global,
    quoted: &[(Word, Word)],
    names: &Names,
    op: &Op,
) -> Result<(), AllocError>
    requires { AreOrdered quoted.now }
    ensures { OnOk result (text.new.items ≡ text.old.items ++ op_text names.now quoted.now op.now) }
{
    text.extend_from_slice(name(op))?;
    put_operands(text, alloc, quoted, names, op)
}

fn name(op: &Op) -> &'static [u8]
    ensures { result.now ≡ name_of op.now }
{
    match op {
        Op::Lit(_) => b"lit",
        Op::Local(_) => b"local",
        Op::BoxGet(_) => b"boxget",
        Op::GlobalGet(_) => b"globalget",
        Op::BoxSet(_) => b"boxset",
        Op::GlobalSet(_) => b"globalset",
        Op::Branch(_) => b"branch",
        Op::Jump(_) => b"jump",
        Op::Drop => b"drop",
        Op::Slide(_) => b"slide",
        Op::Bind { .. } => b"bind",
        Op::Call { .. } => b"call",
        Op::Return => b"return",
        Op::Close { .. } => b"close",
        Op::Funcall(_) => b"funcall",
        Op::FuncallDrop(_) => b"funcalldrop",
        Op::Touch(_) => b"touch",
        Op::Qlet { .. } => b"qlet",
        Op::Join => b"join",
        Op::Qlambda { .. } => b"qlambda",
        Op::Catch(_) => b"catch",
        Op::Qcatch(_) => b"qcatch",
        Op::Exit => b"exit",
        Op::Throw => b"throw",
        Op::Protect(_) => b"protect",
        Op::Leave => b"leave",
        Op::EndClean => b"endclean",
        Op::Prim(_) => b"prim",
        Op::Cons => b"cons",
        Op::Print => b"print",
        Op::End => b"end",
    }
}

fn put_operands(
    text: &mut Vec<u8>,
    alloc: Global,
    quoted: &[(Word, Word)],
    names: &Names,
    op: &Op,
) -> Result<(), AllocError>
    requires { AreOrdered quoted.now }
    ensures { OnOk result (text.new.items ≡ text.old.items ++ operands_text names.now quoted.now op.now) }
{
    match op {
        Op::Lit(w) => put_constant(text, alloc, quoted, names, *w),
        Op::Prim(symbol) => put_primitive(text, names, *symbol),
        Op::Bind { count, mask } => put_numbers(text, &[*count, *mask]),
        Op::Call { place, args, mask } => put_numbers(text, &[*place, *args, *mask]),
        Op::Close {
            params,
            mask,
            slots,
            next,
        } => put_counted(text, &[*params, *mask], slots.as_slice(), &[*next]),
        Op::Qlambda {
            params,
            mask,
            slots,
            next,
        } => put_counted(text, &[*params, *mask], slots.as_slice(), &[*next]),
        Op::Qlet {
            starts,
            touched,
            bound,
        } => put_counted(text, &[], starts.as_slice(), &[*touched, *bound]),
        Op::Local(n)
        | Op::BoxGet(n)
        | Op::GlobalGet(n)
        | Op::BoxSet(n)
        | Op::GlobalSet(n)
        | Op::Branch(n)
        | Op::Jump(n)
        | Op::Slide(n)
        | Op::Funcall(n)
        | Op::FuncallDrop(n)
        | Op::Touch(n)
        | Op::Catch(n)
        | Op::Qcatch(n)
        | Op::Protect(n) => put_number(text, *n as u64),
        Op::Drop
        | Op::Return
        | Op::Join
        | Op::Exit
        | Op::Throw
        | Op::Leave
        | Op::EndClean
        | Op::Cons
        | Op::Print
        | Op::End => Ok(()),
    }
}

fn put_constant(
    text: &mut Vec<u8>,
    alloc: Global,
    quoted: &[(Word, Word)],
    names: &Names,
    w: Word,
) -> Result<(), AllocError>
    requires { AreOrdered quoted.now }
    ensures { OnOk result (text.new.items ≡ text.old.items ++ 32 ∷ value_text names.now quoted.now w) }
{
    text.push(b' ')?;
    if is_past(quoted, w) {
        return Ok(());
    }
    match value_text(alloc, quoted, names, w, u64::MAX)? {
        Some(printed) => text.extend_from_slice(&printed),
        None => Err(AllocError),
    }
}

// Whether it is a pair that isn't there.
fn is_past(quoted: &[(Word, Word)], w: Word) -> bool
    ensures there { result ≡ false → IsBefore (length quoted.now) w }
    ensures past { result ≡ true → IsPast (length quoted.now) w }
{
    match w {
        Word::Pair(i) => i as usize >= quoted.len(),
        _ => false,
    }
}

fn put_primitive(text: &mut Vec<u8>, names: &Names, symbol: u32) -> Result<(), AllocError>
    ensures { OnOk result (text.new.items ≡ text.old.items ++ 32 ∷ slice_index_or names.now symbol []) }
{
    text.push(b' ')?;
    text.extend_from_slice(names.letters(symbol))
}

// Numbers, a list with its length before it, and numbers again.
fn put_counted(
    text: &mut Vec<u8>,
    before: &[u32],
    list: &[u32],
    after: &[u32],
) -> Result<(), AllocError>
    ensures { OnOk result (text.new.items ≡ text.old.items ++ and_numbers (before.now ++ (length list.now ∷ (list.now ++ after.now)))) }
{
    put_numbers(text, before)?;
    put_number(text, list.len() as u64)?;
    put_numbers(text, list)?;
    put_numbers(text, after)
}

fn put_numbers(text: &mut Vec<u8>, numbers: &[u32]) -> Result<(), AllocError>
    ensures { OnOk result (text.new.items ≡ text.old.items ++ and_numbers numbers.now) }
{
    'numbers: for n in numbers {
        put_number(text, *n as u64)?;
    }
    Ok(())
}

fn put_number(text: &mut Vec<u8>, n: u64) -> Result<(), AllocError>
    ensures { OnOk result (text.new.items ≡ text.old.items ++ and_numbers (n ∷ [])) }
{
    let mut digits = Buffer::new();
    text.push(b' ')?;
    text.extend_from_slice(digits.format(n).as_bytes())
}
