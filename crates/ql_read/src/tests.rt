//! Small texts, whole and byte by byte, with the answers that the grammar gives them.

use crate::reader::{ReadRefusal, Reader};
use ql_forms::form::{Atom, Form};
use ql_forms::text::Text;
use std::alloc::Global;

/// The text whole, or in pieces of one byte. A reader that doesn't answer its refusal again has kind 0.
fn read(alloc: Global, text: &[u8], bytewise: bool) -> Result<Text, ReadRefusal> {
    let mut reader = Reader::new(alloc).map_err(ReadRefusal::Memory)?;
    let size = if bytewise { 1 } else { 4096 };
    for piece in text.chunks(size) {
        if let Err(refusal) = reader.feed(piece) {
            if reader.feed(b"a") != Err(refusal) {
                return Err(ReadRefusal::Bad { kind: 0, at: 0 });
            }
            return reader.finish();
        }
    }
    reader.finish()
}

#[test]
fn refused_texts(rt: HostRuntime) {
    let deep = [b'('; 201];
    let long = [b'a'; 65];
    let table: [(&[u8], u8, u64); 12] = [
        (b"9223372036854775808", 4, 18),
        (b"-9223372036854775809", 4, 19),
        (b"(print (car '(1 2))", 8, 19),
        (b")", 2, 0),
        (b"(a . b c)", 3, 7),
        (&deep, 6, 200),
        (b"'.", 3, 1),
        (b"12a", 4, 2),
        (&long, 5, 64),
        (b"a b\x00", 1, 3),
        (b"(a . )", 3, 5),
        (b"; )\n)", 2, 4),
    ];
    for (text, kind, at) in table.iter() {
        for bytewise in [false, true] {
            let refusal = ReadRefusal::Bad {
                kind: *kind,
                at: *at,
            };
            match read(rt.alloc(), text, bytewise) {
                Ok(_) => assert!(rt; false),
                Err(other) => assert!(rt; other == refusal),
            }
        }
    }
}

#[test]
fn accepted_texts(rt: HostRuntime) {
    let long = [b'a'; 64];
    let table: [(&[u8], usize, u32); 7] = [
        (b"; only this", 0, 46),
        (b"9223372036854775807 -9223372036854775808", 2, 46),
        (b"(print '(a . (b . (c . 4))))", 1, 49),
        (b"() (a . ()) nil", 3, 47),
        (b"+ - -1 +1 -a", 5, 47),
        (b"a;b\n(b a)", 2, 48),
        (&long, 1, 47),
    ];
    for (text, forms, names) in table.iter() {
        for bytewise in [false, true] {
            match read(rt.alloc(), text, bytewise) {
                Ok(text) => {
                    assert!(rt; text.forms.len() == *forms);
                    assert!(rt; text.names.len() == *names);
                }
                Err(_) => assert!(rt; false),
            }
        }
    }
}

#[test]
fn joined_lists(rt: HostRuntime) -> Result<(), ReadRefusal> {
    let text = read(rt.alloc(), b"(a . (b . (c . -4)))", true)?;
    match text.forms.get(0) {
        Some(Form::List { at, items, tail }) => {
            assert!(rt; at.0 == 0);
            assert!(rt; items.len() == 3);
            assert!(rt; *tail == Some(Atom::Int(-4)));
        }
        _ => assert!(rt; false),
    }
    Ok(())
}

#[test]
fn longest_text(rt: HostRuntime) -> Result<(), ReadRefusal> {
    let mut reader = Reader::new(rt.alloc()).map_err(ReadRefusal::Memory)?;
    let blanks = [b' '; 4096];
    for _ in 0..256 {
        reader.feed(&blanks)?;
    }
    assert!(rt;
        reader.feed(b" ")
            == Err(ReadRefusal::Bad {
                kind: 7,
                at: 1_048_576
            })
    );
    Ok(())
}
