//! Texts from outside, for words made by hand.

use crate::text::value_text;
use crate::word::Word;
use ql_base::names::Names;
use std::alloc::AllocError;

#[test]
fn prints_a_word_up_to_a_length(rt: HostRuntime) -> Result<(), AllocError> {
    let alloc = rt.alloc();
    let names = Names::new(alloc)?;
    match value_text(alloc, &[], &names, Word::Fut(3), 11)? {
        Some(text) => assert_eq!(rt; text.as_slice(), b"#<future 3>".as_slice()),
        None => assert!(rt; false),
    }
    assert!(rt; value_text(alloc, &[], &names, Word::Fut(3), 10)?.is_none());
    Ok(())
}
