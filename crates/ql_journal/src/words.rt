//! The words of a line.

ghost use Rattle.std.specs.Prelude.{◌≡◌, ◌≤◌, IfSome, true};
ghost use Rattle.ql_world.specs.Short.{IsShort};
ghost use Rattle.ql_journal.specs.Grammar.{most_id, most_count};
ghost use Rattle.ql_journal.specs.Reading.{Gives, strip, is_word, front, beyond, next_line, digits_from, number, field, is_short, are_printed};

/// What follows the word at the front.
pub fn strip<'a>(text: &'a [u8], word: &[u8]) -> Option<&'a [u8]>
    ensures { Gives (λ rest. rest.now) result (strip word.now text.now) }
{
    let mut rest = text;
    for a in word {
        let Some((b, others)) = rest.split_first() else {
            return None;
        };
        if *a != *b {
            return None;
        }
        rest = others;
    }
    Some(rest)
}

/// Whether the text is this word.
pub fn is_word(text: &[u8], word: &[u8]) -> bool
    ensures { result ≡ is_word word.now text.now }
{
    let mut rest = text;
    for a in word {
        let Some((b, others)) = rest.split_first() else {
            return false;
        };
        if *a != *b {
            return false;
        }
        rest = others;
    }
    rest.is_empty()
}

/// The text before the first such byte, and from there on.
pub fn cut(text: &[u8], byte: u8) -> (&[u8], &[u8])
    ensures front { result.0.now ≡ front byte text.now }
    ensures beyond { result.1.now ≡ beyond byte text.now }
{
    for (i, b) in text.iter().enumerate() {
        if *b == byte {
            return text.split_at(i);
        }
    }
    text.split_at(text.len())
}

/// The first line, and what follows its line feed.
pub fn next_line(text: &[u8]) -> Option<(&[u8], &[u8])>
    ensures { Gives (λ x. (x.0.now, x.1.now)) result (next_line text.now) }
{
    let (line, beyond) = cut(text, b'\n');
    let Some((_, rest)) = beyond.split_first() else {
        return None;
    };
    Some((line, rest))
}

/// The number that goes on with these digits.
fn digits(word: &[u8], most: u64) -> Option<u64>
    ensures value { result ≡ digits_from most 0 word.now }
    ensures within { IfSome result (λ n. n ≤ most) }
{
    let mut value = 0;
    for b in word {
        if *b < b'0' || b'9' < *b {
            return None;
        }
        let next = 10 * u128::from(value) + u128::from(*b - b'0');
        if u128::from(most) < next {
            return None;
        }
        value = next as u64;
    }
    Some(value)
}

/// The number that the word spells.
pub fn number(word: &[u8], most: u64) -> Option<u64>
    ensures value { result ≡ number most word.now }
    ensures within { IfSome result (λ n. n ≤ most) }
{
    match word {
        [] => None,
        [b'0'] => Some(0),
        [b'0', ..] => None,
        _ => digits(word, most),
    }
}

/// The number behind a space, and what follows it.
#[tactic(auto, unfolding(crate::specs::Reading::field))]
pub fn field(text: &[u8], most: u64) -> Option<(u64, &[u8])>
    ensures value { Gives (λ x. (x.0, x.1.now)) result (field most text.now) }
    ensures within { IfSome result (λ x. x.0 ≤ most) }
{
    let (first, text) = text.split_first()?;
    if *first != b' ' {
        return None;
    }
    let (word, rest) = cut(text, b' ');
    let value = number(word, most)?;
    Some((value, rest))
}

/// The number of a process, a catch or a process closure behind a space, and what follows it.
pub fn id(text: &[u8]) -> Option<(u32, &[u8])>
    ensures { Gives (λ x. (x.0, x.1.now)) result (field most_id text.now) }
{
    let (value, rest) = field(text, u64::from(u32::MAX))?;
    Some((value as u32, rest))
}

/// The number of anything else behind a space, and what follows it.
pub fn count(text: &[u8]) -> Option<(u64, &[u8])>
    ensures { Gives (λ x. (x.0, x.1.now)) result (field most_count text.now) }
{
    field(text, u64::MAX)
}

/// Whether each byte can be printed.
fn are_printed(text: &[u8]) -> bool
    ensures { result ≡ are_printed text.now }
{
    for b in text {
        if *b < b' ' || b'~' < *b {
            return false;
        }
    }
    true
}

/// Whether it is a short text.
#[tactic(auto, using(crate::proofs::Parts::short))]
pub fn is_short(text: &[u8]) -> bool
    ensures test { result ≡ is_short text.now }
    ensures short { result ≡ true → IsShort text.now }
{
    !text.is_empty() && text.len() <= 64 && are_printed(text)
}
