//! What a byte is outside comments.

ghost use Rattle.std.specs.Prelude.{◌≡◌};
ghost use Rattle.ql_forms.specs.Bytes.{class, is_blank, is_letter};
ghost use Rattle.ql_read.specs.ByteClass.{class_told};

/// The classes of bytes that the grammar tells apart.
#[derive(Clone, Copy, Debug, PartialEq, Eq)]
pub enum ByteClass {
    Blank,
    Semicolon,
    Closing,
    Dot,
    /// The first byte of a form, where one may stand.
    Start(FormStart),
    /// It stands only in comments.
    Other,
}

/// What a byte that begins a form begins. The first four also go on with an atom.
#[derive(Clone, Copy, Debug, PartialEq, Eq)]
pub enum FormStart {
    Letter,
    Digit,
    Plus,
    Minus,
    Opening,
    Mark,
}

fn is_blank(b: u8) -> bool
    ensures { result ≡ is_blank b }
{
    b == b' ' || b == b'\t' || b == b'\n' || b == b'\r'
}

fn is_letter(b: u8) -> bool
    ensures { result ≡ is_letter b }
{
    b >= b'a' && b <= b'z'
        || b >= b'@' && b <= b'Z'
        || b >= b'<' && b <= b'?'
        || b >= b'$' && b <= b'&'
        || b == b'!'
        || b == b'*'
        || b == b'/'
        || b == b':'
        || b == b'^'
        || b == b'_'
        || b == b'~'
}

/// The class of `b`.
pub fn class_of(b: u8) -> ByteClass
    ensures { class_told result ≡ class b }
{
    // Parentheses come first: most bytes of deep lists are parentheses.
    if b == b'(' {
        ByteClass::Start(FormStart::Opening)
    } else if b == b')' {
        ByteClass::Closing
    } else if is_blank(b) {
        ByteClass::Blank
    } else if is_letter(b) {
        ByteClass::Start(FormStart::Letter)
    } else if b >= b'0' && b <= b'9' {
        ByteClass::Start(FormStart::Digit)
    } else if b == b'+' {
        ByteClass::Start(FormStart::Plus)
    } else if b == b'-' {
        ByteClass::Start(FormStart::Minus)
    } else if b == b'\'' {
        ByteClass::Start(FormStart::Mark)
    } else if b == b';' {
        ByteClass::Semicolon
    } else if b == b'.' {
        ByteClass::Dot
    } else {
        ByteClass::Other
    }
}
