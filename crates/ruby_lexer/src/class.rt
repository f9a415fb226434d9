//! What a byte can begin.
ghost use Rattle.std.specs.Prelude.{◌≡◌};
ghost use Rattle.ruby_lexer.specs.Bytes.{is_digit, is_small, is_capital, is_letter, is_word};
ghost use Rattle.ruby_lexer.specs.Numbers.{is_hex};
ghost use Rattle.ruby_lexer.specs.Classes.{class_of, blank_class_of, is_operator, is_single, is_sign, is_space};

/// What a byte can begin.
#[derive(Clone, Copy)]
pub enum Class {
    Digit,
    Letter,
    At,
    Dollar,
    SingleQuote,
    DoubleQuote,
    Colon,
    Percent,
    Equals,
    /// `+` and `-`
    Sign,
    /// A byte of other operators.
    Operator,
    /// A mark that no other mark begins with.
    Single,
    Semicolon,
    LineEnd,
    Space,
    Return,
    Backslash,
    Hash,
    Other,
}

/// A decimal digit.
pub fn is_digit(byte: u8) -> bool
    ensures { result ≡ is_digit byte }
{
    48 <= byte && byte <= 57
}

/// A small letter or `_`.
pub fn is_small(byte: u8) -> bool
    ensures { result ≡ is_small byte }
{
    (97 <= byte && byte <= 122) || byte == b'_'
}

/// A capital letter.
pub fn is_capital(byte: u8) -> bool
    ensures { result ≡ is_capital byte }
{
    65 <= byte && byte <= 90
}

/// A letter or `_`.
pub fn is_letter(byte: u8) -> bool
    ensures { result ≡ is_letter byte }
{
    is_small(byte) || is_capital(byte)
}

/// A letter, a digit or `_`.
pub fn is_word(byte: u8) -> bool
    ensures { result ≡ is_word byte }
{
    is_letter(byte) || is_digit(byte)
}

/// A hexadecimal digit.
pub fn is_hex(byte: u8) -> bool
    ensures { result ≡ is_hex byte }
{
    is_digit(byte) || (65 <= byte && byte <= 70) || (97 <= byte && byte <= 102)
}

fn is_sign(byte: u8) -> bool
    ensures { result ≡ is_sign byte }
{
    byte == b'+' || byte == b'-'
}

fn is_space(byte: u8) -> bool
    ensures { result ≡ is_space byte }
{
    byte == b' ' || byte == b'\t'
}

fn is_operator(byte: u8) -> bool
    ensures { result ≡ is_operator byte }
{
    matches!(
        byte,
        b'*' | b'/' | b'<' | b'>' | b'&' | b'|' | b'^' | b'!' | b'.' | b'?'
    )
}

fn is_single(byte: u8) -> bool
    ensures { result ≡ is_single byte }
{
    matches!(byte, b'(' | b')' | b'[' | b']' | b'{' | b'}' | b',' | b'~')
}

/// What the byte can begin.
#[tactic(auto, unfolding(crate::specs::Classes::class_of))]
pub fn class_of(byte: u8) -> Class
    ensures { result ≡ class_of byte }
{
    if is_digit(byte) {
        Class::Digit
    } else if is_letter(byte) {
        Class::Letter
    } else if byte == b'@' {
        Class::At
    } else if byte == b'$' {
        Class::Dollar
    } else if byte == b'\'' {
        Class::SingleQuote
    } else if byte == b'"' {
        Class::DoubleQuote
    } else if byte == b':' {
        Class::Colon
    } else if byte == b'%' {
        Class::Percent
    } else if byte == b'=' {
        Class::Equals
    } else if is_sign(byte) {
        Class::Sign
    } else if is_operator(byte) {
        Class::Operator
    } else if is_single(byte) {
        Class::Single
    } else {
        blank_class_of(byte)
    }
}

#[tactic(auto, unfolding(crate::specs::Classes::blank_class_of))]
fn blank_class_of(byte: u8) -> Class
    ensures { result ≡ blank_class_of byte }
{
    if byte == b';' {
        Class::Semicolon
    } else if byte == b'\n' {
        Class::LineEnd
    } else if is_space(byte) {
        Class::Space
    } else if byte == b'\r' {
        Class::Return
    } else if byte == b'\\' {
        Class::Backslash
    } else if byte == b'#' {
        Class::Hash
    } else {
        Class::Other
    }
}
