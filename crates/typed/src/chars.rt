// Characters: what each is, and what a digit is worth.
ghost use Rattle.std.specs.Prelude.{◌≡◌, ◌<◌};
ghost use Rattle.typed.specs.Chars.{class_of, value_of, byte_of, digit_of};

#[derive(Clone, Copy, Debug, PartialEq, Eq)]
pub enum Class {
    Digit,
    Blank,
    NewLine,
    Hash,
    Other,
}

impl From<u8> for Class {
    ghost from_gives = { λ c class. class ≡ class_of c };

    #[tactic(auto, unfolding(crate::specs::Chars::class_of, crate::specs::Chars::is_digit, crate::specs::Chars::is_blank, crate::specs::Chars::within))]
    fn from(c: u8) -> Class {
        match c {
            b'0'..=b'9' | b'A'..=b'F' | b'a'..=b'f' => Class::Digit,
            b' ' | b'\t' | b'\r' => Class::Blank,
            b'\n' => Class::NewLine,
            b'#' => Class::Hash,
            _ => Class::Other,
        }
    }
}

// What a digit is worth, in either case. What is no digit is worth 0; nothing asks for that.
#[tactic(auto, unfolding(crate::specs::Chars::value_of, crate::specs::Chars::within))]
fn value_of(c: u8) -> u8
    ensures { (result ≡ value_of c) × (result < 16) }
{
    match c {
        b'0'..=b'9' => c - b'0',
        b'A'..=b'F' => c - b'A' + 10,
        b'a'..=b'f' => c - b'a' + 10,
        _ => 0,
    }
}

// The byte of two digits.
#[tactic(auto, unfolding(crate::specs::Chars::byte_of))]
pub fn byte_of(high: u8, low: u8) -> u8
    ensures { result ≡ byte_of high low }
{
    value_of(high) * 16 + value_of(low)
}

// The digit that is worth so much, in capitals.
#[tactic(auto, unfolding(crate::specs::Chars::digit_of))]
pub fn digit_of(value: u8) -> u8
    requires { value < 16 }
    ensures { result ≡ digit_of value }
{
    if value < 10 {
        b'0' + value
    } else {
        b'A' + (value - 10)
    }
}
