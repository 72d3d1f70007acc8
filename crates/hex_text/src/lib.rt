// Hex digits, pairs and three-digit ids, read and written.
#![tactic(auto)]

ghost use Rattle.std.specs.Prelude.{◌≡◌, [], ◌∷◌, ◌%◌};
ghost use Rattle.wire.specs.Put.{Put};
ghost use Rattle.hex_text.specs.Read.{digit, hex_number};
ghost use Rattle.hex_text.specs.Digits.{hex_digit, hex_digits, hex_byte};
ghost use Rattle.wire.specs.Answer.{number_of};

// The number of a digit, 0 to 9, A to F or a to f; none for a bad one.
#[tactic(auto, unfolding(crate::specs::Read::digit))]
pub fn hex_digit(c: u8) -> Option<u8>
    ensures { number_of result ≡ digit c }
{
    match c {
        b'0'..=b'9' => Some(c - 48),
        b'A'..=b'F' => Some(c - 55),
        b'a'..=b'f' => Some(c - 87),
        _ => None,
    }
}

// The byte that two characters are.
pub fn hex_pair(a: u8, b: u8) -> Option<u8>
    ensures { number_of result ≡ hex_number (a ∷ b ∷ []) }
{
    let high = hex_digit(a)?;
    let low = hex_digit(b)?;
    Some(16 * high + low)
}

// Three characters as an id: a pair and one digit more.
pub fn hex_id(a: u8, b: u8, c: u8) -> Option<u16>
    ensures { number_of result ≡ hex_number (a ∷ b ∷ c ∷ []) }
{
    let high = hex_pair(a, b)?;
    let low = hex_digit(c)?;
    Some(16 * u16::from(high) + u16::from(low))
}

// The capital digit of a number's low half.
#[tactic(auto, unfolding(crate::specs::Digits::hex_digit))]
pub fn hex_char(n: u8) -> u8
    ensures { result ≡ hex_digit (n % 16) }
{
    let d = n % 16;
    if d < 10 {
        return 48 + d;
    }
    55 + d
}

// A byte as two digits, from position at on.
pub fn put_hex_byte(out: &mut [u8], at: usize, byte: u8) -> usize
    ensures { Put out.old at (hex_byte byte) result out.new }
{
    let at = wire::put_byte(out, at, hex_char(byte / 16));
    wire::put_byte(out, at, hex_char(byte))
}

// The low 12 bits of an id as three digits, from position at on.
pub fn put_hex_id(out: &mut [u8], at: usize, id: u16) -> usize
    ensures { Put out.old at (hex_digits 3 id) result out.new }
{
    let at = put_hex_byte(out, at, (id / 16 % 256) as u8);
    wire::put_byte(out, at, hex_char((id % 16) as u8))
}
