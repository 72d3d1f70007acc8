// Bytes written into lent buffers, texts looked at, and texts that are kept. Every writer of this library stores as far as the buffer reaches
// and returns the position after what it stored, so writers follow one another with nothing asked in between.
#![tactic(auto)]

ghost use Rattle.wire.specs.Answer.{number};
ghost use Rattle.wire.specs.Put.{Put};
ghost use Rattle.wire.specs.Text.{same, begins, has, high, is_space, raised};
ghost use Rattle.wire.specs.Bytes.{held};
ghost use Rattle.std.specs.Prelude.{[], ◌∷◌, ◌++◌, ◌+◌, min, ◌≡◌, length, take};

// Why a call gives no result: a case for each number of document 01, in their order.
#[derive(Clone, Copy, PartialEq, Eq, Debug)]
pub enum Refusal {
    // 1: it is not this call's turn.
    OutOfTurn,
    // 2: a query of no PID or more than six.
    PidCount,
    // 3: a text, piece or script is too long.
    TooLong,
    // 4: a text holds a byte of 80 hex or more.
    NotAscii,
    // 5: bytes that are no line, line list or script.
    Malformed,
    // 6: a lent buffer is too small.
    SmallBuffer,
    // 7: a read or write failed, or the connection is closed.
    Disconnected,
    // 8: the reply has over 4,096 bytes.
    ReplyTooLong,
    // 9: the reply holds a byte of 80 hex or more.
    ReplyNotAscii,
    // 10: the line holds 128 bytes.
    LineFull,
    // 11: the reader's byte is 80 hex or more.
    ByteNotAscii,
}

// Document 01's number of a refusal.
impl From<Refusal> for u8 {
    ghost from_gives = { λ refusal n. n ≡ number refusal };

    fn from(refusal: Refusal) -> u8 {
        match refusal {
            Refusal::OutOfTurn => 1,
            Refusal::PidCount => 2,
            Refusal::TooLong => 3,
            Refusal::NotAscii => 4,
            Refusal::Malformed => 5,
            Refusal::SmallBuffer => 6,
            Refusal::Disconnected => 7,
            Refusal::ReplyTooLong => 8,
            Refusal::ReplyNotAscii => 9,
            Refusal::LineFull => 10,
            Refusal::ByteNotAscii => 11,
        }
    }
}

// One byte at position at.
pub fn put_byte(out: &mut [u8], at: usize, byte: u8) -> usize
    ensures { Put out.old at (byte ∷ []) result out.new }
{
    if at < out.len() {
        out[at] = byte;
        return at + 1;
    }
    at
}

// A text from position at on. The loop is faster on short texts than std's copy_from_slice.
pub fn put(out: &mut [u8], at: usize, text: &[u8]) -> usize
    ensures { Put out.old at text.now result out.new }
{
    if out.len() <= at {
        return at;
    }
    let n = text.len().min(out.len() - at);
    for i in 0..n {
        out[at + i] = text[i];
    }
    at + n
}

// Whether s begins with text. Most texts asked for differ in their first bytes, where the loop is faster than std's starts_with.
pub fn begins(s: &[u8], text: &[u8]) -> bool
    ensures { result ≡ begins s.now text.now }
{
    if s.len() < text.len() {
        return false;
    }
    for i in 0..text.len() {
        if s[i] != text[i] {
            return false;
        }
    }
    true
}

// Whether s is text.
pub fn same(s: &[u8], text: &[u8]) -> bool
    ensures { result ≡ same s.now text.now }
{
    s.len() == text.len() && begins(s, text)
}

// Whether the byte stands in s. The loop has one way out, so that it takes many bytes in one step of the machine; std's contains is slower from
// 128 bytes on, and any from 16.
pub fn has(s: &[u8], byte: u8) -> bool
    ensures { result ≡ has byte s.now }
{
    let mut found = false;
    for &b in s {
        found |= b == byte;
    }
    found
}

// Whether a byte of 80 hex or more stands in s.
pub fn has_high(s: &[u8]) -> bool
    ensures { result ≡ high s.now }
{
    let mut found = false;
    for &b in s {
        found |= 0x80 <= b;
    }
    found
}

// 09 to 0D and 20.
#[tactic(auto, unfolding(crate::specs::Text::is_space))]
pub fn is_space(b: u8) -> bool
    ensures { result ≡ is_space b }
{
    matches!(b, 9..=13 | 32)
}

// A letter a to z raised, and any other byte as it is.
#[tactic(auto, unfolding(crate::specs::Text::raised))]
pub fn raise(b: u8) -> u8
    ensures { result ≡ raised b }
{
    b.to_ascii_uppercase()
}

// The lesser of a number and the most that it may be.
pub fn at_most(n: usize, most: usize) -> usize
    ensures { result ≡ min n most }
{
    n.min(most)
}

// The first len of the bytes, all of them where len is larger.
#[derive(Clone, Copy)]
pub struct Bytes<const N: usize> {
    pub bytes: [u8; N],
    pub len: usize,
}

impl<const N: usize> Bytes<N> {
    // No bytes.
    pub fn new() -> Bytes<N>
        ensures { held result ≡ [] }
    {
        Bytes {
            bytes: [0; N],
            len: 0,
        }
    }

    // A text takes the place of what is held, cut after N bytes.
    #[tactic(auto, using(crate::proofs::PutLaws::put_front))]
    pub fn set(&mut self, text: &[u8])
        ensures { held self.new ≡ take N text.now }
    {
        self.len = put(&mut self.bytes, 0, text);
    }

    pub fn clear(&mut self)
        ensures { held self.new ≡ [] }
    {
        self.len = 0;
    }

    // A text joins what is held, cut after N bytes in all. An empty one leaves the fields as they are, whatever they hold.
    #[tactic(auto, using(crate::proofs::PutLaws::put_joins))]
    pub fn append(&mut self, text: &[u8])
        ensures joined { held self.new ≡ take N (held self.old ++ text.now) }
        ensures unchanged { text.now ≡ [] → self.new ≡ self.old }
    {
        self.len = put(&mut self.bytes, self.len, text);
    }

    // A byte joins what is held, where there is a place for it.
    #[tactic(auto, using(crate::proofs::PutLaws::put_joins))]
    pub fn push(&mut self, byte: u8)
        ensures { held self.new ≡ take N (held self.old ++ (byte ∷ [])) }
    {
        self.len = put_byte(&mut self.bytes, self.len, byte);
    }

    // How many bytes may still join.
    #[tactic(auto, using(crate::proofs::BytesLaws::held_short))]
    pub fn room(&self) -> usize
        ensures { length (held self.now) + result ≡ N }
    {
        N.saturating_sub(self.len)
    }

    pub fn as_slice(&self) -> &[u8]
        ensures { result.now ≡ held self.now }
    {
        &self.bytes[..self.len.min(N)]
    }

    // Whether both hold the same text. They are copied: a session that lent its fields would itself be copied once more.
    pub fn is(self, other: Bytes<N>) -> bool
        ensures { result ≡ same (held self.entry) (held other.entry) }
    {
        same(self.as_slice(), other.as_slice())
    }
}
