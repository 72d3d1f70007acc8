// The lines of a reply (parse_lines and decode_hex of the Rust's client_session.rs).
#![tactic(auto)]

ghost use Rattle.std.specs.Prelude.{◌≡◌, [], ◌∷◌, suc, ◌-◌, ◌<◌, length, take, drop, get_or, MatchOption};
ghost use Rattle.std.proofs.Math.Option;
ghost use Rattle.wire.specs.Put.{Put};
ghost use Rattle.hex_text.specs.Read.{hex_number, kept, pair_bytes};
ghost use Rattle.reply_lines.specs.Lines.{is_trimmed, trim_start, trim_end, stays, text_lines, characters};
ghost use Rattle.reply_lines.specs.Decode.{text_line, DecodedAs};
ghost use Rattle.reply_lines.specs.Reader.{text_step, line_from, past_step, step_text};
ghost use Rattle.reply_lines.specs.Steps.{to_cr, is_skipped};

// A line of a reply that counts: its text is reply[start..end], and the next line is looked for from next on.
#[derive(Clone, Copy)]
pub struct TextPlace {
    pub start: usize,
    pub end: usize,
    pub next: usize,
}

// A line's ECU+1, 0 when unknown, and how many bytes of data it has.
#[derive(Clone, Copy)]
pub struct Decoded {
    pub ecu: u16,
    pub len: usize,
}

// How many bytes stand before the first CR, or all of them.
fn to_cr(s: &[u8]) -> usize
    ensures { result ≡ to_cr s.now }
{
    for (i, &b) in s.iter().enumerate() {
        if b == b'\r' {
            return i;
        }
    }
    s.len()
}

// Whether a byte goes at the ends of a line: 00, which a reader skips, and white space.
#[tactic(auto, unfolding(wire::specs::Text::is_space))]
fn is_trimmed(b: u8) -> bool
    ensures { result ≡ is_trimmed b }
{
    matches!(b, 0 | 9..=13 | 32)
}

// The part without 00 and white space in front.
fn trim_start(mut s: &[u8]) -> &[u8]
    ensures { result.now ≡ trim_start s.now }
{
    while let [first, rest @ ..] = s
        && is_trimmed(*first)
    {
        s = rest;
    }
    s
}

// The part without 00 and white space at its end.
fn trim_end(mut s: &[u8]) -> &[u8]
    ensures { result.now ≡ trim_end s.now }
{
    while let [rest @ .., last] = s
        && is_trimmed(*last)
    {
        s = rest;
    }
    s
}

// Whether a trimmed line is kept.
fn stays(text: &[u8]) -> bool
    ensures { result ≡ stays text.now }
{
    !text.is_empty() && !wire::has(text, b'>')
}

// The next line that stays, from position at on, or none.
pub fn next_line(reply: &[u8], mut at: usize) -> Option<TextPlace>
    ensures { text_step result ≡ line_from reply.now at }
{
    while at < reply.len() {
        let cr = at + to_cr(&reply[at..]);
        let next = (cr + 1).min(reply.len());
        let text = trim_start(&reply[at..cr]);
        let start = cr - text.len();
        let trimmed = trim_end(text);
        if stays(trimmed) {
            return Some(TextPlace {
                start,
                end: start + trimmed.len(),
                next,
            });
        }
        at = next;
    }
    None
}

// A reader that walks the lines of one lent reply. The work is done on a slice and a number; the functions over LineReader take it apart and are thin.
#[derive(Clone, Copy)]
pub struct LineReader<'a> {
    pub reply: &'a [u8],
    // The next line is looked for from here on.
    pub at: usize,
}

// Where a reader goes on after a step: past its line, or where it stands when no line is left.
fn past_step(at: usize, step: Option<TextPlace>) -> usize
    ensures { result ≡ past_step at (text_step step) }
{
    match step {
        Some(line) => line.next,
        None => at,
    }
}

// The part of a reply from start to end, as far as the reply reaches.
fn part(reply: &[u8], start: usize, end: usize) -> &[u8]
    ensures { result.now ≡ take (end - start) (drop start reply.now) }
{
    let end = end.min(reply.len());
    if end <= start {
        return &[];
    }
    &reply[start..end]
}

// The text of a step over a reply.
fn step_text(reply: &[u8], step: Option<TextPlace>) -> &[u8]
    ensures { result.now ≡ step_text reply.now (text_step step) }
{
    match step {
        Some(line) => part(reply, line.start, line.end),
        None => &[],
    }
}

impl<'a> LineReader<'a> {
    // At the start of a reply.
    pub fn new(reply: &'a [u8]) -> LineReader<'a>
        ensures { (result.reply ≡ reply.entry) × (result.at ≡ 0) }
    {
        LineReader { reply, at: 0 }
    }

    // The next line, and the reader moves past it; none, and it stays, when no line is left.
    pub fn next_line(&mut self) -> Option<TextPlace>
        ensures { (text_step result ≡ line_from self.old.reply.now self.old.at)
            × (self.new.reply ≡ self.old.reply)
            × (self.new.at ≡ past_step self.old.at (line_from self.old.reply.now self.old.at)) }
    {
        let step = next_line(self.reply, self.at);
        self.at = past_step(self.at, step);
        step
    }

    // The text of a line that the reader gave: a part of the reply, not copied, with any 00 that stands inside it. Nothing for none.
    pub fn text(self, step: Option<TextPlace>) -> &'a [u8]
        ensures { result.now ≡ step_text self.entry.reply.now (text_step step) }
    {
        step_text(self.reply, step)
    }
}

// The text of a reply's first line, a part of the reply with any 00 that stands inside it; nothing where it has none.
pub fn first_text(reply: &[u8]) -> &[u8]
    ensures { result.now ≡ get_or (text_lines reply.now) 0 [] }
{
    let mut reader = LineReader::new(reply);
    let step = reader.next_line();
    reader.text(step)
}

// Whether a byte inside a line is no character of it: 00 or 20.
fn is_skipped(b: u8) -> bool
    ensures { result ≡ is_skipped b }
{
    matches!(b, 0 | 32)
}

// The first character of a line, and what stands behind it.
fn split_char(mut line: &[u8]) -> Option<(u8, &[u8])>
    ensures { MatchOption result (characters line.now ≡ []) (λ p. (characters line.now ≡ p.0 ∷ characters p.1.now) × (length p.1.now < length line.now)) }
{
    while let [first, rest @ ..] = line {
        if !is_skipped(*first) {
            return Some((*first, rest));
        }
        line = rest;
    }
    None
}

// The byte of a good pair, from position at on; a bad one is skipped.
fn put_pair(out: &mut [u8], at: usize, a: u8, b: u8) -> usize
    ensures { Put out.old at (kept (hex_number (a ∷ b ∷ []))) result out.new }
{
    match hex_text::hex_pair(a, b) {
        Some(byte) => wire::put_byte(out, at, byte),
        None => at,
    }
}

// The bytes of the pairs of a line, stored at the front of out.
fn put_pairs(out: &mut [u8], mut line: &[u8]) -> usize
    ensures { Put out.old 0 (pair_bytes (characters line.now)) result out.new }
{
    let mut len = 0;
    while let Some((a, rest)) = split_char(line) {
        let Some((b, rest)) = split_char(rest) else {
            return len;
        };
        len = put_pair(out, len, a, b);
        line = rest;
    }
    len
}

// ECU+1 of an id's characters: a bad id is 000.
fn ecu_of(a: u8, b: u8, c: u8) -> u16
    ensures { result ≡ suc (Option.get_or (hex_number (a ∷ b ∷ c ∷ [])) 0) }
{
    match hex_text::hex_id(a, b, c) {
        Some(id) => id + 1,
        None => 1,
    }
}

// The line of a text, of which 00 and 20 are skipped; its data are stored at the front of data, as far as it reaches.
pub fn decode_line(text: &[u8], framing: bool, data: &mut [u8]) -> Decoded
    ensures { DecodedAs (text_line framing text.now) «data».old result «data».new }
{
    if !framing {
        let len = put_pairs(data, text);
        return Decoded { ecu: 0, len };
    }
    let mut head = [0u8; 5];
    let mut left = text;
    for i in 0..5 {
        let Some((char, rest)) = split_char(left) else {
            // Too short for id and length byte: its characters are the data.
            let len = wire::put(data, 0, &head[..i]);
            return Decoded { ecu: 0, len };
        };
        head[i] = char;
        left = rest;
    }
    let len = put_pairs(data, left);
    let ecu = ecu_of(head[0], head[1], head[2]);
    Decoded { ecu, len }
}
