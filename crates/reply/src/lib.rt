// What the server sends as a reply: the chip's shape, and line lists written in it (reply, push_header and push_hex of the Rust's server_session.rs).
#![tactic(auto)]

ghost use Rattle.std.specs.Prelude.{◌≡◌, true, false, cond, List, [], ◌∷◌, ◌++◌, map, ℕ, ◌+◌, ◌≤◌, length, drop};
ghost use Rattle.wire.specs.Answer.{count_answer};
ghost use Rattle.wire.specs.Put.{Put, count_written};
ghost use Rattle.hex_text.specs.Digits.{hex_digits, hex_byte};
ghost use Rattle.group.specs.Group.{got};
ghost use Rattle.client_state.specs.Settings.{line_ending};
ghost use Rattle.line_list.specs.Lines.{Line, line, lines_of_list};
ghost use Rattle.reply.specs.Shape.{chip_reply};
ghost use Rattle.reply.specs.Reply.{ecu_id, space_if, further_hex, line_text};
ghost use Rattle.reply.specs.Answers.{replied};
ghost use Rattle.reply.specs.Steps.{header_size, data_size, reply_size, LinesFit};

use line_list::LineCursor;
use wire::Refusal;

// What a reply goes by of the settings: its line endings, the spaces between its bytes, and whether a line starts with a header.
#[derive(Clone, Copy)]
pub struct ReplyStyle {
    pub linefeeds: bool,
    pub spaces: bool,
    pub headers: bool,
}

// What follows the last line of a reply: an empty line and the prompt.
pub fn put_prompt(out: &mut [u8], at: usize, linefeeds: bool) -> usize
    ensures { Put out.old at (chip_reply linefeeds []) result out.new }
{
    let next = client_state::put_line_ending(out, at, linefeeds);
    wire::put_byte(out, next, b'>')
}

// A reply of one line.
pub fn put_text_reply(out: &mut [u8], at: usize, text: &[u8], linefeeds: bool) -> usize
    ensures { Put out.old at (chip_reply linefeeds (text.now ∷ [])) result out.new }
{
    let end = wire::put(out, at, text);
    let next = client_state::put_line_ending(out, end, linefeeds);
    put_prompt(out, next, linefeeds)
}

// The space that follows the parts of a header and separates bytes, if spaces are on.
fn put_space(out: &mut [u8], at: usize, spaces: bool) -> usize
    ensures { Put out.old at (space_if spaces) result out.new }
{
    if spaces {
        return wire::put_byte(out, at, b' ');
    }
    at
}

// The id of ECU+1.
fn ecu_id(ecu: u16) -> u16
    ensures { result ≡ ecu_id ecu }
{
    if ecu == 0 {
        return 0x7E8;
    }
    ecu - 1
}

// The header of a line, if on: its ECU, and how many bytes it has (255 at most) in two digits.
fn put_header(out: &mut [u8], at: usize, ecu: u16, size: usize, style: ReplyStyle) -> usize
    ensures { Put out.old at (cond style.headers (hex_digits 3 (ecu_id ecu) ++ (space_if style.spaces ++ (hex_byte size ++ space_if style.spaces))) []) result out.new }
{
    if style.headers {
        let at = hex_text::put_hex_id(out, at, ecu_id(ecu));
        let at = put_space(out, at, style.spaces);
        let at = hex_text::put_hex_byte(out, at, (size % 256) as u8);
        return put_space(out, at, style.spaces);
    }
    at
}

// Bytes with a space before each, where there is room. The digits are read from a table, since the machine cannot join these stores.
fn put_spaced(out: &mut [u8], at: usize, bytes: &[u8]) -> usize
    requires { at + length (further_hex true bytes.now) ≤ length out.old }
    ensures { Put out.old at (further_hex true bytes.now) result out.new }
{
    let digits = b"0123456789ABCDEF";
    let mut to = at;
    for byte in bytes {
        out[to] = b' ';
        out[to + 1] = digits[usize::from(*byte / 16)];
        out[to + 2] = digits[usize::from(*byte % 16)];
        to += 3;
    }
    to
}

// Bytes with nothing before them, where there is room. The digits are computed, so that the machine can make many in one step.
fn put_joined(out: &mut [u8], at: usize, bytes: &[u8]) -> usize
    requires { at + length (further_hex false bytes.now) ≤ length out.old }
    ensures { Put out.old at (further_hex false bytes.now) result out.new }
{
    let mut to = at;
    for byte in bytes {
        out[to] = hex_text::hex_char(*byte / 16);
        out[to + 1] = hex_text::hex_char(*byte);
        to += 2;
    }
    to
}

// A line, without its ending, where there is room.
fn put_line_text(out: &mut [u8], at: usize, ecu: u16, payload: &[u8], style: ReplyStyle) -> usize
    requires { at + length (line_text style.spaces style.headers (line ecu payload.now)) ≤ length out.old }
    ensures { Put out.old at (line_text style.spaces style.headers (line ecu payload.now)) result out.new }
{
    let start = put_header(out, at, ecu, payload.len(), style);
    let [first, further @ ..] = payload else {
        return start;
    };
    let next = hex_text::put_hex_byte(out, start, *first);
    if style.spaces {
        return put_spaced(out, next, further);
    }
    put_joined(out, next, further)
}

fn ending_size(linefeeds: bool) -> usize
    ensures { result ≡ length (line_ending linefeeds) }
{
    if linefeeds {
        return 2;
    }
    1
}

// A header has five digits and, if spaces are on, two spaces.
fn header_size(style: ReplyStyle) -> usize
    ensures { result ≡ header_size style.spaces style.headers }
{
    match (style.headers, style.spaces) {
        (true, true) => 7,
        (true, false) => 5,
        (false, _) => 0,
    }
}

// A byte has two digits and, if spaces are on, all but the last have a space.
fn data_size(n: usize, spaces: bool) -> usize
    requires { n ≤ 255 }
    ensures { result ≡ data_size spaces n }
{
    if spaces {
        return (3 * n).saturating_sub(1);
    }
    2 * n
}

// How long a line of n bytes is with its ending.
fn line_size(n: usize, style: ReplyStyle) -> usize
    requires { n ≤ 255 }
    ensures { result ≡ header_size style.spaces style.headers + data_size style.spaces n + length (line_ending style.linefeeds) }
{
    header_size(style) + data_size(n, style.spaces) + ending_size(style.linefeeds)
}

// How long the reply to a line list is, or 5: one walk checks the list and adds up its lines.
fn reply_size(list: &[u8], style: ReplyStyle) -> Result<usize, Refusal>
    ensures { count_answer result ≡ reply_size style.linefeeds style.spaces style.headers list.now }
{
    let ending = ending_size(style.linefeeds);
    // An empty line and the prompt.
    let mut size = ending + 1;
    if list.is_empty() {
        // `NO DATA`.
        return Ok(7 + ending + size);
    }
    let mut cursor = LineCursor::new();
    for _ in 0..64usize {
        let Some(line) = cursor.step(list)? else {
            return Ok(size);
        };
        size += line_size(line.next.at - line.start, style);
        cursor = line.next;
    }
    if list.len() <= cursor.at {
        return Ok(size);
    }
    Err(Refusal::Malformed)
}

// The lines of a well-formed list, then the prompt, from the start of out on, where there is room for them.
fn write_lines(list: &[u8], style: ReplyStyle, out: &mut [u8]) -> usize
    requires { LinesFit style.linefeeds style.spaces style.headers list.now out.old }
    ensures { (ls : List Line) (rest : List ℕ) → lines_of_list list.now ≡ got ls rest →
        Put out.old 0 (chip_reply style.linefeeds (map (line_text style.spaces style.headers) ls)) result out.new }
{
    let mut cursor = LineCursor::new();
    let mut at: usize = 0;
    // A well-formed list is never refused.
    while let Ok(Some(line)) = cursor.step(list) {
        let end = line.next.at;
        at = put_line_text(out, at, line.ecu, &list[line.start..end], style);
        at = client_state::put_line_ending(out, at, style.linefeeds);
        cursor = line.next;
    }
    put_prompt(out, at, style.linefeeds)
}

// The reply to a line list at the front of out, and how many bytes it has: 5 where it is no line list, 6 where the reply is longer than out, which is then as it
// was.
pub fn write_reply(list: &[u8], style: ReplyStyle, out: &mut [u8]) -> Result<usize, Refusal>
    ensures { count_written result out.new ≡ replied style.linefeeds style.spaces style.headers list.now out.old }
{
    let size = reply_size(list, style)?;
    if out.len() < size {
        return Err(Refusal::SmallBuffer);
    }
    if list.is_empty() {
        return Ok(put_text_reply(out, 0, b"NO DATA", style.linefeeds));
    }
    Ok(write_lines(list, style, out))
}
