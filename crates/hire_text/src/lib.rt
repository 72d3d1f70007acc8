// What the program `hire` prints of a script: the parts of its hire record (document 01's terms) as lines of hex bytes, and the number that ended the run.
#![tactic(auto)]

ghost use Rattle.std.specs.Prelude.{◌≡◌, true, List, [], map, ℕ, length, drop};
ghost use Rattle.std.proofs.lemmas.List.Edits.{sets};
ghost use Rattle.wire.specs.Answer.{if_result};
ghost use Rattle.wire.specs.Put.{Put, count_written, put_whole};
ghost use Rattle.wire.specs.Text.{joined};
ghost use Rattle.bench.specs.Run.{run_answer, run_says};
ghost use Rattle.hire_text.specs.Hire.{separator, hex_line, refused_line, text_of_record};
ghost use Rattle.hire_text.specs.Steps.{AreParts, PartEnd};

use value::ValueCursor;
use wire::Refusal;

// What stands in a line before the byte at i, or after the last.
fn separator(bytes: &[u8], i: usize) -> u8
    ensures { result ≡ separator (drop i bytes.now) }
{
    if i < bytes.len() {
        return b' ';
    }
    b'\n'
}

// Some bytes as a line, from position at on.
fn put_hex_line(out: &mut [u8], at: usize, bytes: &[u8]) -> usize
    ensures { Put out.old at (hex_line bytes.now) result out.new }
{
    let mut at = at;
    for i in 0..bytes.len() {
        at = hex_text::put_hex_byte(out, at, bytes[i]);
        at = wire::put_byte(out, at, separator(bytes, i + 1));
    }
    at
}

// Where the first part of a record ends. A value takes a byte at least, so no part has more values than there are bytes.
fn part_end(bytes: &[u8]) -> usize
    ensures { PartEnd bytes.now result }
{
    let Ok(values) = group::read_group(bytes, 0, bytes.len()) else {
        return bytes.len();
    };
    let mut cursor = ValueCursor { at: values.next };
    for _ in 0..values.value {
        match cursor.step(bytes) {
            Ok(Some(value)) => cursor = value.next,
            Ok(None) => return bytes.len(),
            Err(_) => return bytes.len(),
        }
    }
    cursor.at
}

// A line for each part of a record, from position at on.
fn put_parts(out: &mut [u8], at: usize, bytes: &[u8]) -> usize
    ensures { (parts : List (List ℕ)) → AreParts parts → bytes.now ≡ joined parts → Put out.old at (joined (map hex_line parts)) result out.new }
{
    let mut at = at;
    let mut rest = bytes;
    while !rest.is_empty() {
        let (part, left) = rest.split_at(part_end(rest));
        at = put_hex_line(out, at, part);
        rest = left;
    }
    at
}

// The line that tells the number that ended a run, from position at on.
fn put_refused(out: &mut [u8], at: usize, number: u8) -> usize
    ensures { Put out.old at (refused_line number) result out.new }
{
    let at = wire::put(out, at, b"refused ");
    let at = query::put_decimal(out, at, number);
    wire::put_byte(out, at, b'\n')
}

// The line that tells the number that ended a run, at the front of out; nothing where none did.
fn put_stop(out: &mut [u8], answer: Result<(), Refusal>) -> usize
    ensures { Put out.old 0 (if_result (run_answer answer) refused_line (λ u. [])) result out.new }
{
    match answer {
        Ok(()) => 0,
        Err(refusal) => put_refused(out, 0, u8::from(refusal)),
    }
}

// Runs a script with repeat on and no piece lengths, and writes its record's parts to out, a line each, and the number that ended the run; how many bytes that is, or
// 6 where out is shorter.
// The last line is written first elsewhere, and a part's line has three characters for each byte, so the size is known before anything is written to out.
pub fn hire_text(script: &[u8], buffer: &mut [u8], out: &mut [u8]) -> Result<usize, Refusal>
    ensures out_after { count_written result out.new ≡ put_whole out.old 0 (text_of_record (length buffer.old) script.now) }
    ensures buffer_after { buffer.new ≡ sets buffer.old 0 (joined (run_says true [] (length buffer.old) script.now).parts) }
{
    let run = bench::run(script, b"", true, buffer);
    let end = run.written;
    let mut line = [0u8; 12];
    let size = put_stop(&mut line, run.answer);
    if out.len() < size {
        return Err(Refusal::SmallBuffer);
    }
    if (out.len() - size) / 3 < end {
        return Err(Refusal::SmallBuffer);
    }
    let last = put_parts(out, 0, &buffer[..end]);
    Ok(wire::put(out, last, &line[..size]))
}
