// Runs several bench scripts from standard input one after the other, and prints what `hire` prints for each, with a line `--` after it. A case is a byte for the
// record buffer (that many bytes; 0 for the 65,536 of `hire`), the script's length as two bytes, the higher first, and the script.
#![tactic(auto)]

use reading::read_input;
use std::io::Write;

// Prints what `hire` prints for a script, with the first size bytes of a record buffer.
fn print_case<W: Write>(script: &[u8], record: &mut [u8], size: usize, to: &mut W) {
    if record.len() < size {
        return;
    }
    let mut out = [0u8; 196620];
    let Ok(end) = hire_text::hire_text(script, &mut record[..size], &mut out) else {
        return;
    };
    let _ = to.write_all(&out[..end]);
    let _ = to.write_all(b"--\n");
}

fn room_of(byte: u8) -> usize {
    if byte == 0 {
        return 65536;
    }
    usize::from(byte)
}

fn main(rt: HostRuntime) {
    let mut to = rt.stdout();
    let mut input = [0u8; 32768];
    let n = read_input(&mut rt.stdin(), &mut input).unwrap_or_else(|cut| cut.size);
    let mut record = [0u8; 65536];
    let mut rest = &input[..n];
    while let [room, high, low, after @ ..] = rest {
        let length = usize::from(u16::from_be_bytes([*high, *low]));
        let (script, left) = after.split_at(length.min(after.len()));
        print_case(script, &mut record, room_of(*room), &mut to);
        rest = left;
    }
}
