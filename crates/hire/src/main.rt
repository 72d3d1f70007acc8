// Reads a bench script from standard input, and prints each query's part of its hire record as a line of hex bytes. A read or a write that fails is told on
// standard error.
#![tactic(auto)]

use reading::read_input;
use std::io::{Read, Write};

// Prints what a script comes to.
fn print_record<W: Write, E: Write>(script: &[u8], to: &mut W, told: &mut E) {
    let mut record = [0u8; 65536];
    // Three characters for each byte of the record, and a line for the number: no text is longer.
    let mut out = [0u8; 196620];
    let Ok(end) = hire_text::hire_text(script, &mut record, &mut out) else {
        return;
    };
    if to.write_all(&out[..end]).is_err() {
        let _ = told.write_all(b"hire: cannot write the record\n");
    }
}

fn main(rt: HostRuntime) {
    // One byte more than a script may have.
    let mut script = [0u8; 16385];
    let Ok(n) = read_input(&mut rt.stdin(), &mut script) else {
        let _ = rt.stderr().write_all(b"hire: cannot read the script\n");
        return;
    };
    print_record(&script[..n], &mut rt.stdout(), &mut rt.stderr());
}
