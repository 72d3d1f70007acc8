// The vehicle that the program plays: one ECU, 7E8, whose values stand still.
ghost use Rattle.std.specs.Prelude.{◌≡◌, [], ◌∷◌, ◌≤◌, length};
ghost use Rattle.wire.specs.Put.{Put};
ghost use Rattle.line_list.specs.Lines.{lines_bytes};
ghost use Rattle.serve.specs.Vehicle.{parameter, asks_for, lines_for, vehicle};

// Whether a command is a query for the PID.
fn asks_for(command: &[u8], pid: u8) -> bool
    ensures { result ≡ asks_for command.now pid }
{
    if 5 < command.len() {
        return false;
    }
    let text = [
        b'0',
        b'1',
        hex_text::hex_char(pid / 16),
        hex_text::hex_char(pid),
    ];
    wire::begins(command, &text)
}

// The line of a PID from position at on, where the command is a query for it.
fn give(out: &mut [u8], at: usize, command: &[u8], pid: u8, bytes: &[u8]) -> usize
    requires { length bytes.now ≤ 4 }
    ensures { Put out.old at (lines_bytes (lines_for command.now (parameter pid bytes.now ∷ []))) result out.new }
{
    if !asks_for(command, pid) {
        return at;
    }
    let at = group::put_group(out, at, 0x7E9);
    let at = group::put_group(out, at, bytes.len() + 2);
    let at = wire::put_byte(out, at, 0x41);
    let at = wire::put_byte(out, at, pid);
    wire::put(out, at, bytes)
}

// The lines that a command is answered with, at the front of out.
pub(crate) fn put_lines(out: &mut [u8], command: &[u8]) -> usize
    ensures { Put out.old 0 (lines_bytes (vehicle command.now)) result out.new }
{
    // The PIDs that are known.
    let at = give(out, 0, command, 0x00, b"\x98\x3E\x80\x00");
    // Monitor status.
    let at = give(out, at, command, 0x01, b"\x00\x07\xE5\x00");
    // Load, coolant temperature, manifold pressure.
    let at = give(out, at, command, 0x04, b"\x40");
    let at = give(out, at, command, 0x05, b"\x7B");
    let at = give(out, at, command, 0x0B, b"\x2D");
    // Engine speed, vehicle speed.
    let at = give(out, at, command, 0x0C, b"\x1A\xF8");
    let at = give(out, at, command, 0x0D, b"\x20");
    // Timing advance, air temperature, throttle.
    let at = give(out, at, command, 0x0E, b"\x90");
    let at = give(out, at, command, 0x0F, b"\x46");
    give(out, at, command, 0x11, b"\x2E")
}
