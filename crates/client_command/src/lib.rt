// The commands that a client sends besides queries: raw ones, and those of the initialisation (`command` and `init` of the Rust's client_session.rs).
#![tactic(auto)]

ghost use Rattle.std.specs.Prelude.{◌≡◌};
ghost use Rattle.wire.specs.Put.{Put};
ghost use Rattle.client_command.specs.Commands.{with_cr, framing_effect, setup_text};

// What a completed raw command does to framing.
#[derive(Clone, Copy)]
pub enum FramingEffect {
    Kept,
    // ATH1
    On,
    // ATH0, ATZ
    Off,
}

// What a raw command does to framing once it is complete. One with a CR of its own does nothing.
pub fn framing_effect(command: &[u8]) -> FramingEffect
    ensures { result ≡ framing_effect command.now }
{
    if command.eq_ignore_ascii_case(b"ATH1") {
        return FramingEffect::On;
    }
    if command.eq_ignore_ascii_case(b"ATH0") || command.eq_ignore_ascii_case(b"ATZ") {
        return FramingEffect::Off;
    }
    FramingEffect::Kept
}

// A raw command from position at on, with CR unless it ends in one.
pub fn put_command(out: &mut [u8], at: usize, command: &[u8]) -> usize
    ensures { Put out.old at (with_cr command.now) result out.new }
{
    let at = wire::put(out, at, command);
    if command.ends_with(b"\r") {
        return at;
    }
    wire::put_byte(out, at, b'\r')
}

// The last command of the initialisation: ATH1 or ATH0.
fn put_headers(out: &mut [u8], at: usize, framing: bool) -> usize
    ensures { Put out.old at (setup_text framing 4) result out.new }
{
    if framing {
        return wire::put(out, at, b"ATH1\r");
    }
    wire::put(out, at, b"ATH0\r")
}

// The k-th command of the initialisation after ATZ, counted from 0: ATE0, ATL0, ATS0, ATSP0, and then ATH1 or ATH0.
pub fn put_setup(out: &mut [u8], at: usize, framing: bool, k: u8) -> usize
    ensures { Put out.old at (setup_text framing k) result out.new }
{
    match k {
        0 => wire::put(out, at, b"ATE0\r"),
        1 => wire::put(out, at, b"ATL0\r"),
        2 => wire::put(out, at, b"ATS0\r"),
        3 => wire::put(out, at, b"ATSP0\r"),
        _ => put_headers(out, at, framing),
    }
}
