// The settings of one client (ClientState of the Rust's lib.rs).
#![tactic(auto)]

ghost use Rattle.std.specs.Prelude.{◌≡◌, length};
ghost use Rattle.wire.specs.Put.{Put};
ghost use Rattle.client_state.specs.Settings.{settings, fresh, line_ending, with_last};

use wire::Bytes;

#[derive(Clone, Copy)]
pub struct ClientState {
    // Received bytes are sent back (ATE0, ATE1).
    pub echo_enabled: bool,
    // A line ends in CR LF and not in CR (ATL0, ATL1).
    pub linefeeds_enabled: bool,
    // Spaces stand between bytes (ATS0, ATS1).
    pub spaces_enabled: bool,
    // A line starts with its header (ATH0, ATH1).
    pub headers_enabled: bool,
    // The last OBD command replied to, which a bare carriage return repeats; empty for none.
    pub last_obd_command: Bytes<128>,
}

impl Default for ClientState {
    ghost is_default = { λ state. settings state ≡ fresh };

    // Fresh settings.
    fn default() -> ClientState {
        ClientState {
            echo_enabled: true,
            linefeeds_enabled: true,
            spaces_enabled: true,
            headers_enabled: false,
            last_obd_command: Bytes::new(),
        }
    }
}

impl ClientState {
    // How many bytes the last command has.
    pub fn last_size(self) -> usize
        ensures { result ≡ length (settings self).last }
    {
        self.last_obd_command.as_slice().len()
    }

    // The command becomes the last one.
    pub fn with_last(mut self, command: &[u8]) -> ClientState
        ensures { settings result ≡ with_last (settings self) command.now }
    {
        self.last_obd_command.set(command);
        self
    }
}

// The line ending that the client chose: CR, or CR LF with linefeeds on.
pub fn put_line_ending(out: &mut [u8], at: usize, linefeeds: bool) -> usize
    ensures { Put out.old at (line_ending linefeeds) result out.new }
{
    let next = wire::put_byte(out, at, b'\r');
    if linefeeds {
        return wire::put_byte(out, next, b'\n');
    }
    next
}
