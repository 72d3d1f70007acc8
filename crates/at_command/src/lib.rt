// The AT dialect (handle_at_command of the Rust's server_session.rs). The work is by value; `handle_at_command` is a thin function over settings that are lent.
#![tactic(auto)]

ghost use Rattle.std.specs.Prelude.{◌≡◌, drop, true, false, cond};
ghost use Rattle.wire.specs.Text.{same, begins};
ghost use Rattle.client_state.specs.Settings.{settings};
ghost use Rattle.at_command.specs.Dialect.{is_text, starts_with, at_kind, kind_settings, identity_of};

use client_state::ClientState;

// A switch among the settings.
#[derive(Clone, Copy)]
pub enum Setting {
    Echo,
    Linefeeds,
    Spaces,
    Headers,
}

// One of the two identity strings: ATI's, and AT@1's device description.
#[derive(Clone, Copy)]
pub enum IdentityText {
    Ati,
    Device,
}

// What an AT command is to the server.
#[derive(Clone, Copy)]
pub enum AtKind {
    // ATZ
    Reset,
    // ATE0, ATE1 and so on: off or on
    Set(Setting, bool),
    // ATSP.., ATST.., ATAT..: taken, with no effect here
    Accepted,
    // ATI, AT@1
    Identity(IdentityText),
    // ATRV
    Voltage,
    // ATDP
    Protocol,
    // ATDPN
    ProtocolNumber,
    Unknown,
}

#[derive(Clone, Copy)]
pub struct AtHandled {
    pub state: ClientState,
    pub kind: AtKind,
}

// One text, matched whole.
fn one_text(command: &[u8], text: &[u8], kind: AtKind) -> AtKind
    ensures { result ≡ cond (same command.now text.now) kind AtKind.Unknown }
{
    if wire::same(command, text) {
        return kind;
    }
    AtKind::Unknown
}

// A text that the command starts with.
fn accepted(command: &[u8], text: &[u8]) -> AtKind
    ensures { result ≡ cond (begins command.now text.now) AtKind.Accepted AtKind.Unknown }
{
    if wire::begins(command, text) {
        return AtKind::Accepted;
    }
    AtKind::Unknown
}

// A switch: 0 after the letter turns it off, 1 on.
fn switched(command: &[u8], setting: Setting) -> AtKind
    ensures { result ≡ cond (is_text (drop 3 command.now) "0") (AtKind.Set setting false)
        (cond (is_text (drop 3 command.now) "1") (AtKind.Set setting true) AtKind.Unknown) }
{
    if command.len() != 4 {
        return AtKind::Unknown;
    }
    match command[3] {
        b'0' => AtKind::Set(setting, false),
        b'1' => AtKind::Set(setting, true),
        _ => AtKind::Unknown,
    }
}

// ATS0 and ATS1, or what starts with ATSP or ATST.
fn ats_kind(command: &[u8]) -> AtKind
    ensures { result ≡ cond (is_text command.now "ATS0") (AtKind.Set Setting.Spaces false)
        (cond (is_text command.now "ATS1") (AtKind.Set Setting.Spaces true)
        (cond (starts_with command.now "ATSP") AtKind.Accepted
        (cond (starts_with command.now "ATST") AtKind.Accepted AtKind.Unknown))) }
{
    if wire::same(command, b"ATS0") {
        return AtKind::Set(Setting::Spaces, false);
    }
    if wire::same(command, b"ATS1") {
        return AtKind::Set(Setting::Spaces, true);
    }
    if wire::begins(command, b"ATSP") {
        return AtKind::Accepted;
    }
    accepted(command, b"ATST")
}

// ATDP and ATDPN.
fn atd_kind(command: &[u8]) -> AtKind
    ensures { result ≡ cond (is_text command.now "ATDP") AtKind.Protocol
        (cond (is_text command.now "ATDPN") AtKind.ProtocolNumber AtKind.Unknown) }
{
    if wire::same(command, b"ATDP") {
        return AtKind::Protocol;
    }
    one_text(command, b"ATDPN", AtKind::ProtocolNumber)
}

// What an AT command is. The letter after AT leaves few texts to compare.
pub fn at_kind(command: &[u8]) -> AtKind
    ensures { result ≡ at_kind command.now }
{
    if !wire::begins(command, b"AT") {
        return AtKind::Unknown;
    }
    if command.len() < 3 {
        return AtKind::Unknown;
    }
    match command[2] {
        b'Z' => one_text(command, b"ATZ", AtKind::Reset),
        b'E' => switched(command, Setting::Echo),
        b'L' => switched(command, Setting::Linefeeds),
        b'S' => ats_kind(command),
        b'H' => switched(command, Setting::Headers),
        b'R' => one_text(command, b"ATRV", AtKind::Voltage),
        b'D' => atd_kind(command),
        b'A' => accepted(command, b"ATAT"),
        b'I' => one_text(command, b"ATI", AtKind::Identity(IdentityText::Ati)),
        b'@' => one_text(command, b"AT@1", AtKind::Identity(IdentityText::Device)),
        _ => AtKind::Unknown,
    }
}

// The settings with a switch turned.
fn with_setting(mut state: ClientState, setting: Setting, on: bool) -> ClientState
    ensures { settings result ≡ kind_settings (AtKind.Set setting on) (settings state) }
{
    match setting {
        Setting::Echo => state.echo_enabled = on,
        Setting::Linefeeds => state.linefeeds_enabled = on,
        Setting::Spaces => state.spaces_enabled = on,
        Setting::Headers => state.headers_enabled = on,
    }
    state
}

// The settings after a command of a kind.
fn with_kind(state: ClientState, kind: AtKind) -> ClientState
    ensures { settings result ≡ kind_settings kind (settings state) }
{
    match kind {
        AtKind::Reset => ClientState::default(),
        AtKind::Set(setting, on) => with_setting(state, setting, on),
        AtKind::Accepted
        | AtKind::Identity(_)
        | AtKind::Voltage
        | AtKind::Protocol
        | AtKind::ProtocolNumber
        | AtKind::Unknown => state,
    }
}

// An AT command: the settings after it, and what it is, by which it is answered.
pub fn at_handled(state: ClientState, command: &[u8]) -> AtHandled
    ensures { (settings result.state ≡ kind_settings (at_kind command.now) (settings state))
        × (result.kind ≡ at_kind command.now) }
{
    let kind = at_kind(command);
    AtHandled {
        state: with_kind(state, kind),
        kind,
    }
}

// The same of settings that are lent: they are updated, and the answer is what the command is.
pub fn handle_at_command(state: &mut ClientState, command: &[u8]) -> AtKind
    ensures { (settings state.new ≡ kind_settings (at_kind command.now) (settings state.old))
        × (result ≡ at_kind command.now) }
{
    let kind = at_kind(command);
    *state = with_kind(*state, kind);
    kind
}

// The identity string that answers ATI or AT@1, one of the two lent.
pub fn identity_text<'a>(ati: &'a [u8], device: &'a [u8], which: IdentityText) -> &'a [u8]
    ensures { result ≡ identity_of which ati.entry device.entry }
{
    match which {
        IdentityText::Ati => ati,
        IdentityText::Device => device,
    }
}
