// The server end of the wire protocol: it plays an ELM327 to a reader (server_session.rs of the Rust). Each call takes the session by value and gives the
// next one back.
#![tactic(auto)]

mod replies;

ghost use Rattle.std.specs.Prelude.{◌≡◌, cond, ◌∷◌, [], ◌+◌, ◌-◌, ◌≤◌, length};
ghost use Rattle.wire.specs.declared.Refusal.{Refusal};
ghost use Rattle.wire.specs.Steps.{settled};
ghost use Rattle.wire.specs.Put.{Put};
ghost use Rattle.wire.specs.Bytes.{held};
ghost use Rattle.server_session.specs.Session.{session, fresh_session};
ghost use Rattle.server_session.specs.Call.{server_refusing, server_step, server_lent};
ghost use Rattle.server_session.specs.Bytes.{canonical, command_phase, empty_line, line_end, byte_taken, byte_says, bytes_say};
ghost use Rattle.server_session.specs.Steps.{is_special, plain_size, Accepts, Takes, ByteDoes, RunFits, Ran};

use client_state::ClientState;
use wire::{Bytes, Refusal};

// Who speaks next.
#[derive(Clone, Copy, PartialEq, Eq)]
pub enum Phase {
    // A line is read.
    Reading,
    // An AT command is handed out, and answered next.
    AtCommand,
    // An OBD command is handed out, and replied to or rejected next.
    ObdCommand,
}

#[derive(Clone, Copy)]
pub struct ServerSession {
    pub state: ClientState,
    // The line as far as it is read, or the command handed out.
    pub line: Bytes<128>,
    pub phase: Phase,
}

// What a call did.
#[derive(Clone, Copy)]
pub struct ServerStep {
    // Who speaks next, or the refusal.
    pub answer: Result<Phase, Refusal>,
    // How many bytes of the input were taken.
    pub taken: usize,
    // How many bytes of out are to be sent.
    pub written: usize,
    pub session: ServerSession,
}

// A run of bytes that joined the line: where it ends in the input, and in out with what was sent back.
#[derive(Clone, Copy)]
struct Run {
    next: usize,
    at: usize,
}

// Whether a byte does more than join the line.
#[tactic(auto, unfolding(crate::specs::Steps::is_special))]
fn is_special(byte: u8) -> bool
    ensures { result ≡ is_special byte }
{
    128 <= byte || byte == b'\r' || byte == b'\n'
}

// How many bytes just join the line, up to the first one that does more.
fn plain_size(bytes: &[u8]) -> usize
    ensures { result ≡ plain_size bytes.now }
{
    bytes.iter().take_while(|b| !is_special(**b)).count()
}

// Makes a line its command, in place.
fn make_canonical(line: &mut Bytes<128>)
    ensures { held line.new ≡ canonical (held line.old) }
{
    let size = line.as_slice().len();
    let mut n: usize = 0;
    for i in 0..size {
        let b = line.bytes[i];
        if !wire::is_space(b) {
            line.bytes[n] = wire::raise(b);
            n += 1;
        }
    }
    line.len = n;
}

// The kind of a command.
fn command_phase(command: &[u8]) -> Phase
    ensures { result ≡ command_phase command.now }
{
    if wire::begins(command, b"AT") {
        return Phase::AtCommand;
    }
    Phase::ObdCommand
}

// Bytes are sent back where echo is on.
fn put_echo(out: &mut [u8], at: usize, echo: bool, bytes: &[u8]) -> usize
    ensures { Put out.old at (cond echo bytes.now []) result out.new }
{
    if echo {
        return wire::put(out, at, bytes);
    }
    at
}

impl ServerSession {
    // A session with fresh settings, that waits for a line.
    pub fn new() -> ServerSession
        ensures { session result ≡ fresh_session }
    {
        ServerSession {
            state: ClientState::default(),
            line: Bytes::new(),
            phase: Phase::Reading,
        }
    }

    // What `bytes` did.
    fn step(self, answer: Result<Phase, Refusal>, taken: usize, written: usize) -> ServerStep
        ensures { result ≡ record { answer = answer; taken = taken; written = written; session = self } }
    {
        ServerStep {
            answer,
            taken,
            written,
            session: self,
        }
    }

    // Whether a byte is refused.
    #[tactic(auto, unfolding(crate::specs::Bytes::byte_says, wire::specs::Answer::unless))]
    fn byte_verdict(&self, b: u8, room: usize) -> Result<(), Refusal>
        ensures { byte_says room (session self.now) b ≡ settled result (server_refusing (session self.now)) (byte_taken (session self.now) b) }
    {
        if self.phase != Phase::Reading {
            return Err(Refusal::OutOfTurn);
        }
        if room < 8 {
            return Err(Refusal::SmallBuffer);
        }
        if 128 <= b {
            return Err(Refusal::ByteNotAscii);
        }
        // CR and LF need no place in the line.
        if self.line.room() == 0 && b != b'\r' && b != b'\n' {
            return Err(Refusal::LineFull);
        }
        Ok(())
    }

    // The end of an empty line: the last command is handed out, or `?` is written when there is none.
    fn end_empty(&mut self, out: &mut [u8], at: usize) -> usize
        ensures { Takes (empty_line (session self.old) [] (session self.old).state.last) out.old at result (session self.new) out.new }
    {
        if self.state.last_size() == 0 {
            self.line.clear();
            self.phase = Phase::Reading;
            return reply::put_text_reply(out, at, b"?", self.state.linefeeds_enabled);
        }
        self.line = self.state.last_obd_command;
        self.line.len = self.state.last_size();
        self.phase = Phase::ObdCommand;
        at
    }

    // The end of a line: its command is handed out.
    fn end_line(&mut self, out: &mut [u8], at: usize) -> usize
        ensures { Takes (line_end (session self.old) [] (canonical (session self.old).line)) out.old at result (session self.new) out.new }
    {
        make_canonical(&mut self.line);
        let command = self.line.as_slice();
        if command.is_empty() {
            return self.end_empty(out, at);
        }
        self.phase = command_phase(command);
        at
    }

    // A byte that gets no number, with what it sends written from a position on: the position after that.
    fn accept_byte(&mut self, b: u8, out: &mut [u8], at: usize) -> usize
        requires { Accepts (session self.old) b }
        ensures { Takes (byte_taken (session self.old) b) out.old at result (session self.new) out.new }
    {
        let end = put_echo(out, at, self.state.echo_enabled, &[b]);
        if b == b'\r' {
            return self.end_line(out, end);
        }
        if b == b'\n' {
            return end;
        }
        self.line.push(b);
        end
    }

    // A byte, with what it sends written from a position on: the position after that.
    fn take_byte(&mut self, b: u8, out: &mut [u8], at: usize) -> Result<usize, Refusal>
        ensures { ByteDoes (byte_says (length out.old - at) (session self.old) b) self.old out.old at result self.new out.new }
    {
        self.byte_verdict(b, out.len().saturating_sub(at))?;
        Ok(self.accept_byte(b, out, at))
    }

    // How many bytes may join the line as a run, if none of them is special: so many are left, and there is so much room.
    fn run_room(&self, left: usize, room: usize) -> usize
        ensures { RunFits (session self.now) left room result }
    {
        let most = left.min(self.line.room());
        if self.phase != Phase::Reading || room < 8 {
            return 0;
        }
        if self.state.echo_enabled {
            return most.min(room - 8);
        }
        most
    }

    // Lets the bytes of the input from i on join the line that just join it, as far as there is room for them, and sends them back.
    fn read_run(&mut self, input: &[u8], i: usize, out: &mut [u8], at: usize) -> Run
        requires { i ≤ length input.now }
        ensures ran { Ran (session self.old) input.now i out.old at result (session self.new) out.new }
        ensures still { result.next ≡ i → self.new ≡ self.old }
    {
        let most = self.run_room(input.len() - i, out.len().saturating_sub(at));
        let run = &input[i..i + most];
        let n = plain_size(run);
        let run = &run[..n];
        self.line.append(run);
        Run {
            next: i + n,
            at: put_echo(out, at, self.state.echo_enabled, run),
        }
    }

    // One byte from the reader.
    pub fn byte(mut self, b: u8, out: &mut [u8]) -> ServerStep
        ensures out_after { server_step result out.new ≡ server_lent (byte_says (length out.old) (session self) b) out.old }
        ensures refused_unchanged { ((q : Refusal) → result.answer ≡ Err q → result.session ≡ self) }
    {
        let (answer, taken, written) = match self.take_byte(b, out, 0) {
            Ok(end) => (Ok(self.phase), 1, end),
            Err(refusal) => (Err(refusal), 0, 0),
        };
        ServerStep {
            answer,
            taken,
            written,
            session: self,
        }
    }

    // Bytes from the reader, one after the other: it stops after the one that hands a command out, or before the one that gets a number. A run of bytes that just
    // join the line is taken without a call for each.
    pub fn bytes(mut self, input: &[u8], out: &mut [u8]) -> ServerStep
        ensures out_after { server_step result out.new ≡ server_lent (bytes_say (length out.old) (session self) input.now) out.old }
        ensures refused_unchanged { ((q : Refusal) → result.answer ≡ Err q → result.taken ≡ 0 → result.session ≡ self) }
    {
        let mut i: usize = 0;
        let mut at: usize = 0;
        loop {
            let run = self.read_run(input, i, out, at);
            i = run.next;
            at = run.at;
            if input.len() <= i {
                return self.step(Ok(self.phase), i, at);
            }
            match self.take_byte(input[i], out, at) {
                Ok(end) => at = end,
                Err(refusal) => return self.step(Err(refusal), i, at),
            }
            i += 1;
            if self.phase != Phase::Reading {
                return self.step(Ok(self.phase), i, at);
            }
        }
    }
}
