// Runs scripts of calls on a server session, and logs what each call answered.
#![tactic(auto)]

ghost use Rattle.std.specs.Prelude.{◌≡◌, refl, length};
ghost use Rattle.wire.specs.Put.{Put};
ghost use Rattle.client_state.specs.Settings.{settings};
ghost use Rattle.server_session.specs.Session.{Session, session, fresh_session};
ghost use Rattle.server_session.specs.Call.{server_answer, server_lent};
ghost use Rattle.server_session.specs.Bytes.{byte_says, bytes_say};
ghost use Rattle.server_session.specs.Replies.{answer_says, reply_says, reject_says};
ghost use Rattle.driver_log.specs.Log.{text_entry, Turn, turn_at, answered, logged_of, logged_as};
ghost use Rattle.driver_log.specs.Script.{rounds};
ghost use Rattle.driver_server.specs.Server.{answer_code, phase_code, server_entry, call_noted, server_call, server_run};

use client_state::ClientState;
use driver_log::Driven;
use server_session::{Phase, ServerSession, ServerStep};
use wire::Refusal;

// A session that a script's calls go to.
#[derive(Clone, Copy)]
struct Server {
    session: ServerSession,
}

// The codes of answers: a number of document 01 as itself, and a result as 64 or more.
fn answer_code(answer: Result<Phase, Refusal>) -> u8
    ensures { result ≡ answer_code (server_answer answer) }
{
    match answer {
        Ok(Phase::Reading) => 64,
        Ok(Phase::AtCommand) => 65,
        Ok(Phase::ObdCommand) => 66,
        Err(refusal) => u8::from(refusal),
    }
}

fn phase_code(phase: Phase) -> u8
    ensures { result ≡ phase_code phase }
{
    match phase {
        Phase::Reading => 0,
        Phase::AtCommand => 1,
        Phase::ObdCommand => 2,
    }
}

impl Server {
    // The entry of a session's state: the four settings, the phase, the last command, and the line as far as it is read or the command handed out. It is not inlined:
    // in a function that reads single fields of the session, the compiler keeps it as many variables, and each call would copy them into one place.
    #[inline(never)]
    fn put_state(&self, log: &mut [u8], at: usize) -> usize
        ensures { Put log.old at (server_entry (session self.now.session)) result log.new }
    {
        let state = self.session.state;
        let first = [
            driver_log::flag(state.echo_enabled),
            driver_log::flag(state.linefeeds_enabled),
            driver_log::flag(state.spaces_enabled),
            driver_log::flag(state.headers_enabled),
            phase_code(self.session.phase),
        ];
        let at = wire::put(log, at, &first);
        let at = driver_log::put_text(log, at, state.last_obd_command.as_slice());
        driver_log::put_text(log, at, self.session.line.as_slice())
    }
}

// The calls that answer with a step. Each of their methods has a step of its own, since one for all of them would be cleared and copied at each call.
impl Server {
    // What all of them end with: the session goes on as the step has it, and the call is logged.
    fn keep(
        &mut self,
        step: &ServerStep,
        taken: usize,
        out: &[u8],
        log: &mut [u8],
        at: usize,
    ) -> usize
        ensures { turn_at (session self.new.session) result out.now log.new ≡
            answered at log.old (answer_code (server_answer step.now.answer)) taken step.now.written (session step.now.session) out.now }
    {
        self.session = step.session;
        driver_log::put_call(log, at, answer_code(step.answer), taken, out, step.written)
    }

    fn byte(&mut self, b: u8, out: &mut [u8], log: &mut [u8], at: usize) -> usize
        ensures { turn_at (session self.new.session) result out.new log.new ≡
            call_noted (turn_at (session self.old.session) at out.old log.old) 0 (server_lent (byte_says (length out.old) (session self.old.session) b) out.old) }
    {
        let step = self.session.byte(b, out);
        self.keep(&step, 0, out, log, at)
    }

    fn bytes(&mut self, input: &[u8], out: &mut [u8], log: &mut [u8], at: usize) -> usize
        ensures { turn_at (session self.new.session) result out.new log.new ≡
            (let heard = bytes_say (length out.old) (session self.old.session) input.now in
            call_noted (turn_at (session self.old.session) at out.old log.old) heard.taken (server_lent heard out.old)) }
    {
        let step = self.session.bytes(input, out);
        self.keep(&step, step.taken, out, log, at)
    }

    fn reply(&mut self, list: &[u8], out: &mut [u8], log: &mut [u8], at: usize) -> usize
        ensures { turn_at (session self.new.session) result out.new log.new ≡
            call_noted (turn_at (session self.old.session) at out.old log.old) 0 (server_lent (reply_says (length out.old) (session self.old.session) list.now) out.old) }
    {
        let step = self.session.reply(list, out);
        self.keep(&step, 0, out, log, at)
    }

    fn answer(&mut self, ati: &[u8], at1: &[u8], out: &mut [u8], log: &mut [u8], at: usize) -> usize
        ensures { turn_at (session self.new.session) result out.new log.new ≡
            call_noted (turn_at (session self.old.session) at out.old log.old) 0 (server_lent (answer_says (length out.old) (session self.old.session) ati.now at1.now) out.old) }
    {
        let step = self.session.answer(ati, at1, out);
        self.keep(&step, 0, out, log, at)
    }

    fn reject(&mut self, text: &[u8], out: &mut [u8], log: &mut [u8], at: usize) -> usize
        ensures { turn_at (session self.new.session) result out.new log.new ≡
            call_noted (turn_at (session self.old.session) at out.old log.old) 0 (server_lent (reject_says (length out.old) (session self.old.session) text.now) out.old) }
    {
        let step = self.session.reject(text, out);
        self.keep(&step, 0, out, log, at)
    }
}

impl Driven for Server {
    ghost Seen = { Turn Session };
    // A server has no store.
    ghost seen = { λ s at store out log. turn_at (session s.session) at out log };

    ghost called = { server_call };

    ghost anew = { λ t. turn_at t.session 0 t.out t.log };

    ghost starts = { λ s at store out log. refl };

    fn call(
        &mut self,
        kind: u8,
        arg: &[u8],
        store: &mut [u8],
        out: &mut [u8],
        log: &mut [u8],
        at: usize,
    ) -> usize {
        match kind {
            1 => self.byte(driver_log::byte_of(arg, 0), out, log, at),
            2 => self.bytes(arg, out, log, at),
            3 => self.reply(arg, out, log, at),
            4 => self.answer(b"ELM327 v1.5", arg, out, log, at),
            5 => self.reject(arg, out, log, at),
            6 => self.answer(arg, b"ELM327", out, log, at),
            _ => self.put_state(log, at),
        }
    }
}

// A script on a server session, and then another one for so many rounds. Each round goes on with the session that the one before it left; the script and each round
// log from the start of the log. The answer is the length of the last log.
pub fn run_rounds(
    script: &[u8],
    times: usize,
    again: &[u8],
    out: &mut [u8],
    log: &mut [u8],
) -> usize
    ensures { logged_as result out.new log.new ≡
        logged_of (rounds (server_run again.now) times (server_run script.now (turn_at fresh_session 0 out.old log.old))) }
{
    let mut server = Server {
        session: ServerSession::new(),
    };
    driver_log::run_rounds(&mut server, script, times, again, &mut [], out, log)
}
