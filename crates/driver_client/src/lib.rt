// Runs scripts of calls on a client session, and logs what each call answered.
#![tactic(auto)]

ghost use Rattle.std.specs.Prelude.{◌≡◌, [], ◌∷◌, true, false, refl, length, take, drop};
ghost use Rattle.wire.specs.Put.{Put};
ghost use Rattle.wire.specs.Answer.{number, number_of};
ghost use Rattle.query.specs.Query.{count_of};
ghost use Rattle.client_session.specs.Session.{client, fresh_client};
ghost use Rattle.client_session.specs.Call.{client_answer, client_lent, refusal_of};
ghost use Rattle.client_session.specs.Start.{init_says, command_says, query_says};
ghost use Rattle.client_session.specs.Piece.{piece_says, store_after, failure_says};
ghost use Rattle.client_session.specs.Finish.{finish_says};
ghost use Rattle.driver_log.specs.Log.{text_entry, turn_at, answered};
ghost use Rattle.driver_log.specs.Script.{rounds};
ghost use Rattle.driver_client.specs.Client.{start_code, step_code, count_entry, support_code, command_code, under_code, length_number, pids_entry};
ghost use Rattle.driver_client.specs.Client.{state_entry, count_given, start_turn, step_turn, finish_turn, Stored, client_call, client_at, client_run, stored_of, stored_as};

use client_session::{
    ClientAnswer, ClientError, ClientSession, ClientStep, Command, Failure, Under,
};
use driver_log::Driven;
use server_state::{FeatureSupport, ServerState};
use wire::Refusal;

// A session that a script's calls go to.
#[derive(Clone, Copy)]
struct Client {
    session: ClientSession,
}

// The number of document 01 that an error tells of.
fn error_code(error: ClientError) -> u8
    ensures { result ≡ number (refusal_of error) }
{
    u8::from(Refusal::from(error))
}

// The codes of answers: a number of document 01 as itself, and a result as 64 or more; that of a start is 64.
fn start_code(answer: Result<ClientAnswer, ClientError>) -> u8
    ensures { result ≡ start_code (client_answer answer) }
{
    match answer {
        Ok(_) => 64,
        Err(error) => error_code(error),
    }
}

fn step_code(answer: Result<ClientAnswer, ClientError>) -> u8
    ensures { result ≡ step_code (client_answer answer) }
{
    match answer {
        Ok(ClientAnswer::Awaited | ClientAnswer::Values(_)) => 64,
        Ok(ClientAnswer::Sent) => 65,
        Ok(ClientAnswer::Over) => 66,
        Ok(ClientAnswer::Complete) => 67,
        Err(error) => error_code(error),
    }
}

// How many values a finish gave.
fn value_count(answer: Result<ClientAnswer, ClientError>) -> usize
    ensures { result ≡ count_entry (client_answer answer) }
{
    match answer {
        Ok(ClientAnswer::Values(count)) => count,
        _ => 0,
    }
}

fn support_code(support: FeatureSupport) -> u8
    ensures { result ≡ support_code support }
{
    match support {
        FeatureSupport::Unknown => 0,
        FeatureSupport::Yes => 1,
        FeatureSupport::No => 2,
    }
}

fn command_code(command: Command) -> u8
    ensures { result ≡ command_code command }
{
    match command {
        Command::Reset => 1,
        Command::Setup(_) => 2,
        Command::Raw(_) => 3,
        Command::Query => 4,
        Command::Repeat => 5,
    }
}

fn under_code(under: Under) -> u8
    ensures { result ≡ under_code under }
{
    match under {
        Under::Idle => 0,
        Under::Awaiting(command) => command_code(command),
        Under::Complete => 6,
    }
}

// The length of a PID's data, 256 where it is unknown.
fn length_number(length: Option<u8>) -> usize
    ensures { result ≡ length_number (number_of «length») }
{
    length.map_or(256, usize::from)
}

// A learned count and 1, 0 for none.
fn count_number(count: Option<u8>) -> usize
    ensures { result ≡ count_of count }
{
    count.map_or(0, |n| usize::from(n) + 1)
}

// The count in the second byte of an argument, if it has one.
fn count_given(arg: &[u8]) -> Option<u8>
    ensures { count_of result ≡ count_given arg.now }
{
    arg.get(1).copied()
}

// An argument without its first byte.
fn after_first(arg: &[u8]) -> &[u8]
    ensures { result.now ≡ drop 1 arg.now }
{
    match arg {
        [_, rest @ ..] => rest,
        [] => arg,
    }
}

// What is known of each PID in a list.
fn put_pids(server: ServerState, pids: &[u8], log: &mut [u8], at: usize) -> usize
    ensures { Put log.old at (pids_entry server.pid_lengths server.ecu_counts pids.now) result log.new }
{
    let mut at = at;
    for &pid in pids {
        at = driver_log::put_number(
            log,
            at,
            length_number(pid::data_length(&server.pid_lengths, pid)),
        );
        at = driver_log::put_number(log, at, count_number(server.ecu_count(pid)));
    }
    at
}

// The two entries that show a session are not inlined. In a function that reads single fields of the session, the compiler keeps it as many variables, and each call would
// copy them into one place.
impl Client {
    // The entry of a session's state: framing, repeat, multi-PID support, what is under way, the last query, and what is known of the PIDs in the argument.
    #[inline(never)]
    fn put_state(&self, arg: &[u8], log: &mut [u8], at: usize) -> usize
        ensures { Put log.old at (state_entry (client self.now.session) arg.now) result log.new }
    {
        let server = self.session.server;
        let first = [
            driver_log::flag(server.framing()),
            support_code(server.repeat()),
            support_code(server.multi_pid()),
            under_code(self.session.pending.under),
        ];
        let at = wire::put(log, at, &first);
        let at = driver_log::put_text(log, at, self.session.last.as_slice());
        put_pids(server, arg, log, at)
    }

    // The entry of the reply so far, as the store holds it: after a raw command, its reply.
    #[inline(never)]
    fn put_reply(&self, store: &[u8], log: &mut [u8], at: usize) -> usize
        ensures { Put log.old at (text_entry (take (client self.now.session).got store.now)) result log.new }
    {
        let size = self.session.pending.got.min(store.len());
        driver_log::put_text(log, at, &store[..size])
    }
}

// The calls that answer with a step. Each of their methods has a step of its own, since one for all of them would be cleared and copied at each call.
impl Client {
    // What all of them end with: the session goes on as the step has it, and the call is logged.
    fn keep(
        &mut self,
        step: &ClientStep,
        code: u8,
        count: usize,
        out: &[u8],
        log: &mut [u8],
        at: usize,
    ) -> usize
        ensures { turn_at (client self.new.session) result out.now log.new ≡ answered at log.old code count step.now.written (client step.now.session) out.now }
    {
        self.session = step.session;
        driver_log::put_call(log, at, code, count, out, step.written)
    }

    fn init(&mut self, out: &mut [u8], log: &mut [u8], at: usize) -> usize
        ensures { turn_at (client self.new.session) result out.new log.new ≡
            start_turn at log.old (client_lent (init_says (length out.old) (client self.old.session)) out.old) }
    {
        let step = self.session.init(out);
        self.keep(&step, start_code(step.answer), 0, out, log, at)
    }

    fn command(&mut self, command: &[u8], out: &mut [u8], log: &mut [u8], at: usize) -> usize
        ensures { turn_at (client self.new.session) result out.new log.new ≡
            start_turn at log.old (client_lent (command_says (length out.old) (client self.old.session) command.now) out.old) }
    {
        let step = self.session.command(command, out);
        self.keep(&step, start_code(step.answer), 0, out, log, at)
    }

    fn query_pid(
        &mut self,
        pid: u8,
        count: Option<u8>,
        out: &mut [u8],
        log: &mut [u8],
        at: usize,
    ) -> usize
        ensures { turn_at (client self.new.session) result out.new log.new ≡
            start_turn at log.old (client_lent (query_says (length out.old) (client self.old.session) (pid ∷ []) (count_of count) false) out.old) }
    {
        let step = self.session.query_pid(pid, count, out);
        self.keep(&step, start_code(step.answer), 0, out, log, at)
    }

    fn query_pids(
        &mut self,
        pids: &[u8],
        count: Option<u8>,
        out: &mut [u8],
        log: &mut [u8],
        at: usize,
    ) -> usize
        ensures { turn_at (client self.new.session) result out.new log.new ≡
            start_turn at log.old (client_lent (query_says (length out.old) (client self.old.session) pids.now (count_of count) true) out.old) }
    {
        let step = self.session.query_pids(pids, count, out);
        self.keep(&step, start_code(step.answer), 0, out, log, at)
    }

    fn piece(
        &mut self,
        piece: &[u8],
        store: &mut [u8],
        out: &mut [u8],
        log: &mut [u8],
        at: usize,
    ) -> usize
        ensures turn { turn_at (client self.new.session) result out.new log.new ≡
            step_turn at log.old (client_lent (piece_says (length out.old) (client self.old.session) piece.now store.old) out.old) }
        ensures store_after { store.new ≡
            store_after (client self.old.session) (piece_says (length out.old) (client self.old.session) piece.now store.old).answer piece.now store.old }
    {
        let step = self.session.piece(piece, store, out);
        self.keep(&step, step_code(step.answer), 0, out, log, at)
    }

    fn finish(&mut self, store: &[u8], out: &mut [u8], log: &mut [u8], at: usize) -> usize
        ensures { turn_at (client self.new.session) result out.new log.new ≡
            finish_turn at log.old (client_lent (finish_says (length out.old) (client self.old.session) store.now) out.old) }
    {
        let step = self.session.finish(store, out);
        let count = value_count(step.answer);
        self.keep(&step, step_code(step.answer), count, out, log, at)
    }

    fn failure(&mut self, failed: Failure, out: &mut [u8], log: &mut [u8], at: usize) -> usize
        ensures { turn_at (client self.new.session) result out.new log.new ≡
            step_turn at log.old (client_lent (failure_says (length out.old) (client self.old.session) failed) out.old) }
    {
        let step = self.session.failure(failed, out);
        self.keep(&step, step_code(step.answer), 0, out, log, at)
    }
}

impl Driven for Client {
    ghost Seen = { Stored };

    ghost seen = { λ c at store out log. client_at (client c.session) at store out log };

    ghost called = { client_call };

    ghost anew = { λ t. client_at t.turn.session 0 t.store t.turn.out t.turn.log };

    ghost starts = { λ c at store out log. refl };

    fn call(
        &mut self,
        kind: u8,
        arg: &[u8],
        store: &mut [u8],
        out: &mut [u8],
        log: &mut [u8],
        at: usize,
    ) -> usize {
        match kind {
            1 => self.command(arg, out, log, at),
            2 => {
                let pid = driver_log::byte_of(arg, 0);
                self.query_pid(pid, count_given(arg), out, log, at)
            }
            3 => self.query_pids(arg, None, out, log, at),
            4 => self.piece(arg, store, out, log, at),
            5 => self.finish(store, out, log, at),
            6 => self.init(out, log, at),
            7 => {
                let count = Some(driver_log::byte_of(arg, 0));
                self.query_pids(after_first(arg), count, out, log, at)
            }
            8 => self.failure(Failure::Read, out, log, at),
            9 => self.failure(Failure::Write, out, log, at),
            10 => self.put_reply(store, log, at),
            // The host writes to its store between two calls.
            11 => {
                wire::put(store, 0, arg);
                at
            }
            _ => self.put_state(arg, log, at),
        }
    }
}

// A script on a client session that asks for CAN headers and repeats queries as told, and then another one for so many rounds. Each round goes on with the session that
// the one before it left; the script and each round log from the start of the log. The store is that of the replies. The answer is the length of the last log.
pub fn run_rounds(
    framing: bool,
    repeat: bool,
    script: &[u8],
    times: usize,
    again: &[u8],
    store: &mut [u8],
    out: &mut [u8],
    log: &mut [u8],
) -> usize
    ensures { stored_as result store.new out.new log.new ≡
        stored_of (rounds (client_run again.now) times
        (client_run script.now (client_at (fresh_client framing repeat) 0 store.old out.old log.old))) }
{
    let mut client = Client {
        session: ClientSession::new(framing, repeat),
    };
    driver_log::run_rounds(&mut client, script, times, again, store, out, log)
}
