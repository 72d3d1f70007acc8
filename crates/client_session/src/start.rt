// A command is started: the initialisation, a raw command or a query. `start_query` is not inlined: a caller of both kinds of query would clear room for the sessions of
// both at each of its calls.
ghost use Rattle.std.specs.Prelude.{◌≡◌, Bool, false, true, [], ◌∷◌, ℕ, ◌≤◌, length};
ghost use Rattle.wire.specs.Steps.{settled};
ghost use Rattle.wire.specs.Text.{ascii};
ghost use Rattle.query.specs.Query.{count_of};
ghost use Rattle.client_command.specs.Commands.{with_cr, framing_effect};
ghost use Rattle.client_session.specs.Session.{Client, client, request_of, with_last_query};
ghost use Rattle.client_session.specs.Call.{sends, client_refusing, client_lent, client_step, RefusedOrFailed};
ghost use Rattle.client_session.specs.Start.{init_says, command_says, repeats, send_query, request, query_says};
ghost use Rattle.client_session.specs.Steps.{Does, Early};

use crate::{ClientSession, ClientStep, Command, Query};
use wire::{Bytes, Refusal};

impl Query {
    // A query of at most six PIDs.
    fn of(pids: &[u8], count: Option<u8>, several: bool) -> Query
        requires { length pids.now ≤ 6 }
        ensures { request_of result ≡ request pids.now (count_of count) several }
    {
        let mut kept = Bytes::new();
        kept.set(pids);
        Query {
            text: query_text::of(pids, count),
            pids: kept,
            several,
        }
    }
}

impl ClientSession {
    // Whether the initialisation is refused.
    #[tactic(auto, unfolding(crate::specs::Start::init_says, wire::specs::Answer::unless))]
    fn init_verdict(&self, room: usize) -> Result<(), Refusal>
        ensures says { init_says room (client self.now) ≡
            settled result (client_refusing (client self.now)) (sends (client self.now) Command.Reset (ascii "ATZ\r")) }
        ensures early { Early result }
    {
        if !self.pending.under.is_idle() {
            return Err(Refusal::OutOfTurn);
        }
        if room < 80 {
            return Err(Refusal::SmallBuffer);
        }
        Ok(())
    }

    // Whether a raw command is refused.
    #[tactic(auto, unfolding(crate::specs::Start::command_says, wire::specs::Answer::unless))]
    fn command_verdict(&self, command: &[u8], room: usize) -> Result<(), Refusal>
        ensures says { command_says room (client self.now) command.now ≡ settled result (client_refusing (client self.now))
            (sends (with_last_query (client self.now) []) (Command.Raw (framing_effect command.now)) (with_cr command.now)) }
        ensures early { Early result }
    {
        if !self.pending.under.is_idle() {
            return Err(Refusal::OutOfTurn);
        }
        if 64 < command.len() {
            return Err(Refusal::TooLong);
        }
        if wire::has_high(command) {
            return Err(Refusal::NotAscii);
        }
        if room < 80 {
            return Err(Refusal::SmallBuffer);
        }
        Ok(())
    }

    // Whether a query is refused.
    #[tactic(auto, unfolding(crate::specs::Start::query_says, wire::specs::Answer::unless))]
    fn query_verdict(&self, pids: &[u8], room: usize) -> Result<(), Refusal>
        ensures says { (count : ℕ) → (several : Bool) → query_says room (client self.now) pids.now count several ≡
            settled result (client_refusing (client self.now)) (send_query (client self.now) (request pids.now count several)) }
        ensures early { Early result }
        ensures at_most_six { result ≡ Ok tt → length pids.now ≤ 6 }
    {
        if !self.pending.under.is_idle() {
            return Err(Refusal::OutOfTurn);
        }
        if pids.is_empty() || 6 < pids.len() {
            return Err(Refusal::PidCount);
        }
        if room < 80 {
            return Err(Refusal::SmallBuffer);
        }
        Ok(())
    }

    // Starts the initialisation: ATZ goes out. It is no raw command, and forgets nothing.
    pub fn init(self, out: &mut [u8]) -> ClientStep
        ensures out_after { client_step result out.new ≡ client_lent (init_says (length out.old) (client self)) out.old }
        ensures refused_or_failed { RefusedOrFailed result self }
    {
        if let Err(refusal) = self.init_verdict(out.len()) {
            return self.refused(refusal);
        }
        let written = wire::put(out, 0, b"ATZ\r");
        self.sends(Command::Reset, written)
    }

    // Starts a raw command. The last query is forgotten, since a bare CR would now repeat this command.
    pub fn command(mut self, command: &[u8], out: &mut [u8]) -> ClientStep
        ensures out_after { client_step result out.new ≡ client_lent (command_says (length out.old) (client self) command.now) out.old }
        ensures refused_or_failed { RefusedOrFailed result self }
    {
        if let Err(refusal) = self.command_verdict(command, out.len()) {
            return self.refused(refusal);
        }
        self.last.clear();
        let written = client_command::put_command(out, 0, command);
        let effect = client_command::framing_effect(command);
        self.sends(Command::Raw(effect), written)
    }

    // Whether a query equals the last one, which a bare CR may repeat.
    fn repeats(&self, query: Query) -> bool
        ensures { result ≡ repeats (client self.now) (request_of query) }
    {
        self.server.repeat.may_try() && self.last.is(query.text)
    }

    // A query goes out, in full or as a bare CR.
    fn ask(mut self, query: Query, out: &mut [u8]) -> ClientStep
        ensures { Does (send_query (client self) (request_of query)) out.old (client_step result out.new) }
    {
        self.query = query;
        if self.repeats(query) {
            let written = wire::put_byte(out, 0, b'\r');
            return self.sends(Command::Repeat, written);
        }
        let written = query_text::put_line(query.text, out, 0);
        self.sends(Command::Query, written)
    }

    // Starts a query.
    #[inline(never)]
    fn start_query(
        self,
        pids: &[u8],
        count: Option<u8>,
        several: bool,
        out: &mut [u8],
    ) -> ClientStep
        ensures out_after { client_step result out.new ≡
            client_lent (query_says (length out.old) (client self) pids.now (count_of count) several) out.old }
        ensures refused_or_failed { RefusedOrFailed result self }
    {
        if let Err(refusal) = self.query_verdict(pids, out.len()) {
            return self.refused(refusal);
        }
        self.ask(Query::of(pids, count, several), out)
    }

    // Starts a query of one PID, with the number of ECUs that it waits for.
    pub fn query_pid(self, pid: u8, count: Option<u8>, out: &mut [u8]) -> ClientStep
        ensures out_after { client_step result out.new ≡ client_lent (query_says (length out.old) (client self) (pid ∷ []) (count_of count) false) out.old }
        ensures refused_or_failed { RefusedOrFailed result self }
    {
        self.start_query(&[pid], count, false, out)
    }

    // Starts a query of one to six PIDs. The first such query decides multi-PID support.
    pub fn query_pids(self, pids: &[u8], count: Option<u8>, out: &mut [u8]) -> ClientStep
        ensures out_after { client_step result out.new ≡
            client_lent (query_says (length out.old) (client self) pids.now (count_of count) true) out.old }
        ensures refused_or_failed { RefusedOrFailed result self }
    {
        self.start_query(pids, count, true, out)
    }
}
