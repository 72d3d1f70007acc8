// The client end of the wire protocol: it drives an ELM327 (client_session.rs of the Rust). Each call takes the session by value and gives the next one back.
#![tactic(auto)]

mod finish;
mod piece;
mod start;

ghost use Rattle.std.specs.Prelude.{◌≡◌, ◌&&◌, [], Ok, Err};
ghost use Rattle.client_session.specs.Session.{client, request_of, no_query, fresh_client, is_idle, is_complete, with_under, with_last_query};
ghost use Rattle.client_session.specs.Call.{in_query, failed_client, refusal_of};
ghost use Rattle.client_session.specs.Steps.{Stepped, unchanged};

use client_command::FramingEffect;
use query_text::QueryText;
use server_state::{FeatureSupport, ServerState};
use wire::{Bytes, Refusal};

// A command whose reply is awaited.
#[derive(Clone, Copy)]
pub enum Command {
    // ATZ of the initialisation.
    Reset,
    // A later command of the initialisation: 0 for ATE0, then ATL0, ATS0, ATSP0, and 4 or more for ATH1 or ATH0.
    Setup(u8),
    Raw(FramingEffect),
    // A query in full.
    Query,
    // A query that was repeated by a bare CR.
    Repeat,
}

// What is under way.
#[derive(Clone, Copy)]
pub enum Under {
    Idle,
    Awaiting(Command),
    // A query's reply is complete, and is finished next.
    Complete,
}

// A query: its text, its PIDs, and whether it is one of `query_pids`.
#[derive(Clone, Copy)]
pub struct Query {
    pub text: QueryText,
    pub pids: Bytes<6>,
    pub several: bool,
}

// What is under way, and how many bytes of its reply the store holds.
#[derive(Clone, Copy)]
pub struct Pending {
    pub under: Under,
    pub got: usize,
}

#[derive(Clone, Copy)]
pub struct ClientSession {
    // The initialisation asks for CAN headers.
    pub want_framing: bool,
    // What is set on the ELM327, or learned about it.
    pub server: ServerState,
    // The last query, which a repeat stands for; empty for none.
    pub last: QueryText,
    // The query under way.
    pub query: Query,
    pub pending: Pending,
}

// How far a call has brought what is under way.
#[derive(Clone, Copy)]
pub enum ClientAnswer {
    // A command is to be sent, and its reply is awaited.
    Sent,
    // More of the reply is awaited.
    Awaited,
    // The initialisation or the raw command is over.
    Over,
    // A query's reply is complete, and is finished next.
    Complete,
    // The query is finished, and so many values stand in out.
    Values(usize),
}

// Why a call has not.
#[derive(Clone, Copy)]
pub enum ClientError {
    // 1 to 6: the call was not right, and the session is as it was.
    Refused(Refusal),
    // 7 to 9: what was under way has ended.
    Failed(Refusal),
}

impl From<ClientError> for Refusal {
    ghost from_gives = { λ error refusal. refusal ≡ refusal_of error };

    fn from(error: ClientError) -> Refusal {
        match error {
            ClientError::Refused(refusal) | ClientError::Failed(refusal) => refusal,
        }
    }
}

#[derive(Clone, Copy)]
pub struct ClientStep {
    pub answer: Result<ClientAnswer, ClientError>,
    // How many bytes of out are to be sent, or are values.
    pub written: usize,
    pub session: ClientSession,
}

// What the host failed to do.
#[derive(Clone, Copy)]
pub enum Failure {
    Read,
    Write,
}

impl Under {
    fn is_idle(self) -> bool
        ensures { result ≡ is_idle self }
    {
        matches!(self, Under::Idle)
    }

    fn is_complete(self) -> bool
        ensures { result ≡ is_complete self }
    {
        matches!(self, Under::Complete)
    }

    // Whether a query's reply is awaited, or complete.
    fn in_query(self) -> bool
        ensures { result ≡ in_query self }
    {
        matches!(
            self,
            Under::Awaiting(Command::Query | Command::Repeat) | Under::Complete
        )
    }
}

impl Query {
    // None yet.
    fn new() -> Query
        ensures { request_of result ≡ no_query }
    {
        Query {
            text: QueryText::new(),
            pids: Bytes::new(),
            several: false,
        }
    }
}

impl ClientSession {
    // A session that asks for CAN headers and repeats queries as told, with nothing learned.
    pub fn new(framing: bool, repeat: bool) -> ClientSession
        ensures { client result ≡ fresh_client framing repeat }
    {
        ClientSession {
            want_framing: framing,
            server: ServerState::new(repeat),
            last: QueryText::new(),
            query: Query::new(),
            pending: Pending {
                under: Under::Idle,
                got: 0,
            },
        }
    }

    fn moved(mut self, under: Under, got: usize) -> ClientSession
        ensures { client result ≡ with_under (client self) under got }
    {
        self.pending = Pending { under, got };
        self
    }

    // This or nothing is under way, and nothing is to be sent.
    fn ends(self, answer: ClientAnswer, under: Under, got: usize) -> ClientStep
        ensures { Stepped (with_under (client self) under got) (Ok answer) 0 result }
    {
        ClientStep {
            answer: Ok(answer),
            written: 0,
            session: self.moved(under, got),
        }
    }

    // So many bytes of out are this command, whose reply is awaited.
    fn sends(self, command: Command, written: usize) -> ClientStep
        ensures { Stepped (with_under (client self) (Under.Awaiting command) 0) (Ok ClientAnswer.Sent) written result }
    {
        ClientStep {
            answer: Ok(ClientAnswer::Sent),
            written,
            session: self.moved(Under::Awaiting(command), 0),
        }
    }

    // 1 to 6 change nothing.
    fn refused(self, refusal: Refusal) -> ClientStep
        ensures { result ≡ unchanged self refusal }
    {
        ClientStep {
            answer: Err(ClientError::Refused(refusal)),
            written: 0,
            session: self,
        }
    }

    // What is under way has ended, and the last query is forgotten.
    fn forgets(mut self) -> ClientSession
        ensures { client result ≡ with_under (with_last_query (client self) []) Under.Idle 0 }
    {
        self.last.clear();
        self.moved(Under::Idle, 0)
    }

    // Whether a query of `query_pids` is under way.
    fn in_several(&self) -> bool
        ensures { result ≡ (in_query self.now.pending.under && self.now.query.several) }
    {
        self.pending.under.in_query() && self.query.several
    }

    // The session after 7, 8 or 9.
    fn failed(mut self) -> ClientSession
        ensures { client result ≡ failed_client (client self) }
    {
        if self.in_several() {
            let multi_pid = self.server.multi_pid.decide(FeatureSupport::No);
            self.server = self.server.with_multi_pid(multi_pid);
        }
        self.forgets()
    }

    // 7, 8 and 9 end what is under way.
    fn fails(self, refusal: Refusal) -> ClientStep
        ensures { Stepped (failed_client (client self)) (Err (ClientError.Failed refusal)) 0 result }
    {
        ClientStep {
            answer: Err(ClientError::Failed(refusal)),
            written: 0,
            session: self.failed(),
        }
    }
}
