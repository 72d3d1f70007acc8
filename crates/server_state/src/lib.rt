// What a client has set on, or learned about, the ELM327 it talks to (FeatureSupport and ServerState of the Rust's client_session.rs).
#![tactic(auto)]

ghost use Rattle.std.specs.Prelude.{◌≡◌};
ghost use Rattle.wire.specs.Answer.{number_of};
ghost use Rattle.pid.specs.Lengths.{length_in};
ghost use Rattle.query.specs.Query.{count_of};
ghost use Rattle.server_state.specs.State.{support_at_first, decided, may_try, nothing_learned, count_in, with_repeat, with_multi};

// Whether the peer supports an optional feature.
#[derive(Clone, Copy, PartialEq, Eq)]
pub enum FeatureSupport {
    // Not yet tested.
    Unknown,
    Yes,
    No,
}

impl FeatureSupport {
    // A feature that is wanted is found out about; one that is not goes by No.
    pub fn at_first(wanted: bool) -> FeatureSupport
        ensures { result ≡ support_at_first wanted }
    {
        if wanted {
            return FeatureSupport::Unknown;
        }
        FeatureSupport::No
    }

    // What is untested becomes what was shown.
    pub fn decide(self, shown: FeatureSupport) -> FeatureSupport
        ensures { result ≡ decided self shown }
    {
        match self {
            FeatureSupport::Unknown => shown,
            FeatureSupport::Yes | FeatureSupport::No => self,
        }
    }

    // Whether the feature may be used, if only to find out.
    pub fn may_try(self) -> bool
        ensures { result ≡ may_try self }
    {
        self != FeatureSupport::No
    }
}

#[derive(Clone, Copy)]
pub struct ServerState {
    // CAN headers are on (ATH1 was completed last).
    pub framing: bool,
    // Whether a bare CR repeats a query.
    pub repeat: FeatureSupport,
    // Whether a query of several PIDs is answered.
    pub multi_pid: FeatureSupport,
    // A length for each PID, from the table or learned; over 255 where it is unknown.
    pub pid_lengths: [u16; 256],
    // How many ECUs answered a PID, 0 where that is not learned.
    pub ecu_counts: [u8; 256],
}

impl ServerState {
    // Nothing is set or learned; repeats are tried or not, as told.
    pub fn new(repeat: bool) -> ServerState
        ensures { result ≡ nothing_learned repeat }
    {
        ServerState {
            framing: false,
            repeat: FeatureSupport::at_first(repeat),
            multi_pid: FeatureSupport::Unknown,
            pid_lengths: pid::mode01_pid_data_lengths(),
            ecu_counts: [0; 256],
        }
    }

    pub fn framing(self) -> bool
        ensures { result ≡ self.framing }
    {
        self.framing
    }

    pub fn repeat(self) -> FeatureSupport
        ensures { result ≡ self.repeat }
    {
        self.repeat
    }

    pub fn multi_pid(self) -> FeatureSupport
        ensures { result ≡ self.multi_pid }
    {
        self.multi_pid
    }

    // How many ECUs answered a PID, once that is learned: what a query of it waits for.
    pub fn ecu_count(self, pid: u8) -> Option<u8>
        ensures { count_of result ≡ count_in self.ecu_counts pid }
    {
        match self.ecu_counts[usize::from(pid)] {
            0 => None,
            count => Some(count),
        }
    }

    // How many data bytes follow a PID in a reply, where it is known: from the table, or learned.
    pub fn data_length(self, pid: u8) -> Option<u8>
        ensures { number_of result ≡ length_in self.pid_lengths pid }
    {
        pid::data_length(&self.pid_lengths, pid)
    }

    pub fn with_repeat(self, repeat: FeatureSupport) -> ServerState
        ensures { result ≡ with_repeat self repeat }
    {
        ServerState { repeat, ..self }
    }

    pub fn with_multi_pid(self, multi_pid: FeatureSupport) -> ServerState
        ensures { result ≡ with_multi self multi_pid }
    {
        ServerState { multi_pid, ..self }
    }
}
