// The bench run: a script of queries through a client session joined to a server session, and the hire record of it (document 01's terms).
#![tactic(auto)]

mod ask;
mod exchange;
mod rounds;
mod script;

ghost use Rattle.std.specs.Prelude.{◌≡◌, ◌++◌, ◌-◌, ◌≤◌, length, Err};
ghost use Rattle.wire.specs.Put.{Put};
ghost use Rattle.group.specs.Group.{group_bytes};
ghost use Rattle.bench.specs.Run.{fresh_store, asked, run_says, recorded, run_lent};
ghost use Rattle.bench.specs.Steps.{bench_of, part_text, added, lent_from, IsScript, queries_of};

use client_session::{ClientAnswer, ClientError, ClientSession};
use server_session::ServerSession;
use wire::Refusal;

#[derive(Clone, Copy)]
pub struct BenchRun {
    // Whether the run was complete, or why it ended: 3 or 5 before anything ran; 8, or 6 when a query's part overruns the record buffer.
    pub answer: Result<(), Refusal>,
    // How many bytes of the record stand.
    pub written: usize,
}

// A position in a script, where a query starts.
#[derive(Clone, Copy)]
struct ScriptCursor {
    at: usize,
}

// A query in its script: where the PIDs start and how many they are (1 to 6), ECU count+1 (0 for none, at most 256), and where the line list
// of its lines starts; it ends where the next query starts.
#[derive(Clone, Copy)]
struct QueryPlace {
    pids: usize,
    few: usize,
    count: u16,
    list: usize,
    next: ScriptCursor,
}

// Both sessions, and the piece lengths that are left.
#[derive(Clone, Copy)]
struct Bench<'a> {
    client: ClientSession,
    server: ServerSession,
    lengths: &'a [u8],
}

// The buffers of a run, large enough for all that a script can ask for.
#[derive(Drop)]
struct Work {
    // What the client sends.
    out: [u8; 80],
    // What the server sends, and then the values of the query.
    reply: [u8; 33026],
    // The client's reply store.
    store: [u8; 4096],
}

impl Work {
    fn new() -> Self
        ensures { result.store ≡ fresh_store }
    {
        Self {
            out: [0; 80],
            reply: [0; 33026],
            store: [0; 4096],
        }
    }
}

// What the server did for a command.
#[derive(Clone, Copy)]
struct ExchangeStep {
    // How many bytes of out the server sends.
    written: usize,
    session: ServerSession,
}

// Where the run stands after a step.
#[derive(Clone, Copy)]
struct Step<'a, A> {
    answer: A,
    written: usize,
    bench: Bench<'a>,
}

// After a command: what the reply said to the client, and how many bytes of out it sends next.
type Round<'a> = Step<'a, Result<ClientAnswer, ClientError>>;

// After a query: how many values it gave, or the number that ends the run, and how many bytes of reply they take.
type PartStep<'a> = Step<'a, Result<usize, Refusal>>;

fn refused(refusal: Refusal, written: usize) -> BenchRun
    ensures { result ≡ record { answer = Err refusal; written = written } }
{
    BenchRun {
        answer: Err(refusal),
        written,
    }
}

// A part of the record from position at on.
fn put_part(buffer: &mut [u8], at: usize, count: usize, values: &[u8]) -> usize
    ensures { Put buffer.old at (group_bytes count ++ values.now) result buffer.new }
{
    let start = group::put_group(buffer, at, count);
    wire::put(buffer, start, values)
}

// Writes a query's part into the record from position at on, if there is room for it.
#[tactic(auto, using(group::proofs::GroupLaws::group_bytes_ten))]
fn add_part(answer: Result<usize, Refusal>, values: &[u8], buffer: &mut [u8], at: usize) -> BenchRun
    requires { at ≤ length buffer.old }
    ensures { recorded result buffer.new ≡
        lent_from at (added (length buffer.old - at) (part_text answer values.now)) buffer.old }
{
    match answer {
        Err(refusal) => refused(refusal, at),
        Ok(count) => {
            if buffer.len() - at < group::group_size(count) + values.len() {
                return refused(Refusal::SmallBuffer, at);
            }
            let end = put_part(buffer, at, count, values);
            BenchRun {
                answer: Ok(()),
                written: end,
            }
        }
    }
}

// Asks the queries of a checked script, and writes their parts into the record one after the other.
fn ask_all(script: &[u8], mut bench: Bench, buffer: &mut [u8], work: &mut Work) -> BenchRun
    requires { IsScript script.now }
    ensures { recorded result buffer.new ≡
        run_lent (asked (length buffer.old) (bench_of bench.entry work.old.store) (queries_of script.now)) buffer.old }
{
    let mut cursor = ScriptCursor::new();
    let mut at: usize = 0;
    // A checked script is never refused.
    while let Ok(Some(query)) = cursor.step(script) {
        let pids_end = query.pids + query.few;
        let list_end = query.next.at;
        let part = ask::part(
            bench,
            &script[query.pids..pids_end],
            query.count,
            &script[query.list..list_end],
            work,
        );
        let values = &work.reply[..part.written];
        let added = add_part(part.answer, values, buffer, at);
        if added.answer.is_err() {
            return added;
        }
        at = added.written;
        bench = part.bench;
        cursor = query.next;
    }
    BenchRun {
        answer: Ok(()),
        written: at,
    }
}

// A run of a checked script from fresh sessions.
fn run_checked(script: &[u8], lengths: &[u8], repeat: bool, buffer: &mut [u8]) -> BenchRun
    requires { IsScript script.now }
    ensures { recorded result buffer.new ≡
        run_lent (run_says repeat lengths.now (length buffer.old) script.now) buffer.old }
{
    let mut work = Work::new();
    let begun = rounds::initialise(repeat, lengths, &mut work);
    if let Err(error) = begun.answer {
        return refused(Refusal::from(error), 0);
    }
    ask_all(script, begun.bench, buffer, &mut work)
}

// Runs a script, with the lengths of the pieces that the server's bytes are handed to the client in, and with repeat on or off. The parts stand at the front of
// the record buffer, each with its values by rising PID.
pub fn run(script: &[u8], lengths: &[u8], repeat: bool, buffer: &mut [u8]) -> BenchRun
    ensures { recorded result buffer.new ≡
        run_lent (run_says repeat lengths.now (length buffer.old) script.now) buffer.old }
{
    match script::check_script(script) {
        Ok(_) => run_checked(script, lengths, repeat, buffer),
        Err(refusal) => refused(refusal, 0),
    }
}
