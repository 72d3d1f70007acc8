// One query of a script, from its start to its values.
ghost use Rattle.std.specs.Prelude.{◌≡◌, List, ℕ, ◌≤◌, length};
ghost use Rattle.query.specs.Query.{count_of};
ghost use Rattle.client_session.specs.Session.{client};
ghost use Rattle.client_session.specs.Call.{client_lent, client_answer, client_step};
ghost use Rattle.bench.specs.Run.{send_room, start_says, asking, part_of, finished};
ghost use Rattle.bench.specs.Steps.{bench_of, round_of, Comes, part_text, PartDoes};

use crate::{Bench, PartStep, Round, Work, rounds};
use client_session::{ClientAnswer, ClientError, ClientSession, ClientStep};
use wire::Refusal;

// The number of ECUs that a query waits for, from its count+1 in a script.
fn ecu_count(count: u16) -> Option<u8>
    requires { count ≤ 256 }
    ensures { count_of result ≡ count }
{
    if count == 0 {
        return None;
    }
    Some((count - 1) as u8)
}

// Starts a query: one PID through `query_pid`, more through `query_pids`.
fn start(session: ClientSession, pids: &[u8], count: u16, out: &mut [u8]) -> ClientStep
    requires { (count ≤ 256) × (length out.old ≡ send_room) }
    ensures { client_step result out.new ≡ client_lent (start_says (client session) pids.now count) out.old }
{
    let ecus = ecu_count(count);
    if pids.len() == 1 {
        return session.query_pid(pids[0], ecus, out);
    }
    session.query_pids(pids, ecus, out)
}

// Asks a query: its command, and after a repeat that meets `?` the query in full.
fn ask<'a>(bench: Bench<'a>, pids: &[u8], count: u16, list: &[u8], work: &mut Work) -> Round<'a>
    requires { count ≤ 256 }
    ensures { Comes (asking (bench_of bench.entry work.old.store) (start_says (client bench.entry.client) pids.now count) list.now)
        result work.new }
{
    let begun = start(bench.client, pids, count, &mut work.out);
    let waiting = Bench {
        client: begun.session,
        ..bench
    };
    let first = rounds::round(waiting, begun.written, list, work);
    rounds::onward(first, 1, list, work)
}

// What an answer comes to in the record: so many values, or the number that ends the run.
fn part_answer(answer: Result<ClientAnswer, ClientError>) -> Result<usize, Refusal>
    ensures { (text : List ℕ) → part_text result text ≡ part_of (client_answer answer) text }
{
    match answer? {
        ClientAnswer::Values(count) => Ok(count),
        ClientAnswer::Sent | ClientAnswer::Awaited => Ok(0),
        ClientAnswer::Over | ClientAnswer::Complete => Ok(0),
    }
}

// Finishes a query, unless its reply got a number.
fn finish<'a>(asked: Round<'a>, work: &mut Work) -> PartStep<'a>
    ensures { PartDoes (finished (round_of asked.entry work.old)) result work.new }
{
    if let Err(error) = asked.answer {
        return PartStep {
            answer: Err(Refusal::from(error)),
            written: 0,
            bench: asked.bench,
        };
    }
    let step = asked.bench.client.finish(&work.store, &mut work.reply);
    PartStep {
        answer: part_answer(step.answer),
        written: step.written,
        bench: Bench {
            client: step.session,
            ..asked.bench
        },
    }
}

// Asks a query and finishes it.
pub(crate) fn part<'a>(
    bench: Bench<'a>,
    pids: &[u8],
    count: u16,
    list: &[u8],
    work: &mut Work,
) -> PartStep<'a>
    requires { count ≤ 256 }
    ensures { PartDoes (finished (asking (bench_of bench.entry work.old.store) (start_says (client bench.entry.client) pids.now count) list.now))
        result work.new }
{
    let asked = ask(bench, pids, count, list, work);
    finish(asked, work)
}
