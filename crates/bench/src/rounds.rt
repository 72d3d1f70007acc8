// One command of the client, and those that it sends of its own accord.
ghost use Rattle.std.specs.Prelude.{◌≡◌, ◌≤◌, length, take};
ghost use Rattle.bench.specs.Run.{fresh_store, round, onward, initialised};
ghost use Rattle.bench.specs.Steps.{bench_of, round_of, reset_fresh, RoundDoes, Comes};

use crate::{Bench, Round, Work, exchange};
use client_session::ClientSession;
use server_session::ServerSession;

// The client's first n bytes of out go to the server, and all that it sends for them comes back in pieces.
pub(crate) fn round<'a>(bench: Bench<'a>, n: usize, list: &[u8], work: &mut Work) -> Round<'a>
    requires { n ≤ length work.old.out }
    ensures { RoundDoes (round (bench_of bench.entry work.old.store) (take n work.old.out) list.now) result work.new }
{
    let heard = exchange::exchange(bench.server, &work.out[..n], list, &mut work.reply);
    let waiting = Bench {
        server: heard.session,
        ..bench
    };
    let sent = &work.reply[..heard.written];
    exchange::deliver(waiting, sent, &mut work.store, &mut work.out)
}

// At most n further commands: the client has one where there are bytes to send.
pub(crate) fn onward<'a>(mut at: Round<'a>, n: usize, list: &[u8], work: &mut Work) -> Round<'a>
    requires { at.written ≤ length work.old.out }
    ensures { RoundDoes (onward n (round_of at.entry work.old) list.now) result work.new }
{
    for _ in 0..n {
        if at.written == 0 {
            return at;
        }
        at = round(at.bench, at.written, list, work);
    }
    at
}

// A fresh client's ATZ at a fresh server. Its echo and its answer arrive as one piece, which uses up no length.
fn reset<'a>(repeat: bool, lengths: &'a [u8], work: &mut Work) -> Round<'a>
    requires { work.old.store ≡ fresh_store }
    ensures { RoundDoes (reset_fresh repeat lengths.now) result work.new }
{
    let start = ClientSession::new(true, repeat).init(&mut work.out);
    let command = &work.out[..start.written];
    let heard = exchange::exchange(ServerSession::new(), command, b"", &mut work.reply);
    let sent = &work.reply[..heard.written];
    let step = start.session.piece(sent, &mut work.store, &mut work.out);
    Round {
        answer: step.answer,
        written: step.written,
        bench: Bench {
            client: step.session,
            server: heard.session,
            lengths,
        },
    }
}

// A fresh client and a fresh server after the initialisation.
pub(crate) fn initialise<'a>(repeat: bool, lengths: &'a [u8], work: &mut Work) -> Round<'a>
    requires { work.old.store ≡ fresh_store }
    ensures { Comes (initialised repeat lengths.now) result work.new }
{
    let first = reset(repeat, lengths, work);
    onward(first, 5, b"", work)
}
