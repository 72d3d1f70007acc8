// What the crate `driver` offers, for a program in another language: compare/rust/driver.rs declares and calls it. A slice is passed as a pointer and then a length.
#![tactic(auto)]

ghost use Rattle.std.specs.Prelude.{◌≡◌};
ghost use Rattle.server_session.specs.Session.{fresh_session};
ghost use Rattle.client_session.specs.Session.{fresh_client};
ghost use Rattle.driver_log.specs.Log.{turn_at, logged_of, logged_as};
ghost use Rattle.driver_log.specs.Script.{rounds};
ghost use Rattle.driver_server.specs.Server.{server_run};
ghost use Rattle.driver_client.specs.Client.{stored_of, stored_as, client_at, client_run};
ghost use Rattle.driver.specs.Bench.{bench_logged};

// A script on a server session, and then another one for so many rounds. Each round goes on with the session that the one before it left; the script and each round
// log from the start of the log. The answer is the length of the last log.
#[unsafe(no_mangle)]
pub extern "C" fn driver_server(
    script: &[u8],
    times: usize,
    again: &[u8],
    out: &mut [u8],
    log: &mut [u8],
) -> usize
    ensures { logged_as result out.new log.new ≡
        logged_of (rounds (server_run again.now) times (server_run script.now (turn_at fresh_session 0 out.old log.old))) }
{
    driver::driver_server(script, times, again, out, log)
}

// The same on a client session that asks for CAN headers and repeats queries as told. The store is that of its replies.
#[unsafe(no_mangle)]
pub extern "C" fn driver_client(
    framing: bool,
    repeat: bool,
    script: &[u8],
    times: usize,
    again: &[u8],
    store: &mut [u8],
    out: &mut [u8],
    log: &mut [u8],
) -> usize
    ensures { stored_as result store.new out.new log.new ≡
        stored_of (rounds (client_run again.now) times
        (client_run script.now (client_at (fresh_client framing repeat) 0 store.old out.old log.old))) }
{
    driver::driver_client(framing, repeat, script, times, again, store, out, log)
}

// A bench run of a script with the lent piece lengths, its record in the lent buffer. The log has one entry: how the run ended, and the parts of the record that stand.
#[unsafe(no_mangle)]
pub extern "C" fn driver_bench(
    repeat: bool,
    script: &[u8],
    pieces: &[u8],
    buffer: &mut [u8],
    log: &mut [u8],
) -> usize
    ensures { logged_as result buffer.new log.new ≡ bench_logged repeat script.now pieces.now buffer.old log.old }
{
    driver::driver_bench(repeat, script, pieces, buffer, log)
}
