// What scripts of calls and their logs have in common on both sessions. A script is a list of calls: a kind, the length of the argument in two bytes, the lower first, and
// the argument. compare/README.md has the kinds and the entries of the log.
#![tactic(auto)]

ghost use Rattle.std.specs.Prelude.{◌≡◌, List, ℕ, min, take, get_or};
ghost use Rattle.wire.specs.Put.{Put};
ghost use Rattle.driver_log.specs.Log.{number_bytes, text_entry, call_entry, flag_byte};
ghost use Rattle.driver_log.specs.Script.{argument_length, calls, rounds};

// A number in two bytes, the lower first; of a larger one what is left by 65,536.
pub fn put_number(log: &mut [u8], at: usize, n: usize) -> usize
    ensures { Put log.old at (number_bytes n) result log.new }
{
    let next = wire::put_byte(log, at, (n % 256) as u8);
    wire::put_byte(log, next, (n / 256 % 256) as u8)
}

// A text after its length.
pub fn put_text(log: &mut [u8], at: usize, text: &[u8]) -> usize
    ensures { Put log.old at (text_entry text.now) result log.new }
{
    let next = put_number(log, at, text.len());
    wire::put(log, next, text)
}

// The entry of a call: the answer's code, a count that belongs to it, and the bytes to send. Nothing of it is looked at where the log is full.
pub fn put_call(
    log: &mut [u8],
    at: usize,
    code: u8,
    count: usize,
    out: &[u8],
    written: usize,
) -> usize
    ensures { Put log.old at (call_entry code count (take written out.now)) result log.new }
{
    if log.len() <= at {
        return at;
    }
    let next = wire::put_byte(log, at, code);
    let next = put_number(log, next, count);
    let size = wire::at_most(written, out.len());
    put_text(log, next, &out[..size])
}

// A flag in a byte.
pub fn flag(on: bool) -> u8
    ensures { result ≡ flag_byte on }
{
    u8::from(on)
}

// A byte of an argument, 0 past its end.
pub fn byte_of(arg: &[u8], i: usize) -> u8
    ensures { result ≡ get_or arg.now i 0 }
{
    arg.get(i).copied().unwrap_or(0)
}

// How many bytes an argument takes, by its length in two bytes, where so many are left in the script.
fn argument_size(low: u8, high: u8, left: usize) -> usize
    ensures { result ≡ min (argument_length low high) left }
{
    wire::at_most(usize::from(u16::from_le_bytes([low, high])), left)
}

// A session that a script's calls go to.
pub trait Driven {
    // What the definitions say of a session, the position in the log, and the buffers lent: store, out and log.
    ghost Seen: { Type 0 };

    ghost seen: { Self → ℕ → List ℕ → List ℕ → List ℕ → Seen };

    // What a call does, by its kind and its argument.
    ghost called: { Seen → ℕ → List ℕ → Seen };

    // The same session and buffers, at the start of the log.
    ghost anew: { Seen → Seen };

    // A call by its kind, with its entry in the log from position at on. The answer is the position after it.
    fn call(
        &mut self,
        kind: u8,
        arg: &[u8],
        store: &mut [u8],
        out: &mut [u8],
        log: &mut [u8],
        at: usize,
    ) -> usize
        ensures { seen self.new result store.new out.new log.new ≡ called (seen self.old at store.old out.old log.old) kind arg.now };

    ghost starts: { (s : Self) (at : ℕ) (store out log : List ℕ) → anew (seen s at store out log) ≡ seen s 0 store out log };
}

// The calls of a script, one after the other, logged from the start of the log. The answer is the length of the log.
fn run<D: Driven>(
    session: &mut D,
    script: &[u8],
    store: &mut [u8],
    out: &mut [u8],
    log: &mut [u8],
) -> usize
    ensures { D.seen session.new result store.new out.new log.new ≡ calls D.called (D.seen session.old 0 store.old out.old log.old) script.now }
{
    let mut at: usize = 0;
    let mut rest = script;
    while let [kind, low, high, after @ ..] = rest {
        let (argument, left) = after.split_at(argument_size(*low, *high, after.len()));
        at = session.call(*kind, argument, store, out, log, at);
        rest = left;
    }
    at
}

// A script, and then another one for so many rounds. Each round goes on with the session that the one before it left; the script and each round log from the start of
// the log. The answer is the length of the last log. `run` is called at one place, so that the compiler puts it into this function, and this one into that of each driver.
// There the session is a variable. By reference, each call would copy it first.
pub fn run_rounds<D: Driven>(
    session: &mut D,
    script: &[u8],
    times: usize,
    again: &[u8],
    store: &mut [u8],
    out: &mut [u8],
    log: &mut [u8],
) -> usize
    ensures { D.seen session.new result store.new out.new log.new ≡
        rounds (λ t. calls D.called (D.anew t) again.now) times (calls D.called (D.seen session.old 0 store.old out.old log.old) script.now) }
{
    let mut next = script;
    let mut left = times;
    loop {
        let at = run(session, next, store, out, log);
        if left == 0 {
            return at;
        }
        next = again;
        left -= 1;
    }
}
