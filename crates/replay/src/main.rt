// Replays the sessions and bench runs of a stored list, from standard input, and holds each log to the stored one: what the Rust's answers gave, or what documents 01
// and 02 ask for, written by hand. compare/README.md says how the list is made. An entry is a byte for its kind, four numbers of two bytes, the lower first, and three
// texts. The numbers are the size of the record buffer and the lengths of the texts: piece lengths, script, and stored log. Kind 0 is a heading, which is the third
// text.
#![tactic(auto)]

ghost use Rattle.std.specs.Prelude.{◌≡◌, ◌++◌, ◌≤◌, ◌<◌, length, drop, IfSome};
ghost use Rattle.replay.specs.Compare.{agreeing, judged, tallied};

use reading::read_input;
use std::io::Write;

#[derive(Clone, Copy)]
struct Entry<'a> {
    kind: u8,
    room: usize,
    pieces: &'a [u8],
    script: &'a [u8],
    stored: &'a [u8],
}

// A case whose log is not the stored one: its number under the heading, and in how many bytes the two agree from their start.
#[derive(Clone, Copy)]
struct Difference {
    case: usize,
    place: usize,
}

// How many cases stand under a heading, and the first that differs.
#[derive(Clone, Copy, Default)]
struct Tally {
    cases: usize,
    first: Option<Difference>,
}

// In how many bytes two logs agree from their start.
fn agreeing(ours: &[u8], stored: &[u8]) -> usize
    ensures { result ≡ agreeing ours.now stored.now }
{
    ours.iter().zip(stored).take_while(|(a, b)| a == b).count()
}

// Where a log differs from the stored one, if it does.
fn judge(ours: &[u8], stored: &[u8]) -> Option<usize>
    ensures { result ≡ judged ours.now stored.now }
{
    if ours == stored {
        return None;
    }
    Some(agreeing(ours, stored))
}

// One more case.
fn add_case(before: Tally, differs: Option<usize>) -> Tally
    requires { before.cases ≤ 262144 }
    ensures { result ≡ tallied before differs }
{
    let case = before.cases + 1;
    let first = before
        .first
        .or(differs.map(|place| Difference { case, place }));
    Tally { cases: case, first }
}

fn read_number(list: &[u8]) -> Option<(usize, &[u8])>
    ensures { IfSome result (λ r. r.1.now ≡ drop 2 list.now) }
{
    let [low, high, rest @ ..] = list else {
        return None;
    };
    Some((usize::from(u16::from_le_bytes([*low, *high])), rest))
}

// A text of n bytes, or of all where there are fewer, and what stands behind it.
fn read_text(list: &[u8], n: usize) -> (&[u8], &[u8])
    ensures { result.0.now ++ result.1.now ≡ list.now }
{
    list.split_at(n.min(list.len()))
}

// The first entry of a list, if its numbers are there, and the list behind it. The texts of the entry stand one after the other behind its nine bytes.
fn read_entry(list: &[u8]) -> Option<(Entry<'_>, &[u8])>
    ensures shorter { IfSome result (λ r. length r.1.now < length list.now) }
    ensures texts { IfSome result (λ r. r.0.pieces.now ++ (r.0.script.now ++ (r.0.stored.now ++ r.1.now)) ≡ drop 9 list.now) }
{
    let (kind, rest) = list.split_first()?;
    let (room, rest) = read_number(rest)?;
    let (pieces, rest) = read_number(rest)?;
    let (script, rest) = read_number(rest)?;
    let (stored, rest) = read_number(rest)?;
    let (pieces, rest) = read_text(rest, pieces);
    let (script, rest) = read_text(rest, script);
    let (stored, rest) = read_text(rest, stored);
    let entry = Entry {
        kind: *kind,
        room,
        pieces,
        script,
        stored,
    };
    Some((entry, rest))
}

// A bench run with the first bytes of a buffer as the record buffer.
fn run_bench(
    repeat: bool,
    room: usize,
    pieces: &[u8],
    script: &[u8],
    out: &mut [u8],
    log: &mut [u8],
) -> usize {
    let size = room.min(out.len());
    driver::driver_bench(repeat, script, pieces, &mut out[..size], log)
}

// What a case runs.
#[derive(Clone, Copy)]
enum Case {
    Server,
    Client { framing: bool, repeat: bool },
    Bench { repeat: bool },
}

// 1 is a server session, 2 to 5 a client session, of which 3 and 5 ask for CAN headers, and 4 and 5 repeat queries; the others are bench runs, with repeat but for 6.
fn case_of(kind: u8) -> Case {
    match kind {
        1 => Case::Server,
        2..=5 => Case::Client {
            framing: matches!(kind, 3 | 5),
            repeat: 4 <= kind,
        },
        _ => Case::Bench { repeat: kind != 6 },
    }
}

// Runs a case, and answers the length of its log.
fn run(
    case: Case,
    room: usize,
    pieces: &[u8],
    script: &[u8],
    store: &mut [u8],
    out: &mut [u8],
    log: &mut [u8],
) -> usize {
    match case {
        Case::Server => driver::driver_server(script, 0, b"", out, log),
        Case::Client { framing, repeat } => driver::driver_client(
            framing, repeat, script, 0, b"", store, out, log,
        ),
        Case::Bench { repeat } => run_bench(repeat, room, pieces, script, out, log),
    }
}

fn replay(entry: Entry<'_>, store: &mut [u8], out: &mut [u8], log: &mut [u8]) -> Option<usize> {
    let written = run(
        case_of(entry.kind),
        entry.room,
        entry.pieces,
        entry.script,
        store,
        out,
        log,
    );
    let size = written.min(log.len());
    judge(&log[..size], entry.stored)
}

// What is said of the cases under a heading.
fn print_tally<W: Write>(to: &mut W, tally: Tally) {
    let cases = tally.cases;
    let Some(Difference { case, place }) = tally.first else {
        let _ = writeln!(to, "{cases} cases, no difference");
        return;
    };
    let _ = writeln!(
        to,
        "{cases} cases, case {case} differs at byte {place} of its log"
    );
}

// A heading: what stood under the one before it, if there was one, is said first. No case stands under it yet.
fn head<W: Write>(to: &mut W, title: &[u8], before: Option<Tally>) -> Tally
    ensures { result.cases ≡ 0 }
{
    if let Some(tally) = before {
        print_tally(to, tally);
    }
    let _ = to.write_all(title);
    let _ = to.write_all(b": ");
    Tally::default()
}

fn main(rt: HostRuntime) {
    let mut to = rt.stdout();
    let mut list = [0u8; 262144];
    let n = read_input(&mut rt.stdin(), &mut list).unwrap_or_else(|cut| cut.size);
    let mut store = [0u8; 4096];
    let mut out = [0u8; 65536];
    let mut log = [0u8; 65536];
    let mut under = None;
    let mut rest = &list[..n];
    while let Some((entry, left)) = read_entry(rest) {
        let tally = if entry.kind == 0 {
            head(&mut to, entry.stored, under)
        } else {
            let differs = replay(entry, &mut store, &mut out, &mut log);
            add_case(under.unwrap_or_default(), differs)
        };
        under = Some(tally);
        rest = left;
    }
    print_tally(&mut to, under.unwrap_or_default());
}
