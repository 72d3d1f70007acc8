// The text of a query as a session keeps it: of the one under way, and of the last one.
#![tactic(auto)]

ghost use Rattle.std.specs.Prelude.{◌≡◌, [], ◌∷◌, ◌++◌, take};
ghost use Rattle.wire.specs.Put.{Put};
ghost use Rattle.wire.specs.Bytes.{held};
ghost use Rattle.query.specs.Query.{count_of, text_of_query};

use wire::Bytes;

// The longest query has 18 bytes: 01, six PIDs, a space and three digits.
pub type QueryText = Bytes<18>;

// The text of a query, of which 18 bytes are kept.
pub fn of(pids: &[u8], count: Option<u8>) -> QueryText
    ensures { held result ≡ take 18 (text_of_query pids.now (count_of count)) }
{
    let mut text = QueryText::new();
    text.len = query::put_query(&mut text.bytes, 0, pids, count);
    text
}

// A text and CR, from position at on.
pub fn put_line(text: QueryText, out: &mut [u8], at: usize) -> usize
    ensures { Put out.old at (held text ++ (13 ∷ [])) result out.new }
{
    let at = wire::put(out, at, text.as_slice());
    wire::put_byte(out, at, b'\r')
}
