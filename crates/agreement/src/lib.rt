// Demand 3: two runs of one list of queries have equal records exactly when the two vehicles gave the same values. The statement stands in specs/, its proof in
// proofs/.
#![tactic(auto)]

ghost use Rattle.std.specs.Prelude.{◌≡◌, length};
ghost use Rattle.bench.specs.Run.{run_says, recorded, run_lent};
ghost use Rattle.agreement.specs.Demand.{drive, Agreement};

use bench::BenchRun;

#[derive(Clone, Copy)]
pub struct TwoRuns {
    pub one: BenchRun,
    pub two: BenchRun,
}

// Two runs of the bench, each with a script, piece lengths, repeat and a record buffer of its own. Their records are the same bytes exactly when demand 3 says so.
pub fn run_two(
    script1: &[u8],
    lengths1: &[u8],
    repeat1: bool,
    buffer1: &mut [u8],
    script2: &[u8],
    lengths2: &[u8],
    repeat2: bool,
    buffer2: &mut [u8],
) -> TwoRuns
    ensures buffer1_after { recorded result.one buffer1.new ≡
        run_lent (run_says repeat1 lengths1.now (length buffer1.old) script1.now) buffer1.old }
    ensures buffer2_after { recorded result.two buffer2.new ≡
        run_lent (run_says repeat2 lengths2.now (length buffer2.old) script2.now) buffer2.old }
    ensures agreement { Agreement
        (drive repeat1 lengths1.now script1.now buffer1.old buffer1.new result.one)
        (drive repeat2 lengths2.now script2.now buffer2.old buffer2.new result.two) }
{
    let one = bench::run(script1, lengths1, repeat1, buffer1);
    let two = bench::run(script2, lengths2, repeat2, buffer2);
    TwoRuns { one, two }
}
