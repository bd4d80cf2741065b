// The index of a stream: built, checked, extended. The run goes over the stream first and writes nothing; what the index may be refused for
// is judged after it; a second pass over the accepted rows compares or writes their records.
#![tactic(auto)]

ghost use Rattle.std.specs.Prelude.{◌≡◌, Err};
ghost use Rattle.rules.specs.Index.{build_rule, check_index_rule, extend_rule};

pub mod records;

use record::index_record::{are_index_records, index_records_in};
use records::{compare_records, put_records};
use rules::{Format, LONGEST, Ran, Refusal, Settings, room_in};
use run::run;

// The run's counts, and a refusal that comes after it.
fn refused_after(rows: u64, bytes: u64, why: Refusal) -> Ran
    ensures { result ≡ record { rows = rows; bytes = bytes; stop = Err why } }
{
    Ran {
        rows,
        bytes,
        stop: Err(why),
    }
}

// The index of a stream's rows, from the slice's start; or why it is refused, and then the slice is as it was.
pub fn build_index(settings: Settings, format: &Format, input: &[u8], index: &mut [u8]) -> Ran
    ensures { record { answer = result; index = index.new } ≡ build_rule format.now settings input.now index.old }
{
    let ran = run(settings, format, input);
    let stop = ran.stop;
    let Ok(()) = stop else {
        return ran;
    };
    if index_records_in(room_in(index.len())) < ran.rows {
        return refused_after(ran.rows, ran.bytes, Refusal::NO_INDEX_ROOM);
    }
    put_records(format, input, settings, index, 0, 0);
    ran
}

// Whether a slice is the index of a stream's rows, which are counted; or why it is refused.
pub fn check_index(settings: Settings, format: &Format, input: &[u8], index: &[u8]) -> Ran
    ensures { result ≡ check_index_rule format.now settings input.now index.now }
{
    if LONGEST < index.len() {
        return refused_after(0, 0, Refusal::SETTING);
    }
    let ran = run(settings, format, input);
    let stop = ran.stop;
    let Ok(()) = stop else {
        return ran;
    };
    if !are_index_records(index.len(), ran.rows) {
        return refused_after(ran.rows, ran.bytes, Refusal::INDEX_MISMATCH);
    }
    let compared = compare_records(format, input, settings, index, ran.rows as usize);
    let Some(_) = compared else {
        return refused_after(ran.rows, ran.bytes, Refusal::INDEX_MISMATCH);
    };
    ran
}

// The index of a stream whose first `old` rows' records stand in the slice already; or why it is refused, and then the slice is as it was.
pub fn extend_index(
    settings: Settings,
    format: &Format,
    input: &[u8],
    old: u64,
    index: &mut [u8],
) -> Ran
    ensures { record { answer = result; index = index.new } ≡ extend_rule format.now settings input.now old index.old }
{
    let room = index_records_in(room_in(index.len()));
    if room < old {
        return refused_after(0, 0, Refusal::SETTING);
    }
    let ran = run(settings, format, input);
    let stop = ran.stop;
    let Ok(()) = stop else {
        return ran;
    };
    if ran.rows < old {
        return refused_after(ran.rows, ran.bytes, Refusal::INDEX_MISMATCH);
    }
    let compared = compare_records(format, input, settings, index, old as usize);
    let Some(at) = compared else {
        return refused_after(ran.rows, ran.bytes, Refusal::INDEX_MISMATCH);
    };
    if room < ran.rows {
        return refused_after(ran.rows, ran.bytes, Refusal::NO_INDEX_ROOM);
    }
    put_records(format, input, settings, index, old as usize, at);
    ran
}
