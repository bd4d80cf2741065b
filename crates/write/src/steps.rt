// A row of a checked block and a checked value table: judged, given room, written. Each step has a contract of its own, so that a
// caller may put a test between them.
ghost use Rattle.std.specs.Prelude.{◌≡◌, ◌≤◌, ◌<◌, min, length, Ok, Err};
ghost use Rattle.rules.specs.Bytes.{longest_slice};
ghost use Rattle.rules.specs.Reading.{limits};
ghost use Rattle.judge.specs.Judging.{RowJudgeable, judged_row};
ghost use Rattle.write.specs.Row.{output_room_for, placed_row};

use super::put::{put_flat_row, put_row};
use judge::walk::{JudgePos, judge_row};
use rules::{Extent, Refusal, Settings, Why, room_in};

// Room for a judged row's bytes from position `at` on, in an output of this length.
pub fn room_for(row: Extent, at: usize, len: usize) -> Result<Extent, Refusal>
    requires { at ≤ min len longest_slice }
    ensures { result ≡ output_room_for at (min len longest_slice) row }
{
    if room_in(len) - (at as u64) < row.bytes {
        return Err(Refusal {
            why: Why::NoOutputRoom { needed: row.bytes },
            place: at as u64,
        });
    }
    Ok(row)
}

// A judged row from position `at` of the output on; or 21, and then the output is as it was.
pub fn place_row(
    block: &[u8],
    settings: Settings,
    p: JudgePos,
    records: &[u8],
    payload: &[u8],
    out: &mut [u8],
    at: usize,
) -> Result<Extent, Refusal>
    requires { RowJudgeable block.now records.now payload.now
        × (Ok p ≡ judged_row block.now (limits settings) records.now payload.now)
        × (at ≤ min (length out.old) longest_slice) }
    ensures answer { result ≡ (placed_row block.now (limits settings) records.now payload.now
        out.old at).answer }
    ensures out { out.new ≡ (placed_row block.now (limits settings) records.now
        payload.now out.old at).output }
{
    let row = Extent {
        table: 0,
        bytes: p.bytes,
        records: p.at as u64,
        payload: p.from as u64,
    };
    let own = room_for(row, at, out.len())?;
    put_row(block, records, payload, out, at);
    Ok(own)
}

// The same of a row whose columns are mostly leaves. It is apart from the other, so that each has one caller and is compiled into it: one for
// both, compiled into two callers, took 2 to 4 instructions more of each 100 that a flat row takes.
pub fn place_flat_row(
    block: &[u8],
    settings: Settings,
    p: JudgePos,
    records: &[u8],
    payload: &[u8],
    out: &mut [u8],
    at: usize,
) -> Result<Extent, Refusal>
    requires { RowJudgeable block.now records.now payload.now
        × (Ok p ≡ judged_row block.now (limits settings) records.now payload.now)
        × (at ≤ min (length out.old) longest_slice) }
    ensures answer { result ≡ (placed_row block.now (limits settings) records.now payload.now
        out.old at).answer }
    ensures out { out.new ≡ (placed_row block.now (limits settings) records.now
        payload.now out.old at).output }
{
    let row = Extent {
        table: 0,
        bytes: p.bytes,
        records: p.at as u64,
        payload: p.from as u64,
    };
    let own = room_for(row, at, out.len())?;
    put_flat_row(block, records, payload, out, at);
    Ok(own)
}

// The row of the table's value from position `at` of the output on; or why it is refused, and then the output is as it was.
pub fn write_row(
    block: &[u8],
    settings: Settings,
    records: &[u8],
    payload: &[u8],
    out: &mut [u8],
    at: usize,
) -> Result<Extent, Refusal>
    requires { RowJudgeable block.now records.now payload.now × (at ≤ min (length out.old) longest_slice) }
    ensures answer { result ≡ (placed_row block.now (limits settings) records.now payload.now
        out.old at).answer }
    ensures out { out.new ≡ (placed_row block.now (limits settings) records.now
        payload.now out.old at).output }
{
    let p = judge_row(block, settings, records, payload)?;
    place_row(block, settings, p, records, payload, out, at)
}
