// Nodes without children, as skip passes them: where it stands, and what a scalar or a blob comes to.
ghost use Rattle.std.specs.Prelude.{◌≡◌, ◌<◌, Err};
ghost use Rattle.leaves.specs.Leaf.{Readable, skim_fixed, skim_blob, skim_leaf};

use super::budget::{RowBudget, blob_limit};
use super::fields::{payload_of_fixed, read_length};
use rules::{Refusal, Why};
use wire::codes::code_width;

// Where the walk stands, what is left of the row's allowance, and the records and payload bytes that it has passed.
#[derive(Clone, Copy)]
pub struct SkipPos {
    pub at: usize,
    pub budget: RowBudget,
    pub records: u64,
    pub payload: u64,
}

// A scalar or an int128 or int256: as many bytes as its code has.
fn skip_fixed(code: u8, input: &[u8], p: SkipPos) -> Result<SkipPos, Refusal>
    requires { (code < 13) × Readable input.now p }
    ensures { result ≡ skim_fixed input.now code p }
{
    let at = p.at;
    let width = code_width(code);
    if input.len() - at < width {
        return Err(Refusal {
            why: Why::Truncated { context: code },
            place: at as u64,
        });
    }
    let budget = p.budget;
    Ok(SkipPos {
        at: at + width,
        budget,
        records: p.records,
        payload: p.payload + payload_of_fixed(width),
    })
}

// The type's limit first, then the charge, and only then whether the bytes are there: a length that the stream does not keep
// is refused for what it asks.
fn skip_blob(code: u8, input: &[u8], p: SkipPos) -> Result<SkipPos, Refusal>
    requires { Readable input.now p }
    ensures { result ≡ skim_blob input.now code p }
{
    let at = p.at;
    let budget = p.budget;
    let length = read_length(input, at);
    // Document 01 names this form for a length, a tag and a child: the answer is taken apart at once and its refusal handed up.
    let Ok((n, next)) = length else {
        return Err(length.unwrap_err());
    };
    let left = (input.len() - next) as u64;
    let limit = blob_limit(budget, code);
    if limit < n {
        return Err(Refusal {
            why: Why::BlobTooLarge {
                wire_type: code,
                length: n,
                limit,
            },
            place: at as u64,
        });
    }
    let rest = budget.charge(n, at as u64)?;
    if left < n {
        return Err(Refusal {
            why: Why::Truncated { context: 14 },
            place: next as u64,
        });
    }
    Ok(SkipPos {
        at: next + n as usize,
        budget: rest,
        records: p.records,
        payload: p.payload + n,
    })
}

// A node without children, by its code.
pub fn skip_leaf(code: u8, input: &[u8], p: SkipPos) -> Result<SkipPos, Refusal>
    requires { Readable input.now p }
    ensures { result ≡ skim_leaf input.now code p }
{
    // Here and below an answer is taken apart and built anew: returned as it came, it would go through memory once more.
    if code < 13 {
        let q = skip_fixed(code, input, p)?;
        return Ok(q);
    }
    let q = skip_blob(code, input, p)?;
    Ok(q)
}
