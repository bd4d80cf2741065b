// What a row may still cost. A few bytes can stand for many nodes (an empty tuple has none), so that only a charge for each
// node, made before any byte of it is read, keeps a hostile row small.
ghost use Rattle.std.specs.Prelude.{◌≡◌};
ghost use Rattle.leaves.specs.Budget.{fresh, spent, longest};

use rules::{Refusal, Why, limit_of_type};

// The longest string32 and the longest yson32, what is left of the row's allowance, and what the whole row may cost. (A walk hands them
// through memory to each children step and back: of all orders this was the fastest.)
#[derive(Clone, Copy)]
pub struct RowBudget {
    pub max_string32_bytes: u64,
    pub max_yson32_bytes: u64,
    pub remaining: u64,
    pub limit: u64,
}

impl RowBudget {
    // The allowance of a row that has not begun.
    pub fn new(max_string32_bytes: u64, max_yson32_bytes: u64, limit: u64) -> Self
        ensures { result ≡ fresh max_string32_bytes max_yson32_bytes limit }
    {
        Self {
            max_string32_bytes,
            max_yson32_bytes,
            remaining: limit,
            limit,
        }
    }

    // So many bytes less, or 13 at `place`. Equality with what is left is accepted.
    pub fn charge(self, bytes: u64, place: u64) -> Result<RowBudget, Refusal>
        ensures { result ≡ spent self bytes place }
    {
        let limit = self.limit;
        let remaining = self.remaining;
        if remaining < bytes {
            return Err(Refusal {
                why: Why::RowTooLarge { limit },
                place,
            });
        }
        Ok(RowBudget {
            max_string32_bytes: self.max_string32_bytes,
            max_yson32_bytes: self.max_yson32_bytes,
            remaining: remaining - bytes,
            limit,
        })
    }
}

// The longest blob of a wire type.
pub fn blob_limit(budget: RowBudget, code: u8) -> u64
    ensures { result ≡ longest budget code }
{
    limit_of_type(code, budget.max_string32_bytes, budget.max_yson32_bytes)
}
