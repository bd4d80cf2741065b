// The row's allowance by reference: for a host that keeps one and has it lowered. The walk hands its own on by value.
#![tactic(auto)]

ghost use Rattle.std.specs.Prelude.{◌≡◌};
ghost use Rattle.charge.specs.Lowering.{lowering};

use leaves::budget::RowBudget;
use rules::Refusal;

// What a charge leaves of an allowance, and what it answers.
#[derive(Clone, Copy)]
pub struct Lowered {
    pub budget: RowBudget,
    pub answer: Result<(), Refusal>,
}

// A charge by value: lowered where it is accepted, and as it was where it is refused.
pub fn lower(before: RowBudget, bytes: u64, place: u64) -> Lowered
    ensures { result ≡ lowering before bytes place }
{
    match before.charge(bytes, place) {
        Ok(left) => Lowered {
            budget: left,
            answer: Ok(()),
        },
        Err(refusal) => Lowered {
            budget: before,
            answer: Err(refusal),
        },
    }
}

// The same through a reference: so many bytes less, or 13 at `place`, and then the allowance stays.
pub fn charge(budget: &mut RowBudget, bytes: u64, place: u64) -> Result<(), Refusal>
    ensures { record { budget = budget.new; answer = result } ≡ lowering budget.old bytes place }
{
    let lowered = lower(*budget, bytes, place);
    *budget = lowered.budget;
    lowered.answer
}
