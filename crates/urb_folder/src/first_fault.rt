//! The outcomes of several openings: all values that were opened, or the first fault.

ghost use Rattle.std.specs.Prelude.{◌≡◌, ◌⊎◌, Ok, IfErr, IfOk, MatchOption, map};
ghost use Rattle.std.specs.List.{All};
ghost use Rattle.urb_folder.specs.ParallelOutcomes.{FailsFirst, IsOpen};

use std::alloc::Global;
use urb_stable::StoreFault;

/// The outcome of each opening, in order.
pub type Outcomes<J> = Vec<Result<J, StoreFault>>;

// The first fault, or `None` if every outcome is a success.
fn find_first_fault<J>(outcomes: &[Result<J, StoreFault>]) -> Option<StoreFault>
    ensures { MatchOption result (All IsOpen outcomes.now) (FailsFirst outcomes.now) }
{
    for outcome in outcomes {
        if let Err(fault) = outcome {
            return Some(*fault);
        }
    }
    None
}

// The values of outcomes that are all successes. If memory for the list is refused, the outcomes
// come back.
fn unwrap_all<J: Drop>(alloc: Global, outcomes: Outcomes<J>) -> Result<Vec<J>, Outcomes<J>>
    requires { All IsOpen outcomes.items }
    ensures all { IfOk result (λ all. map Ok all.items ≡ outcomes.items) }
    ensures back { IfErr result (λ back. back ≡ outcomes) }
{
    let Ok(mut all) = Vec::with_capacity(alloc, outcomes.len()) else {
        return Err(outcomes);
    };
    for outcome in outcomes {
        all.push_reserved(outcome.unwrap());
    }
    Ok(all)
}

/// All values that were opened, in order. If one of them failed, or if memory for the list was
/// refused, the outcomes come back together with the first fault. So the caller can close whatever
/// did open.
pub fn collect_opened<J: Drop>(
    alloc: Global,
    outcomes: Outcomes<J>,
) -> Result<Vec<J>, (Outcomes<J>, StoreFault)>
    ensures all { IfOk result (λ all. map Ok all.items ≡ outcomes.items) }
    ensures back { IfErr result (λ e. e.0 ≡ outcomes) }
    // The fault is the first one in order. If no outcome is a fault, it says that memory was refused.
    ensures fault { IfErr result (λ e. FailsFirst outcomes.items e.1
        ⊎ (All IsOpen outcomes.items × (e.1 ≡ StoreFault.NoMemory))) }
{
    if let Some(fault) = find_first_fault(outcomes.as_slice()) {
        return Err((outcomes, fault));
    }
    match unwrap_all(alloc, outcomes) {
        Ok(all) => Ok(all),
        Err(outcomes) => Err((outcomes, StoreFault::NoMemory)),
    }
}
