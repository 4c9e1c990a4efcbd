//! What a desk has lost if it can't answer.

use crate::house_gone::HouseGone;
use crate::stray_turn::StrayTurn;
use crate::worker_gone::WorkerGone;

/// What a desk has lost. It says `Down` only with one of these witnesses, or if its node is down.
#[derive(Clone, Copy)]
pub(crate) enum Lost {
    Worker(WorkerGone),
    Turn(StrayTurn),
    House(HouseGone),
}
