//! Asks the stores in parallel for the records that they hold.

ghost use Rattle.std.specs.Prelude.{◌≡◌, ◌≤◌, IfErr, IfOk, map, vec_capacity, vec_len};
ghost use Rattle.urb_stable.specs.RetrievedRecords.{Gives};
ghost use Rattle.urb_folder.specs.AskedStores.{AllAnswer};
ghost use Rattle.urb_stable.specs.StableStorage.{list_in};
ghost use Rattle.urb_folder.specs.internal.RetrievedImages.{RetrievesTogether};

use crate::first_fault::{Outcomes, collect_opened};
use std::alloc::Global;
use std::thread;
use std::thread::Threads;
use urb_group::{Record, Stable};
use urb_names::Refusal;
use urb_stable::StoreFault;

/// A store that is asked for its records, and its answer.
#[derive(Drop)]
struct Asking<S> {
    store: S,
    answer: Result<Vec<Record>, StoreFault>,
}

// Pairs each store with room for its answer. If memory for the list is refused, the stores are
// returned.
fn prepare_askings<S: Drop>(alloc: Global, stores: Vec<S>) -> Result<Vec<Asking<S>>, Vec<S>>
    ensures all { IfOk result (λ askings. map (λ it. it.store) askings.items ≡ stores.items) }
    ensures back { IfErr result (λ back. back ≡ stores) }
{
    let Ok(mut askings) = Vec::with_capacity(alloc, stores.len()) else {
        return Err(stores);
    };
    for store in stores {
        askings.push_reserved(Asking {
            store,
            answer: Err(StoreFault::NoMemory),
        });
    }
    Ok(askings)
}

// Asks a store.
fn ask_store<S: Stable<Alloc = Global>>(alloc: Global, asking: &mut Asking<S>)
    ensures { Gives S.Stable asking.old.store (list_in asking.new.answer) asking.new.store }
{
    asking.answer = asking.store.retrieve(alloc);
}

// Asks each store, on a thread of its own if one can be made.
fn ask_all<S: Stable<Alloc = Global> + Send, R: Threads + Sync>(
    rt: &R,
    alloc: Global,
    askings: &mut [Asking<S>],
)
    ensures { AllAnswer S.Stable (map (λ it. it.store) askings.old)
        (map (λ it. it.answer) askings.new) (map (λ it. it.store) askings.new) }
{
    let count = askings.len();
    if count == 0 {
        return;
    }
    let ask_one = move |_place: usize, asking: &mut Asking<S>|
        ensures { Gives S.Stable asking.entry.now.store (list_in asking.exit.now.answer)
            asking.exit.now.store }
    { ask_store(alloc, asking) };
    thread::for_each_mut(rt, askings, count, &ask_one);
}

// Separates the stores from their answers, in the room that the caller gives.
fn split_askings<S: Drop>(
    askings: Vec<Asking<S>>,
    stores: Vec<S>,
    answers: Outcomes<Vec<Record>>,
) -> (Vec<S>, Outcomes<Vec<Record>>)
    requires stores { (vec_len stores ≡ 0) × (vec_len askings ≤ vec_capacity stores) }
    requires answers { (vec_len answers ≡ 0) × (vec_len askings ≤ vec_capacity answers) }
    ensures stores { result.0.items ≡ map (λ it. it.store) askings.items }
    ensures answers { result.1.items ≡ map (λ it. it.answer) askings.items }
{
    let mut stores = stores;
    let mut answers = answers;
    for asking in askings {
        let Asking { store, answer } = asking;
        stores.push_reserved(store);
        answers.push_reserved(answer);
    }
    (stores, answers)
}

/// The records of each store, node 1's first. All stores are asked in parallel. A refusal is the
/// first fault in their order, or says that memory was refused. The stores are returned in their
/// order.
pub(crate) fn retrieve_images<S: Stable<Alloc = Global> + Send + Drop, R: Threads + Sync>(
    rt: &R,
    alloc: Global,
    stores: Vec<S>,
) -> (Vec<S>, Result<Vec<Vec<Record>>, Refusal>)
    ensures gives { RetrievesTogether S.Stable stores.items result.1 result.0.items }
    ensures count { vec_len result.0 ≡ vec_len stores }
{
    let count = stores.len();
    let Ok(room) = Vec::with_capacity(alloc, count) else {
        return (stores, Err(Refusal::NoMemory));
    };
    let Ok(answers) = Vec::with_capacity(alloc, count) else {
        return (stores, Err(Refusal::NoMemory));
    };
    let mut askings = match prepare_askings(alloc, stores) {
        Ok(askings) => askings,
        Err(stores) => return (stores, Err(Refusal::NoMemory)),
    };
    ask_all(rt, alloc, askings.as_mut_slice());
    let (stores, answers) = split_askings(askings, room, answers);
    match collect_opened(alloc, answers) {
        Ok(images) => (stores, Ok(images)),
        Err((_, fault)) => (stores, Err(fault.refusal())),
    }
}
