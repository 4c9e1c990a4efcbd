//! Memory is refused while a call is foreseen, and the records stay as they were.

use std::alloc::{Allocator, Global};
use std::test::Fail;
use urb_foresight::{Foreseen, Foresight, WaitingCall, foresee, foresee_calls};
use urb_group::*;
use urb_refusing::Refusing;

// Foresees two submits of one client, and each once more if memory is refused. Returns how many
// records there are after each refusal or draft.
fn foresee_two<A: Allocator + Copy>(heap: A, calm: A) -> Option<Vec<usize, A>> {
    let config = Config::new(3, 10)?;
    let group = Group::new(calm, config).ok()?;
    let node = NodeId::new(1)?;
    let payload = Payload::copied(calm, b"a").ok()?;
    let mut foresight = Foresight::new(heap);
    let mut counts = Vec::new(calm);
    for number in 1..3u32 {
        let call = WaitingCall::Submit {
            client: ClientId::new(7)?,
            number,
            payload: &payload,
        };
        if foresee(&group, heap, node, &mut foresight, &call).is_err() {
            counts.push(foresight.records().len()).ok()?;
            let again = foresee(&group, heap, node, &mut foresight, &call).ok()?;
            if again != Foreseen::Draft {
                return None;
            }
        }
        counts.push(foresight.records().len()).ok()?;
    }
    Some(counts)
}

#[test]
fn each_growth_may_be_refused(rt: HostRuntime) -> Result<(), Fail> {
    let calm = Refusing::new(rt.alloc(), 0);
    let first = Refusing::new(rt.alloc(), 1);
    let refused = match foresee_two::<&Refusing<Global>>(&first, &calm) {
        Some(counts) => counts.as_slice() == [0, 1, 2].as_slice(),
        None => false,
    };
    assert!(rt; refused && first.has_failed());
    let second = Refusing::new(rt.alloc(), 100);
    let calmly = match foresee_two::<&Refusing<Global>>(&second, &calm) {
        Some(counts) => counts.as_slice() == [1, 2].as_slice(),
        None => false,
    };
    assert!(rt; calmly && !second.has_failed());
    Ok(())
}

// How many records are foreseen of two submits together, and whether memory was refused.
fn foresee_together<A: Allocator + Copy>(heap: A, calm: A) -> Option<(usize, bool)> {
    let config = Config::new(3, 10)?;
    let group = Group::new(calm, config).ok()?;
    let client = ClientId::new(7)?;
    let payload = Payload::copied(calm, b"a").ok()?;
    let payload = &payload;
    let calls = [
        WaitingCall::Submit {
            client,
            number: 1,
            payload,
        },
        WaitingCall::Submit {
            client,
            number: 2,
            payload,
        },
    ];
    let (foresight, refused) = foresee_calls(&group, heap, NodeId::new(1)?, &calls);
    Some((foresight.records().len(), refused.is_some()))
}

#[test]
fn a_refusal_ends_what_is_foreseen(rt: HostRuntime) -> Result<(), Fail> {
    let calm = Refusing::new(rt.alloc(), 0);
    let first = Refusing::new(rt.alloc(), 1);
    assert_eq!(rt;
        foresee_together::<&Refusing<Global>>(&first, &calm),
        Some((0, true))
    );
    let none = Refusing::new(rt.alloc(), 100);
    assert_eq!(rt;
        foresee_together::<&Refusing<Global>>(&none, &calm),
        Some((2, false))
    );
    Ok(())
}
