//! Lists of commands, with each growth of memory refused in turn.

use super::clusters::{Event, cluster, command};
use std::alloc::Allocator;
use std::test::Fail;
use urb_group::*;
use urb_refusing::Refusing;
use urb_stable::MemStable;

/// A draft that is stored, a tick, a crash and a restart.
const EVENTS: [Event; 5] = [
    Event::Submit,
    Event::StoreOne,
    Event::Tick,
    Event::Crash,
    Event::Restart,
];

// Returns their commands.
fn commands<A: Allocator + Copy>(alloc: A) -> Option<Vec<Command<A>, A>> {
    let mut commands = Vec::new(alloc);
    for event in EVENTS {
        commands.push(command(alloc, event)?).ok()?;
    }
    Some(commands)
}

/// The result of a play.
#[derive(Clone, Copy)]
enum Outcome {
    /// The cluster could not be made.
    Unmade,
    /// The play ended because memory was refused, or the store of node 1 was refused memory for its
    /// record.
    Short,
    /// The number of replies; the second reply was to a store that took its record.
    Whole(usize),
}

// Returns the result of a play that ended after its last command.
fn outcome_of<A: Allocator>(replies: &[Reply<A>]) -> Outcome {
    match replies.get(1) {
        Some(Reply::Stored(_)) => Outcome::Whole(replies.len()),
        _ => Outcome::Short,
    }
}

// Plays the commands, and returns the result.
fn play_and_judge<A: Allocator + Copy>(
    cluster: &mut Cluster<MemStable<A>>,
    alloc: A,
    commands: &[Command<A>],
) -> Outcome {
    match play(alloc, cluster, commands) {
        Ok(replies) => outcome_of(&replies),
        Err(_) => Outcome::Short,
    }
}

// Does the same with a new cluster, which takes its memory from `heap`.
fn play_new<A: Allocator + Copy>(heap: A, calm: A) -> Option<Outcome> {
    let commands = commands(calm)?;
    match cluster(heap) {
        Some(mut cluster) => Some(play_and_judge(&mut cluster, heap, &commands)),
        None => Some(Outcome::Unmade),
    }
}

#[test]
fn play_ends_where_memory_is_refused(rt: HostRuntime) -> Result<(), Fail> {
    let calm = Refusing::new(rt.alloc(), 0);
    let mut ended = 0;
    for refused in 1..100 {
        let heap = Refusing::new(rt.alloc(), refused);
        let came = play_new(&heap, &calm);
        if !heap.has_failed() {
            assert!(rt; matches!(came, Some(Outcome::Whole(5))));
            break;
        }
        assert!(rt;
            matches!(came, Some(Outcome::Unmade | Outcome::Short)),
            "growth {refused}"
        );
        if matches!(came, Some(Outcome::Short)) {
            ended = refused;
        }
    }
    assert!(rt; 3 < ended && ended < 99, "the last at growth {ended}");
    Ok(())
}
