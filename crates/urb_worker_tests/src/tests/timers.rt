//! The timer, beside a thread that takes its ticks and sets the stop.

use std::alloc::Global;
use std::marker::Brand;
use std::sync::Wait;
use std::test::Fail;
use std::thread;
use std::thread::Threads;
use std::time::{Clock, Duration, Instant};
use urb_link::{NodeJobs, Stop, TickQueues, Ticket, open_channels, timer};
use urb_turn::Job;

// Whether a ticket is a tick of this node, and nobody waits for its answer.
fn is_tick_at(ticket: &Ticket<Brand>, number: u8) -> bool {
    matches!(ticket.job, Job::Tick(_))
        && ticket.job.node().number() == number
        && ticket.answer.is_none()
}

// Whether the next ticket is a tick of this node.
fn is_next_at<R: Wait>(rt: &R, jobs: &NodeJobs<Brand>, number: u8) -> bool {
    match jobs.receiver().recv(rt) {
        Ok(ticket) => is_tick_at(&ticket, number),
        Err(_) => false,
    }
}

// Whether all tickets that are left are ticks of this node.
fn are_ticks_at<R: Wait>(rt: &R, jobs: &NodeJobs<Brand>, number: u8) -> bool {
    let mut are_ticks = true;
    for _i in 0..64u8 {
        let Ok(ticket) = jobs.receiver().try_recv(rt) else {
            break;
        };
        are_ticks = are_ticks && is_tick_at(&ticket, number);
    }
    are_ticks
}

// Whether the next ticket of each node is a tick of this node.
fn come_at_all<R: Wait>(rt: &R, ends: &[NodeJobs<Brand>]) -> bool {
    let mut number: u8 = 0;
    let mut have_come = true;
    for jobs in ends {
        number = number.saturating_add(1);
        have_come = have_come && is_next_at(rt, jobs, number);
    }
    have_come
}

// Whether all tickets that are left at each node are ticks of this node.
fn are_left_at_all<R: Wait>(rt: &R, ends: &[NodeJobs<Brand>]) -> bool {
    let mut number: u8 = 0;
    let mut are_ticks = true;
    for jobs in ends {
        number = number.saturating_add(1);
        are_ticks = are_ticks && are_ticks_at(rt, jobs, number);
    }
    are_ticks
}

// A timer sends ticks to seven nodes every `millis` milliseconds. Returns whether each node gets
// `count` ticks and nothing else, and whether the timer ends after the stop is set. Also returns
// how long it took.
fn ticks<R: Threads + Wait + Clock + Sync>(
    rt: &R,
    alloc: Global,
    millis: u32,
    count: u8,
) -> Option<(bool, Duration)> {
    let (lines, ends) = open_channels(alloc, 7, 64).ok()?;
    let stop = Stop::new();
    let (stop, lines, ends) = (&stop, lines.as_slice(), ends.as_slice());
    let queues = TickQueues::of(lines)?;
    let began = Instant::now(rt).ok()?;
    let (_, have_come) = thread::join(
        rt,
        move || timer(rt, stop, millis, queues),
        move || {
            let mut have_come = true;
            for _i in 0..count {
                have_come = have_come && come_at_all(rt, ends);
            }
            stop.set();
            have_come
        },
    );
    let took = began.elapsed(rt).ok()?;
    Some((have_come && are_left_at_all(rt, ends), took))
}

// A timer whose tick is ten minutes off, and a stop that is set soon.
fn is_stopped<R: Threads + Wait + Clock + Sync>(rt: &R) -> bool {
    let Some(queues) = TickQueues::<Brand>::of(&[]) else {
        return false;
    };
    let stop = Stop::new();
    let stop = &stop;
    let (_, was_set) = thread::join(
        rt,
        move || timer(rt, stop, 600_000, queues),
        move || {
            let was_set = stop.is_set();
            thread::sleep(rt, Duration::from_millis(10));
            stop.set();
            was_set
        },
    );
    !was_set && stop.is_set()
}

#[test]
fn a_timer_ticks_at_each_of_seven_nodes_in_its_time(rt: HostRuntime) -> Result<(), Fail> {
    let (are_ticks, took) = ticks(&rt, rt.alloc(), 20, 2).ok_or("memory")?;
    assert!(rt; are_ticks);
    // The second tick comes after two times that.
    assert!(rt; took >= Duration::from_millis(40), "{took:?}");
    Ok(())
}

#[test]
fn a_timer_sleeps_where_no_time_is_told(rt: HostRuntime) -> Result<(), Fail> {
    let (are_ticks, took) = ticks(&rt, rt.alloc(), 0, 100).ok_or("memory")?;
    assert!(rt; are_ticks);
    assert!(rt; took >= Duration::from_millis(100), "{took:?}");
    // A hundred sleeps of 50 milliseconds would take five seconds.
    assert!(rt; took < Duration::from_millis(4_000), "{took:?}");
    Ok(())
}

#[test]
fn a_timer_does_not_keep_a_stop_waiting(rt: HostRuntime) -> Result<(), Fail> {
    assert!(rt; is_stopped(&rt));
    Ok(())
}
