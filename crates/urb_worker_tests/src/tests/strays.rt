//! Workers that give a desk no answer, or the outcome of another job.

ghost use Rattle.std.specs.Prelude.{◌≡◌, ◌≤◌, IfSome, length};
ghost use Rattle.urb_client.specs.Requests.{IsAsked, asked_by};
ghost use Rattle.urb_show.specs.Houses.{IsNamed};

use super::{open_group, open_hall, service_of};
use crossbeam_channel::{Receiver, Sender};
use std::alloc::Global;
use std::marker::Brand;
use std::sync::Wait;
use std::test::Fail;
use std::thread;
use std::thread::Threads;
use std::time::Clock;
use urb_client::{Control, Desk, Request, Response};
use urb_desk::NodeDesk;
use urb_link::Ticket;
use urb_names::{ClientId, NodeId, Payload};
use urb_show::{HouseName, LogReader, Opened};
use urb_turn::{Finished, Job};

// What a worker does with a ticket. It drops it, or answers with the outcome of another job, or
// says that this job did not run.
#[derive(Clone, Copy)]
enum Fault {
    Silent,
    Stray,
    Misrouted,
}

// A job that is like another one, but isn't the same.
fn stray_of(alloc: Global, job: Job) -> Option<Job> {
    Some(match job {
        Job::Submit {
            node,
            client,
            number,
            payload,
        } => {
            let (_, shorter) = payload.as_slice().split_last()?;
            let payload = Payload::copied(alloc, shorter).ok()?;
            Job::Submit {
                node,
                client,
                number,
                payload,
            }
        }
        Job::Crash(node) => Job::Restart(node),
        Job::Restart(node) | Job::Status(node) | Job::Tick(node) => Job::Crash(node),
        Job::Arrive { node, bytes } => Job::Arrive { node, bytes },
    })
}

// The job that a worker with this fault reports. `None` if it gives no answer.
fn told_job(alloc: Global, fault: Fault, job: Job) -> Option<Job> {
    match fault {
        Fault::Silent => None,
        Fault::Stray => stray_of(alloc, job),
        Fault::Misrouted => Some(job),
    }
}

// A worker with this fault, until its channel closes.
fn serve_wrongly<K: HouseName, R: Wait>(
    rt: &R,
    alloc: Global,
    jobs: Receiver<Ticket<K>>,
    fault: Fault,
) {
    for _ in rt.forever() {
        let Ok(Ticket { job, answer }) = jobs.recv(rt) else {
            break;
        };
        if let (Some(job), Some(answer)) = (told_job(alloc, fault, job), answer) {
            let _ = answer.send(rt, Finished::misrouted(job));
        }
    }
}

// Whether a request gets this refusal, without a detail.
fn is_refused<K: HouseName, R: Wait + Clock>(
    desk: &mut NodeDesk<'_, K, R>,
    request: &Request,
    refusal: u8,
) -> bool
    requires { IsAsked (asked_by request.now) }
{
    match desk.answer(request) {
        Ok(Response::Refused { number, detail }) => number == refusal && detail == 0,
        _ => false,
    }
}

// A submit, to be refused.
fn submit_of(alloc: Global) -> Option<Request>
    ensures { IfSome result (λ submit. IsAsked (asked_by submit)) }
{
    Some(Request::Submit {
        client: ClientId::new(7)?,
        number: 1,
        payload: Payload::copied(alloc, b"hi").ok()?,
    })
}

// Whether a request without fields gets this refusal.
fn is_control_refused<K: HouseName, R: Wait + Clock>(
    desk: &mut NodeDesk<'_, K, R>,
    control: Control,
    refusal: u8,
) -> bool {
    is_refused(desk, &Request::Ask(control), refusal)
}

// Whether a submit, a status, a crash and a restart each get this refusal.
fn are_refused<K: HouseName, R: Wait + Clock>(
    rt: &R,
    alloc: Global,
    line: &Sender<Ticket<K>>,
    reader: LogReader<K>,
    refusal: u8,
) -> Option<bool>
    requires { 1 ≤ length K.base }
{
    let (node, (hall, position)) = (NodeId::new(1).unwrap(), open_hall(alloc, reader)?);
    let mut desk = NodeDesk::new(rt, alloc, node, service_of(line, &hall), position);
    let is_submit_refused = match submit_of(alloc) {
        Some(submit) => is_refused(&mut desk, &submit, refusal),
        None => false,
    };
    let are_others_refused = is_control_refused(&mut desk, Control::Status, refusal)
        && is_control_refused(&mut desk, Control::Crash, refusal)
        && is_control_refused(&mut desk, Control::Restart, refusal);
    drop(desk);
    Some(is_submit_refused && are_others_refused)
}

// A desk whose worker has this fault. Returns whether it refuses all requests in this way.
fn ask_desk<K: HouseName + Send + Sync, R: Threads + Wait + Clock + Sync>(
    rt: &R,
    alloc: Global,
    opened: Opened,
    fault: Fault,
    refusal: u8,
) -> Option<bool>
    requires names { IsNamed opened K.book K.history K.base K.origin }
    requires nodes { opened.group.size.n ≡ 1 }
{
    let (house, mut readers) = match opened.parts::<K, R>(rt, alloc) {
        Ok(parts) => parts,
        Err((opened, _)) => {
            drop(opened.close());
            return None;
        }
    };
    house.recall();
    drop(house.close(rt));
    let (line, jobs) = crossbeam_channel::bounded(alloc, 64).ok()?;
    let reader = readers.pop()?;
    let ((), refused) = thread::join(
        rt,
        move || serve_wrongly(rt, alloc, jobs, fault),
        move || -> Option<bool>
            requires { 1 ≤ length K.base }
        { are_refused(rt, alloc, &line, reader, refusal) },
    );
    refused
}

#[test]
fn a_desk_without_an_answer_says_down(rt: HostRuntime) -> Result<(), Fail> {
    let opened = open_group(rt.alloc(), 1).ok_or("memory")?;
    let refused = ask_desk::<Brand, _>(&rt, rt.alloc(), opened, Fault::Silent, 3);
    assert_eq!(rt; refused, Some(true));
    Ok(())
}

#[test]
fn a_desk_tells_nothing_of_another_job(rt: HostRuntime) -> Result<(), Fail> {
    let opened = open_group(rt.alloc(), 1).ok_or("memory")?;
    let refused = ask_desk::<Brand, _>(&rt, rt.alloc(), opened, Fault::Stray, 3);
    assert_eq!(rt; refused, Some(true));
    Ok(())
}

#[test]
fn a_desk_says_down_of_a_job_that_did_not_run(rt: HostRuntime) -> Result<(), Fail> {
    let opened = open_group(rt.alloc(), 1).ok_or("memory")?;
    let refused = ask_desk::<Brand, _>(&rt, rt.alloc(), opened, Fault::Misrouted, 3);
    assert_eq!(rt; refused, Some(true));
    Ok(())
}
