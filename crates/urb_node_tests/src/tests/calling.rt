//! Submits and packets for a node under test, and whether they have the expected results.

use super::*;
use crate::tests::packets::{letter, packet_for};
use crate::tests::rows::What;
use crate::tests::sending::are_sent;
use crate::tests::states::{AnyNode, Went, went};
use urb_names::{Flags, Payload, Refusal};
use urb_node::{Answer, Ready, Step, Storing};
use urb_stable::Draft;
use urb_stubborn::Outbox;

// Whether the packets are a single one that reports a certificate of the name, which this node
// really has. The packet must also say whether the other node's certificate was heard.
fn tells_of_a_certificate<A: Allocator + Copy>(
    ready: &Ready<A>,
    packets: &Outbox<A>,
    named: Name,
    payload: &[u8],
    (target, heard): (u8, bool),
) -> bool {
    let (source, _config) = ready.place();
    let flags = Flags {
        certified: true,
        heard,
    };
    let expected = [(target, named.seq, flags)];
    ready.certified(named) && are_sent(packets, source, named.sender, &expected, payload)
}

// Whether a node's answer is the expected one, about this name.
fn answers<A: Allocator + Copy>(
    ready: &Ready<A>,
    answer: &Answer<Outbox<A>>,
    what: &What,
    named: Name,
    payload: &[u8],
) -> bool {
    match (answer, what) {
        (Answer::Accepted(name), What::Accepted) => *name == named,
        (Answer::Noted(name), What::Noted) => *name == named,
        (Answer::Again(name), What::Again) => *name == named,
        (Answer::Answered(name, packets), What::Answered(target, heard)) => {
            *name == named
                && tells_of_a_certificate(ready, packets, named, payload, (*target, *heard))
        }
        _ => false,
    }
}

// Whether a record has this form.
fn has_form<A: Allocator>(record: &Record<Message<A>>, form: &Form) -> bool {
    match (record, form) {
        (Record::Pend(_, _), Form::Pending) => true,
        (Record::PendCert(_, _), Form::Certified) => true,
        (Record::Cert(_), Form::Certificate) => true,
        _ => false,
    }
}

// Whether a node that holds this draft doesn't show its record yet.
fn is_held_back<A: Allocator + Copy>(storing: &Storing<A>, draft: &Draft<A>) -> bool {
    match draft.entry() {
        Record::Pend(name, _) | Record::PendCert(name, _) => storing.message(*name).is_none(),
        Record::Cert(name) => !storing.certified(*name),
    }
}

// Whether a draft is the expected one, about this name.
fn drafts<A: Allocator + Copy>(draft: &Draft<A>, what: &What, named: Name) -> bool {
    let is_so = match what {
        What::Drafted(form, pos) => has_form(draft.entry(), form) && draft.pos() == *pos,
        What::Stored(form) => has_form(draft.entry(), form),
        _ => false,
    };
    is_so && draft.entry().name() == named
}

// Whether a call was refused as expected.
fn check_refusal(refusal: Refusal, what: &What) -> Option<bool> {
    let is_so = match what {
        What::TooLong => refusal == Refusal::TooLong,
        What::Conflict => refusal == Refusal::Conflict,
        What::Gap(next) => refusal == Refusal::Gap(*next),
        What::Full => refusal == Refusal::Full,
        What::NoMemory => refusal == Refusal::NoMemory,
        _ => false,
    };
    if !is_so && refusal == Refusal::NoMemory {
        return Some(false);
    }
    went(is_so)
}

// The result of a step.
fn go<A: Allocator + Copy>(step: Step<A>, what: &What, named: Name, payload: &[u8]) -> Went<A> {
    match step {
        Step::Same(ready, answer) => {
            let is_so = answers(&ready, &answer, what, named, payload);
            drop(answer);
            (AnyNode::Ready(ready), went(is_so))
        }
        Step::Store(storing, draft) => {
            let is_so = drafts(&draft, what, named) && is_held_back(&storing, &draft);
            (AnyNode::Storing(storing, draft), went(is_so))
        }
    }
}

// The result of a call that may have been refused.
fn lead<A: Allocator + Copy>(
    called: Result<Step<A>, (Ready<A>, Refusal)>,
    what: &What,
    named: Name,
    payload: &[u8],
) -> Went<A> {
    match called {
        Ok(step) => go(step, what, named, payload),
        Err((ready, refusal)) => (AnyNode::Ready(ready), check_refusal(refusal, what)),
    }
}

/// Submits a message of client 7. Its payload is in memory that is never refused.
pub(super) fn submit<A: Allocator + Copy>(
    state: AnyNode<A>,
    (heap, calm): (A, A),
    number: u32,
    payload: &[u8],
    what: &What,
    named: Name,
) -> Went<A> {
    let (Some(client), Ok(shared)) = (ClientId::new(7), Payload::copied(calm, payload)) else {
        return (state, None);
    };
    match state {
        AnyNode::Ready(ready) => lead(
            ready.submit(heap, client, number, &shared),
            what,
            named,
            payload,
        ),
        other => (other, None),
    }
}

// Delivers a packet with these bytes, which carries this message.
fn meet<A: Allocator + Copy>(
    state: AnyNode<A>,
    heap: A,
    bytes: &[u8],
    sent: &Message<A>,
    what: &What,
    named: Name,
) -> Went<A> {
    match state {
        AnyNode::Ready(ready) => match packet_for(&ready, bytes, sent) {
            Some(packet) => lead(
                ready.arrive(heap, packet, None),
                what,
                named,
                sent.payload(),
            ),
            None => (AnyNode::Ready(ready), None),
        },
        other => (other, None),
    }
}

// Delivers a packet of this message.
fn arrive_with<A: Allocator + Copy>(
    state: AnyNode<A>,
    (heap, calm): (A, A),
    origin: (u8, Option<Flags>),
    sent: &Message<A>,
    what: &What,
    named: Name,
) -> Went<A> {
    match letter(&state, calm, origin, named, sent) {
        Some(bytes) => {
            let gone = meet(state, heap, &bytes, sent, what, named);
            drop(bytes);
            gone
        }
        None => (state, None),
    }
}

/// Delivers a packet of client 7's message from this source, with these flags.
pub(super) fn arrive<A: Allocator + Copy>(
    state: AnyNode<A>,
    memory: (A, A),
    origin: (u8, Option<Flags>),
    payload: &[u8],
    what: &What,
    named: Name,
) -> Went<A> {
    match message(memory.1, 7, named.seq, payload) {
        Some(sent) => {
            let gone = arrive_with(state, memory, origin, &sent, what, named);
            drop(sent);
            gone
        }
        None => (state, None),
    }
}
