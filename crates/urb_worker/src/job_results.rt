//! What a worker lets out of a job's result: packets, an answer, and a report.

ghost use Rattle.std.specs.Prelude.{◌≡◌, ◌++◌, [], MatchOption};
ghost use Rattle.urb_node.specs.Replies.{packets_in};
ghost use Rattle.urb_group.specs.Commands.{reply_of};
ghost use Rattle.urb_worker.specs.internal.Replies.{tells_record};
ghost use Rattle.urb_worker.specs.Acts.{MaySend, Sends, reports_of};
ghost use Rattle.urb_turn.specs.Changes.{change_of};

use crate::outlets::WorkerOutlets;
use crossbeam_channel::Sender;
use std::sync::Wait;
use urb_group::{Answer, Outbox, Reply};
use urb_link::Link;
use urb_names::{Packet, encode_into};
use urb_show::HouseName;
use urb_turn::{Finished, Reporter, change_of};

// Sends a packet to its node. If memory for its bytes is refused, the packet is lost. The buffer
// takes the bytes.
fn send_packet<N: Link, H: Reporter>(
    outlets: &mut WorkerOutlets<'_, N, H>,
    packet: &Packet,
    buffer: &mut Vec<u8>,
)
    ensures { MaySend outlets.old packet.now outlets.new }
{
    match encode_into(packet, buffer) {
        Ok(()) => outlets.send(packet.target(), buffer.as_slice()),
        Err(refused) => outlets.lose(packet.target(), refused),
    }
}

// Sends each packet to its node, in their order.
#[tactic(auto, using(crate::proofs::SentPackets::sends_none, crate::proofs::SentPackets::sends_all))]
fn send_packets<N: Link, H: Reporter>(
    outlets: &mut WorkerOutlets<'_, N, H>,
    packets: &Outbox,
    buffer: &mut Vec<u8>,
)
    ensures { Sends outlets.old packets.now outlets.new }
{
    for index in 0..packets.len() {
        match packets.get(index) {
            Some(packet) => send_packet(outlets, packet, buffer),
            None => {}
        }
    }
}

// Sends the packets of a reply.
#[tactic(auto, using(crate::proofs::SentPackets::sends_nothing))]
pub(crate) fn send_reply<N: Link, H: Reporter>(
    outlets: &mut WorkerOutlets<'_, N, H>,
    reply: &Reply,
    buffer: &mut Vec<u8>,
)
    ensures { Sends outlets.old (packets_in (reply_of reply.now)) outlets.new }
{
    if let Some(packets) = packets_in(reply) {
        send_packets(outlets, packets, buffer);
    }
}

// Reports how a turn changed whether a node is up, if it did.
pub(crate) fn report_change<K: HouseName, N: Link, H: Reporter>(
    outlets: &mut WorkerOutlets<'_, N, H>,
    finished: &Finished<K>,
)
    ensures { outlets.new ≡ outlets.old ++ reports_of (change_of finished.now) }
{
    if let Some(change) = change_of(finished) {
        outlets.report(&change);
    }
}

// Answers a ticket. If nobody waits for the answer, the link gets the buffer of the datagram back,
// which knows its node.
pub(crate) fn give_answer<K: HouseName, N: Link, R: Wait>(
    rt: &R,
    link: &N,
    answer: Option<Sender<Finished<K>>>,
    finished: Finished<K>,
) {
    if let Some(answer) = answer {
        let _ = answer.send(rt, finished);
    } else if let Some(datagram) = finished.into_datagram() {
        link.take_back(datagram);
    }
}

/// The packets of a reply: those of a stored record, of a tick, or in answer to a packet.
pub(crate) fn packets_in(reply: &Reply) -> Option<&Outbox>
    ensures { MatchOption result (packets_in (reply_of reply.now) ≡ [])
        (λ packets. packets.now ≡ packets_in (reply_of reply.now)) }
{
    match reply {
        Reply::Stored(done) => Some(&done.sent),
        Reply::Sent(packets) => Some(packets),
        Reply::Same(Answer::Answered(_, packets)) => Some(packets),
        _ => None,
    }
}

/// Whether a record was stored.
pub(crate) fn is_record_stored(reply: &Reply) -> bool
    ensures { result ≡ tells_record (reply_of reply.now) }
{
    matches!(reply, Reply::Stored(_))
}
