//! A group of one node, and the node's desk.

ghost use Rattle.std.specs.Prelude.{◌≤◌, IfOk, vec_len};

use std::alloc::Allocator;
use urb_client::*;
use urb_names::{ClientId, MAX_PAYLOAD, Message, Name, NoMemory, NodeId, Refusal};

/// The node of a group of one. A message that is submitted to it is in its log at once.
#[derive(Drop)]
pub(super) struct OneNode<A: Allocator> {
    alloc: A,
    log: Vec<(Name, Message<A>), A>,
}

impl<A: Allocator + Copy> OneNode<A> {
    /// Makes a node whose log is empty.
    pub(super) fn new(alloc: A) -> OneNode<A> {
        OneNode {
            alloc,
            log: Vec::new(alloc),
        }
    }

    // Returns the number of its next message.
    fn next(&self) -> u32 {
        u32::try_from(self.log.len())
            .unwrap_or(u32::MAX)
            .saturating_add(1)
    }

    /// Returns the answer to a submit.
    pub(super) fn submit(
        &mut self,
        client: ClientId,
        number: u32,
        payload: &[u8],
    ) -> Result<Response<A>, NoMemory> {
        if MAX_PAYLOAD < payload.len() {
            return Ok(Response::refused(&Refusal::TooLong));
        }
        if number == 0 || number != self.next() {
            return Ok(Response::refused(&Refusal::Gap(self.next())));
        }
        let sender = NodeId::new(1).unwrap();
        let name = Name {
            sender,
            seq: number,
        };
        let message = Message::copy_of(self.alloc, client, number, payload)?;
        self.log.push((name, message))?;
        Ok(Response::Accepted(number))
    }

    // Returns the page from this place on.
    fn page(&self, place: u32, max: u8) -> Result<Vec<(Name, Message<A>), A>, NoMemory>
        ensures { IfOk result (λ page. vec_len page ≤ 8) }
    {
        let mut page = Vec::new(self.alloc);
        for (name, message) in &self.log {
            if place <= name.seq {
                page.push((*name, message.share(self.alloc)?))?;
            }
        }
        page.truncate(usize::from(max.min(8)));
        Ok(page)
    }

    // Returns the answer to a read.
    fn read(&self, place: u32, max: u8) -> Result<Response<A>, NoMemory> {
        Response::entries(self.page(place, max)?)
    }

    /// Returns how many entries a read from this place on gets. It is 0 if memory is refused.
    pub(super) fn count_from(&self, place: u32) -> usize {
        match self.read(place, 8) {
            Ok(Response::Entries(entries)) => entries.as_slice().len(),
            _ => 0,
        }
    }
}

impl<A: Allocator + Copy> Desk for OneNode<A> {
    type Alloc = A;

    ghost answers = { λ _ _ _ _. Unit {0} };

    ghost refuses = { λ _ _ _. Unit {0} };

    fn answer(&mut self, request: &Request<A>) -> Result<Response<A>, NoMemory> {
        match request {
            Request::Submit {
                client,
                number,
                payload,
            } => self.submit(*client, *number, payload.as_slice()),
            Request::Read { place, max } | Request::Wait { place, max, .. } => self.read(
                *place, *max,
            ),
            Request::Ask(Control::Status) => {
                let logged = u32::try_from(self.log.len()).unwrap_or(u32::MAX);
                Ok(Response::Status {
                    state: NodeState::Ready,
                    own: logged,
                    logged,
                })
            }
            Request::Ask(Control::Crash | Control::Restart) => Ok(Response::Done),
        }
    }
}
