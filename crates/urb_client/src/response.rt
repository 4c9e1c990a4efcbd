//! Responses to clients, and their frames.

ghost use Rattle.std.specs.Prelude.{◌≡◌, ◌≤◌, ◌++◌, length, IfOk, OnOk};
ghost use Rattle.std.specs.List.{All, flat_map};
ghost use Rattle.urb_client.specs.Pages.{SaysPage};
ghost use Rattle.urb_client.specs.Listings.{IsEntry, entry_bytes, entry_head, listing_body};
ghost use Rattle.urb_client.specs.Responses.{IsSaid, Listing, encoding, response_body, state_byte};
ghost use Rattle.urb_client.specs.Responses.{said_by};

use crate::format::{
    ENTRY_HEAD, LONGEST_FRAME, MOST_ENTRIES, SAY_ACCEPTED, SAY_DONE, SAY_ENTRIES, SAY_REFUSED,
    SAY_STATUS,
};
use crate::pages::measure_fitting;
use byteorder::{BigEndian, ByteOrder};
use std::alloc::{Allocator, Global};
use std::marker::Model;
use urb_names::{Message, Name, NoMemory, Refusal};

/// At most `MOST_ENTRIES` entries of a log, in its order, and no more than a frame has room for.
/// Each entry is a name and its message.
#[derive(Drop)]
#[derive_where(Debug)]
pub struct Entries<A: Allocator = Global> {
    entries: Vec<(Name, Message<A>), A>,
}

impl<A: Allocator> Model for Entries<A> {
    ghost use Rattle.std.specs.Prelude.{◌≤◌, List, length, vec_len};
    ghost use Rattle.urb_names.specs.LabelsAndContents.{Label, Content};
    ghost use Rattle.urb_client.specs.Listings.{listing_body};
    ghost use Rattle.urb_client.specs.declared.format.TheConstants.{LONGEST_FRAME, MOST_ENTRIES};

    ghost Value = { List (Label × Content) };

    ghost view = { λ a. a.entries.items };

    ghost invariant = { λ a. (vec_len a.entries ≤ MOST_ENTRIES)
        × (length (listing_body a.entries.items) ≤ LONGEST_FRAME) };
}

impl<A: Allocator> Entries<A> {
    // Makes a list of these entries.
    pub(crate) fn of(entries: Vec<(Name, Message<A>), A>) -> Entries<A>
        requires limit { length entries.items ≤ MOST_ENTRIES }
        requires room { length (listing_body entries.items) ≤ LONGEST_FRAME }
        ensures { result ≡ entries.items }
    {
        Entries { entries }
    }

    /// Returns the entries, in the order of the log.
    pub fn as_slice(&self) -> &[(Name, Message<A>)]
        ensures value { result.now ≡ self.now }
        ensures limit { length self.now ≤ MOST_ENTRIES }
        ensures room { length (listing_body self.now) ≤ LONGEST_FRAME }
    {
        self.entries.as_slice()
    }

    // Does nothing at run time; it brings the value's invariant into the proof: these are entries
    // of a log, and they fit in a frame.
    fn recall(&self)
        ensures { IsSaid (Listing self.now) }
    {
        recall_entries(self.as_slice());
    }
}

/// The state of a node: down, ready for the next event, or storing a record.
#[derive(Clone, Copy, Debug, PartialEq, Eq)]
pub enum NodeState {
    Down,
    Ready,
    Storing,
}

impl NodeState {
    fn byte(self) -> u8
        ensures { result ≡ state_byte self }
    {
        match self {
            NodeState::Down => 0,
            NodeState::Ready => 1,
            NodeState::Storing => 2,
        }
    }
}

/// A response to a client.
#[derive(Drop)]
#[derive_where(Debug)]
pub enum Response<A: Allocator = Global> {
    /// The message is stored. The number is that of its name: its place among the node's own
    /// messages.
    Accepted(u32),
    /// Entries of the node's log.
    Entries(Entries<A>),
    /// The node's state, how many messages it has broadcast, and how many entries its log has.
    Status {
        state: NodeState,
        own: u32,
        logged: u32,
    },
    /// The node went down, or is up again.
    Done,
    /// The request was refused: the refusal's number, and its detail.
    Refused {
        number: u8,
        detail: u32,
    },
}

impl<A: Allocator> Response<A> {
    ghost use Rattle.std.specs.Prelude.{◌≡◌, ◌≤◌, vec_len, IsOkAnd};
    ghost use Rattle.urb_names.specs.RefusalReports.{number_of, detail_of};
    ghost use Rattle.urb_client.specs.Responses.{Refused};

    /// Returns the response to a read, with a page of at most `MOST_ENTRIES` entries. It lists as
    /// many of them, from the first on, as a frame has room for. It moves the entries and allocates
    /// no memory. A page that isn't empty gives at least one entry. So a client that reads on after
    /// them gets every entry once (`one_page_after_another`).
    pub fn entries(page: Vec<(Name, Message<A>), A>) -> Result<Response<A>, NoMemory>
        requires { vec_len page ≤ MOST_ENTRIES }
        ensures { IsOkAnd result (λ response. SaysPage page.items (said_by response)) }
    {
        let fitting = measure_fitting(&page);
        let mut entries = page;
        entries.truncate(fitting.count);
        Ok(Response::Entries(Entries::of(entries)))
    }

    /// Returns the response to a request that was refused.
    pub fn refused(refusal: &Refusal) -> Response<A>
        ensures { said_by result ≡ Refused (number_of refusal.now) (detail_of refusal.now) }
    {
        Response::Refused {
            number: refusal.number(),
            detail: refusal.detail(),
        }
    }

    /// Does nothing at run time; it brings the value's invariant into the proof. The response can
    /// be encoded, and it fits in a frame.
    pub fn recall(&self)
        ensures said { IsSaid (said_by self.now) }
        ensures short { length (response_body (said_by self.now)) ≤ LONGEST_FRAME }
    {
        self.recall_values();
    }

    // Does nothing at run time; it brings the value's invariant into the proof: the values of a
    // response are within their ranges.
    fn recall_values(&self)
        ensures { IsSaid (said_by self.now) }
    {
        match self {
            Response::Accepted(seq) => {
                let _seq = *seq;
            }
            Response::Entries(entries) => entries.recall(),
            Response::Status { own, logged, .. } => {
                let _counts = (*own, *logged);
            }
            Response::Done => {}
            Response::Refused { number, detail } => {
                let _refusal = (*number, *detail);
            }
        }
    }
}

/// Returns the whole frame of a response. Each response has one, by its `recall`. It asks for
/// memory once, for the whole frame.
pub fn encode_response<A: Allocator + Copy>(
    alloc: A,
    response: &Response<A>,
) -> Result<Vec<u8, A>, NoMemory>
    ensures { IfOk result (λ v. v.items ≡ encoding (said_by response.now)) }
{
    response.recall();
    let body_len = count_body(response);
    let mut len = [0; 2];
    BigEndian::write_u16(&mut len, body_len as u16);
    let mut frame = Vec::with_capacity(alloc, 2 + body_len)?;
    frame.extend_from_slice(&len)?;
    push_body(&mut frame, response)?;
    Ok(frame)
}

// Returns how many bytes the body of a response has.
fn count_body<A: Allocator>(response: &Response<A>) -> usize
    ensures { result ≡ length (response_body (said_by response.now)) }
{
    match response {
        Response::Accepted(_) => 5,
        Response::Entries(entries) => measure_fitting(entries.as_slice()).bytes,
        Response::Status { .. } => 10,
        Response::Done => 1,
        Response::Refused { .. } => 6,
    }
}

// Appends the body of a response.
fn push_body<A: Allocator, B: Allocator>(
    frame: &mut Vec<u8, A>,
    response: &Response<B>,
) -> Result<(), NoMemory>
    ensures { OnOk result
        (frame.new.items ≡ frame.old.items ++ response_body (said_by response.now)) }
{
    match response {
        Response::Accepted(seq) => {
            let mut head = [SAY_ACCEPTED, 0, 0, 0, 0];
            BigEndian::write_u32(&mut head[1..], *seq);
            frame.extend_from_slice(&head)?;
        }
        Response::Entries(entries) => {
            let entries = entries.as_slice();
            frame.extend_from_slice(&[SAY_ENTRIES, entries.len() as u8])?;
            push_entries(frame, entries)?;
        }
        Response::Status { state, own, logged } => {
            let mut head = [SAY_STATUS, state.byte(), 0, 0, 0, 0, 0, 0, 0, 0];
            BigEndian::write_u32(&mut head[2..], *own);
            BigEndian::write_u32(&mut head[6..], *logged);
            frame.extend_from_slice(&head)?;
        }
        Response::Done => frame.push(SAY_DONE)?,
        Response::Refused { number, detail } => {
            let mut head = [SAY_REFUSED, *number, 0, 0, 0, 0];
            BigEndian::write_u32(&mut head[2..], *detail);
            frame.extend_from_slice(&head)?;
        }
    }
    Ok(())
}

fn push_entries<A: Allocator, B: Allocator>(
    body: &mut Vec<u8, A>,
    entries: &[(Name, Message<B>)],
) -> Result<(), NoMemory>
    ensures { OnOk result (body.new.items ≡ body.old.items ++ flat_map entry_bytes entries.now) }
{
    for entry in entries {
        push_entry(body, entry)?;
    }
    Ok(())
}

fn push_entry<A: Allocator, B: Allocator>(
    body: &mut Vec<u8, A>,
    entry: &(Name, Message<B>),
) -> Result<(), NoMemory>
    ensures { OnOk result (body.new.items ≡ body.old.items ++ entry_bytes entry.now) }
{
    let (name, message) = entry;
    body.extend_from_slice(&entry_head(*name, message))?;
    body.extend_from_slice(message.payload())?;
    Ok(())
}

// States that each element is an entry of a log. This call does nothing: it is for proofs only.
fn recall_entries<A: Allocator>(entries: &[(Name, Message<A>)])
    ensures { All IsEntry entries.now }
{
    for (name, message) in entries {
        name.recall();
        message.recall();
    }
}

// Returns the bytes before the payload.
fn entry_head<A: Allocator>(name: Name, message: &Message<A>) -> [u8; ENTRY_HEAD]
    ensures { result ≡ entry_head name message.now }
{
    let mut head = [name.sender.number(), 0, 0, 0, 0, 0, 0, 0, 0, 0, 0, 0, 0];
    BigEndian::write_u32(&mut head[1..], name.seq);
    BigEndian::write_u16(&mut head[5..], message.client().number());
    BigEndian::write_u32(&mut head[7..], message.number());
    BigEndian::write_u16(&mut head[11..], message.payload().len() as u16);
    head
}
