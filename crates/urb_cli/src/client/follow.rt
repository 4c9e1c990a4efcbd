//! The command `follow`: the entries of a node's log, as they come.

ghost use Rattle.std.specs.Prelude.{◌≡◌, ◌<◌, ◌+◌, IfOk, IfErr, MatchOption, OnOk, flat_map};
ghost use Rattle.std.specs.Prelude.{length};
ghost use Rattle.std.specs.Io.KnownBytes.{Appends};
ghost use Rattle.urb_client.specs.Requests.{Asked, IsAsked, IsShort, asked_by};
ghost use Rattle.urb_client.specs.Responses.{said_by};
ghost use Rattle.urb_cli.specs.Calls.{GivesUp, answer_of};
ghost use Rattle.urb_cli.specs.EntryForms.{form_line};
ghost use Rattle.urb_cli.specs.Following.{BreaksOffAfter, IsAnswered, IsFrom, IsRefusedAfter};
ghost use Rattle.urb_cli.specs.Following.{StopsAfter};
ghost use Rattle.urb_cli.specs.Statuses.{IsClientsEnd};
ghost use Rattle.urb_cli.specs.Streams.{IsUnwritten};
ghost use Rattle.urb_cli.specs.internal.Following.{IsPageUnwritten, IsPrinted, IsUnprinted, Turns};

use crate::client::call_fault::CallFault;
use crate::client::caller::{Caller, insist};
use crate::client::entry_form::push_page_in;
use crate::client::follow_turn::FollowTurn;
use crate::client::node_caller::NodeCaller;
use crate::client::patient_stream::PATIENCE;
use crate::client::publish::write_refusal;
use crate::client::stream_end::report_stream_end;
use crate::client::stream_fault::{StreamEnd, StreamFault};
use std::alloc::Global;
use std::io;
use std::io::Write;
use std::net::{Net, TcpListener, TcpStream};
use std::time::Clock;
use urb_client::{MOST_ENTRIES, Request, Response, write_frame};
use urb_names::{Message, Name};
use urb_options::{EntryForm, FollowOptions};

/// How long a node may wait for the next entry before it answers, in milliseconds.
const WAIT_MILLIS: u16 = 5_000;

// A node that has no entry answers before the connection gives it up.
const _: () = prove!(WAIT_MILLIS as u64 <= 1_000 * PATIENCE / 2);

/// The number of the refusal of a request that the node doesn't know.
const UNKNOWN_REQUEST: u8 = 19;

// The request for the log from this place on: a wait, or a read if the node doesn't know that.
fn make_page_request(place: u32, knows_wait: bool) -> Request
    requires { 0 < place }
    ensures from { IsFrom place (asked_by result) }
    ensures values { IsAsked (asked_by result) × IsShort (asked_by result) }
{
    let max = MOST_ENTRIES as u8;
    if knows_wait {
        Request::Wait {
            place,
            max,
            millis: WAIT_MILLIS,
        }
    } else {
        Request::Read { place, max }
    }
}

// Writes the lines of a page.
fn write_page<W: Write>(
    alloc: Global,
    writer: &mut W,
    form: EntryForm,
    page: &[(Name, Message)],
) -> Result<(), StreamFault>
    ensures ok { OnOk result (Appends (W.contents writer.old) (W.contents writer.new)
        (flat_map (form_line form) page.now)) }
    ensures err { IfErr result
        (λ why. IsUnwritten why (W.contents writer.old) (W.contents writer.new)) }
{
    let mut text = Vec::new(alloc);
    push_page_in(alloc, &mut text, form, page)?;
    Ok(write_frame(writer, text.as_slice())?)
}

// Asks for the log from this place on, until there is a response.
fn ask_page<C: Caller>(caller: &mut C, place: u32, knows_wait: bool) -> Result<Response, CallFault>
    requires { 0 < place }
    ensures answer { IsAnswered C.calls caller.old place (answer_of result) caller.new }
    ensures err { IfErr result (λ why. (asked : Asked) × IsFrom place asked
        × GivesUp C.calls asked caller.old why caller.new) }
{
    let request = make_page_request(place, knows_wait);
    insist(caller, &request)
}

// The place after a page of `count` entries that begins at `place`. `None`: no log is that long.
fn find_place_after(place: u32, count: usize) -> Option<u32>
    ensures { MatchOption result (u32.MAX < place + count) (λ next. next ≡ place + count) }
{
    let next = (place as usize).checked_add(count)?;
    if next <= u32::MAX as usize {
        Some(next as u32)
    } else {
        None
    }
}

// Writes the lines of a page, and returns the place after it. `AtEnd`: no log is so long.
fn write_page_from<W: Write>(
    alloc: Global,
    writer: &mut W,
    form: EntryForm,
    place: u32,
    page: &[(Name, Message)],
) -> Result<u32, StreamFault>
    ensures ok { IfOk result (λ next. (next ≡ place + length page.now)
        × Appends (W.contents writer.old) (W.contents writer.new) (flat_map (form_line form) page.now)) }
    ensures err { IfErr result
        (λ why. IsPageUnwritten place (length page.now) (W.contents writer.old) why
        (W.contents writer.new)) }
{
    let Some(next) = find_place_after(place, page.len()) else {
        return Err(StreamFault::AtEnd);
    };
    write_page(alloc, writer, form, page)?;
    Ok(next)
}

// Prints the response for the log from this place on.
fn print_response<W: Write>(
    alloc: Global,
    writer: &mut W,
    form: EntryForm,
    place: u32,
    knows_wait: bool,
    response: &Response,
) -> Result<FollowTurn, StreamFault>
    requires { 0 < place }
    ensures turn { IfOk result (λ turn. IsPrinted (form_line form) place (W.contents writer.old)
        (said_by response.now) turn (W.contents writer.new)) }
    ensures err { IfErr result (λ why. IsUnprinted place (W.contents writer.old)
        (said_by response.now) why (W.contents writer.new)) }
{
    match response {
        Response::Entries(entries) => {
            let next = write_page_from(alloc, writer, form, place, entries.as_slice())?;
            Ok(FollowTurn::Page(next))
        }
        Response::Refused { number, detail: _ } if *number == UNKNOWN_REQUEST && knows_wait => {
            Ok(FollowTurn::Older)
        }
        Response::Refused { number, detail } => {
            write_refusal(alloc, writer, *number, *detail)?;
            Ok(FollowTurn::Refused)
        }
        _ => Err(StreamFault::Call(CallFault::BadReply)),
    }
}

// Asks for the log from this place on, and prints the response.
fn take_turn<C: Caller, W: Write>(
    alloc: Global,
    caller: &mut C,
    writer: &mut W,
    form: EntryForm,
    place: u32,
    knows_wait: bool,
) -> Result<FollowTurn, StreamFault>
    requires { 0 < place }
    ensures turn { IfOk result (λ turn. Turns C.calls (form_line form)
        (record { caller = caller.old; place = place; output = W.contents writer.old }) turn
        caller.new (W.contents writer.new)) }
    ensures err { IfErr result (λ why. StopsAfter C.calls
        (record { caller = caller.old; place = place; output = W.contents writer.old }) why
        caller.new (W.contents writer.new)) }
{
    let response = ask_page(caller, place, knows_wait)?;
    print_response(alloc, writer, form, place, knows_wait, &response)
}

/// Prints the entries of a node's log from a place on, as they come. It asks the node to wait for
/// more. A node that doesn't know that is asked again and again, with pauses. It ends when the
/// output can't be written, when the node refuses, or when the node gives no response.
///
/// `Call`: the node gave no response, or none to a read. `Output`: a line could not be written.
/// `NoMemory`: memory was refused. `AtEnd`: there is no next place, or no next turn.
pub fn follow_over<C: Caller, W: Write>(
    alloc: Global,
    caller: &mut C,
    writer: &mut W,
    form: EntryForm,
    from: u32,
) -> Result<StreamEnd, StreamFault>
    requires { 0 < from }
    // It ends well only after a refusal, which it prints.
    ensures refused { IfOk result (λ ended. (ended ≡ StreamEnd.Refused)
        × IsRefusedAfter C.calls (form_line form) caller.old from (W.contents writer.old)
        caller.new (W.contents writer.new)) }
    // It breaks off only for a cause: the calls got no page, or the fault has the witness of it.
    ensures broken { IfErr result (λ fault. BreaksOffAfter C.calls (form_line form) caller.old from
        (W.contents writer.old) fault caller.new (W.contents writer.new)) }
{
    let (mut place, mut knows_wait) = (from, true);
    for _ in 0..u64::MAX {
        match take_turn(alloc, caller, writer, form, place, knows_wait)? {
            FollowTurn::Page(next) => {
                if next == place && !knows_wait {
                    caller.pause();
                }
                place = next;
            }
            FollowTurn::Older => knows_wait = false,
            FollowTurn::Refused => return Ok(StreamEnd::Refused),
        }
    }
    Err(StreamFault::AtEnd)
}

/// Does `urbd follow`, and returns the program's status: 4 if the node refused, 1 after a fault.
pub(crate) fn run_follow<R>(rt: &R, following: FollowOptions<'_>) -> u8
where
    R: AllocGlobal + Print + Eprint + Clock + Net<Listener = TcpListener, Stream = TcpStream>,
    ensures { IsClientsEnd result }
{
    let alloc = rt.alloc();
    let mut caller = NodeCaller::new(rt, alloc, following.at);
    let mut writer = io::writer(rt);
    let outcome = follow_over(
        alloc,
        &mut caller,
        &mut writer,
        following.form,
        following.from,
    );
    report_stream_end(rt, following.at, outcome)
}
