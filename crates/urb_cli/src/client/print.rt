//! What a client's commands print for each response.

ghost use Rattle.std.specs.Prelude.{◌≡◌, ◌++◌, IfOk, OnOk, flat_map, option_map};
ghost use Rattle.urb_client.specs.Responses.{said_by};
ghost use Rattle.urb_cli.specs.ClientOutput.{accepted_shown, entry_line, hex_payload};
ghost use Rattle.urb_cli.specs.ClientOutput.{listing_shown, read_shown, refused_shown, shown_by};
ghost use Rattle.urb_cli.specs.ClientOutput.{submit_shown};

use crate::client::printed::Printed;
use crate::client::refused_write::refused_write;
use std::alloc::Global;
use std::io::Write;
use urb_client::Response;
use urb_names::{Message, Name, NoMemory};

/// The status if a node refused the request.
pub(crate) const REFUSED: u8 = 4;

/// Writes a payload: its digits, or a hyphen if it is empty.
pub(crate) fn push_payload(
    alloc: Global,
    text: &mut Vec<u8>,
    payload: &[u8],
) -> Result<(), NoMemory>
    ensures { OnOk result (text.new.items ≡ text.old.items ++ hex_payload payload.now) }
{
    if payload.is_empty() {
        text.push(b'-')?;
        return Ok(());
    }
    let digits = hex::encode(alloc, payload)?;
    text.extend_from_slice(digits.as_bytes())?;
    Ok(())
}

/// Writes an entry's line.
pub(crate) fn push_entry(
    alloc: Global,
    text: &mut Vec<u8>,
    entry: &(Name, Message),
) -> Result<(), NoMemory>
    ensures { OnOk result (text.new.items ≡ text.old.items ++ entry_line entry.now) }
{
    let (name, message) = entry;
    let (sender, seq) = (name.sender.number(), name.seq);
    let (client, number) = (message.client().number(), message.number());
    write!(text, "{sender}.{seq} {client} {number} ").map_err(refused_write)?;
    push_payload(alloc, text, message.payload())?;
    text.push(b'\n')?;
    Ok(())
}

// Writes the lines of entries.
fn push_entries(
    alloc: Global,
    text: &mut Vec<u8>,
    entries: &[(Name, Message)],
) -> Result<(), NoMemory>
    ensures { OnOk result (text.new.items ≡ text.old.items ++ flat_map entry_line entries.now) }
{
    for entry in entries {
        push_entry(alloc, text, entry)?;
    }
    Ok(())
}

fn render_entries(alloc: Global, entries: &[(Name, Message)]) -> Result<Printed, NoMemory>
    ensures { IfOk result (λ shown. shown_by shown ≡ listing_shown entries.now) }
{
    let mut text = Vec::new(alloc);
    push_entries(alloc, &mut text, entries)?;
    Ok(Printed { text, status: 0 })
}

/// What is printed for a message that was accepted, under the name with this number.
pub(crate) fn render_accepted(alloc: Global, seq: u32) -> Result<Printed, NoMemory>
    ensures { IfOk result (λ shown. shown_by shown ≡ accepted_shown seq) }
{
    let mut text = Vec::new(alloc);
    write!(text, "accepted {seq}\n").map_err(refused_write)?;
    Ok(Printed { text, status: 0 })
}

/// What is printed for a refused request.
pub(crate) fn render_refusal(alloc: Global, number: u8, detail: u32) -> Result<Printed, NoMemory>
    ensures { IfOk result (λ shown. shown_by shown ≡ refused_shown number detail) }
{
    let mut text = Vec::new(alloc);
    write!(text, "refused {number} {detail}\n").map_err(refused_write)?;
    Ok(Printed {
        text,
        status: REFUSED,
    })
}

/// What `urbd submit` shows for a response. `None` if it is no response to a submit.
pub(crate) fn render_submit_response(
    alloc: Global,
    response: &Response,
) -> Result<Option<Printed>, NoMemory>
    ensures { IfOk result
        (λ shown. option_map shown_by shown ≡ submit_shown (said_by response.now)) }
{
    match response {
        Response::Accepted(seq) => Ok(Some(render_accepted(alloc, *seq)?)),
        Response::Refused { number, detail } => Ok(Some(render_refusal(alloc, *number, *detail)?)),
        _ => Ok(None),
    }
}

/// What `urbd read` shows for a response. `None` if it is no response to a read.
pub(crate) fn render_read_response(
    alloc: Global,
    response: &Response,
) -> Result<Option<Printed>, NoMemory>
    ensures { IfOk result (λ shown. option_map shown_by shown ≡ read_shown (said_by response.now)) }
{
    match response {
        Response::Entries(entries) => Ok(Some(render_entries(alloc, entries.as_slice())?)),
        Response::Refused { number, detail } => Ok(Some(render_refusal(alloc, *number, *detail)?)),
        _ => Ok(None),
    }
}
