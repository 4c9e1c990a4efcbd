//! What a refusal means to the person at a terminal, and what to do.

ghost use Rattle.std.specs.Prelude.{◌≡◌, ◌++◌, OnOk};
ghost use Rattle.urb_cli.specs.Advice.{advice_of, detailed_advice, explained_refusal};

use crate::client::refused_write::refused_write;
use std::io::Write;
use urb_names::NoMemory;

/// The number of the refusal `Gap`: its detail is the client's next number.
pub(crate) const GAP: u8 = 7;

// What a refusal with this number means, and what to do.
fn advice(number: u8) -> &'static str
    ensures { result.now ≡ advice_of number }
{
    match number {
        1 => "the node had no memory: send the same again later",
        3 => "the node is down: restart it, and send the same again",
        4 => "the node is busy: send the same again",
        5 => "the message is too long: it has more than 16384 bytes",
        6 => "the number has another message: another program uses this client",
        7 => "the next number is ",
        8 => "the node has as many messages as its cap: start it with a greater one",
        11 | 15 | 16 => "the store failed: restart the node, and send the same again",
        19 => "the node does not know this request",
        _ => "see the table of refusals",
    }
}

// Writes the advice, with the detail if it is a number to go on with.
fn push_advice(text: &mut Vec<u8>, number: u8, detail: u32) -> Result<(), NoMemory>
    ensures { OnOk result (text.new.items ≡ text.old.items ++ detailed_advice number detail) }
{
    text.extend_from_slice(advice(number).as_bytes())?;
    if number == GAP {
        write!(text, "{detail}").map_err(refused_write)?;
    }
    Ok(())
}

/// Writes the line of a refusal, with its advice.
pub(crate) fn push_refusal(text: &mut Vec<u8>, number: u8, detail: u32) -> Result<(), NoMemory>
    ensures { OnOk result (text.new.items ≡ text.old.items ++ explained_refusal number detail) }
{
    write!(text, "refused {number} {detail}: ").map_err(refused_write)?;
    push_advice(text, number, detail)?;
    text.push(b'\n')?;
    Ok(())
}
