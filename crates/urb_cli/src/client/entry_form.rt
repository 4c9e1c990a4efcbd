//! How `follow` prints the entries of a log: as text, hexadecimal or JSON.

ghost use Rattle.std.specs.Prelude.{◌≡◌, ◌++◌, OnOk, flat_map};
ghost use Rattle.std.specs.Str.{is_utf8};
ghost use Rattle.urb_cli.specs.EntryForms.{begins_with_control, escaped_byte, form_line, has_control};
ghost use Rattle.urb_cli.specs.EntryForms.{is_shown_as_text, json_head, json_line};
ghost use Rattle.urb_cli.specs.EntryForms.{json_payload, text_line, text_payload};

use crate::client::print::{push_entry, push_payload};
use crate::client::refused_write::refused_write;
use std::alloc::Global;
use std::io::Write;
use urb_names::{Message, Name, NoMemory};
use urb_options::EntryForm;

// Whether a control character begins these bytes of UTF-8.
fn begins_with_control(bytes: &[u8]) -> bool
    ensures { result ≡ begins_with_control bytes.now }
{
    match bytes {
        [] => false,
        [byte] => *byte < 32 || *byte == 127,
        [byte, next, ..] => {
            *byte < 32 || *byte == 127 || *byte == 194 && 128 <= *next && *next <= 159
        }
    }
}

// Whether there is a control character in these bytes of UTF-8.
fn has_control(bytes: &[u8]) -> bool
    ensures { result ≡ has_control bytes.now }
{
    let mut rest = bytes;
    while let [_, after @ ..] = rest {
        if begins_with_control(rest) {
            return true;
        }
        rest = after;
    }
    false
}

// Whether these bytes are UTF-8.
fn is_utf8(bytes: &[u8]) -> bool
    ensures { result ≡ is_utf8 bytes.now }
{
    str::from_utf8(bytes).is_ok()
}

// Whether a payload is printed as text.
fn is_shown_as_text(payload: &[u8]) -> bool
    ensures { result ≡ is_shown_as_text payload.now }
{
    is_utf8(payload) && !has_control(payload)
}

// Writes a payload after the word that says how it is written.
fn push_text_payload(alloc: Global, text: &mut Vec<u8>, payload: &[u8]) -> Result<(), NoMemory>
    ensures { OnOk result (text.new.items ≡ text.old.items ++ text_payload payload.now) }
{
    if is_shown_as_text(payload) {
        text.extend_from_slice(b"text ")?;
        text.extend_from_slice(payload)?;
        return Ok(());
    }
    text.extend_from_slice(b"hex ")?;
    push_payload(alloc, text, payload)
}

// Writes an entry with its payload as text, if it is text.
fn push_text_entry(
    alloc: Global,
    text: &mut Vec<u8>,
    entry: &(Name, Message),
) -> Result<(), NoMemory>
    ensures { OnOk result (text.new.items ≡ text.old.items ++ text_line entry.now) }
{
    let (name, message) = entry;
    let (sender, seq) = (name.sender.number(), name.seq);
    let (client, number) = (message.client().number(), message.number());
    write!(text, "{sender}.{seq} {client} {number} ").map_err(refused_write)?;
    push_text_payload(alloc, text, message.payload())?;
    text.push(b'\n')?;
    Ok(())
}

// Writes bytes for a string of JSON.
fn push_escaped(text: &mut Vec<u8>, bytes: &[u8]) -> Result<(), NoMemory>
    ensures { OnOk result (text.new.items ≡ text.old.items ++ flat_map escaped_byte bytes.now) }
{
    for byte in bytes {
        if *byte == b'"' || *byte == b'\\' {
            text.push(b'\\')?;
        }
        text.push(*byte)?;
    }
    Ok(())
}

// Writes the member of an object of JSON with the payload.
fn push_json_payload(alloc: Global, text: &mut Vec<u8>, payload: &[u8]) -> Result<(), NoMemory>
    ensures { OnOk result (text.new.items ≡ text.old.items ++ json_payload payload.now) }
{
    if is_shown_as_text(payload) {
        text.extend_from_slice(b"\"text\":\"")?;
        push_escaped(text, payload)?;
    } else {
        text.extend_from_slice(b"\"hex\":\"")?;
        push_payload(alloc, text, payload)?;
    }
    text.push(b'"')?;
    Ok(())
}

// Writes the front of an object of JSON.
#[tactic(auto, unfolding(crate::specs::EntryForms::json_head))]
fn push_json_head(text: &mut Vec<u8>, entry: &(Name, Message)) -> Result<(), NoMemory>
    ensures { OnOk result (text.new.items ≡ text.old.items ++ json_head entry.now) }
{
    let (name, message) = entry;
    let (sender, seq) = (name.sender.number(), name.seq);
    let (client, number) = (message.client().number(), message.number());
    write!(
        text,
        "{{\"name\":\"{sender}.{seq}\",\"client\":{client},\"number\":{number},"
    )
    .map_err(refused_write)?;
    Ok(())
}

// Writes an entry as an object of JSON.
fn push_json_entry(
    alloc: Global,
    text: &mut Vec<u8>,
    entry: &(Name, Message),
) -> Result<(), NoMemory>
    ensures { OnOk result (text.new.items ≡ text.old.items ++ json_line entry.now) }
{
    push_json_head(text, entry)?;
    push_json_payload(alloc, text, entry.1.payload())?;
    text.extend_from_slice(b"}\n")?;
    Ok(())
}

/// Writes the line of an entry in this form.
pub(crate) fn push_entry_in(
    alloc: Global,
    text: &mut Vec<u8>,
    form: EntryForm,
    entry: &(Name, Message),
) -> Result<(), NoMemory>
    ensures { OnOk result (text.new.items ≡ text.old.items ++ form_line form entry.now) }
{
    match form {
        EntryForm::Text => push_text_entry(alloc, text, entry),
        EntryForm::Hex => push_entry(alloc, text, entry),
        EntryForm::Json => push_json_entry(alloc, text, entry),
    }
}

/// Writes the lines of entries in this form.
pub(crate) fn push_page_in(
    alloc: Global,
    text: &mut Vec<u8>,
    form: EntryForm,
    page: &[(Name, Message)],
) -> Result<(), NoMemory>
    ensures { OnOk result (text.new.items ≡ text.old.items ++ flat_map (form_line form) page.now) }
{
    for entry in page {
        push_entry_in(alloc, text, form, entry)?;
    }
    Ok(())
}
