//! What an index finds, also for a name that occurs twice.

use super::rows::{Form, image, message, name};
use std::alloc::{Allocator, Global};
use urb_names::Message;
use urb_stable::{Index, Record};

// The first name occurs twice; the second has a certificate.
pub(super) const TWICE: [Form; 4] = [
    Form::Pend(1, 1),
    Form::PendCert(1, 2),
    Form::Cert(1, 1),
    Form::Pend(1, 1),
];

// The letters of the messages; the certificate has no message.
pub(super) const LETTERS: &[u8] = b"ab-c";

// Whether the index has the message with this letter under a name of node 1.
fn has<A: Allocator + Copy>(index: &Index<A>, alloc: A, seq: u32, letter: u8) -> Option<bool> {
    let name = name(1, seq)?;
    let message = message(alloc, seq, letter)?;
    let has_it = index.has(name, &message);
    drop(message);
    Some(has_it)
}

// Whether an index of the image finds exactly the expected messages a, b and c under each name.
fn finds_each<A: Allocator + Copy>(alloc: A, image: &[Record<Message<A>>]) -> Option<bool> {
    let index = Index::new(alloc, image).ok()?;
    let mut finds = true;
    for (seq, letters) in [
        (1, [(b'a', true), (b'b', false), (b'c', true)]),
        (2, [(b'a', false), (b'b', true), (b'c', false)]),
        (3, [(b'a', false), (b'b', false), (b'c', false)]),
    ] {
        for (letter, there) in letters {
            finds = finds && has(&index, alloc, seq, letter) == Some(there);
        }
    }
    drop(index);
    Some(finds)
}

fn finds_all(alloc: Global) -> Option<bool> {
    let image = image(alloc, &TWICE, LETTERS)?;
    let finds = finds_each(alloc, &image);
    drop(image);
    finds
}

#[test]
fn an_index_finds_each_pair_of_a_name(rt: HostRuntime) {
    assert_eq!(rt; finds_all(rt.alloc()), Some(true));
}
