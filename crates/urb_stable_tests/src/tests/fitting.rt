//! Images that fit together, and the first misfit of those that don't.

use super::rows::{Form, image, name};
use std::alloc::{Allocator, Global};
use urb_names::{Config, Message, NodeId, Rule};
use urb_stable::{Images, Misfit, Record};

const CAP: u32 = 10;

// Appends an image, and returns whether there was memory and the names exist.
fn is_pushed<A: Allocator + Copy>(
    images: &mut Vec<Vec<Record<Message<A>>, A>, A>,
    alloc: A,
    forms: &[Form],
) -> bool {
    match image(alloc, forms, b"") {
        Some(image) => images.push(image).is_ok(),
        None => false,
    }
}

// Images with these records, one for each node.
pub(super) fn images<A: Allocator + Copy>(
    alloc: A,
    nodes: &[&[Form]],
) -> Option<Vec<Vec<Record<Message<A>>, A>, A>> {
    let mut images = Vec::new(alloc);
    let mut is_whole = true;
    for forms in nodes {
        is_whole = is_whole && is_pushed(&mut images, alloc, forms);
    }
    if is_whole { Some(images) } else { None }
}

// The verdict on images, one for each node.
fn judge<A: Allocator + Copy>(
    alloc: A,
    images: &[Vec<Record<Message<A>>, A>],
) -> Option<Option<Misfit>> {
    if images.len() > 7 {
        return None;
    }
    let config = Config::new(images.len() as u8, CAP)?;
    match Images::new(alloc, images) {
        Ok(read) => Some(read.first_misfit(config)),
        Err(_) => None,
    }
}

fn judge_forms(alloc: Global, nodes: &[&[Form]]) -> Option<Option<Misfit>> {
    let images = images(alloc, nodes)?;
    let told = judge(alloc, &images);
    drop(images);
    told
}

// A misfit, given by its rule, the node, and the sender and number of the name.
fn misfit(rule: Rule, node: u8, sender: u8, seq: u32) -> Option<Misfit> {
    let node = NodeId::new(node)?;
    let name = name(sender, seq)?;
    Some(Misfit { rule, node, name })
}

#[test]
fn images_fit_together(rt: HostRuntime) {
    let cases: [(&str, &[&[Form]]); 4] = [
        (
            "a lone node's certified message",
            &[&[Form::PendCert(1, 1)]],
        ),
        ("empty images", &[&[], &[], &[]]),
        (
            "a message certified at a relay",
            &[&[Form::Pend(1, 1)], &[Form::PendCert(1, 1)], &[]],
        ),
        // The check covers a whole image, not only its beginning.
        (
            "what a sender stores later",
            &[
                &[Form::Pend(2, 1), Form::Pend(1, 1)],
                &[Form::PendCert(1, 1), Form::Pend(2, 1)],
                &[],
            ],
        ),
    ];
    for (case, nodes) in cases {
        assert!(rt; judge_forms(rt.alloc(), nodes) == Some(None), "{case}");
    }
}

#[test]
fn the_first_misfit_of_other_images_is_told(rt: HostRuntime) {
    let cases: [(&str, &[&[Form]], Option<Misfit>); 6] = [
        (
            "a message that its sender lacks",
            &[&[], &[Form::PendCert(1, 1)], &[]],
            misfit(Rule::C, 2, 1, 1),
        ),
        (
            "a certified message of one of three",
            &[&[Form::PendCert(1, 1)], &[], &[]],
            misfit(Rule::D, 1, 1, 1),
        ),
        (
            "an own message that skips a number",
            &[&[Form::Pend(1, 2)], &[], &[]],
            misfit(Rule::B, 1, 1, 2),
        ),
        (
            "a certificate without a message",
            &[&[Form::Cert(1, 1)], &[], &[]],
            misfit(Rule::A, 1, 1, 1),
        ),
        (
            "a certified message of half the nodes",
            &[&[Form::PendCert(1, 1)], &[Form::Pend(1, 1)], &[], &[]],
            misfit(Rule::D, 1, 1, 1),
        ),
        (
            "the first misfit of the first node",
            &[
                &[Form::Pend(1, 1), Form::Pend(1, 3), Form::Cert(1, 5)],
                &[Form::Cert(1, 1)],
                &[],
            ],
            misfit(Rule::B, 1, 1, 3),
        ),
    ];
    for (case, nodes, misfit) in cases {
        assert!(rt; misfit.is_some(), "{case}");
        assert!(rt; judge_forms(rt.alloc(), nodes) == Some(misfit), "{case}");
    }
}
