//! Sets of nodes, one set for each name: one byte a name, with one bit for each node.

ghost use Rattle.std.specs.Prelude.{◌≡◌, ◌<◌, ◌≤◌, false, [], None, Some, IsOk, OnOk, OnErr};
ghost use Rattle.std.specs.Prelude.{count_by, is_some, option_map, slice_get};
ghost use Rattle.urb_names.specs.declared.limits.TheConstants.{MAX_NODES};
ghost use Rattle.urb_names.specs.Acknowledgements.{acked};
ghost use Rattle.urb_names.specs.Names.{has_name};
ghost use Rattle.urb_names.specs.Nodes.{nodes};
ghost use Rattle.urb_window.specs.Entries.{names_of, value_of};
ghost use Rattle.urb_window.specs.Marks.{IsMarkSet, marks_of, with_mark, with_room};
ghost use Rattle.urb_window.specs.NodeMasks.{marks_in};
ghost use Rattle.urb_window.specs.internal.EntryMasks.{mask_of};

use crate::Windows;
use crate::mask::{bits_up_to, has_bit, with_bit};
use std::alloc::{Allocator, Global};
use std::marker::Model;
use urb_names::{Name, NoMemory, NodeId};

/// For each name, a set of marked nodes: those that count as acknowledging it, or those whose
/// certificates of it were heard.
#[derive(Drop)]
#[derive_where(Debug)]
pub struct Marks<A: Allocator = Global> {
    masks: Windows<u8, A>,
}

impl<A: Allocator> Model for Marks<A> {
    ghost use Rattle.urb_window.specs.Marks.{MarkSet};

    ghost Value = { MarkSet };

    ghost use Rattle.urb_window.specs.Marks.{view_of};

    ghost view = { view_of };
}

// The mask under a name; 0 if it has none.
fn mask_of<A: Allocator + Copy>(masks: &Windows<u8, A>, name: Name) -> u8
    ensures { result ≡ mask_of masks.now.entries name }
{
    match masks.get(name) {
        Some(mask) => *mask,
        None => 0,
    }
}

// Whether there is a mask under a name.
fn has_mask<A: Allocator + Copy>(masks: &Windows<u8, A>, name: Name) -> bool
    ensures { result ≡ is_some (value_of masks.now.entries name) }
{
    masks.get(name).is_some()
}

// Whether the node with this number is marked for a name.
#[tactic(auto, using(crate::proofs::MaskPairs::acked_bit))]
fn is_marked<A: Allocator + Copy>(masks: &Windows<u8, A>, name: Name, number: u8) -> bool
    requires { (0 < number) × (number ≤ MAX_NODES) }
    ensures { result ≡ acked (marks_in masks.now.entries) name number }
{
    masks.recall();
    has_bit(mask_of(masks, name), number)
}

// How many of the nodes 1 to n are marked for a name.
fn count_of<A: Allocator + Copy>(masks: &Windows<u8, A>, name: Name, n: u8) -> u8
    requires { n ≤ MAX_NODES }
    ensures count { result ≡ count_by (acked (marks_in masks.now.entries) name) (nodes n) }
    ensures most { result ≤ n }
{
    masks.recall();
    bits_up_to(mask_of(masks, name), n)
}

// Allocates lasting space for the marks of a name.
fn make_room<A: Allocator + Copy>(masks: &mut Windows<u8, A>, name: Name) -> Result<(), NoMemory>
    ensures ok { OnOk result (marks_of masks.new ≡ with_room (marks_of masks.old) name) }
    ensures err { OnErr result (masks.new ≡ masks.old) }
{
    if has_mask(masks, name) {
        return Ok(());
    }
    match masks.insert(name, 0) {
        Ok(()) => Ok(()),
        Err((_, refused)) => Err(refused),
    }
}

// Marks the node with this number for a name. It must not be marked for the name yet.
fn mark<A: Allocator + Copy>(
    masks: &mut Windows<u8, A>,
    name: Name,
    number: u8,
) -> Result<(), NoMemory>
    requires range { (0 < number) × (number ≤ MAX_NODES) }
    requires new { acked (marks_in masks.old.entries) name number ≡ false }
    ensures ok { OnOk result (marks_of masks.new ≡ with_mark (marks_of masks.old) name number) }
    ensures err { OnErr result (masks.new ≡ masks.old) }
    ensures roomy { (has_name (names_of masks.old.entries) name ≡ false
        → masks.old.reserved ≡ Some name)
        → IsOk result }
{
    masks.recall();
    let mask = with_bit(mask_of(masks, name), number);
    if has_mask(masks, name) {
        masks.replace(name, mask);
        masks.recall();
        return Ok(());
    }
    match masks.insert(name, mask) {
        Ok(()) => {
            masks.recall();
            Ok(())
        }
        Err((_, refused)) => Err(refused),
    }
}

// The name of the mask at a place in the order of names, from 0.
fn name_at<A: Allocator + Copy>(masks: &Windows<u8, A>, index: usize) -> Option<Name>
    ensures { result ≡ option_map (λ entry. entry.0) (slice_get masks.now.entries index) }
{
    match masks.entry(index) {
        Some((name, _)) => Some(name),
        None => None,
    }
}

// Clears the mask under each name.
fn unmark_all<A: Allocator + Copy>(masks: &mut Windows<u8, A>)
    ensures { marks_of masks.new ≡ record (marks_of masks.old) { marks = [] } }
{
    for index in 0..masks.count() {
        let name = name_at(masks, index).unwrap();
        masks.replace(name, 0);
    }
}

impl<A: Allocator + Copy> Marks<A> {
    /// No marks. Allocates no memory; later growth comes from `alloc`.
    pub fn new(alloc: A) -> Marks<A>
        ensures { result ≡ record { marks = []; roomy = []; reserved = None } }
    {
        Marks {
            masks: Windows::new(alloc),
        }
    }

    /// Does nothing at run time; it brings the value's invariant into the proof.
    pub fn recall(&self)
        ensures { IsMarkSet self.now }
    {
        self.masks.recall();
    }

    /// Whether a node is marked for a name.
    pub fn has(&self, name: Name, node: NodeId) -> bool
        ensures { result ≡ acked self.now.marks name node }
    {
        is_marked(&self.masks, name, node.number())
    }

    /// How many of the nodes 1 to n are marked for a name.
    pub fn count_of(&self, name: Name, n: u8) -> u8
        requires { n ≤ MAX_NODES }
        ensures count { result ≡ count_by (acked self.now.marks name) (nodes n) }
        ensures most { result ≤ n }
    {
        count_of(&self.masks, name, n)
    }

    /// Whether a name has space for its marks, so that an `add` for it allocates nothing.
    pub fn is_roomy(&self, name: Name) -> bool
        ensures { result ≡ has_name self.now.roomy name }
    {
        has_mask(&self.masks, name)
    }

    /// Reserves space for the marks of a name, and marks nothing. The reservation ends when another
    /// name gets its first mark, or space by `make_room` or `reserve`. `NoMemory` means that an
    /// allocation was refused; the caller may make the call again.
    pub fn reserve(&mut self, name: Name) -> Result<(), NoMemory>
        ensures ok { OnOk result (self.new ≡ record self.old { reserved = Some name }) }
        ensures err { OnErr result (self.new ≡ self.old) }
    {
        self.masks.reserve(name)
    }

    /// Allocates lasting space for the marks of a name. `NoMemory` means that an allocation was
    /// refused; the caller may make the call again.
    pub fn make_room(&mut self, name: Name) -> Result<(), NoMemory>
        ensures ok { OnOk result (self.new ≡ with_room self.old name) }
        ensures err { OnErr result (self.new ≡ self.old) }
    {
        make_room(&mut self.masks, name)
    }

    /// Marks a node for a name. It must not be marked for the name yet. `NoMemory` means that an
    /// allocation was refused; the caller may make the call again.
    pub fn add(&mut self, name: Name, node: NodeId) -> Result<(), NoMemory>
        requires { acked self.old.marks name node ≡ false }
        ensures ok { OnOk result (self.new ≡ with_mark self.old name node) }
        ensures err { OnErr result (self.new ≡ self.old) }
        // `NoMemory` never comes for a name that has space, or for which space is reserved.
        ensures roomy { (has_name self.old.roomy name ≡ false → self.old.reserved ≡ Some name)
            → IsOk result }
    {
        mark(&mut self.masks, name, node.number())
    }

    /// Removes all marks; each name that has space keeps it. Allocates no memory.
    pub fn forget(&mut self)
        ensures { self.new ≡ record self.old { marks = [] } }
    {
        unmark_all(&mut self.masks);
    }

    /// Removes all marks and the space of all names.
    pub fn clear(&mut self)
        ensures { self.new ≡ record { marks = []; roomy = []; reserved = None } }
    {
        self.masks.clear();
    }
}
