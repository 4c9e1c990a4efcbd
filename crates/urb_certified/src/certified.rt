//! The set of certified names, whose look-ups stay fast however long the history is.

ghost use Rattle.std.specs.Prelude.{◌≡◌, ◌+◌, ◌-◌, ◌<◌, true, [], ◌∷◌, length, OnOk, OnErr, IfOk};
ghost use Rattle.std.specs.Prelude.{IsOk};
ghost use Rattle.std.specs.Bool.{Decides};
ghost use Rattle.urb_names.specs.Names.{has_name};
ghost use Rattle.urb_names.specs.Release.{beginning};
ghost use Rattle.urb_certified.specs.Certificates.{IsCertificates, with_name};

use crate::parts::{has, join, low_of, reach_with};
use crate::row::are_same;
use std::alloc::{Allocator, Global};
use std::marker::Model;
use urb_names::{MAX_SENDERS, Name, NoMemory, NodeId};

/// Certified names, each once. For each sender it keeps the number up to which its names have no
/// gap, and the names above the gap in order.
#[derive(Drop)]
#[derive_where(Debug)]
pub struct Certified<A: Allocator = Global> {
    low: [u32; MAX_SENDERS],
    above: Vec<Name, A>,
}

impl<A: Allocator> Model for Certified<A> {
    ghost use Rattle.urb_certified.specs.Certificates.{Certificates};

    ghost Value = { Certificates };

    ghost use Rattle.urb_certified.specs.CertificateFields.{view_of};
    ghost use Rattle.urb_certified.specs.internal.FieldInvariant.{IsKept};

    ghost view = { view_of };

    ghost invariant = { IsKept };
}

impl<A: Allocator + Copy> Certified<A> {
    /// An empty set. Allocates no memory; later growth comes from `alloc`.
    pub fn new(alloc: A) -> Certified<A>
        ensures { result.names ≡ [] }
    {
        Certified {
            low: [0; MAX_SENDERS],
            above: Vec::new(alloc),
        }
    }

    /// Does nothing at run time; it brings the value's invariant into the proof.
    pub fn recall(&self)
        ensures { IsCertificates self.now }
    {
        let _above = &self.above;
    }

    /// Whether a name is certified.
    pub fn has(&self, name: Name) -> bool
        ensures { result ≡ has_name self.now.names name }
    {
        has(&self.low, &self.above, name)
    }

    /// How many of a sender's names, from 1 on, are certified without a gap.
    pub fn reach(&self, sender: NodeId) -> u32
        ensures { result ≡ length (beginning sender self.now.names) }
    {
        low_of(&self.low, sender)
    }

    /// How many of the sender's names, from 1 on, would be certified without a gap if this name
    /// were certified too.
    pub fn reach_with(&self, name: Name) -> u32
        ensures { result ≡ length (beginning name.sender (name ∷ self.now.names)) }
    {
        reach_with(&self.low, &self.above, name)
    }

    /// Reserves space for any one more name, so that its `add` allocates nothing. `NoMemory` means
    /// that an allocation was refused; the caller may make the call again.
    pub fn make_room(&mut self) -> Result<(), NoMemory>
        ensures names { self.new.names ≡ self.old.names }
        ensures ok { OnOk result (self.new.room ≡ true) }
        ensures err { OnErr result (self.old.room ≡ true → self.new.room ≡ true) }
    {
        self.above.reserve(1)?;
        Ok(())
    }

    /// Certifies one more name. If it closes a gap, the names that follow it join the part without
    /// a gap. `NoMemory` means that an allocation was refused; the caller may make the call again.
    pub fn add(&mut self, name: Name) -> Result<(), NoMemory>
        ensures ok { OnOk result (self.new.names ≡ with_name self.old.names name) }
        ensures err { OnErr result
            ((self.new.names ≡ self.old.names) × (self.old.room ≡ true → self.new.room ≡ true)) }
        // `NoMemory` comes only if the name is new, and never if space is reserved.
        ensures again { has_name self.old.names name ≡ true → IsOk result }
        ensures roomy { self.old.room ≡ true → IsOk result }
    {
        if self.has(name) {
            return Ok(());
        }
        join(&mut self.low, &mut self.above, name)?;
        Ok(())
    }

    /// Removes all names. The memory stays allocated.
    pub fn clear(&mut self)
        ensures { self.new.names ≡ [] }
    {
        self.low = [0; MAX_SENDERS];
        self.above.clear();
    }

    /// A copy with the same names. Its memory comes from `alloc`.
    pub fn copy(&self, alloc: A) -> Result<Certified<A>, NoMemory>
        ensures { IfOk result (λ copy. copy.names ≡ self.now.names) }
    {
        let mut above = Vec::new(alloc);
        above.extend_from_slice(&self.above)?;
        Ok(Certified {
            low: self.low,
            above,
        })
    }

    /// Whether both sets have the same names.
    pub fn is_same(&self, other: &Certified<A>) -> bool
        ensures { Decides result (self.now.names ≡ other.now.names) }
    {
        self.low == other.low && are_same(&self.above, &other.above)
    }
}
