//! Release by number: the certified names, and the log that they deliver.

ghost use Rattle.std.specs.Prelude.{◌≡◌, suc, ◌<◌, ◌≤◌, ◌+◌, ◌-◌, ◌==◌, true, false};
ghost use Rattle.std.specs.Prelude.{[], ◌∷◌, ◌++◌, None, Some, map, length, vec_len};
ghost use Rattle.std.specs.Prelude.{vec_capacity, List, IsOk, IfOk, OnOk, OnErr};
ghost use Rattle.std.specs.Bool.{Decides};
ghost use Rattle.urb_names.specs.Nodes.{numbers_from};
ghost use Rattle.urb_names.specs.Names.{has_name, name};
ghost use Rattle.urb_names.specs.LabelsAndContents.{IsLabel, Label};
ghost use Rattle.urb_names.specs.RisingLists.{reserved_for};
ghost use Rattle.urb_names.specs.Release.{part_of};
ghost use Rattle.urb_fifo.specs.Delivery.{IsDelivery, IsReleaseOf};
ghost use Rattle.urb_fifo.specs.NewReleases.{certifying, newly_released};

use std::alloc::{Allocator, Global};
use std::marker::Model;
use urb_certified::Certified;
use urb_names::{Config, Name, NoMemory, NodeId};

/// The certified names, and the log of the released ones. A name is released once it and all lower
/// numbers of its sender are certified (broadcast with sequence number, section 3.9 of the textbook
/// that docs/GLOSSARY.md names).
#[derive(Drop)]
#[derive_where(Debug)]
pub struct Fifo<A: Allocator = Global> {
    config: Config,
    certified: Certified<A>,
    log: Vec<Name, A>,
    reserved: Option<Name>,
}

impl<A: Allocator> Model for Fifo<A> {
    ghost use Rattle.urb_fifo.specs.Delivery.{Delivery};

    ghost Value = { Delivery };

    ghost use Rattle.urb_fifo.specs.LogFields.{view_of};
    ghost use Rattle.urb_fifo.specs.internal.LogInvariant.{IsKept};

    ghost view = { view_of };

    ghost invariant = { IsKept };
}

// The reservation left once this name has been added: another name may use up the reserved space.
fn reservation_after(reserved: Option<Name>, name: Name) -> Option<Name>
    ensures { result ≡ reserved_for reserved name }
{
    match reserved {
        Some(kept) => if kept == name { Some(kept) } else { None },
        None => None,
    }
}

fn are_same(first: &[Name], second: &[Name]) -> bool
    ensures { Decides result (first.now ≡ second.now) }
{
    first == second
}

#[tactic(auto, using(crate::proofs::NameRows::row_next, crate::proofs::NameRows::row_none))]
// Appends a sender's names with the numbers `from + 1` to `end`.
fn release<A: Allocator>(log: &mut Vec<Name, A>, sender: NodeId, from: u32, end: u32)
    requires range { from ≤ end }
    requires room { vec_len log.old + (end - from) ≤ vec_capacity log.old }
    ensures log { log.new.items
        ≡ log.old.items ++ map (name sender) (numbers_from (suc from) (end - from)) }
    ensures len { vec_len log.new ≡ vec_len log.old + (end - from) }
{
    for seq in from..end {
        log.push_reserved(Name {
            sender,
            seq: seq + 1,
        });
    }
}

impl<A: Allocator + Copy> Fifo<A> {
    /// Nothing is certified and nothing is released.
    pub fn new(alloc: A, config: Config) -> Fifo<A>
        ensures { result ≡ record { limits = config; certified = []; log = []; reserved = None } }
    {
        config.recall();
        Fifo {
            config,
            certified: Certified::new(alloc),
            log: Vec::new(alloc),
            reserved: None,
        }
    }

    /// Does nothing at run time; it brings the value's invariant into the proof.
    pub fn recall(&self)
        ensures { IsDelivery self.now }
    {
        let _log = &self.log;
    }

    /// Whether a name is certified.
    pub fn is_certified(&self, name: Name) -> bool
        ensures { result ≡ has_name self.now.certified name }
    {
        self.certified.has(name)
    }

    /// The released names, in the order of their release.
    pub fn log(&self) -> &[Name]
        ensures { result.now ≡ self.now.log }
    {
        self.log.as_slice()
    }

    /// How many names of a sender are released: its numbers 1, 2, 3, .. up to this one.
    pub fn count(&self, sender: NodeId) -> u32
        ensures count { result ≡ length (part_of sender self.now.log) }
        ensures most { result ≤ self.now.limits.cap }
    {
        self.certified.reach(sender)
    }

    /// A copy with the same certified names and log, and no reservation. Its memory comes from
    /// `alloc`.
    pub fn copy(&self, alloc: A) -> Result<Fifo<A>, NoMemory>
        ensures { IfOk result (λ copy. copy ≡ record self.now { reserved = None }) }
    {
        let mut log = Vec::new(alloc);
        log.extend_from_slice(&self.log)?;
        let certified = self.certified.copy(alloc)?;
        let reserved = None;
        Ok(Fifo {
            config: self.config,
            certified,
            log,
            reserved,
        })
    }

    /// Whether both have the same certified names and the same log.
    pub fn is_same(&self, other: &Fifo<A>) -> bool
        ensures { Decides result
            ((self.now.certified ≡ other.now.certified) × (self.now.log ≡ other.now.log)) }
    {
        self.certified.is_same(&other.certified) && are_same(&self.log, &other.log)
    }

    // Returns two numbers. The certificate would release its sender's names after the first number,
    // up to the second. If the two are equal, it would release none.
    fn range_released_by(&self, certificate: Name) -> (u32, u32)
        requires sender { certificate.sender ≤ self.now.limits.n }
        requires seq { certificate.seq ≤ self.now.limits.cap }
        ensures range { result.0 ≤ result.1 }
        ensures names { newly_released self.now.log self.now.certified certificate
            ≡ map (name certificate.sender) (numbers_from (suc result.0) (result.1 - result.0)) }
        ensures label { IsLabel certificate }
    {
        certificate.recall();
        let from = self.certified.reach(certificate.sender);
        let end = self.certified.reach_with(certificate);
        (from, end)
    }

    /// Reserves space for a name of the group and for all names that its certificate would release.
    /// The space is promised until another name is certified or reserved. `NoMemory` means that an
    /// allocation was refused; the caller may make the call again.
    pub fn reserve(&mut self, name: Name) -> Result<(), NoMemory>
        requires sender { name.sender ≤ self.old.limits.n }
        requires seq { name.seq ≤ self.old.limits.cap }
        ensures ok { OnOk result (self.new ≡ record self.old { reserved = Some name }) }
        ensures err { OnErr result (self.new ≡ self.old) }
    {
        let (from, end) = self.range_released_by(name);
        self.log.reserve((end - from) as usize)?;
        self.certified.make_room()?;
        self.reserved = Some(name);
        Ok(())
    }

    /// Certifies a name of the group and returns how many names this releases: 0 if it was
    /// certified before. `NoMemory` means that an allocation was refused; the caller may make the
    /// call again.
    pub fn certify(&mut self, name: Name) -> Result<u32, NoMemory>
        requires sender { name.sender ≤ self.old.limits.n }
        requires seq { name.seq ≤ self.old.limits.cap }
        ensures ok { OnOk result (self.new ≡ certifying self.old name) }
        ensures count { IfOk result
            (λ released. length self.new.log ≡ length self.old.log + released) }
        // If the log is the release of some certificates, it is now the release of these and the
        // new one.
        ensures release { OnOk result ((older : List Label)
            → IsReleaseOf older self.old
            → IsReleaseOf (name ∷ older) self.new) }
        ensures err { OnErr result (self.new ≡ self.old) }
        ensures limits { self.new.limits ≡ self.old.limits }
        // `NoMemory` comes only if the name is new, and never for the name for which space is
        // reserved.
        ensures again { has_name self.old.certified name ≡ true → IsOk result }
        ensures roomy { self.old.reserved ≡ Some name → IsOk result }
    {
        if self.is_certified(name) {
            return Ok(0);
        }
        let count = self.certify_new(name)?;
        Ok(count)
    }

    // Certifies a name of the group that is not certified yet, and returns how many names this
    // releases.
    fn certify_new(&mut self, name: Name) -> Result<u32, NoMemory>
        requires sender { name.sender ≤ self.old.limits.n }
        requires seq { name.seq ≤ self.old.limits.cap }
        requires new { has_name self.old.certified name ≡ false }
        ensures ok { OnOk result (self.new ≡ certifying self.old name) }
        ensures count { IfOk result (λ released.
            length (newly_released self.old.log self.old.certified name) ≡ released) }
        ensures err { OnErr result (self.new ≡ self.old) }
        ensures roomy { self.old.reserved ≡ Some name → IsOk result }
    {
        let (from, end) = self.range_released_by(name);
        let released = end - from;
        self.log.reserve(released as usize)?;
        self.certified.add(name)?;
        release(&mut self.log, name.sender, from, end);
        self.reserved = reservation_after(self.reserved, name);
        Ok(released)
    }
}
