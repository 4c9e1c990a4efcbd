//! The acknowledgements counted for each name, and the certified names.

ghost use Rattle.std.specs.Prelude.{◌≡◌, true, [], None, Some, IsOk, IfOk, OnOk, OnErr};
ghost use Rattle.urb_names.specs.Names.{has_name};
ghost use Rattle.urb_names.specs.Acknowledgements.{acked};
ghost use Rattle.urb_names.specs.RisingLists.{reserved_for};
ghost use Rattle.urb_majority.specs.Acks.{IsAckSet};
ghost use Rattle.urb_majority.specs.AckOutcomes.{answer_of, certifying, counting, has_majority};
ghost use Rattle.urb_majority.specs.AckOutcomes.{has_majority_with};

use std::alloc::{Allocator, Global};
use std::marker::Model;
use urb_certified::Certified;
use urb_names::{Config, Name, NoMemory, NodeId, is_majority};
use urb_window::Marks;

/// The effect of an acknowledgement.
#[derive(Clone, Copy, Debug, PartialEq, Eq)]
pub enum Noted {
    /// The node was already counted for the name.
    Again,
    /// The node is counted for the name from now on.
    Counted,
    /// The node is counted, and it completes a majority: the name may be certified.
    Reached,
}

/// What one node knows: which nodes hold each message, and which names a majority holds. The
/// textbook calls them `ack` and `delivered`, in logged majority-ack uniform reliable broadcast
/// (section 3.7).
#[derive(Drop)]
#[derive_where(Debug)]
pub struct Acks<A: Allocator = Global> {
    config: Config,
    counted: Marks<A>,
    certified: Certified<A>,
    reserved: Option<Name>,
}

impl<A: Allocator> Model for Acks<A> {
    ghost use Rattle.urb_majority.specs.Acks.{AckSet};

    ghost Value = { AckSet };

    ghost use Rattle.urb_majority.specs.AckFields.{view_of};
    ghost use Rattle.urb_majority.specs.internal.SpaceInvariant.{IsKept};

    ghost view = { view_of };

    ghost invariant = { IsKept };
}

// The reservation left once this name has been added.
fn reservation_after(reserved: Option<Name>, name: Name) -> Option<Name>
    ensures { result ≡ reserved_for reserved name }
{
    match reserved {
        Some(kept) => if kept == name { Some(kept) } else { None },
        None => None,
    }
}

impl<A: Allocator + Copy> Acks<A> {
    /// Nothing is counted and nothing is certified.
    pub fn new(alloc: A, config: Config) -> Acks<A>
        ensures { result
            ≡ record { limits = config; counted = []; certified = []; reserved = None } }
    {
        Acks {
            config,
            counted: Marks::new(alloc),
            certified: Certified::new(alloc),
            reserved: None,
        }
    }

    /// Does nothing at run time; it brings the value's invariant into the proof: all lists are in
    /// order.
    pub fn recall(&self)
        ensures { IsAckSet self.now }
    {
        self.counted.recall();
        self.certified.recall();
    }

    /// Whether a node is counted for a name.
    pub fn noted(&self, name: Name, node: NodeId) -> bool
        ensures { result ≡ acked self.now.counted name node }
    {
        self.counted.has(name, node)
    }

    // Whether the nodes counted for a name are a majority.
    fn has_majority(&self, name: Name) -> bool
        ensures { result ≡ has_majority self.now name }
    {
        let n = self.config.n();
        is_majority(self.counted.count_of(name, n), n)
    }

    #[tactic(auto, using(crate::proofs::Majorities::with_counted))]
    /// Whether the nodes counted for a name are a majority once this node is counted too. If so,
    /// this node's acknowledgement allows the name to be certified.
    pub fn majority_with(&self, name: Name, node: NodeId) -> bool
        ensures { result ≡ has_majority_with self.now name node }
    {
        let n = self.config.n();
        if node.number() > n {
            return self.has_majority(name);
        }
        if self.counted.has(name, node) {
            self.has_majority(name)
        } else {
            is_majority(self.counted.count_of(name, n) + 1, n)
        }
    }

    #[tactic(auto, using(crate::proofs::Majorities::answer_again, crate::proofs::Majorities::answer_reached, crate::proofs::Majorities::answer_few, crate::proofs::Majorities::answer_more))]
    /// What `note` would return.
    pub fn answer(&self, name: Name, node: NodeId) -> Noted
        ensures { result ≡ answer_of self.now name node }
    {
        if self.noted(name, node) {
            Noted::Again
        } else if self.majority_with(name, node) && !self.has_majority(name) {
            Noted::Reached
        } else {
            Noted::Counted
        }
    }

    /// Reserves space for a name: for its certificate, and for an acknowledgement of it by each
    /// node. The space is promised until another name is added or reserved, or `forget` is called.
    /// `NoMemory` means that an allocation was refused; the caller may make the call again.
    pub fn reserve(&mut self, name: Name) -> Result<(), NoMemory>
        ensures ok { OnOk result (self.new ≡ record self.old { reserved = Some name }) }
        ensures err { OnErr result (self.new ≡ self.old) }
    {
        self.certified.make_room()?;
        self.counted.reserve(name)?;
        self.reserved = Some(name);
        Ok(())
    }

    /// Counts a node's acknowledgement of a name. It certifies nothing: after `Reached`, the caller
    /// first has the certificate stored. `NoMemory` means that an allocation was refused; the
    /// caller may make the call again.
    pub fn note(&mut self, name: Name, node: NodeId) -> Result<Noted, NoMemory>
        ensures ok { OnOk result (self.new ≡ counting self.old name node) }
        ensures answer { IfOk result (λ noted. noted ≡ answer_of self.old name node) }
        ensures err { OnErr result (self.new ≡ self.old) }
        // `NoMemory` comes only if the pair is new, and never for the name for which space is
        // reserved.
        ensures again { acked self.old.counted name node ≡ true → IsOk result }
        ensures roomy { self.old.reserved ≡ Some name → IsOk result }
    {
        if self.counted.has(name, node) {
            return Ok(Noted::Again);
        }
        let answer = self.answer(name, node);
        self.counted.add(name, node)?;
        self.reserved = reservation_after(self.reserved, name);
        Ok(answer)
    }

    /// The certified names.
    pub fn certificates(&self) -> &Certified<A>
        ensures { result.now.names ≡ self.now.certified }
    {
        &self.certified
    }

    /// Whether a name is certified.
    pub fn certified(&self, name: Name) -> bool
        ensures { result ≡ has_name self.now.certified name }
    {
        self.certified.has(name)
    }

    /// Certifies a name; call it once the certificate is stored. `NoMemory` means that an
    /// allocation was refused; the caller may make the call again.
    pub fn certify(&mut self, name: Name) -> Result<(), NoMemory>
        ensures ok { OnOk result (self.new ≡ certifying self.old name) }
        ensures err { OnErr result (self.new ≡ self.old) }
        // `NoMemory` comes only if the name is new, and never for the name for which space is
        // reserved.
        ensures again { has_name self.old.certified name ≡ true → IsOk result }
        ensures roomy { self.old.reserved ≡ Some name → IsOk result }
    {
        if self.certified(name) {
            return Ok(());
        }
        self.certified.add(name)?;
        self.reserved = reservation_after(self.reserved, name);
        Ok(())
    }

    /// Drops all acknowledgements, as a crash does, and the reservation; the certificates stay.
    pub fn forget(&mut self)
        ensures { self.new ≡ record self.old { counted = []; reserved = None } }
    {
        self.counted.clear();
        self.reserved = None;
    }
}
