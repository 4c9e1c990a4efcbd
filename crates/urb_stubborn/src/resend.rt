//! A node's resends, a part at each tick, and whose certificates it has heard.

ghost use Rattle.std.specs.Prelude.{◌≡◌, ◌≤◌, true, [], None, IfNone, IfOk, IfSome, OnOk, OnErr};
ghost use Rattle.std.specs.Prelude.{take};
ghost use Rattle.urb_certified.specs.Certificates.{with_name};
ghost use Rattle.urb_names.specs.Acknowledgements.{acked};
ghost use Rattle.urb_names.specs.Names.{has_name};
ghost use Rattle.urb_names.specs.CarriedPackets.{is_due};
ghost use Rattle.urb_pending.specs.PendingSet.{first_name};
ghost use Rattle.urb_stubborn.specs.Resends.{hearing, tick_packets, ticked};
ghost use Rattle.urb_stubborn.specs.internal.TickWalks.{IsPassed, IsTick, IsWalked, behind, between};
ghost use Rattle.urb_stubborn.specs.internal.TickWalks.{due_pairs, is_within};

use crate::Outbox;
use crate::due::{is_due, settle_from};
use crate::outbox::{Sending, push_to_unheard};
use std::alloc::{Allocator, Global};
use std::marker::Model;
use urb_certified::Certified;
use urb_names::{Config, MAX_SENDERS, NAMES_PER_TICK, Name, NoMemory, NodeId, Packet};
use urb_pending::Pending;
use urb_window::Marks;

// How many more names a tick may resend, and the last name that it resent.
#[derive(Clone, Copy, Drop)]
struct TickTurn {
    left: u32,
    cursor: Option<Name>,
}

// Names that a turn resends: those after `from`, up to `last`, or all if there is no such limit.
#[derive(Clone, Copy, Drop)]
struct Walk {
    from: Option<Name>,
    last: Option<Name>,
    turn: TickTurn,
}

/// A node's position in its resends, and which nodes' certificates of which names it has heard. It
/// no longer resends a name to a node whose certificate it has heard.
#[derive(Drop)]
#[derive_where(Debug)]
pub struct Resend<A: Allocator = Global> {
    config: Config,
    node: NodeId,
    cursor: Option<Name>,
    heard: Marks<A>,
    settled: [u32; MAX_SENDERS],
}

impl<A: Allocator> Model for Resend<A> {
    ghost use Rattle.urb_stubborn.specs.Resends.{Resending};

    ghost Value = { Resending };

    ghost use Rattle.urb_stubborn.specs.ResendFields.{view_of};
    ghost use Rattle.urb_stubborn.specs.internal.SettledInvariant.{IsKept};

    ghost view = { view_of };

    ghost invariant = { IsKept };
}

impl<A: Allocator + Copy> Resend<A> {
    /// The resends of a node of the group. They begin before its smallest name, and nothing has
    /// been heard. Allocates no memory; later growth comes from `alloc`.
    pub fn new(alloc: A, config: Config, node: NodeId) -> Resend<A>
        requires { node ≤ config.n }
        ensures { result
            ≡ record { limits = config; node = node; cursor = None; heard = []; roomy = [] } }
    {
        Resend {
            config,
            node,
            cursor: None,
            heard: Marks::new(alloc),
            settled: [0; MAX_SENDERS],
        }
    }

    /// Allocates space for a name, so that recording each node's certificate of it allocates
    /// nothing. The name keeps the space. `NoMemory` means that an allocation was refused; the
    /// caller may make the call again.
    pub fn reserve(&mut self, name: Name) -> Result<(), NoMemory>
        ensures ok { OnOk result
            (self.new ≡ record self.old { roomy = with_name self.old.roomy name }) }
        ensures err { OnErr result (self.new ≡ self.old) }
    {
        self.heard.make_room(name)
    }

    /// Records that a packet reported a node's certificate of a name. The name is no longer resent
    /// to that node. Allocates no memory.
    pub fn hear(&mut self, name: Name, node: NodeId)
        requires { has_name self.old.roomy name ≡ true }
        ensures { self.new ≡ hearing self.old name node }
    {
        if self.heard.has(name, node) {
            return;
        }
        let _added = self.heard.add(name, node);
        let index = name.sender.number() as usize - 1;
        self.settled[index] = settle_from(
            &self.heard,
            self.config,
            self.node,
            name.sender,
            self.settled[index],
        );
    }

    /// Whether a node's certificate of a name was heard.
    pub fn heard(&self, name: Name, node: NodeId) -> bool
        ensures { result ≡ acked self.now.heard name node }
    {
        self.heard.has(name, node)
    }

    /// Drops everything that was heard, as a crash does; each name that has space keeps it.
    /// Allocates no memory.
    pub fn forget(&mut self)
        ensures { self.new ≡ record self.old { heard = [] } }
    {
        self.heard.forget();
        self.settled = [0; MAX_SENDERS];
    }

    /// Makes the next tick begin before the smallest name, as after a restart.
    pub fn rewind(&mut self)
        ensures { self.new ≡ record self.old { cursor = None } }
    {
        self.cursor = None;
    }

    /// Sends pending messages again to the nodes whose certificates of them were not heard. It
    /// sends at most `NAMES_PER_TICK` names, from where the last tick ended. This is what a
    /// stubborn link does on a timeout (section 2.4 of the textbook), but only until nothing is
    /// left to send. If no name is due it sends nothing. `NoMemory` means that an allocation was
    /// refused; the caller may make the call again.
    pub fn tick(
        &mut self,
        alloc: A,
        pending: &Pending<A>,
        certified: &Certified<A>,
    ) -> Result<Outbox<A>, NoMemory>
        ensures packets { IfOk result
            (λ outbox. outbox ≡ tick_packets self.old pending.now.pairs certified.now.names) }
        ensures ok { OnOk result (self.new ≡ ticked self.old pending.now.pairs) }
        ensures err { OnErr result (self.new ≡ self.old) }
    {
        if self.config.n() == 1 {
            return Ok(Outbox::empty(alloc));
        }
        let mut packets = Vec::new(alloc);
        let turn = self.go_round(&mut packets, alloc, pending, certified)?;
        self.cursor = turn.cursor;
        Ok(Outbox::of(packets))
    }

    // Makes the packets of a tick. It goes from the cursor to the last name and then, if there was
    // a cursor, from the first name up to it.
    fn go_round(
        &self,
        packets: &mut Vec<Packet<A>, A>,
        alloc: A,
        pending: &Pending<A>,
        certified: &Certified<A>,
    ) -> Result<TickTurn, NoMemory>
        requires { packets.old.items ≡ [] }
        ensures { IfOk result (λ after.
            IsTick self.now pending.now.pairs certified.now.names after packets.new.items) }
    {
        let begun = TickTurn {
            left: NAMES_PER_TICK,
            cursor: self.cursor,
        };
        let to_the_end = Walk {
            from: self.cursor,
            last: None,
            turn: begun,
        };
        let turned = self.send(packets, alloc, pending, certified, to_the_end)?;
        if self.cursor.is_none() {
            return Ok(turned);
        }
        let from_the_start = Walk {
            from: None,
            last: self.cursor,
            turn: turned,
        };
        self.send(packets, alloc, pending, certified, from_the_start)
    }

    // If this name isn't due, a name after which the sender's next due name may come; `None` if it
    // is due.
    fn skip_past(&self, name: Name) -> Option<Name>
        ensures due { IfNone result
            (is_due self.now.limits.n self.now.node self.now.heard name ≡ true) }
        ensures passed { IfSome result (IsPassed self.now name) }
    {
        let settled = self.settled[name.sender.number() as usize - 1];
        if name.seq <= settled {
            let sender = name.sender;
            return Some(Name {
                sender,
                seq: settled,
            });
        }
        if is_due(&self.heard, self.config, self.node, name) {
            None
        } else {
            Some(name)
        }
    }

    // The first due name after a cursor, without starting over.
    fn next_due(&self, pending: &Pending<A>, cursor: Option<Name>) -> Option<Name>
        ensures { result ≡ first_name (behind cursor (due_pairs self.now pending.now.pairs)) }
    {
        pending.recall();
        let mut at = cursor;
        while let Some(name) = pending.behind(at) {
            match self.skip_past(name) {
                None => return Some(name),
                Some(end) => at = Some(end),
            }
        }
        None
    }

    // The first due name after a cursor that doesn't come after `last`, if there is one.
    fn next_within(
        &self,
        pending: &Pending<A>,
        from: Option<Name>,
        last: &Option<Name>,
    ) -> Option<Name>
        ensures { result
            ≡ first_name (between from last.now (due_pairs self.now pending.now.pairs)) }
    {
        pending.recall();
        let name = self.next_due(pending, from)?;
        if is_within(last, name) {
            Some(name)
        } else {
            None
        }
    }

    // Appends the packets of the due names of a walk, for as many names as its turn has left.
    fn send(
        &self,
        packets: &mut Vec<Packet<A>, A>,
        alloc: A,
        pending: &Pending<A>,
        certified: &Certified<A>,
        walk: Walk,
    ) -> Result<TickTurn, NoMemory>
        ensures { IfOk result (λ after. IsWalked self.now certified.now.names
            (take walk.turn.left
            (between walk.from walk.last (due_pairs self.now pending.now.pairs))) walk.turn
            packets.old.items after packets.new.items) }
    {
        let Walk { from, last, turn } = walk;
        pending.recall();
        let mut at = from;
        let mut left = turn.left;
        let mut cursor = turn.cursor;
        while 0 < left {
            let Some(name) = self.next_within(pending, at, &last) else {
                return Ok(TickTurn { left, cursor });
            };
            let message = pending.message(name).unwrap();
            let is_certified = certified.has(name);
            let sending = Sending {
                config: self.config,
                node: self.node,
                name,
                certified: is_certified,
            };
            push_to_unheard(packets, alloc, message, &self.heard, sending)?;
            at = Some(name);
            cursor = Some(name);
            left -= 1;
        }
        Ok(TickTurn { left, cursor })
    }
}

// Whether a name doesn't come after `last`, if there is such a limit.
fn is_within(last: &Option<Name>, name: Name) -> bool
    ensures { result ≡ is_within last.now name }
{
    match last {
        Some(last) => !last.is_before(name),
        None => true,
    }
}
