//! Queries about the stored records of a node that holds a draft.

ghost use Rattle.std.specs.Prelude.{◌≡◌, length, option_map};
ghost use Rattle.urb_names.specs.Names.{has_name};
ghost use Rattle.urb_names.specs.Pairs.{has_pair, message_of, next_number, own};
ghost use Rattle.urb_node.specs.CallEffects.{CountsOwn, FindsMessage, Holds, IsCertified, TellsLog};
ghost use Rattle.urb_node.specs.CallEffects.{TellsNext};
ghost use Rattle.urb_node.specs.NodeMemories.{ShowsStoring};

use crate::Storing;
use std::alloc::Allocator;
use urb_names::{ClientId, Message, Name};

impl<A: Allocator + Copy> Storing<A> {
    #[tactic(auto, using(crate::proofs::QueryAnswers::holds_says))]
    /// Whether the node has stored this message under this name; its held record isn't stored.
    pub fn holds(&self, name: &Name, message: &Message<A>) -> bool
        ensures memory { result ≡ has_pair self.now.memory.pairs name.now message.now }
        ensures stored { Holds (ShowsStoring self.now) name.now message.now result }
    {
        self.held.pending.has(name, message)
    }

    #[tactic(auto, using(crate::proofs::QueryAnswers::message_says))]
    /// The message that the node has stored under a name; its held record isn't stored.
    pub fn message(&self, name: Name) -> Option<&Message<A>>
        ensures memory { option_map (λ m. m.now) result ≡ message_of self.now.memory.pairs name }
        ensures stored { FindsMessage (ShowsStoring self.now) name
            (option_map (λ m. m.now) result) }
    {
        self.held.pending.message(name)
    }

    #[tactic(auto, using(crate::proofs::QueryAnswers::certified_says))]
    /// Whether the node has stored a certificate of a name; its held record doesn't count.
    pub fn certified(&self, name: Name) -> bool
        ensures memory { result ≡ has_name self.now.memory.certified name }
        ensures stored { IsCertified (ShowsStoring self.now) name result }
    {
        self.held.acks.certified(name)
    }

    #[tactic(auto, using(crate::proofs::QueryAnswers::log_says))]
    /// The names that the node has delivered, in the order of their delivery, without those that
    /// its held record will release.
    pub fn log(&self) -> &[Name]
        ensures memory { result.now ≡ self.now.memory.log }
        ensures stored { TellsLog (ShowsStoring self.now) result.now }
    {
        self.held.fifo.log()
    }

    #[tactic(auto, using(crate::proofs::QueryAnswers::own_says))]
    /// The number of its own messages that the node has stored; its held record doesn't count.
    pub fn own_len(&self) -> u32
        ensures memory { result ≡ length (own self.now.memory.node self.now.memory.pairs) }
        ensures stored { CountsOwn (ShowsStoring self.now) result }
    {
        self.held.own_len()
    }

    /// The number that a client must give its next message at this node, from 1. Stored messages
    /// count; the held record doesn't.
    pub fn client_next(&self, client: ClientId) -> u32
        ensures memory { result
            ≡ next_number client (own self.now.memory.node self.now.memory.pairs) }
        ensures stored { TellsNext (ShowsStoring self.now) client result }
    {
        self.held.client_next(client)
    }
}
