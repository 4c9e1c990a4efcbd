//! The cluster that a script plays on.

ghost use Rattle.std.specs.Prelude.{◌≡◌, ◌≢◌, [], ◌∷◌, ◌++◌, All, IfOk, Ok, OnOk, flat_map};
ghost use Rattle.std.specs.Prelude.{if◌then◌else◌, is_some, length, map, option_map};
ghost use Rattle.urb_names.specs.PacketGrammar.{FitsVersion, packet_of};
ghost use Rattle.urb_names.specs.Pairs.{message_of};
ghost use Rattle.urb_stable.specs.MemoryStores.{empty_memory};
ghost use Rattle.urb_stable.specs.Records.{pend};
ghost use Rattle.urb_world.specs.MemoryStores.{in_memory};
ghost use Rattle.urb_world.specs.Scenes.{flags_with, or_nothing};
ghost use Rattle.urb_group.specs.StoreContents.{IsStocked};
ghost use Rattle.urb_world.specs.World.{World, stored};
ghost use Rattle.urb_group.specs.GroupViews.{Shows};
ghost use Rattle.std.specs.Fmt.{decimal};
ghost use Rattle.urb_script.specs.Commands.{Fail, InRange, Raw, Reopen, Submit};
ghost use Rattle.urb_script.specs.internal.CommandLines.{arrival, command, line_of};
ghost use Rattle.urb_script.specs.internal.LineAnswers.{TakesFrom};
ghost use Rattle.urb_script.specs.internal.ShownScenes.{Shown, ShowsScene, StoresAsAsked, TellsAt};
ghost use Rattle.urb_script.specs.internal.ShownScenes.{TellsOf};
ghost use Rattle.urb_script.specs.Steps.{IsLater, holders, shown_holders, shown_log};
ghost use Rattle.urb_script.specs.Texts.{entry_text};

use crate::answer_words::{FixedAnswer, push_told};
use crate::commands::CommandLine;
use crate::hex::HexBytes;
use crate::reply_lines::{push_entry, push_held_head, push_holder, push_log_head, push_told_reply};
use crate::runs::Play;
use std::alloc::{Allocator, Global};
use urb_group::{Cluster, Command};
use urb_names::{
    ClientId, Config, Flags, MAX_PLAIN_PAYLOAD, Message, Name, NoMemory, NodeId, Packet, Payload,
    Refusal, encode,
};
use urb_stable::{Failure, MemStable};

/// A cluster whose stores are in memory.
#[derive(Drop)]
pub struct MemCluster<A: Allocator + Copy = Global> {
    alloc: A,
    config: Config,
    cluster: Cluster<MemStable<A>>,
}

// Makes new stores, one for each node.
fn make_stores<A: Allocator + Copy>(alloc: A, n: u8) -> Result<Vec<MemStable<A>, A>, NoMemory>
    ensures { IfOk result
        (λ stores. (length stores.items ≡ n) × All (λ m. m ≡ empty_memory) stores.items) }
{
    let mut stores = Vec::new(alloc);
    for _ in 0..n {
        stores.push(MemStable::new(alloc))?;
    }
    Ok(stores)
}

// Returns a copy of a message. Without a message, it returns a stand-in: number 1 of client 1, with
// an empty payload.
fn share_or_make_empty<A: Allocator + Copy>(
    alloc: A,
    stored: Option<&Message<A>>,
) -> Result<Message<A>, NoMemory>
    ensures { IfOk result (λ message. message ≡ or_nothing (option_map (λ m. m.now) stored.entry)) }
{
    match stored {
        Some(message) => message.share(alloc),
        None => Message::copy_of(alloc, ClientId::new(1).unwrap(), 1, &[]),
    }
}

// Returns the flags of a packet of a message: these flags, or none. If none are given and the
// payload is too long for a packet without flags, the flags are 0.
fn choose_flags<A: Allocator>(flags: Option<Flags>, message: &Message<A>) -> Option<Flags>
    ensures value { result ≡ flags_with flags message.now }
    ensures version { FitsVersion result message.now.payload }
{
    if let Some(flags) = flags {
        return Some(flags);
    }
    if MAX_PLAIN_PAYLOAD < message.payload().len() {
        return Some(Flags {
            certified: false,
            heard: false,
        });
    }
    None
}

// Returns the bytes of a packet of a message, with these flags, without flags, or with flags 0.
fn encode_packet<A: Allocator + Copy>(
    alloc: A,
    source: NodeId,
    node: NodeId,
    name: Name,
    message: Message<A>,
    flags: Option<Flags>,
) -> Result<Vec<u8, A>, NoMemory>
    requires { source ≢ node }
    ensures { IfOk result (λ bytes. packet_of bytes.items
        ≡ Ok (record {
          source = source;
          target = node;
          name = name;
          message = message;
          flags = flags_with flags message;
        })) }
{
    let flags = choose_flags(flags, &message);
    let packet = Packet::new(source, node, name, message, flags);
    packet.recall();
    encode(alloc, &packet)
}

// Returns the refused allocation that this refusal is.
fn expect_no_memory(refusal: Refusal) -> NoMemory
    requires { refusal ≡ Refusal.NoMemory }
{
    refusal.as_no_memory().unwrap()
}

impl<A: Allocator + Copy> MemCluster<A> {
    // Applies a command, and writes the answer.
    fn apply(&mut self, command: &Command<A>, text: &mut Vec<u8, A>) -> Result<(), NoMemory>
        requires { text.old.items ≡ [] }
        ensures shown { OnOk result
            (TakesFrom Shown self.old (line_of command.now) text.new.items self.new) }
        ensures stores { StoresAsAsked A (line_of command.now) self.old.cluster self.new.cluster }
        ensures kept { IsStocked (in_memory A) self.old.cluster
            → IsStocked (in_memory A) self.new.cluster }
    {
        let reply = self.cluster.apply(self.alloc, command);
        push_told_reply(text, &reply)
    }

    // Submits a message.
    fn submit(
        &mut self,
        node: NodeId,
        client: ClientId,
        number: u32,
        payload: &[u8],
        text: &mut Vec<u8, A>,
    ) -> Result<(), NoMemory>
        requires { text.old.items ≡ [] }
        ensures shown { OnOk result (TakesFrom Shown self.old
            (Submit node client number payload.now) text.new.items self.new) }
        ensures kept { IsStocked (in_memory A) self.old.cluster
            → IsStocked (in_memory A) self.new.cluster }
    {
        let payload = Payload::copied(self.alloc, payload)?;
        let command = Command::Submit {
            node,
            client,
            number,
            payload,
        };
        self.apply(&command, text)
    }

    // Makes the store of the record that a node holds fail.
    fn fail(
        &mut self,
        node: NodeId,
        failure: Failure,
        text: &mut Vec<u8, A>,
    ) -> Result<(), NoMemory>
        requires { text.old.items ≡ [] }
        ensures shown { OnOk result
            (TakesFrom Shown self.old (Fail node failure) text.new.items self.new) }
        ensures stores { StoresAsAsked A (Fail node failure) self.old.cluster self.new.cluster }
        ensures kept { IsStocked (in_memory A) self.old.cluster
            → IsStocked (in_memory A) self.new.cluster }
    {
        let reply = self.cluster.fail(node, failure);
        push_told_reply(text, &reply)
    }

    // Stops all nodes at once, and opens the cluster again from what its stores hold.
    fn reopen(self, text: &mut Vec<u8, A>) -> Result<MemCluster<A>, NoMemory>
        requires fresh { text.old.items ≡ [] }
        requires kept { IsStocked (in_memory A) self.cluster }
        ensures shown { IfOk result (λ new. TakesFrom Shown self Reopen text.new.items new) }
        ensures kept { IfOk result (λ new. IsStocked (in_memory A) new.cluster) }
    {
        let MemCluster {
            alloc,
            config,
            cluster,
        } = self;
        let cluster = match cluster.reopen(alloc) {
            Ok(cluster) => cluster,
            Err(refused) => return Err(expect_no_memory(refused.1)),
        };
        push_told(text, FixedAnswer::Opened)?;
        Ok(MemCluster {
            alloc,
            config,
            cluster,
        })
    }

    // Brings a node what the source has stored under a name, in a packet with or without flags.
    fn arrive(
        &mut self,
        source: NodeId,
        node: NodeId,
        name: Name,
        flags: Option<Flags>,
        text: &mut Vec<u8, A>,
    ) -> Result<(), NoMemory>
        requires fresh { text.old.items ≡ [] }
        requires apart { source ≢ node }
        ensures shown { OnOk result
            (TakesFrom Shown self.old (arrival source node name flags) text.new.items self.new) }
        ensures kept { IsStocked (in_memory A) self.old.cluster
            → IsStocked (in_memory A) self.new.cluster }
    {
        let stored = self.cluster.group().message(source, name);
        let message = share_or_make_empty(self.alloc, stored)?;
        let bytes = encode_packet(self.alloc, source, node, name, message, flags)?;
        self.apply(&Command::Arrive { node, bytes }, text)
    }

    // Brings a node bytes.
    fn bring_bytes(
        &mut self,
        node: NodeId,
        bytes: &HexBytes<'_>,
        text: &mut Vec<u8, A>,
    ) -> Result<(), NoMemory>
        requires { text.old.items ≡ [] }
        ensures shown { OnOk result
            (TakesFrom Shown self.old (Raw node bytes.now) text.new.items self.new) }
        ensures kept { IsStocked (in_memory A) self.old.cluster
            → IsStocked (in_memory A) self.new.cluster }
    {
        let bytes = bytes.decode(self.alloc)?;
        self.apply(&Command::Arrive { node, bytes }, text)
    }

    // Writes the entries of a node's log.
    fn push_entries(
        &self,
        node: NodeId,
        names: &[Name],
        text: &mut Vec<u8, A>,
    ) -> Result<(), NoMemory>
        ensures { OnOk result (TellsAt node
            (λ w.
            flat_map entry_text (map (λ x. (x, message_of (pend (stored w node)) x)) names.now))
            self.now.cluster.group text.old.items text.new.items) }
    {
        for name in names {
            push_entry(text, *name, self.cluster.group().message(node, *name))?;
        }
        Ok(())
    }

    // Shows a node's log.
    fn push_log(&self, node: NodeId, text: &mut Vec<u8, A>) -> Result<(), NoMemory>
        ensures { OnOk result
            (TellsOf (λ w. shown_log w node) self.now.cluster.group text.old.items text.new.items) }
    {
        match self.cluster.group().log(node) {
            None => push_told(text, FixedAnswer::Refused(Refusal::BadNode)),
            Some(names) => {
                push_log_head(text, node)?;
                self.push_entries(node, names, text)
            }
        }
    }

    // Adds to the text a node's number, if the node has a name stored.
    fn push_if_holder(
        &self,
        node: NodeId,
        name: Name,
        text: &mut Vec<u8, A>,
    ) -> Result<(), NoMemory>
        ensures { OnOk result (TellsAt node
            (λ w.
            if is_some (message_of (pend (stored w node)) name) then 32 ∷ decimal node else [])
            self.now.cluster.group text.old.items text.new.items) }
    {
        if self.cluster.group().holds(node, name) {
            return push_holder(text, node);
        }
        Ok(())
    }

    // Adds to the text the numbers of the nodes that have a name stored.
    fn push_holders(&self, name: Name, text: &mut Vec<u8, A>) -> Result<(), NoMemory>
        ensures { OnOk result ((w : World)
            → Shows self.now.cluster.group w
            → self.now.config ≡ w.size
            → text.new.items ≡ text.old.items ++ flat_map (λ q. 32 ∷ decimal q) (holders w name)) }
    {
        for number in 1..self.config.n() + 1 {
            let node = NodeId::new(number).unwrap();
            self.push_if_holder(node, name, text)?;
        }
        Ok(())
    }

    // Shows which nodes have a name stored.
    fn push_held(&self, name: Name, text: &mut Vec<u8, A>) -> Result<(), NoMemory>
        ensures { OnOk result ((w : World)
            → Shows self.now.cluster.group w
            → self.now.config ≡ w.size
            → text.new.items ≡ text.old.items ++ shown_holders w name) }
    {
        if self.config.n() < name.sender.number() {
            return push_told(text, FixedAnswer::Refused(Refusal::BadNode));
        }
        push_held_head(text, name)?;
        self.push_holders(name, text)
    }

    // Does a command and writes the answer. `play` does `reopen`; only the first line is `group`.
    fn do_command(&mut self, found: CommandLine<'_>, text: &mut Vec<u8, A>) -> Result<(), NoMemory>
        requires fresh { text.old.items ≡ [] }
        requires later { IsLater (command found) }
        requires range { InRange (command found) }
        requires goes_on { command found ≢ Reopen }
        ensures shown { OnOk result
            (TakesFrom Shown self.old (command found.entry) text.new.items self.new) }
        ensures stores { StoresAsAsked A (command found.entry) self.old.cluster self.new.cluster }
        ensures kept { IsStocked (in_memory A) self.old.cluster
            → IsStocked (in_memory A) self.new.cluster }
    {
        match found {
            CommandLine::Group(_) | CommandLine::Reopen => Ok(()),
            CommandLine::Submit {
                node,
                client,
                number,
                payload,
            } => self.submit(node, client, number, payload, text),
            CommandLine::Stored(node) => self.apply(&Command::Store(node), text),
            CommandLine::Fail { node, failure } => self.fail(node, failure, text),
            CommandLine::Crash(node) => self.apply(&Command::Crash(node), text),
            CommandLine::Restart(node) => self.apply(&Command::Restart(node), text),
            CommandLine::Arrive { source, node, name } => {
                self.arrive(source, node, name, None, text)
            }
            CommandLine::ArriveFlagged {
                source,
                node,
                name,
                flags,
            } => self.arrive(source, node, name, Some(flags), text),
            CommandLine::Raw { node, bytes } => self.bring_bytes(node, &bytes, text),
            CommandLine::Tick(node) => self.apply(&Command::Tick(node), text),
            CommandLine::Log(node) => self.push_log(node, text),
            CommandLine::Held(name) => self.push_held(name, text),
        }
    }
}

impl<A: Allocator + Copy> Play<A> for MemCluster<A> {
    ghost shows = { λ held scene. ShowsScene held.config held.cluster scene };

    ghost keeps = { λ held. IsStocked (in_memory A) held.cluster };

    fn open(alloc: A, config: Config, text: &mut Vec<u8, A>) -> Result<MemCluster<A>, NoMemory> {
        let stores = make_stores(alloc, config.n())?;
        let cluster = match Cluster::new(alloc, config, stores) {
            Ok(cluster) => cluster,
            Err((_, refused)) => return Err(refused),
        };
        push_told(text, FixedAnswer::Grouped(config))?;
        Ok(MemCluster {
            alloc,
            config,
            cluster,
        })
    }

    fn play(self, found: CommandLine<'_>, text: &mut Vec<u8, A>) -> Result<MemCluster<A>, NoMemory>
        requires fresh { text.old.items ≡ [] }
        requires later { IsLater (command found) }
        requires range { InRange (command found) }
        requires kept { IsStocked (in_memory A) self.cluster }
        ensures shown { IfOk result
            (λ new. TakesFrom Shown self (command found.entry) text.new.items new) }
        ensures kept { IfOk result (λ new. IsStocked (in_memory A) new.cluster) }
        ensures stores { IfOk result
            (λ new. StoresAsAsked A (command found.entry) self.cluster new.cluster) }
    {
        match found {
            CommandLine::Reopen => self.reopen(text),
            found => {
                let mut held = self;
                held.do_command(found, text)?;
                Ok(held)
            }
        }
    }
}
