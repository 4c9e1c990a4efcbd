//! The files of a group's nodes as one type, although they held different bytes. Each variant names
//! what one node's files held.

ghost use Rattle.std.specs.Prelude.{◌≡◌, ◌⊎◌, ◌+◌, ◌<◌, ℕ, true, false, [], refl};
ghost use Rattle.std.specs.Prelude.{IfErr, IfOk, IsTrue};
ghost use Rattle.std.proofs.Common.{inl};
ghost use Rattle.sqlite.specs.Files.{image_of};
ghost use Rattle.sqlite_wal.specs.Files.{image_at};
ghost use Rattle.sqlite_wal.specs.Recovery.{Image};
ghost use Rattle.urb_sqlite.specs.FoundJournals.{held_by};

use crate::claims::{Named, NodeClaim, Opening};
use sqlite::{FileFrom, Files, Start};
use sqlite_disk::{Disk, Tally};
use sqlite_std_file::OpenError;
use std::io;
use std::io::ErrorKind;
use std::marker::Brand;
use std::rt::HostRuntime;
use urb_names::MAX_NODES;
use urb_stable::StoreFault;

/// The files of a group's nodes, as one type. What is proved for all `D: NodeDisk` is proved for
/// all contents of the files, because `NodeFile<K>` is such a type for each `K: Contents`.
pub trait NodeDisk: Disk + Drop {
    /// What the log and the database file of each node held when they were opened, by the node's
    /// number. Under one type the files of a node are opened once, because the opening uses up the
    /// node's claim.
    ghost held: { ℕ → Image };

    /// Opens the log and the database file of the claim's node at this path, and makes them if they
    /// are missing. `NoMemory`: memory was refused. `Device`: they can't be opened.
    fn open_files(
        rt: &HostRuntime,
        path: &str,
        claim: NodeClaim<Self>,
    ) -> Result<Files<Self>, StoreFault>
        ensures fault { IfErr result (λ e. (e ≡ StoreFault.NoMemory) ⊎ (e ≡ StoreFault.Device)) }
        ensures usable { IfOk result (λ files. IsTrue (Self.Disk.is_usable files.log)
            × IsTrue (Self.Disk.is_usable files.db)) }
        ensures held { IfOk result (λ files. image_of Self.Disk files ≡ held claim) };
}

/// What the files of each node's journal held when they were opened. No code can read it. What is
/// proved for `K: Contents` is proved for all contents, and so also for what the files really held.
/// Under one `K` the files of a node are opened once (`NodeClaim`).
pub trait Contents: Drop {
    /// Stands for what the files of node 1 held.
    type First: Start + Named + Send;

    /// Stands for what the files of node 2 held.
    type Second: Start + Named + Send;

    /// Stands for what the files of node 3 held.
    type Third: Start + Named + Send;

    /// Stands for what the files of node 4 held.
    type Fourth: Start + Named + Send;

    /// Stands for what the files of node 5 held.
    type Fifth: Start + Named + Send;

    /// Stands for what the files of node 6 held.
    type Sixth: Start + Named + Send;

    /// Stands for what the files of node 7 held.
    type Seventh: Start + Named + Send;
}

/// The type for programs. It says nothing about a file that is not empty.
#[derive(Drop)]
pub struct Unnamed;

impl Named for Unnamed {
    fn name(_opening: Opening) -> Unnamed {
        Unnamed
    }
}

impl Start for Unnamed {
    ghost log = { [] };

    ghost db = { [] };

    ghost is_mixing = { true };

    fn mixes() -> bool {
        true
    }
}

impl Contents for Brand {
    type First = Unnamed;

    type Second = Unnamed;

    type Third = Unnamed;

    type Fourth = Unnamed;

    type Fifth = Unnamed;

    type Sixth = Unnamed;

    type Seventh = Unnamed;
}

/// A file of the node with this number.
#[derive(Drop)]
pub enum NodeFile<K: Contents> {
    First(FileFrom<K::First>),
    Second(FileFrom<K::Second>),
    Third(FileFrom<K::Third>),
    Fourth(FileFrom<K::Fourth>),
    Fifth(FileFrom<K::Fifth>),
    Sixth(FileFrom<K::Sixth>),
    Seventh(FileFrom<K::Seventh>),
}

/// Does the same with a file of any node.
macro_rules! on_file {
    ($node_file:expr, $file:ident => $call:expr) => {
        match $node_file {
            NodeFile::First($file) => $call,
            NodeFile::Second($file) => $call,
            NodeFile::Third($file) => $call,
            NodeFile::Fourth($file) => $call,
            NodeFile::Fifth($file) => $call,
            NodeFile::Sixth($file) => $call,
            NodeFile::Seventh($file) => $call,
        }
    };
}

impl<K: Contents> Disk for NodeFile<K> {
    ghost use Rattle.sqlite_disk.specs.Modelled.{start_of};
    ghost use Rattle.sqlite_disk.specs.Fair.{fair_if_honest};
    ghost use Rattle.urb_sqlite.specs.declared.node_file.NodeFile.TheVariants.{First, Second};
    ghost use Rattle.urb_sqlite.specs.declared.node_file.NodeFile.TheVariants.{Third, Fourth};
    ghost use Rattle.urb_sqlite.specs.declared.node_file.NodeFile.TheVariants.{Fifth, Sixth};
    ghost use Rattle.urb_sqlite.specs.declared.node_file.NodeFile.TheVariants.{Seventh};

    ghost seen = { elim [
      | First f ↦ ⟦<FileFrom<K::First> as Disk>⟧.seen f
      | Second f ↦ ⟦<FileFrom<K::Second> as Disk>⟧.seen f
      | Third f ↦ ⟦<FileFrom<K::Third> as Disk>⟧.seen f
      | Fourth f ↦ ⟦<FileFrom<K::Fourth> as Disk>⟧.seen f
      | Fifth f ↦ ⟦<FileFrom<K::Fifth> as Disk>⟧.seen f
      | Sixth f ↦ ⟦<FileFrom<K::Sixth> as Disk>⟧.seen f
      | Seventh f ↦ ⟦<FileFrom<K::Seventh> as Disk>⟧.seen f
    ] };

    ghost may_leave = { elim [
      | First f ↦ ⟦<FileFrom<K::First> as Disk>⟧.may_leave f
      | Second f ↦ ⟦<FileFrom<K::Second> as Disk>⟧.may_leave f
      | Third f ↦ ⟦<FileFrom<K::Third> as Disk>⟧.may_leave f
      | Fourth f ↦ ⟦<FileFrom<K::Fourth> as Disk>⟧.may_leave f
      | Fifth f ↦ ⟦<FileFrom<K::Fifth> as Disk>⟧.may_leave f
      | Sixth f ↦ ⟦<FileFrom<K::Sixth> as Disk>⟧.may_leave f
      | Seventh f ↦ ⟦<FileFrom<K::Seventh> as Disk>⟧.may_leave f
    ] };

    ghost is_usable = { elim [
      | First f ↦ ⟦<FileFrom<K::First> as Disk>⟧.is_usable f
      | Second f ↦ ⟦<FileFrom<K::Second> as Disk>⟧.is_usable f
      | Third f ↦ ⟦<FileFrom<K::Third> as Disk>⟧.is_usable f
      | Fourth f ↦ ⟦<FileFrom<K::Fourth> as Disk>⟧.is_usable f
      | Fifth f ↦ ⟦<FileFrom<K::Fifth> as Disk>⟧.is_usable f
      | Sixth f ↦ ⟦<FileFrom<K::Sixth> as Disk>⟧.is_usable f
      | Seventh f ↦ ⟦<FileFrom<K::Seventh> as Disk>⟧.is_usable f
    ] };

    ghost faults = { elim [
      | First f ↦ ⟦<FileFrom<K::First> as Disk>⟧.faults f
      | Second f ↦ ⟦<FileFrom<K::Second> as Disk>⟧.faults f
      | Third f ↦ ⟦<FileFrom<K::Third> as Disk>⟧.faults f
      | Fourth f ↦ ⟦<FileFrom<K::Fourth> as Disk>⟧.faults f
      | Fifth f ↦ ⟦<FileFrom<K::Fifth> as Disk>⟧.faults f
      | Sixth f ↦ ⟦<FileFrom<K::Sixth> as Disk>⟧.faults f
      | Seventh f ↦ ⟦<FileFrom<K::Seventh> as Disk>⟧.faults f
    ] };

    ghost tally_of = { elim [
      | First f ↦ ⟦<FileFrom<K::First> as Disk>⟧.tally_of f
      | Second f ↦ ⟦<FileFrom<K::Second> as Disk>⟧.tally_of f
      | Third f ↦ ⟦<FileFrom<K::Third> as Disk>⟧.tally_of f
      | Fourth f ↦ ⟦<FileFrom<K::Fourth> as Disk>⟧.tally_of f
      | Fifth f ↦ ⟦<FileFrom<K::Fifth> as Disk>⟧.tally_of f
      | Sixth f ↦ ⟦<FileFrom<K::Sixth> as Disk>⟧.tally_of f
      | Seventh f ↦ ⟦<FileFrom<K::Seventh> as Disk>⟧.tally_of f
    ] };

    ghost is_clean = { elim [
      | First f ↦ ⟦<FileFrom<K::First> as Disk>⟧.is_clean f
      | Second f ↦ ⟦<FileFrom<K::Second> as Disk>⟧.is_clean f
      | Third f ↦ ⟦<FileFrom<K::Third> as Disk>⟧.is_clean f
      | Fourth f ↦ ⟦<FileFrom<K::Fourth> as Disk>⟧.is_clean f
      | Fifth f ↦ ⟦<FileFrom<K::Fifth> as Disk>⟧.is_clean f
      | Sixth f ↦ ⟦<FileFrom<K::Sixth> as Disk>⟧.is_clean f
      | Seventh f ↦ ⟦<FileFrom<K::Seventh> as Disk>⟧.is_clean f
    ] };

    ghost key_of = { elim [
      | First f ↦ ⟦<FileFrom<K::First> as Disk>⟧.key_of f
      | Second f ↦ ⟦<FileFrom<K::Second> as Disk>⟧.key_of f
      | Third f ↦ ⟦<FileFrom<K::Third> as Disk>⟧.key_of f
      | Fourth f ↦ ⟦<FileFrom<K::Fourth> as Disk>⟧.key_of f
      | Fifth f ↦ ⟦<FileFrom<K::Fifth> as Disk>⟧.key_of f
      | Sixth f ↦ ⟦<FileFrom<K::Sixth> as Disk>⟧.key_of f
      | Seventh f ↦ ⟦<FileFrom<K::Seventh> as Disk>⟧.key_of f
    ] };

    ghost is_fair = { elim [
      | First f ↦ ⟦<FileFrom<K::First> as Disk>⟧.is_fair f
      | Second f ↦ ⟦<FileFrom<K::Second> as Disk>⟧.is_fair f
      | Third f ↦ ⟦<FileFrom<K::Third> as Disk>⟧.is_fair f
      | Fourth f ↦ ⟦<FileFrom<K::Fourth> as Disk>⟧.is_fair f
      | Fifth f ↦ ⟦<FileFrom<K::Fifth> as Disk>⟧.is_fair f
      | Sixth f ↦ ⟦<FileFrom<K::Sixth> as Disk>⟧.is_fair f
      | Seventh f ↦ ⟦<FileFrom<K::Seventh> as Disk>⟧.is_fair f
    ] };

    ghost is_frozen = { elim [
      | First f ↦ ⟦<FileFrom<K::First> as Disk>⟧.is_frozen f
      | Second f ↦ ⟦<FileFrom<K::Second> as Disk>⟧.is_frozen f
      | Third f ↦ ⟦<FileFrom<K::Third> as Disk>⟧.is_frozen f
      | Fourth f ↦ ⟦<FileFrom<K::Fourth> as Disk>⟧.is_frozen f
      | Fifth f ↦ ⟦<FileFrom<K::Fifth> as Disk>⟧.is_frozen f
      | Sixth f ↦ ⟦<FileFrom<K::Sixth> as Disk>⟧.is_frozen f
      | Seventh f ↦ ⟦<FileFrom<K::Seventh> as Disk>⟧.is_frozen f
    ] };

    ghost is_rotten = { elim [
      | First f ↦ ⟦<FileFrom<K::First> as Disk>⟧.is_rotten f
      | Second f ↦ ⟦<FileFrom<K::Second> as Disk>⟧.is_rotten f
      | Third f ↦ ⟦<FileFrom<K::Third> as Disk>⟧.is_rotten f
      | Fourth f ↦ ⟦<FileFrom<K::Fourth> as Disk>⟧.is_rotten f
      | Fifth f ↦ ⟦<FileFrom<K::Fifth> as Disk>⟧.is_rotten f
      | Sixth f ↦ ⟦<FileFrom<K::Sixth> as Disk>⟧.is_rotten f
      | Seventh f ↦ ⟦<FileFrom<K::Seventh> as Disk>⟧.is_rotten f
    ] };

    ghost is_mixing = { elim [
      | First f ↦ ⟦<FileFrom<K::First> as Disk>⟧.is_mixing f
      | Second f ↦ ⟦<FileFrom<K::Second> as Disk>⟧.is_mixing f
      | Third f ↦ ⟦<FileFrom<K::Third> as Disk>⟧.is_mixing f
      | Fourth f ↦ ⟦<FileFrom<K::Fourth> as Disk>⟧.is_mixing f
      | Fifth f ↦ ⟦<FileFrom<K::Fifth> as Disk>⟧.is_mixing f
      | Sixth f ↦ ⟦<FileFrom<K::Sixth> as Disk>⟧.is_mixing f
      | Seventh f ↦ ⟦<FileFrom<K::Seventh> as Disk>⟧.is_mixing f
    ] };

    ghost seen_may_stay = { elim [
      | First f ↦ inl refl
      | Second f ↦ inl refl
      | Third f ↦ inl refl
      | Fourth f ↦ inl refl
      | Fifth f ↦ inl refl
      | Sixth f ↦ inl refl
      | Seventh f ↦ inl refl
    ] };

    ghost fair_if_clean = { elim [
      | First f ↦ fair_if_honest (start_of K.First.Start f) f.calls.log.events
      | Second f ↦ fair_if_honest (start_of K.Second.Start f) f.calls.log.events
      | Third f ↦ fair_if_honest (start_of K.Third.Start f) f.calls.log.events
      | Fourth f ↦ fair_if_honest (start_of K.Fourth.Start f) f.calls.log.events
      | Fifth f ↦ fair_if_honest (start_of K.Fifth.Start f) f.calls.log.events
      | Sixth f ↦ fair_if_honest (start_of K.Sixth.Start f) f.calls.log.events
      | Seventh f ↦ fair_if_honest (start_of K.Seventh.Start f) f.calls.log.events
    ] };

    fn mixes(&self) -> bool {
        on_file!(self, file => file.mixes())
    }

    fn key(&self) -> u64 {
        on_file!(self, file => file.key())
    }

    fn tally(&self) -> Tally {
        on_file!(self, file => file.tally())
    }

    fn may_be_used(&self) -> bool {
        on_file!(self, file => file.may_be_used())
    }

    fn len(&mut self) -> io::Result<usize> {
        on_file!(self, file => file.len())
    }

    fn read_at(&mut self, at: usize, buf: &mut [u8]) -> io::Result<()> {
        on_file!(self, file => file.read_at(at, buf))
    }

    fn read_checked(&mut self, key: u64, want: u64, at: usize, buf: &mut [u8]) -> io::Result<()> {
        on_file!(self, file => file.read_checked(key, want, at, buf))
    }

    fn write_at(&mut self, at: usize, bytes: &[u8]) -> io::Result<()> {
        on_file!(self, file => file.write_at(at, bytes))
    }

    fn set_len(&mut self, len: usize) -> io::Result<()> {
        on_file!(self, file => file.set_len(len))
    }

    fn sync(&mut self) -> io::Result<()> {
        on_file!(self, file => file.sync())
    }
}

/// Opens the files at this path, once. `S` names what they hold.
fn open_files_at<S: Start + Named>(
    rt: &HostRuntime,
    path: &str,
    opening: Opening,
) -> Result<Files<FileFrom<S>>, StoreFault>
    ensures fault { IfErr result (λ e. (e ≡ StoreFault.NoMemory) ⊎ (e ≡ StoreFault.Device)) }
    ensures usable { IfOk result (λ files. IsTrue (⟦<FileFrom<S> as Disk>⟧.is_usable files.log)
        × IsTrue (⟦<FileFrom<S> as Disk>⟧.is_usable files.db)) }
    ensures held { IfOk result
        (λ files. image_of ⟦<FileFrom<S> as Disk>⟧ files ≡ image_at S.Start) }
{
    match sqlite_std_file::open(rt, path, S::name(opening)) {
        Ok(files) => Ok(files),
        Err(OpenError::OutOfMemory) => Err(StoreFault::NoMemory),
        Err(OpenError::Io(error)) if error.kind() == ErrorKind::OutOfMemory => {
            Err(StoreFault::NoMemory)
        }
        Err(_) => Err(StoreFault::Device),
    }
}

// `Contents` has a type for each of seven nodes.
const _: () = prove!(MAX_NODES <= 7);

/// Opens the files at this path as those of the node with this variant.
macro_rules! open_as {
    ($variant:ident, $rt:expr, $path:expr, $opening:expr) => {
        match open_files_at::<K::$variant>($rt, $path, $opening) {
            Ok(files) => Ok(Files {
                log: NodeFile::$variant(files.log),
                db: NodeFile::$variant(files.db),
            }),
            Err(fault) => Err(fault),
        }
    };
}

impl<K: Contents> NodeDisk for NodeFile<K> {
    ghost held = { held_by K.First.Start K.Second.Start K.Third.Start K.Fourth.Start K.Fifth.Start
        K.Sixth.Start K.Seventh.Start };

    fn open_files(
        rt: &HostRuntime,
        path: &str,
        claim: NodeClaim<NodeFile<K>>,
    ) -> Result<Files<NodeFile<K>>, StoreFault>
        ensures fault { IfErr result (λ e. (e ≡ StoreFault.NoMemory) ⊎ (e ≡ StoreFault.Device)) }
        ensures usable { IfOk result (λ files. IsTrue (⟦<NodeFile<K> as Disk>⟧.is_usable files.log)
            × IsTrue (⟦<NodeFile<K> as Disk>⟧.is_usable files.db)) }
        ensures held { IfOk result (λ files. image_of ⟦<NodeFile<K> as Disk>⟧ files
            ≡ held_by K.First.Start K.Second.Start K.Third.Start K.Fourth.Start K.Fifth.Start
            K.Sixth.Start K.Seventh.Start claim) }
    {
        let (node, opening) = claim.use_up();
        match node.number() {
            1 => open_as!(First, rt, path, opening),
            2 => open_as!(Second, rt, path, opening),
            3 => open_as!(Third, rt, path, opening),
            4 => open_as!(Fourth, rt, path, opening),
            5 => open_as!(Fifth, rt, path, opening),
            6 => open_as!(Sixth, rt, path, opening),
            _ => open_as!(Seventh, rt, path, opening),
        }
    }
}
