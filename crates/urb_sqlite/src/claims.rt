//! The right to open the files of a group's nodes: one value for each node, which its opening uses
//! up.

ghost use Rattle.std.specs.Prelude.{◌≡◌, ◌<◌, ◌≤◌, suc, MatchOption};
ghost use Rattle.urb_names.specs.declared.limits.TheConstants.{MAX_NODES};

use crate::NodeFile;
use std::marker::{Brand, Model, PhantomData};
use urb_names::{MAX_NODES, NodeId};

/// The right to open the files of a node once, as files of type `D`. `NodeDisk::open_files` uses it
/// up, whether it succeeds or not. It can't be copied, and a node has only one for each
/// `FolderClaim`.
#[derive(Drop)]
pub struct NodeClaim<D> {
    node: NodeId,
    of: PhantomData<D>,
}

impl<D> Model for NodeClaim<D> {
    ghost use Rattle.std.specs.Prelude.{ℕ};

    ghost Value = { ℕ };

    ghost view = { λ claim. claim.node };
}

impl<D> NodeClaim<D> {
    /// The node whose files may be opened.
    pub fn node(&self) -> NodeId
        ensures { result ≡ self.now }
    {
        self.node
    }

    // Uses the right up. The result is the node, and the one opening of its files.
    pub(crate) fn use_up(self) -> (NodeId, Opening)
        ensures { result.0 ≡ self }
    {
        let NodeClaim { node, of: _ } = self;
        (node, Opening { of: PhantomData })
    }
}

/// The one opening of a node's files. Only a node's claim gives one, and only inside this crate.
#[derive(Drop)]
pub struct Opening {
    of: PhantomData<()>,
}

/// A type that names what files held when they were opened. Its value uses up the one opening of
/// the files. So generic code has at most one such value for each claim.
pub trait Named {
    /// The name for this opening.
    fn name(opening: Opening) -> Self;
}

/// The right to open the files of all nodes of a group, each once, as files of type `D`. A program
/// gets one where it names `D`. Code that is generic in `D` can't make one. So it opens the files of
/// a node at most once, and what they held has one name.
#[derive(Drop)]
pub struct FolderClaim<D> {
    of: PhantomData<D>,
}

impl FolderClaim<NodeFile<Brand>> {
    /// The right under the type that programs pass. There may be any number of these. For `Brand`
    /// no clause speaks of files that were not empty.
    pub fn new() -> FolderClaim<NodeFile<Brand>> {
        FolderClaim { of: PhantomData }
    }
}

impl<D> FolderClaim<D> {
    /// The rights of the single nodes, starting with node 1.
    pub fn into_nodes(self) -> NodeClaims<D>
        ensures { result ≡ 0 }
    {
        let FolderClaim { of } = self;
        NodeClaims { given: 0, of }
    }
}

/// Gives the rights of a group's nodes, one after the other. Its value is the number of the last
/// node whose right was given, or 0.
#[derive(Drop)]
pub struct NodeClaims<D> {
    given: u8,
    of: PhantomData<D>,
}

impl<D> Model for NodeClaims<D> {
    ghost use Rattle.std.specs.Prelude.{ℕ, ◌≤◌};
    ghost use Rattle.urb_names.specs.declared.limits.TheConstants.{MAX_NODES};

    ghost Value = { ℕ };

    ghost view = { λ claims. claims.given };

    ghost invariant = { λ claims. claims.given ≤ MAX_NODES };
}

impl<D> NodeClaims<D> {
    /// The right of the next node. `None` behind the greatest node.
    pub fn take_next(&mut self) -> Option<NodeClaim<D>>
        // A node's right is given once, because the numbers rise.
        ensures { MatchOption result
            ((self.new ≡ self.old) × (MAX_NODES ≤ self.old))
            (λ claim. (self.old < MAX_NODES) × (claim ≡ suc self.old) × (self.new ≡ suc self.old)) }
    {
        if self.given >= MAX_NODES {
            return None;
        }
        let node = NodeId::new(self.given + 1).unwrap();
        self.given += 1;
        Some(NodeClaim {
            node,
            of: PhantomData,
        })
    }
}
