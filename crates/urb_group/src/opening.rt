//! Opening a group from the images of its nodes.

ghost use Rattle.std.specs.Prelude.{◌≡◌, ◌<◌, length, map, Some, IfOk};
ghost use Rattle.std.specs.List.{All};
ghost use Rattle.urb_stable.specs.Entries.{IsEntry};
ghost use Rattle.urb_stable.specs.Fitting.{first_misfit};
ghost use Rattle.urb_stable.specs.Images.{image_of};
ghost use Rattle.urb_group.specs.GroupCalls.{Opens};

use crate::Group;
use crate::node_moves::Node;
use crate::shared_payloads::open_beside;
use std::alloc::Allocator;
use urb_names::{Config, Message, NoMemory, NodeId, Refusal};
use urb_stable::{Images, Misfit, Record, recall_records};

// Changes nothing; it brings the invariant of each record of the images into the proof. The loop
// may stay in the program.
fn recall_images<A: Allocator>(images: &[Vec<Record<Message<A>>, A>])
    ensures { All (All IsEntry) (map (λ image. image.items) images.now) }
{
    for image in images {
        recall_records(image);
    }
}

// Returns the first misfit of the images. Everything that it needs to judge them is allocated from
// `alloc` first.
fn misfit_of<A: Allocator + Copy>(
    alloc: A,
    config: Config,
    images: &[Vec<Record<Message<A>>, A>],
) -> Result<Option<Misfit>, NoMemory>
    requires { length images.now ≡ config.n }
    ensures { IfOk result
        (λ told. told ≡ first_misfit config (image_of (map (λ image. image.items) images.now))) }
{
    let read = Images::new(alloc, images)?;
    Ok(read.first_misfit(config))
}

impl<A: Allocator + Copy> Group<A> {
    /// Opens a group whose nodes come up with what their storages hold, as after a stop of the
    /// whole process. This is the recovery of all processes (sections 2.2 and 3.7 of the textbook).
    /// The image of node 1 comes first. The group takes the records as they lie in memory. Equal
    /// messages under one name share one payload from then on, unless memory for that is refused.
    ///
    /// `Inconsistent`: the images don't fit together. Some are not of this group, or a storage has
    /// lost a record or made one up. Or the cap is too small, or there are too many nodes (see
    /// `starts`). The refusal names the first record that breaks a fitting rule.
    /// `NoMemory`: ask again.
    pub fn open(
        alloc: A,
        config: Config,
        images: Vec<Vec<Record<Message<A>>, A>, A>,
    ) -> Result<Group<A>, Refusal>
        requires { length images.items ≡ config.n }
        ensures { Opens config (map (λ image. image.items) images.items) result }
    {
        let n = config.n();
        let mut nodes = Vec::with_capacity(alloc, usize::from(n))?;
        recall_images(&images);
        if let Some(misfit) = misfit_of(alloc, config, &images)? {
            return Err(Refusal::Inconsistent {
                rule: misfit.rule,
                node: misfit.node,
                name: misfit.name,
            });
        }
        let mut number = 0;
        for image in images {
            number += 1;
            let node = NodeId::new(number).unwrap();
            let ready = open_beside(&nodes, alloc, config, node, image)?;
            nodes.push_reserved(Node::Ready(ready));
        }
        Ok(Group { config, nodes })
    }
}
