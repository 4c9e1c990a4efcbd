//! Tables of groups, and what is fed to one of their nodes.

use super::{Held, Offer, group_of, offers_to};
use std::alloc::Global;
use std::test::Fail;
use urb_names::NodeId;

/// A group, and what one of its nodes is fed.
struct Row {
    fact: &'static str,
    nodes: &'static [&'static [Held]],
    target: u8,
    offers: &'static [Offer],
}

const NONE: Held = Held {
    stored: 0,
    certified: 0,
};

const ONE: Held = Held {
    stored: 1,
    certified: 1,
};

const TWO: Held = Held {
    stored: 2,
    certified: 2,
};

const THREE: Held = Held {
    stored: 3,
    certified: 3,
};

const FOUR: Held = Held {
    stored: 4,
    certified: 4,
};

// One name is pending.
const PENDING: Held = Held {
    stored: 1,
    certified: 0,
};

// The second of two names is pending.
const HALF: Held = Held {
    stored: 2,
    certified: 1,
};

const ALL_SEVEN: &[Held] = &[FOUR, FOUR, FOUR, FOUR, FOUR, FOUR, ONE];

const WITHOUT_THE_LAST: &[Held] = &[FOUR, FOUR, FOUR, FOUR, FOUR, FOUR, NONE];

const ROWS: [Row; 11] = [
    Row {
        fact: "a node that is alone is fed nothing, even if it hasn't certified what it stored",
        nodes: &[&[PENDING]],
        target: 1,
        offers: &[],
    },
    Row {
        fact: "nothing is fed if nothing was sent",
        nodes: &[&[], &[], &[]],
        target: 2,
        offers: &[],
    },
    Row {
        fact: "nothing is fed to a node that has delivered everything",
        nodes: &[&[FOUR, FOUR], &[FOUR, FOUR], &[ONE, NONE]],
        target: 1,
        offers: &[],
    },
    Row {
        fact: "each of the other holders offers a name that one node lacks",
        nodes: &[&[FOUR], &[FOUR], &[THREE]],
        target: 3,
        offers: &[(1, 1, 4), (2, 1, 4)],
    },
    Row {
        fact: "an emptied node is offered everything",
        nodes: &[&[TWO, NONE, ONE], &[], &[TWO, NONE, ONE]],
        target: 2,
        offers: &[
            (1, 1, 1),
            (3, 1, 1),
            (1, 1, 2),
            (3, 1, 2),
            (1, 3, 1),
            (3, 3, 1),
        ],
    },
    Row {
        fact: "a node that has stored a name still lacks it until it has delivered it",
        nodes: &[&[PENDING], &[PENDING], &[PENDING]],
        target: 1,
        offers: &[(2, 1, 1), (3, 1, 1)],
    },
    Row {
        fact: "nobody can offer the sender what it alone has stored",
        nodes: &[&[PENDING], &[], &[]],
        target: 1,
        offers: &[],
    },
    Row {
        fact: "only the holders offer a name",
        nodes: &[&[PENDING], &[], &[]],
        target: 3,
        offers: &[(1, 1, 1)],
    },
    Row {
        fact: "the names after the log's last one are offered",
        nodes: &[&[HALF], &[HALF], &[ONE]],
        target: 3,
        offers: &[(1, 1, 2), (2, 1, 2)],
    },
    Row {
        fact: "six nodes offer the last sender's name to the seventh node, which lacks it",
        nodes: &[
            ALL_SEVEN,
            WITHOUT_THE_LAST,
            ALL_SEVEN,
            ALL_SEVEN,
            ALL_SEVEN,
            ALL_SEVEN,
            ALL_SEVEN,
        ],
        target: 2,
        offers: &[
            (1, 7, 1),
            (3, 7, 1),
            (4, 7, 1),
            (5, 7, 1),
            (6, 7, 1),
            (7, 7, 1),
        ],
    },
    Row {
        fact: "a node that the group doesn't have is fed nothing",
        nodes: &[&[TWO], &[TWO], &[]],
        target: 4,
        offers: &[],
    },
];

// Whether the node of a row is offered what the row says.
fn is_met(alloc: Global, row: &Row) -> Option<bool> {
    let group = group_of(alloc, row.nodes)?;
    let offers = offers_to(alloc, &group, NodeId::new(row.target)?)?;
    Some(offers.as_slice() == row.offers)
}

#[test]
fn each_other_holder_offers_each_name_that_lacks(rt: HostRuntime) -> Result<(), Fail> {
    for row in &ROWS {
        assert_eq!(rt; is_met(rt.alloc(), row), Some(true), "{}", row.fact);
    }
    Ok(())
}
