//! Workers that are held back at a gate, and the others, which go on.

use crate::calls::{Call, holds};
use crate::examples::THREE_PACKAGES;
use crate::tally::Hold;

/// Two workers meet at the first two chunks, or one takes what another leaves.
const HOLDS: [(Hold, &str); 4] = [
    (Hold::FirstTwo, "the first two"),
    (Hold::One(0), "the first"),
    (Hold::One(1), "the second"),
    (Hold::One(2), "the third"),
];

#[test]
fn workers_go_on_where_chunks_are_held_back(rt: HostRuntime) {
    for (hold, name) in HOLDS {
        let call = Call::HeldSets(hold);
        assert!(rt;
            holds(&rt, THREE_PACKAGES, &[0, 1, 2], call),
            "{name} held back"
        );
    }
}
