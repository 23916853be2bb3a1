//! The search on a small graph.

ghost use Rattle.std.specs.Prelude.{◌+◌, ◌*◌, length, if◌then◌else◌, Some, None, ◌==◌, nat_eq, nat_lt, slice_index};

use super::breadth_first::explore;
use super::graph::Graph;
use super::rows::explore_rows;

/// Where there is no arrow.
const STOP: u8 = 255;

/// The states that the two arrows of each state lead to.
#[derive(Clone, Copy)]
struct Arrows<'a> {
    to: &'a [u8],
}

impl Graph for Arrows<'_> {
    type Node = u8;

    ghost same = { λ g a b. (a == b) };

    ghost degree = { λ g. 2 };

    ghost successor = { λ g x i. (if nat_lt (2 * x + i) (length g.to.now) then (if nat_eq (slice_index g.to.now (2 * x + i)) 255 then None else Some (slice_index g.to.now (2 * x + i))) else None) };

    fn same(&self, a: &u8, b: &u8) -> bool {
        *a == *b
    }

    fn degree(&self) -> usize {
        2
    }

    fn successor(&self, node: &u8, i: usize) -> Option<u8> {
        let at = 2 * *node as usize + i;
        if at >= self.to.len() || self.to[at] == STOP {
            None
        } else {
            Some(self.to[at])
        }
    }
}

const TO: [u8; 10] = [2, 1, STOP, 0, 2, 4, 0, 0, STOP, STOP];

#[test]
fn meets_in_order_and_links(rt: HostRuntime) {
    let graph = Arrows { to: &TO };
    let mut met = [9; 4];
    let mut slots = [9; 4];
    let mut links = [Some(9); 8];
    assert_eq!(rt;
        explore(&graph, &0, &mut met, &mut slots, &mut links),
        Some(4)
    );
    assert_eq!(rt; met, [0, 2, 1, 4]);
    assert_eq!(rt;
        links,
        [
            Some(1),
            Some(2),
            Some(1),
            Some(3),
            None,
            Some(0),
            None,
            None
        ]
    );
}

#[test]
fn links_in_rows(rt: HostRuntime) {
    let graph = Arrows { to: &TO };
    let mut met = [9; 4];
    let mut slots = [9; 4];
    let mut links = [[Some(9); 2]; 4];
    assert_eq!(rt;
        explore_rows(&graph, &0, &mut met, &mut slots, &mut links),
        Some(4)
    );
    assert_eq!(rt; met, [0, 2, 1, 4]);
    assert_eq!(rt;
        links,
        [
            [Some(1), Some(2)],
            [Some(1), Some(3)],
            [None, Some(0)],
            [None, None]
        ]
    );
}

#[test]
fn wants_a_slot_for_each(rt: HostRuntime) {
    let graph = Arrows { to: &TO };
    let mut met = [9; 3];
    let mut slots = [9; 3];
    let mut links = [Some(9); 6];
    assert_eq!(rt; explore(&graph, &0, &mut met, &mut slots, &mut links), None);
}
