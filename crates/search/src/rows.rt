//! The search, with the links of each node in a row of its own.

ghost use Rattle.std.specs.Prelude.{◌≡◌, ◌+◌, ◌<◌, ◌≤◌, true, length, take, IfSome, Some, None, slice_index_or};
ghost use Rattle.model.specs.Search.{reached_from};
ghost use Rattle.search.specs.Meeting.{successors, Found, Linked};

use super::breadth_first::spread;
use super::graph::Graph;
use super::queue::Queue;

// Beside `explore`, whose links stand one behind another: of rows that are lent as one slice, a proof knows nothing afterwards.

/// The same search, for links that lie in a row for each node, of any width that the graph's degree fits.
pub fn explore_rows<const WIDTH: usize, G: Graph>(
    graph: &G,
    first: &G::Node,
    met: &mut [G::Node],
    slots: &mut [G::Node],
    links: &mut [[Option<u16>; WIDTH]],
) -> Option<usize>
    requires some { 0 < length met.old }
    requires linkable { length met.old ≤ 65536 }
    requires slots { length met.old ≤ length slots.old }
    requires rows { length met.old ≤ length links.old }
    requires width { G.Graph.degree graph.now ≤ WIDTH }
    requires itself { (x : G.Node) → G.Graph.same graph.now x x ≡ true }
    ensures nodes { Found result met.new (reached_from (G.Graph.same graph.now) (successors (G.Graph.degree graph.now) (G.Graph.successor graph.now)) (length met.old) first.now) }
    ensures links { IfSome result (λ n. Linked (G.Graph.same graph.now) (G.Graph.degree graph.now) (G.Graph.successor graph.now) (take n met.new) links.new n) }
{
    met[0] = *first;
    let mut queue = Queue::new(slots);
    let _ = queue.push(*first);
    let mut len = 1;
    // By number: of the links that an iterator lends to be written, a proof knows nothing afterwards.
    let mut row = 0;
    while let Some(node) = queue.pop() {
        let more = spread(graph, &node, met, len, &mut links[row][..])?;
        queue.push_all(&met[len..more]);
        len = more;
        row += 1;
    }
    Some(len)
}
