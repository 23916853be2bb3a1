//! The search, written once for every graph.

ghost use Rattle.std.specs.Prelude.{◌≡◌, ◌+◌, ◌*◌, ◌<◌, ◌≤◌, true, length, take, IfSome, Some, None, MatchOption, slice_index_or};
ghost use Rattle.std.specs.List.{position};
ghost use Rattle.model.specs.Search.{reached_from};
ghost use Rattle.search.specs.Meeting.{successors, with_met, with_successors, link_to, Held, Found, LinkedAlong, LinkedFrom};

use super::graph::Graph;
use super::queue::Queue;

/// The place of a node among those met, if it is one of them.
pub fn find<G: Graph>(graph: &G, met: &[G::Node], node: &G::Node) -> Option<usize>
    ensures { result ≡ position (G.Graph.same graph.now node.now) met.now }
{
    met.iter().position(
        |other| -> bool
            ensures { result ≡ G.Graph.same graph.entry.now node.entry.now other.now }
        { graph.same(node, other) },
    )
}

// Those met and their number go side by side: tried as a struct over the slice, but what the slice holds behind it in the end was not proved.

/// How many nodes are met, and the link to the one just met.
#[derive(Clone, Copy)]
struct Placed {
    len: usize,
    link: Option<u16>,
}

/// Meets a node, if it is there. None, if it is new and there is no slot for it.
fn meet<G: Graph>(
    graph: &G,
    met: &mut [G::Node],
    len: usize,
    candidate: Option<G::Node>,
) -> Option<Placed>
    requires within { len ≤ length met.old }
    requires linkable { length met.old ≤ 65536 }
    ensures { MatchOption result (Held None met.new (with_met (G.Graph.same graph.now) (take len met.old) candidate)) (λ m. Held (Some m.len) met.new (with_met (G.Graph.same graph.now) (take len met.old) candidate) × (m.link ≡ link_to (G.Graph.same graph.now) (take len met.old) candidate)) }
{
    let Some(node) = candidate else {
        return Some(Placed { len, link: None });
    };
    if let Some(at) = find(graph, &met[..len], &node) {
        return Some(Placed {
            len,
            link: Some(at as u16),
        });
    }
    if len >= met.len() {
        return None;
    }
    met[len] = node;
    Some(Placed {
        len: len + 1,
        link: Some(len as u16),
    })
}

/// Meets the successors of a node, and writes its links to them. None, if there is no slot for one.
pub(crate) fn spread<G: Graph>(
    graph: &G,
    node: &G::Node,
    met: &mut [G::Node],
    len: usize,
    links: &mut [Option<u16>],
) -> Option<usize>
    requires within { len ≤ length met.old }
    requires linkable { length met.old ≤ 65536 }
    requires row { G.Graph.degree graph.now ≤ length links.old }
    requires itself { (x : G.Node) → G.Graph.same graph.now x x ≡ true }
    ensures nodes { Held result met.new (with_successors (G.Graph.same graph.now) (G.Graph.degree graph.now) (G.Graph.successor graph.now) (take len met.old) node.now) }
    ensures links { IfSome result (λ n. LinkedFrom (G.Graph.same graph.now) (G.Graph.successor graph.now) (take n met.new) links.new node.now (G.Graph.degree graph.now)) }
{
    let mut count = len;
    // By number: a number names a successor and its link, and a link that an iterator lends is not known afterwards.
    for i in 0..graph.degree() {
        let next = meet(graph, met, count, graph.successor(node, i))?;
        count = next.len;
        links[i] = next.link;
    }
    Some(count)
}

/// Meets all nodes that a first one leads to, breadth first, and answers their number. None, if there are more of them than slots in `met`.
///
/// `met` then begins with the nodes in the order of meeting, and `links` with the links of each of them, one node's behind another's: the
/// place of each of its successors that is there. What the slices held before does not matter.
pub fn explore<G: Graph>(
    graph: &G,
    first: &G::Node,
    met: &mut [G::Node],
    slots: &mut [G::Node],
    links: &mut [Option<u16>],
) -> Option<usize>
    requires some { 0 < length met.old }
    requires linkable { length met.old ≤ 65536 }
    requires slots { length met.old ≤ length slots.old }
    requires rows { length met.old * G.Graph.degree graph.now ≤ length links.old }
    requires itself { (x : G.Node) → G.Graph.same graph.now x x ≡ true }
    ensures nodes { Found result met.new (reached_from (G.Graph.same graph.now) (successors (G.Graph.degree graph.now) (G.Graph.successor graph.now)) (length met.old) first.now) }
    ensures links { IfSome result (λ n. LinkedAlong (G.Graph.same graph.now) (G.Graph.degree graph.now) (G.Graph.successor graph.now) (take n met.new) links.new n) }
{
    met[0] = *first;
    let mut queue = Queue::new(slots);
    let _ = queue.push(*first);
    let mut len = 1;
    // By number: of the links that an iterator lends to be written, a proof knows nothing afterwards.
    let degree = graph.degree();
    let mut row = 0;
    while let Some(node) = queue.pop() {
        let from = row * degree;
        let more = spread(graph, &node, met, len, &mut links[from..from + degree])?;
        queue.push_all(&met[len..more]);
        len = more;
        row += 1;
    }
    Some(len)
}
