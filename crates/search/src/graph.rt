//! What a search asks of a graph.

ghost use Rattle.std.specs.Prelude.{◌≡◌, ℕ, ◌<◌, Bool, Option as Maybe};

/// A graph whose nodes have their successors by number: the same numbers at every node, and at a number there may be none.
///
/// It has no law, so that a graph which borrows its arrows can be one; what a search needs of `same` is asked of its caller.
// `same` and no `Eq` of the nodes: a graph may take unequal nodes as the same.
pub trait Graph {
    type Node: Copy;

    ghost same: { Self → Self.Node → Self.Node → Bool };

    ghost degree: { Self → ℕ };

    ghost successor: { Self → Self.Node → ℕ → Maybe Self.Node };

    /// Whether two nodes are the same.
    fn same(&self, a: &Self::Node, b: &Self::Node) -> bool
        ensures { result ≡ same self.now a.now b.now };

    /// How many numbers a successor may have.
    // A method and no const parameter: a graph may know it only when it runs.
    fn degree(&self) -> usize
        ensures { result ≡ degree self.now };

    /// The successor with a number, if it is there.
    fn successor(&self, node: &Self::Node, i: usize) -> Option<Self::Node>
        requires { i < degree self.now }
        ensures { result ≡ successor self.now node.now i };
}
