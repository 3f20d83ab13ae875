// How large the trees of a search are. The functions do nothing: the contract of each is a law.

ghost use Rattle.sect_search.specs.Nodes.{BlockedIsSmall};
ghost use Rattle.sect_search.specs.Texts.{BlockedHasText, CoverHasText};

/// The tree of a blocked search has as many leaves and splits as there were visits, and its root.
pub fn a_tree_has_a_node_for_each_visit()
    ensures { BlockedIsSmall }
{}

/// A tree that refutes a move has at most nine brackets round a leaf for each want, 36 for four, and no split without a
/// tree. So it has a text where its numbers have 32 bits.
pub fn a_tree_has_a_text()
    ensures blocked { BlockedHasText }
    ensures covers { CoverHasText }
{}
