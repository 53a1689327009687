//! What holds of hash trees, for all leaves: there is no code to run.
ghost use Rattle.evidence_trees.specs.Laws.{TreesAreOfTheirValues, TreesHaveOneRoot, NodesAreThoseOfLists};
ghost use Rattle.evidence_trees.specs.Laws.{LeavesHaveOneWay, WaysShowLeaves};
ghost use Rattle.evidence_trees.specs.Rows.{TreeRows, ListRows, WayRows};

/// The values have one tree, whatever their order, and its nodes are those of lists of hash values (RFC 4998 4.2).
pub fn trees_are_unique()
    // The tree depends on the set of the values alone.
    ensures unique { TreesAreOfTheirValues }
    // Leaves have at most one root.
    ensures one_root { TreesHaveOneRoot }
    // Its nodes are those of lists.
    ensures nodes { NodesAreThoseOfLists }
{}

/// Each leaf of a tree has one way up to the root, whose values in lists, each alone, show it (RFC 4998 4.2, 4.3).
pub fn leaves_have_one_way()
    // There is one, and no other.
    ensures one { LeavesHaveOneWay }
    // Lists of its values show the leaf.
    ensures shows { WaysShowLeaves }
{}

/// The worked rows of trees, and of the lists of their leaves.
pub fn tree_rows_hold()
    // Leaves and roots.
    ensures trees { TreeRows }
    // Lists of leaves.
    ensures lists { ListRows }
    // What stands in them.
    ensures ways { WayRows }
{}
