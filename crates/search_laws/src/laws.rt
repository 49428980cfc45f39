// The laws, each as the contract of a call that does nothing.
ghost use Rattle.search_laws.specs.Laws.{NodesLaw, EnoughLaw, TreeEnoughLaw};

/// A search has no more nodes than are enough.
pub fn nodes_law()
    ensures { NodesLaw }
{}

/// A budget that is enough is not spent.
pub fn enough_law()
    ensures { EnoughLaw }
{}

/// Where no arc is dropped, one node is enough.
pub fn tree_enough_law()
    ensures { TreeEnoughLaw }
{}
