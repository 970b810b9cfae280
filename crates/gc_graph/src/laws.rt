//! Laws of graphs, each as the contract of a function that does nothing.
ghost use Rattle.gc_graph.specs.Laws.{MarksTellWherePathsEnd, PathsSeeNoOrder};

/// Marks that are the reached numbers of a store's graph say where its paths end.
pub fn marks_tell_where_paths_end()
    ensures { MarksTellWherePathsEnd }
{}

/// Where paths end doesn't depend on the order of rows.
pub fn paths_see_no_order()
    ensures { PathsSeeNoOrder }
{}
