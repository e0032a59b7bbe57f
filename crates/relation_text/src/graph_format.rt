//! The two graph formats.

/// graph6 has a bit for each pair of points, and digraph6 one for each ordered pair.
#[derive(Clone, Copy)]
pub(crate) enum GraphFormat {
    Graph,
    Digraph,
}
