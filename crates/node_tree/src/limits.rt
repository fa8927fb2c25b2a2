// The limit of a tree.

/// The most nodes of a tree, and so of a search: `most_nodes` of `specs/Limits`.
pub const MOST_NODES: u32 = 1_000_000_000;
