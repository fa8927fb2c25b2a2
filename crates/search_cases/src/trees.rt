//! The tree of a search of five nodes: boxes, branches, and which node set a bound.

use crate::searches::finished;
use anyhow::Result;
use case_pools::drop_pool;
use case_tools::Spans;
use node_tree::{Side, Tree};
use std::alloc::Global;
use std::io;

/// The bounds of a node of two columns.
const BOUNDS: [(u32, Side); 4] = [
    (0, Side::Low),
    (0, Side::High),
    (1, Side::Low),
    (1, Side::High),
];

/// Prints a node with its box.
fn show_node<R: Print + Alloc<A = Global>>(rt: &R, tree: &Tree, node: u32) -> Result<()> {
    if node as usize >= tree.len() {
        return Ok(());
    }
    let area = tree.box_of(rt.alloc(), node)?;
    let (spans, parent, children) = (Spans(&area), tree.parent(node), tree.children(node));
    let is_leaf = tree.is_leaf(node);
    println!(rt;
        "tree node {node}: {spans}, parent {parent:?}, children {children:?}, leaf {is_leaf}"
    )?;
    Ok(())
}

/// Prints a bound of a node, and the node whose branch set it.
fn show_bound<R: Print>(
    rt: &R,
    tree: &Tree,
    node: u32,
    (column, side): (u32, Side),
) -> io::Result<()> {
    if node as usize >= tree.len() || column as usize >= tree.root().len() {
        return Ok(());
    }
    let (bound, source) = (
        tree.bound_of(node, column, side),
        tree.source_of(node, column, side),
    );
    println!(rt; "tree node {node}, column {column}, {side:?}: {bound} by {source:?}")
}

/// Prints the nodes of a tree.
fn show_nodes<R: Print + Alloc<A = Global>>(rt: &R, tree: &Tree) -> Result<()> {
    for node in 0..5 {
        show_node(rt, tree, node)?;
    }
    Ok(())
}

/// Prints bounds of the last node.
fn show_bounds<R: Print>(rt: &R, tree: &Tree) -> Result<()> {
    for bound in &BOUNDS {
        show_bound(rt, tree, 4, *bound)?;
    }
    Ok(())
}

/// Prints the nodes of a tree, and the bounds of its last one.
fn show_tree<R: Print + Alloc<A = Global>>(rt: &R, tree: &Tree) -> Result<()> {
    show_nodes(rt, tree)?;
    show_bounds(rt, tree)
}

/// Prints the tree of a search.
pub(crate) fn show<R: Print + Alloc<A = Global>>(rt: &R) -> Result<()> {
    let pool = finished(rt)?;
    let shown = show_tree(rt, pool.state().tree());
    drop_pool(pool);
    shown
}
