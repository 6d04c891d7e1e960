//! The text of a certificate.

use crate::layout::Layout;
use optimality::{Leaf, Limit};
use program_rows::Selection;
use std::alloc::Global;

/// A node of a tree.
#[derive(Drop)]
pub enum Node {
    /// Not searched yet.
    Open,
    /// A split into none and one of these columns of the layout, and the places of its sides among the nodes.
    Split {
        columns: Vec<usize>,
        low: usize,
        high: usize,
    },
    /// The line of a leaf.
    Leaf(Vec<u8>),
}

fn add_split(
    program: &Selection<'_>,
    layout: &Layout,
    columns: &[usize],
    text: &mut Vec<u8>,
) -> Result<(), Limit> {
    text.extend_from_slice(b"split 0")?;
    for place in columns {
        if let Some(column) = layout.columns.get(*place) {
            if column.place < program.column_count() {
                text.push(b' ')?;
                text.extend_from_slice(program.column_name(column.place))?;
                text.extend_from_slice(b" 1")?;
            }
        }
    }
    text.push(b'\n')?;
    Ok(())
}

/// The line of a leaf.
pub fn line_of(alloc: Global, program: &Selection<'_>, leaf: &Leaf) -> Result<Vec<u8>, Limit> {
    let mut text = Vec::new(alloc);
    text.extend_from_slice(format!(in alloc; "bound {}", leaf.scale)?.as_bytes())?;
    for multiplier in &leaf.multipliers {
        text.extend_from_slice(format!(in alloc; " {multiplier}")?.as_bytes())?;
    }
    for (row, price) in &leaf.rows {
        if *row < program.row_count() {
            text.push(b' ')?;
            text.extend_from_slice(program.row_name(*row))?;
            text.extend_from_slice(format!(in alloc; " {price}")?.as_bytes())?;
        }
    }
    text.push(b'\n')?;
    Ok(text)
}

/// The text of a tree, whose root is the first node: the low side of a split before the high one. Nothing if a node is open.
pub fn certificate_of(
    alloc: Global,
    program: &Selection<'_>,
    layout: &Layout,
    nodes: &[Node],
) -> Result<Option<Vec<u8>>, Limit> {
    let mut text = Vec::new(alloc);
    let mut next = Vec::new(alloc);
    next.push(0)?;
    for _ in 0..nodes.len() {
        let Some(place) = next.pop() else {
            break;
        };
        match nodes.get(place) {
            Some(Node::Split { columns, low, high }) => {
                add_split(program, layout, columns.as_slice(), &mut text)?;
                next.push(*high)?;
                next.push(*low)?;
            }
            Some(Node::Leaf(line)) => text.extend_from_slice(line.as_slice())?,
            Some(Node::Open) | None => return Ok(None),
        }
    }
    Ok(if next.is_empty() { Some(text) } else { None })
}
