//! The edge types by number.
ghost use Rattle.std.specs.Prelude.{◌≡◌, IfOk, slice_get};
ghost use Rattle.delf_model.specs.RuleSet.{is_refcount_shape};
ghost use Rattle.edge_index.specs.Refs.{row_counts};

use delf_model::{EdgeNo, EdgeRow, EdgeRule, EdgeShape, Rules};
use std::alloc::{AllocError, Global};

/// Whether the edge type with this number is refcount.
pub fn is_counting(shapes: &[EdgeShape], edge: EdgeNo) -> bool
    ensures { result ≡ is_refcount_shape (slice_get shapes.now edge) }
{
    match shapes.get(edge.0 as usize) {
        Some(shape) => matches!(shape.rule, EdgeRule::Refcount),
        None => false,
    }
}

/// Whether a row, if there is one, is of a refcount type.
pub fn is_row_counting(shapes: &[EdgeShape], row: &Option<EdgeRow>) -> bool
    ensures { result ≡ row_counts (λ edge. is_refcount_shape (slice_get shapes.now edge)) row.now }
{
    match row {
        Some(row) => is_counting(shapes, row.key.edge),
        None => false,
    }
}

/// The edge types of the rules, by number. The only error is want of memory.
pub fn shapes_of(alloc: Global, rules: &Rules) -> Result<Vec<EdgeShape>, AllocError>
    ensures { IfOk result (λ shapes. shapes.items ≡ rules.now.edges) }
{
    let mut shapes = Vec::new(alloc);
    for edge in 0..rules.edges_len() {
        if let Some(shape) = rules.edge(EdgeNo(edge as u8)) {
            shapes.push(shape)?;
        }
    }
    Ok(shapes)
}
