//! The names that a schema has for its types and edge types.
ghost use Rattle.std.specs.Prelude.{◌≡◌, ◌<◌, length};
ghost use Rattle.documents.specs.Names.{kind_name, edge_name};

use delf_model::{EdgeNo, Name, Schema, TypeNo};

/// The name of the object type with this number.
pub fn kind_name(schema: &Schema, kind: TypeNo) -> &Name
    requires { kind < length schema.now.objects }
    ensures { result.now ≡ kind_name schema.now kind }
{
    object_row_name(schema, kind.0 as usize)
}

/// The name of the edge type with this number.
pub fn edge_name(schema: &Schema, edge: EdgeNo) -> &Name
    requires { edge < length schema.now.edges }
    ensures { result.now ≡ edge_name schema.now edge }
{
    edge_row_name(schema, edge.0 as usize)
}

/// The name in this row of the object types.
pub fn object_row_name(schema: &Schema, row: usize) -> &Name
    requires { row < length schema.now.objects }
    ensures { result.now ≡ kind_name schema.now row }
{
    let types = schema.objects.as_slice();
    &types[row].name
}

/// The name in this row of the edge types.
pub fn edge_row_name(schema: &Schema, row: usize) -> &Name
    requires { row < length schema.now.edges }
    ensures { result.now ≡ edge_name schema.now row }
{
    let types = schema.edges.as_slice();
    &types[row].name
}
