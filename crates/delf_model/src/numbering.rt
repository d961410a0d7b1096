//! A schema with its types by number.
ghost use Rattle.std.specs.Prelude.{◌≡◌, ◌≤◌, IfOk, MatchOption, length, map, slice_get};
ghost use Rattle.std.specs.List.{position_or_len};
ghost use Rattle.std.specs.Str.{bytes_eq};
ghost use Rattle.delf_model.specs.Checked.{number_of, shape_of, numbered, NoRow, IsFirstRowOrNone, IsRepeated, LacksEnd, IsFirstUndeclared, CondemnsUntaken, is_start_rule, takes_rule, rule_may_condemn};

use crate::ids::TypeNo;
use crate::name::Name;
use crate::schema::{EdgeRule, EdgeShape, EdgeType, ObjectRule, ObjectType, Schema};
use std::alloc::{AllocError, Global};
use std::marker::Model;

/// The annotations by number, whether or not they keep the rules of a checked schema.
#[derive(Drop)]
pub(crate) struct Numbering {
    pub(crate) window: u32,
    pub(crate) objects: Vec<ObjectRule>,
    pub(crate) edges: Vec<EdgeShape>,
}

impl Model for Numbering {
    ghost use Rattle.delf_model.specs.RuleSet.{RuleSet};

    ghost Value = { RuleSet };

    ghost view = { (λ n. record { window = n.window; objects = n.objects.items; edges = n.edges.items }) };
}

/// The number of the object type with this name, or the number of types.
fn number(objects: &[ObjectType], name: &Name) -> usize
    ensures { result ≡ number_of objects.now name.now }
{
    for (i, object) in objects.iter().enumerate() {
        if object.name.same(name) {
            return i;
        }
    }
    objects.len()
}

/// The place of the first edge type with this name, or the number of edge types.
fn edge_place(edges: &[EdgeType], name: &Name) -> usize
    ensures { result ≡ position_or_len (λ edge. bytes_eq edge.name name.now) edges.now }
{
    for (i, edge) in edges.iter().enumerate() {
        if edge.name.same(name) {
            return i;
        }
    }
    edges.len()
}

/// An edge type with its ends by number.
fn shape(objects: &[ObjectType], edge: &EdgeType) -> EdgeShape
    requires { length objects.now ≤ 64 }
    ensures { result ≡ shape_of objects.now edge.now }
{
    EdgeShape {
        from: TypeNo(number(objects, &edge.from) as u8),
        to: TypeNo(number(objects, &edge.to) as u8),
        rule: edge.rule,
    }
}

/// The annotations of a schema by number; the only error is want of memory.
pub(crate) fn number_schema(alloc: Global, schema: &Schema) -> Result<Numbering, AllocError>
    requires { length schema.now.objects ≤ 64 }
    ensures { IfOk result (λ numbering. numbering ≡ numbered schema.now) }
{
    let objects = schema.objects.as_slice();
    Ok(Numbering {
        window: schema.window,
        objects: rules_of(alloc, objects)?,
        edges: shapes_of(alloc, objects, schema.edges.as_slice())?,
    })
}

fn rules_of(alloc: Global, objects: &[ObjectType]) -> Result<Vec<ObjectRule>, AllocError>
    ensures { IfOk result (λ rules. rules.items ≡ map (λ object. object.rule) objects.now) }
{
    objects.iter().map(|object| object.rule).collect(alloc)
}

fn shapes_of(
    alloc: Global,
    objects: &[ObjectType],
    edges: &[EdgeType],
) -> Result<Vec<EdgeShape>, AllocError>
    requires { length objects.now ≤ 64 }
    ensures { IfOk result (λ shapes. shapes.items ≡ map (shape_of objects.now) edges.now) }
{
    edges.iter().map(|edge| shape(objects, edge)).collect(alloc)
}

/// The first object type whose name stands in an earlier line too.
pub(crate) fn first_repeated_object(objects: &[ObjectType]) -> Option<usize>
    ensures { IsFirstRowOrNone result (length objects.now) (IsRepeated (map (λ object. object.name) objects.now)) }
{
    for row in 0..objects.len() {
        if number(objects, &objects[row].name) < row {
            return Some(row);
        }
    }
    None
}

/// The first edge type whose name stands in an earlier line too.
pub(crate) fn first_repeated_edge(edges: &[EdgeType]) -> Option<usize>
    ensures { IsFirstRowOrNone result (length edges.now) (IsRepeated (map (λ edge. edge.name) edges.now)) }
{
    for row in 0..edges.len() {
        if edge_place(edges, &edges[row].name) < row {
            return Some(row);
        }
    }
    None
}

/// Whether a type with this annotation starts each route to others, and so has the empty one.
pub(crate) fn starts_routes(rule: ObjectRule) -> bool
    ensures { result ≡ is_start_rule rule }
{
    match rule {
        ObjectRule::Directly | ObjectRule::DirectlyOnly | ObjectRule::ShortTtl(_) => true,
        ObjectRule::ByAny | ObjectRule::NotDeleted => false,
    }
}

/// Whether objects of a type with this annotation may be condemned through an edge.
fn takes_edges(rule: ObjectRule) -> bool
    ensures { result ≡ takes_rule rule }
{
    match rule {
        ObjectRule::Directly | ObjectRule::ByAny | ObjectRule::ShortTtl(_) => true,
        ObjectRule::DirectlyOnly | ObjectRule::NotDeleted => false,
    }
}

/// Whether the removal of an edge with this annotation may condemn its target.
fn may_condemn(rule: EdgeRule) -> bool
    ensures { result ≡ rule_may_condemn rule }
{
    match rule {
        EdgeRule::Deep | EdgeRule::Refcount => true,
        EdgeRule::Shallow => false,
    }
}

impl Numbering {
    /// The annotation of an object type; None past the last one.
    pub(crate) fn object(&self, kind: TypeNo) -> Option<ObjectRule>
        ensures { result ≡ slice_get self.now.objects kind }
    {
        self.objects.get(kind.0 as usize).copied()
    }

    /// The first edge type with an end that is no type, and whether that end is its target alone.
    pub(crate) fn first_undeclared(&self) -> Option<(usize, bool)>
        ensures { MatchOption result (NoRow (length self.now.edges) (LacksEnd self.now)) (λ found. IsFirstUndeclared self.now found.0 found.1) }
    {
        let types = self.objects.len();
        for row in 0..self.edges.len() {
            let edge = self.edges[row];
            let target = (edge.from.0 as usize) < types;
            if !target || edge.to.0 as usize >= types {
                return Some((row, target));
            }
        }
        None
    }

    /// The first edge type that may condemn objects of a type that no edge may condemn.
    pub(crate) fn first_untaken(&self) -> Option<usize>
        ensures { IsFirstRowOrNone result (length self.now.edges) (CondemnsUntaken self.now) }
    {
        for row in 0..self.edges.len() {
            let edge = self.edges[row];
            if may_condemn(edge.rule) && !self.object(edge.to).is_some_and(takes_edges) {
                return Some(row);
            }
        }
        None
    }
}
