//! A schema as it is written.
use crate::ids::TypeNo;
use crate::list::List;
use crate::name::Name;

/// How objects of a type are deleted.
#[derive(Clone, Copy, PartialEq, Eq, Debug)]
pub enum ObjectRule {
    /// May be the root of a delete call, and may be condemned through an edge.
    Directly,
    /// May be the root of a delete call alone.
    DirectlyOnly,
    /// May be condemned through an edge alone.
    ByAny,
    /// Expires so many seconds after its creation, 1 to 7,776,000; may be condemned through an edge.
    ShortTtl(u32),
    /// Is never deleted.
    NotDeleted,
}

/// What the removal of an edge from a condemned source does.
#[derive(Clone, Copy, PartialEq, Eq, Debug)]
pub enum EdgeRule {
    /// Condemns the target.
    Deep,
    /// Nothing more.
    Shallow,
    /// Condemns the target where no edge of any refcount type points at it afterwards.
    Refcount,
}

/// An object type with the number of its line, which is 0 in a schema made by hand.
#[derive(Drop, Debug)]
pub struct ObjectType {
    pub name: Name,
    pub rule: ObjectRule,
    pub line: u32,
}

/// An edge type with the number of its line, which is 0 in a schema made by hand.
#[derive(Drop, Debug)]
pub struct EdgeType {
    pub name: Name,
    pub from: Name,
    pub to: Name,
    pub rule: EdgeRule,
    pub line: u32,
}

/// What an operator annotates: a window in seconds, object types and edge types.
#[derive(Drop)]
pub struct Schema {
    pub window: u32,
    pub objects: List<ObjectType>,
    pub edges: List<EdgeType>,
}

/// An edge type as the service uses it: ends by number.
#[derive(Clone, Copy, PartialEq, Eq, Debug)]
pub struct EdgeShape {
    pub from: TypeNo,
    pub to: TypeNo,
    pub rule: EdgeRule,
}
