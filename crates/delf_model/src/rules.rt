//! Checked annotations by number, and their routes.
ghost use Rattle.std.specs.Prelude.{◌≡◌, ◌≤◌, IfOk, IfErr, length, slice_get};
ghost use Rattle.delf_model.specs.Checked.{KeepsRules, IsChecked, IsDistance, IsSpellable, IsFirstRowOrNone, LacksRoute, numbered};
ghost use Rattle.delf_model.specs.Distances.{AreDistances};

use crate::distances::distances;
use crate::ids::{EdgeNo, TypeNo};
use crate::numbering::{Numbering, first_repeated_edge, first_repeated_object, number_schema};
use crate::schema::{EdgeShape, ObjectRule, Schema};
use std::alloc::{AllocError, Global};
use std::marker::Model;

/// The annotations of a checked schema by number: the ends of each edge type are types of it, no deep or refcount
/// edge type points at a `directly_only` or `not_deleted` type, and every `by_any` type has a route.
#[derive(Drop)]
pub struct Rules {
    numbering: Numbering,
    distances: Vec<Option<u32>>,
}

impl Model for Rules {
    ghost use Rattle.delf_model.specs.RuleSet.{RuleSet};

    ghost Value = { RuleSet };

    ghost use Rattle.delf_model.specs.Distances.{KeepsDistances};

    ghost view = { λ rules. rules.numbering };

    ghost invariant = { λ rules. KeepsDistances rules.numbering rules.distances.items };
}

impl Rules {
    ghost use Rattle.delf_model.specs.Broken.{IsJudgeFault, IsNumbersFault};

    /// The rules of a schema that a schema text can spell.
    pub fn of(alloc: Global, schema: &Schema) -> Result<Rules, RulesFault>
        requires { IsSpellable schema.now }
        ensures checked { IfOk result (λ rules. IsChecked schema.now) }
        ensures value { IfOk result (λ rules. rules ≡ numbered schema.now) }
        ensures unchecked { result ≡ Err RulesFault.Unchecked → IsChecked schema.now → ⊥ }
    {
        match Rules::judge(alloc, schema) {
            Ok(rules) => Ok(rules),
            Err(JudgeFault::Breaks(_)) => Err(RulesFault::Unchecked),
            Err(JudgeFault::OutOfMemory) => Err(RulesFault::OutOfMemory),
        }
    }

    /// The rules of a schema that a schema text can spell, or the first rule that it breaks.
    pub fn judge(alloc: Global, schema: &Schema) -> Result<Rules, JudgeFault>
        requires { IsSpellable schema.now }
        ensures checked { IfOk result (λ rules. IsChecked schema.now) }
        ensures value { IfOk result (λ rules. rules ≡ numbered schema.now) }
        ensures fault { IfErr result (λ fault. IsJudgeFault schema.now fault) }
    {
        if let Some(row) = first_repeated_object(schema.objects.as_slice()) {
            return Err(JudgeFault::Breaks(Broken::ObjectTwice { row }));
        }
        if let Some(row) = first_repeated_edge(schema.edges.as_slice()) {
            return Err(JudgeFault::Breaks(Broken::EdgeTwice { row }));
        }
        match number_schema(alloc, schema) {
            Ok(numbering) => Rules::of_numbers(alloc, numbering),
            Err(AllocError) => Err(JudgeFault::OutOfMemory),
        }
    }

    fn of_numbers(alloc: Global, numbering: Numbering) -> Result<Rules, JudgeFault>
        requires objects { length numbering.objects ≤ 64 }
        requires edges { length numbering.edges ≤ 256 }
        ensures kept { IfOk result (λ rules. KeepsRules numbering) }
        ensures value { IfOk result (λ rules. rules ≡ numbering) }
        ensures fault { IfErr result (λ fault. IsNumbersFault numbering fault) }
    {
        if let Some((row, target)) = numbering.first_undeclared() {
            return Err(JudgeFault::Breaks(Broken::Undeclared { row, target }));
        }
        if let Some(row) = numbering.first_untaken() {
            return Err(JudgeFault::Breaks(Broken::CannotTake { row }));
        }
        let Ok(distances) = distances(alloc, &numbering) else {
            return Err(JudgeFault::OutOfMemory);
        };
        if let Some(row) = first_unrouted(&numbering, &distances) {
            return Err(JudgeFault::Breaks(Broken::NoRoute { row }));
        }
        Ok(Rules {
            numbering,
            distances,
        })
    }

    /// The window of `restore`, in seconds.
    pub fn window(&self) -> u32
        ensures value { result ≡ self.now.window }
        ensures rules { KeepsRules self.now }
    {
        self.numbering.window
    }

    /// The annotation of the object type with this number; None exactly past the last one. Takes no memory.
    pub fn object(&self, kind: TypeNo) -> Option<ObjectRule>
        ensures { result ≡ slice_get self.now.objects kind }
    {
        self.numbering.objects.get(kind.0 as usize).copied()
    }

    /// The edge type with this number; None exactly past the last one. Takes no memory.
    pub fn edge(&self, edge: EdgeNo) -> Option<EdgeShape>
        ensures { result ≡ slice_get self.now.edges edge }
    {
        self.numbering.edges.get(edge.0 as usize).copied()
    }

    /// The number of object types, at most 64.
    pub fn objects_len(&self) -> usize
        ensures value { result ≡ length self.now.objects }
        ensures below { result ≤ 64 }
        ensures rules { KeepsRules self.now }
    {
        self.numbering.objects.len()
    }

    /// The number of edge types, at most 256.
    pub fn edges_len(&self) -> usize
        ensures value { result ≡ length self.now.edges }
        ensures below { result ≤ 256 }
    {
        self.numbering.edges.len()
    }

    /// The number of edge types of a shortest route of this type; None where it has no route. Takes no memory.
    pub fn distance(&self, kind: TypeNo) -> Option<u32>
        ensures { IsDistance self.now kind result }
    {
        let kind = kind.0 as usize;
        if kind < self.distances.len() {
            self.distances[kind]
        } else {
            None
        }
    }
}

/// The first broken rule of a schema, with the number of its row among the object types or the edge types.
#[derive(Clone, Copy, PartialEq, Eq, Debug)]
pub enum Broken {
    /// The object type's name stands in an earlier line too.
    ObjectTwice { row: usize },
    /// The edge type's name stands in an earlier line too.
    EdgeTwice { row: usize },
    /// The edge type's source, or its target where the source is declared, is no object type.
    Undeclared { row: usize, target: bool },
    /// The edge type is deep or refcount and points at a type that may not be condemned through an edge.
    CannotTake { row: usize },
    /// The object type is `by_any` and has no route.
    NoRoute { row: usize },
}

/// Why a schema has no rules.
#[derive(Clone, Copy, PartialEq, Eq, Debug)]
pub enum RulesFault {
    /// It breaks a rule of a checked schema.
    Unchecked,
    /// Want of memory.
    OutOfMemory,
}

/// Why a schema has no rules, with the rule that it breaks.
#[derive(Clone, Copy, PartialEq, Eq, Debug)]
pub enum JudgeFault {
    /// Its first broken rule.
    Breaks(Broken),
    /// Want of memory.
    OutOfMemory,
}

/// The first `by_any` type with no route.
fn first_unrouted(numbering: &Numbering, distances: &[Option<u32>]) -> Option<usize>
    requires { AreDistances numbering.now distances.now }
    ensures { IsFirstRowOrNone result (length numbering.now.objects) (LacksRoute numbering.now) }
{
    for kind in 0..numbering.objects.len() {
        if matches!(numbering.objects[kind], ObjectRule::ByAny) && distances[kind].is_none() {
            return Some(kind);
        }
    }
    None
}
