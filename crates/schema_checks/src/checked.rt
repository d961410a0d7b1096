//! A checked schema: its rules, and the route of each of its types.
ghost use Rattle.std.specs.Prelude.{◌≡◌, IfOk, None, slice_get, List, ℕ};
ghost use Rattle.delf_model.specs.Checked.{HasRoute};
ghost use Rattle.schema_checks.specs.Routes.{IsFirstEdge, IsPrintedRoute};

use crate::first_edge::first_edge;
use delf_model::{EdgeNo, EdgeRule, Rules, TypeNo};
use std::alloc::{AllocError, Global};
use std::marker::Model;

/// The rules of a checked schema, with the routes of its types.
#[derive(Drop)]
pub struct Checked {
    rules: Rules,
    firsts: Vec<Option<EdgeNo>>,
}

impl Model for Checked {
    ghost use Rattle.delf_model.specs.RuleSet.{RuleSet};

    ghost Value = { RuleSet };

    ghost use Rattle.schema_checks.specs.Routes.{AreFirstEdges};

    ghost view = { λ checked. checked.rules };

    ghost invariant = { λ checked. AreFirstEdges checked.rules checked.firsts.items };
}

impl Checked {
    /// The rules with the first edge type of each printed route, each found by one look over the edge types.
    pub(crate) fn of(alloc: Global, rules: Rules) -> Result<Checked, AllocError>
        ensures { IfOk result (λ checked. checked ≡ rules) }
    {
        let mut firsts = Vec::new(alloc);
        for kind in 0..rules.objects_len() {
            firsts.push(first_edge(&rules, TypeNo(kind as u8)))?;
        }
        Ok(Checked { rules, firsts })
    }

    /// The rules by number.
    pub fn rules(&self) -> &Rules
        ensures { result.now ≡ self.now }
    {
        &self.rules
    }

    /// The i-th edge type of the type's printed route, a shortest route and of these the one whose list of numbers is
    /// least; None past its end, and where the type has no route. A step looks up one edge type.
    pub fn route(&self, kind: TypeNo, i: u32) -> Option<EdgeNo>
        ensures printed { HasRoute self.now kind → (route : List ℕ) × IsPrintedRoute self.now kind route }
        ensures exact { (route : List ℕ) → IsPrintedRoute self.now kind route → result ≡ slice_get route i }
        ensures none { (HasRoute self.now kind → ⊥) → result ≡ None }
    {
        let edge = self.first(kind)?;
        if i == 0 {
            return Some(edge);
        }
        let shape = self.rules.edge(edge)?;
        match shape.rule {
            EdgeRule::Deep => self.route(shape.from, i - 1),
            EdgeRule::Shallow | EdgeRule::Refcount => None,
        }
    }

    fn first(&self, kind: TypeNo) -> Option<EdgeNo>
        ensures edge { IsFirstEdge self.now kind result }
        ensures printed { HasRoute self.now kind → (route : List ℕ) × IsPrintedRoute self.now kind route }
    {
        let kind = kind.0 as usize;
        if kind < self.firsts.len() {
            self.firsts[kind]
        } else {
            None
        }
    }
}
