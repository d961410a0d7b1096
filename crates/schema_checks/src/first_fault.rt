//! The first broken rule of a schema, with its line.
ghost use Rattle.std.specs.Prelude.{◌≡◌, IfOk, IfErr, IsOkUnless};
ghost use Rattle.delf_model.specs.Checked.{IsChecked, IsSpellable, numbered};
ghost use Rattle.schema_checks.specs.Faults.{fault_of, line_of_object, line_of_edge, IsCheckFault};

use crate::checked::Checked;
use delf_model::{Broken, JudgeFault, Rules, Schema};
use std::alloc::Global;

/// The first broken rule of a schema, with the number of its line.
#[derive(Clone, Copy, PartialEq, Eq, Debug)]
pub enum Fault {
    /// The line's name stands in an earlier line of its kind too.
    Twice { line: u32 },
    /// The edge type's source, or its target where the source is declared, is no object type.
    Undeclared { line: u32, target: bool },
    /// The edge type is deep or refcount and points at a `directly_only` or `not_deleted` type.
    CannotTake { line: u32 },
    /// The object type is `by_any` and has no route.
    NoRoute { line: u32 },
}

/// Why a schema does not pass.
#[derive(Clone, Copy, PartialEq, Eq, Debug)]
pub enum CheckFault {
    /// It breaks a rule.
    Broken { fault: Fault },
    /// Want of memory.
    OutOfMemory,
}

/// Checks a schema that a schema text can spell. The rules are tried in this order: names of object types, names of
/// edge types, ends, targets, routes; and each over the rows in their order.
pub fn check(alloc: Global, schema: &Schema) -> Result<Checked, CheckFault>
    requires { IsSpellable schema.now }
    ensures checked { IfOk result (λ checked. IsChecked schema.now) }
    ensures value { IfOk result (λ checked. checked ≡ numbered schema.now) }
    ensures fault { IfErr result (λ fault. IsCheckFault schema.now fault) }
    ensures passes { IsChecked schema.now → IsOkUnless result CheckFault.OutOfMemory }
{
    match Rules::judge(alloc, schema) {
        Ok(rules) => Checked::of(alloc, rules).map_err(|_| CheckFault::OutOfMemory),
        Err(JudgeFault::Breaks(broken)) => Err(CheckFault::Broken {
            fault: told(schema, broken),
        }),
        Err(JudgeFault::OutOfMemory) => Err(CheckFault::OutOfMemory),
    }
}

/// The fault with the line of its row.
fn told(schema: &Schema, broken: Broken) -> Fault
    ensures { result ≡ fault_of schema.now broken }
{
    match broken {
        Broken::ObjectTwice { row } => Fault::Twice {
            line: object_line(schema, row),
        },
        Broken::EdgeTwice { row } => Fault::Twice {
            line: edge_line(schema, row),
        },
        Broken::Undeclared { row, target } => Fault::Undeclared {
            line: edge_line(schema, row),
            target,
        },
        Broken::CannotTake { row } => Fault::CannotTake {
            line: edge_line(schema, row),
        },
        Broken::NoRoute { row } => Fault::NoRoute {
            line: object_line(schema, row),
        },
    }
}

fn object_line(schema: &Schema, row: usize) -> u32
    ensures { result ≡ line_of_object schema.now row }
{
    let objects = schema.objects.as_slice();
    if row < objects.len() {
        objects[row].line
    } else {
        0
    }
}

fn edge_line(schema: &Schema, row: usize) -> u32
    ensures { result ≡ line_of_edge schema.now row }
{
    let edges = schema.edges.as_slice();
    if row < edges.len() {
        edges[row].line
    } else {
        0
    }
}
