//! The steps that are held.
ghost use Rattle.std.specs.Prelude.{◌≡◌, ◌+◌, ◌<◌, ◌≤◌, ◌^◌, ◌++◌, ◌∷◌, [], true, OnOk, length};
ghost use Rattle.delf_model.specs.Order.{is_held, erases_same as is_same_row};
ghost use Rattle.std.specs.List.{position};
ghost use Rattle.job_table.specs.Table.{given_up};

use delf_model::What;
use std::alloc::{AllocError, Global};
use std::marker::Model;

/// The steps that are held.
#[derive(Drop)]
pub struct Claims {
    steps: Vec<What>,
}

impl Model for Claims {
    ghost use Rattle.std.specs.Prelude.{◌-◌, ◌<◌, ◌^◌, vec_len, vec_capacity};
    ghost use Rattle.job_table.specs.Parts.{ClaimPart};

    ghost Value = { ClaimPart };

    ghost view = { λ l. record { list = l.steps.items; spare = vec_capacity l.steps - vec_len l.steps } };
}

impl Claims {
    pub fn new(alloc: Global) -> Claims
        ensures { result.list ≡ [] }
    {
        Claims {
            steps: Vec::new(alloc),
        }
    }

    pub fn reserve(&mut self, n: u32) -> Result<(), AllocError>
        ensures list { self.new.list ≡ self.old.list }
        ensures ok { OnOk result (n ≤ self.new.spare) }
        ensures kept { self.old.spare ≤ self.new.spare }
    {
        self.steps.reserve(n as usize)?;
        Ok(())
    }

    pub fn len(&self) -> usize
        ensures { result ≡ length self.now.list }
    {
        self.steps.len()
    }

    pub fn is_held(&self, step: &What) -> bool
        ensures { result ≡ is_held self.now.list step.now }
    {
        self.steps.iter().any(|other| erases_same(step, other))
    }

    pub fn hold(&mut self, step: &What)
        requires { 0 < self.old.spare }
        ensures list { self.new.list ≡ self.old.list ++ step.now ∷ [] }
        ensures spare { self.new.spare + 1 ≡ self.old.spare }
    {
        self.steps.push_reserved(*step);
    }

    pub fn give_up(&mut self, step: &What)
        ensures list { self.new.list ≡ given_up step.now self.old.list }
        ensures spare { self.old.spare ≤ self.new.spare }
    {
        match place(&self.steps, step) {
            Some(i) => {
                self.steps.remove(i);
            }
            None => {}
        }
    }
}

/// The place of the first step that erases the same row.
fn place(steps: &[What], step: &What) -> Option<usize>
    ensures { result ≡ position (is_same_row step.now) steps.now }
{
    steps.iter().position(|other| erases_same(step, other))
}

/// Whether two steps erase the same row, whichever job they name.
pub fn erases_same(a: &What, b: &What) -> bool
    ensures { result ≡ is_same_row a.now b.now }
{
    match a {
        What::Cut { edge, from, to, .. } => match b {
            What::Cut {
                edge: other_edge,
                from: other_from,
                to: other_to,
                ..
            } => {
                edge.0 == other_edge.0
                    && from.get() == other_from.get()
                    && to.get() == other_to.get()
            }
            _ => false,
        },
        What::Erase { id, .. } => match b {
            What::Erase { id: other, .. } => id.get() == other.get(),
            _ => false,
        },
        _ => false,
    }
}
