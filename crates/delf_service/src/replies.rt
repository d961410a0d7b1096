//! What the commands of a lane are answered.
ghost use Rattle.std.specs.Prelude.{◌↔◌, IsTrue};
ghost use Rattle.delf_service.specs.Lanes.{IsStarved};

use crate::answers::{Answer, Asked};
use delf_model::{Bytes, List, Refusal};

/// What one command of a lane is answered.
#[derive(Drop)]
pub enum LaneReply {
    /// Of a writing call.
    Submitted(Answer),
    /// Of a question, with the payload of the object where it was found and `fault` is None, else with an empty one.
    Got { asked: Asked, payload: Bytes },
}

/// What the commands of one lane are answered, each in its turn.
#[derive(Drop)]
pub struct LaneOut {
    pub replies: List<LaneReply>,
}

impl LaneReply {
    // Whether a call was not made for want of memory.
    pub(crate) fn is_starved(&self) -> bool
        ensures { IsTrue result ↔ IsStarved self.now }
    {
        match self {
            LaneReply::Submitted(answer) => match answer.reply {
                Err(Refusal::OutOfMemory) => true,
                _ => false,
            },
            LaneReply::Got { .. } => false,
        }
    }
}
