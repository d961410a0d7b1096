//! The line of a refused call.
#![tactic(auto, unfolding(crate::specs::Texts::refusal_text))]

ghost use Rattle.std.specs.Prelude.{◌≡◌, ◌++◌, IfOk, codes};
ghost use Rattle.job_report.specs.Texts.{refusal_text, refusal_start, refused_words};
ghost use Rattle.job_report.specs.Words.{refusal_number, refusal_words, rule_word, wrong_end_words, name_taken_words, full_words};

use crate::line::Line;
use delf_model::{Bytes, Name, ObjectId, ObjectRule, Refusal};
use std::alloc::{AllocError, Global};

/// `refused N at L TEXT`, with the number and the text of this refusal, at this length of the history. Of a disk fault
/// it is `down at L`, with the length that the refusal has. The name is that of the type that a wrong end has; no other
/// refusal prints it.
pub fn refusal_line(
    alloc: Global,
    refusal: &Refusal,
    len: u32,
    name: &Name,
) -> Result<Bytes, AllocError>
    ensures { IfOk result (λ bytes. bytes ≡ refusal_text refusal.now len name.now) }
{
    Line::new(alloc).refusal(refusal, len, name)?.end()
}

/// The number of a refusal, 1 to 17, by the order in which they are tried.
fn number_of(refusal: &Refusal) -> u32
    ensures { result ≡ refusal_number refusal.now }
{
    match refusal {
        Refusal::Down { .. } => 1,
        Refusal::TooLong { .. } => 2,
        Refusal::Absent { .. } => 3,
        Refusal::Condemned { .. } => 4,
        Refusal::WrongEnd { .. } => 5,
        Refusal::NameTaken { .. } => 6,
        Refusal::EdgeTaken { .. } => 7,
        Refusal::NoEdge => 8,
        Refusal::NotDirect { .. } => 9,
        Refusal::JobTaken { .. } => 10,
        Refusal::NoJob => 11,
        Refusal::Pending { .. } => 12,
        Refusal::RestoredBefore { .. } => 13,
        Refusal::WindowOver { .. } => 14,
        Refusal::Full { .. } => 15,
        Refusal::OutOfMemory => 16,
        Refusal::DiskFault { .. } => 17,
    }
}

impl Line {
    fn refusal(self, refusal: &Refusal, len: u32, name: &Name) -> Result<Line, AllocError>
        ensures { IfOk result (λ line. line ≡ self ++ refusal_start refusal.now len name.now) }
    {
        match refusal {
            Refusal::DiskFault { len } => self.text(b"down at ")?.count(*len),
            _ => self.refused(refusal, len, name),
        }
    }

    fn refused(self, refusal: &Refusal, len: u32, name: &Name) -> Result<Line, AllocError>
        ensures { IfOk result (λ line. line ≡ self ++ refused_words refusal.now len name.now) }
    {
        self.text(b"refused ")?
            .count(number_of(refusal))?
            .text(b" at ")?
            .count(len)?
            .text(b" ")?
            .why(refusal, name)
    }

    fn why(self, refusal: &Refusal, name: &Name) -> Result<Line, AllocError>
        ensures { IfOk result (λ line. line ≡ self ++ refusal_words refusal.now name.now) }
    {
        match *refusal {
            Refusal::Down { .. } => self.text(b"down"),
            Refusal::TooLong { len } => self.labelled(b"too long ", len),
            Refusal::Absent { id } => self.labelled(b"absent ", id.get()),
            Refusal::Condemned { id, job } => self.condemned(id, job),
            Refusal::WrongEnd { id, .. } => self.wrong_end(id, name),
            Refusal::NameTaken { id, birth } => self.name_taken(id, birth),
            Refusal::EdgeTaken { birth } => self.counted(b"edge taken birth ", birth),
            Refusal::NoEdge => self.text(b"no edge"),
            Refusal::NotDirect { rule } => self.not_direct(rule),
            Refusal::JobTaken { name } => self.counted(b"job taken ", name),
            Refusal::NoJob => self.text(b"no job"),
            Refusal::Pending { owned } => self.counted(b"pending ", owned),
            Refusal::RestoredBefore { position } => self.counted(b"restored before ", position),
            Refusal::WindowOver { last } => self.labelled(b"window over ", last),
            Refusal::Full { used, owed } => self.full(used, owed),
            Refusal::OutOfMemory => self.text(b"out of memory"),
            Refusal::DiskFault { len } => self.counted(b"down at ", len),
        }
    }

    fn wrong_end(self, id: ObjectId, name: &Name) -> Result<Line, AllocError>
        ensures { IfOk result (λ line. line ≡ self ++ wrong_end_words id name.now) }
    {
        self.text(b"wrong end ")?.id(id)?.text(b" ")?.name(name)
    }

    fn name_taken(self, id: ObjectId, birth: u32) -> Result<Line, AllocError>
        ensures { IfOk result (λ line. line ≡ self ++ name_taken_words id birth) }
    {
        self.text(b"name taken ")?
            .id(id)?
            .text(b" birth ")?
            .count(birth)
    }

    fn not_direct(self, rule: ObjectRule) -> Result<Line, AllocError>
        ensures { IfOk result (λ line. line ≡ self ++ codes "not direct " ++ rule_word rule) }
    {
        let line = self.text(b"not direct ")?;
        match rule {
            ObjectRule::Directly => line.text(b"directly"),
            ObjectRule::DirectlyOnly => line.text(b"directly_only"),
            ObjectRule::ByAny => line.text(b"by_any"),
            ObjectRule::ShortTtl(_) => line.text(b"short_ttl"),
            ObjectRule::NotDeleted => line.text(b"not_deleted"),
        }
    }

    fn full(self, used: u32, owed: u32) -> Result<Line, AllocError>
        ensures { IfOk result (λ line. line ≡ self ++ full_words used owed) }
    {
        self.text(b"full ")?.count(used)?.text(b" ")?.count(owed)
    }
}
