//! A claim with the record that logs it.
ghost use Rattle.std.specs.Prelude.{◌≡◌, ◌≤◌, length};
ghost use Rattle.sha2.specs.Sha256.{sha256};
ghost use Rattle.entry_codec.specs.ItemHead.{IsItemHead};
ghost use Rattle.delete_step.specs.Records.{head_of};

use crate::claim::Claim;
use delf_model::HEAD_LIMIT;
use entry_codec::write_item;
use payload_digest::digest_of;
use std::marker::Model;

/// A claim with the record that logs it: the head names the item and holds the SHA-256 of the payload. Contracts see
/// the claim, which determines the record.
#[derive(Drop)]
pub struct Prepared {
    claim: Claim,
    head: [u8; HEAD_LIMIT],
    head_len: u16,
}

impl Model for Prepared {
    ghost use Rattle.std.specs.Prelude.{◌≡◌, take};
    ghost use Rattle.delete_step.specs.Claims.{ClaimView};
    ghost use Rattle.delete_step.specs.Records.{IsRecord};

    ghost Value = { ClaimView };

    ghost view = { λ p. p.claim };

    ghost invariant = { λ p. IsRecord p.claim (take p.head_len p.head) p.head_len };
}

/// Spells the record of a claim. Takes no memory, as all calls of `Prepared`.
pub fn prepare(claim: Claim) -> Prepared
    ensures { result ≡ claim }
{
    let mut head = [0; HEAD_LIMIT];
    let digest = digest_of(claim.payload());
    let head_len = write_item(claim.item(), &digest, &mut head);
    Prepared {
        claim,
        head,
        head_len,
    }
}

impl Prepared {
    /// The claim.
    pub fn claim(&self) -> &Claim
        ensures { result.now ≡ self.now }
    {
        &self.claim
    }

    /// The head of the record.
    pub fn head(&self) -> &[u8]
        ensures head { result.now ≡ head_of self.now }
        ensures within { length result.now ≤ 66 }
        // So it is read again as the item with the digest.
        ensures item { IsItemHead self.now.item (sha256 self.now.payload) result.now (length self.now.payload) }
    {
        &self.head[..self.head_len as usize]
    }

    /// The payload of the record, of at most 512 bytes.
    pub fn payload(&self) -> &[u8]
        ensures payload { result.now ≡ self.now.payload }
        ensures within { length result.now ≤ 512 }
    {
        self.claim.payload()
    }
}
