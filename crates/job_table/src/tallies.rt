//! What the items of a job come to.
ghost use Rattle.std.specs.Prelude.{◌≡◌, cond};
ghost use Rattle.job_table.specs.Parts.{logged_of};
ghost use Rattle.job_table.specs.Tallies.{share_of as share_of_logged, tally_sum, no_tally as empty_tally, Fits as FitsTally, Within as WithinTally, tally_rest};

use crate::items::{Kept, is_object, was_listed, was_put};

/// What the items of a job come to: how many objects were erased and edges cut, how many items were put back, were
/// listed and are neither, and what the last ones count once the job is restored.
#[derive(Clone, Copy)]
pub struct Tally {
    pub erased: u32,
    pub cut: u32,
    pub put: u32,
    pub listed: u32,
    pub unhandled: u32,
    pub weight: u64,
}

/// The tally of a job without items.
pub fn no_tally() -> Tally
    ensures { result ≡ empty_tally }
{
    Tally {
        erased: 0,
        cut: 0,
        put: 0,
        listed: 0,
        unhandled: 0,
        weight: 0,
    }
}

/// What an item adds to the tally of its job.
pub fn share_of(kept: &Kept) -> Tally
    ensures { result ≡ share_of_logged (logged_of kept.now) }
{
    let object = is_object(&kept.item);
    let left = kept.handled.is_none();
    Tally {
        erased: one_if(object),
        cut: one_if(!object),
        put: one_if(was_put(&kept.handled)),
        listed: one_if(was_listed(&kept.handled)),
        unhandled: one_if(left),
        weight: weight_of(object, left),
    }
}

fn one_if(test: bool) -> u32
    ensures { result ≡ cond test 1 0 }
{
    if test { 1 } else { 0 }
}

fn weight_of(object: bool, left: bool) -> u64
    ensures { result ≡ cond left (cond object 4 2) 0 }
{
    if !left {
        return 0;
    }
    if object { 4 } else { 2 }
}

pub fn with(tally: &Tally, share: &Tally) -> Tally
    requires { FitsTally tally.now share.now }
    ensures { result ≡ tally_sum tally.now share.now }
{
    Tally {
        erased: tally.erased + share.erased,
        cut: tally.cut + share.cut,
        put: tally.put + share.put,
        listed: tally.listed + share.listed,
        unhandled: tally.unhandled + share.unhandled,
        weight: tally.weight + share.weight,
    }
}

pub fn without(tally: &Tally, share: &Tally) -> Tally
    requires { WithinTally share.now tally.now }
    ensures { result ≡ tally_rest tally.now share.now }
{
    Tally {
        erased: tally.erased - share.erased,
        cut: tally.cut - share.cut,
        put: tally.put - share.put,
        listed: tally.listed - share.listed,
        unhandled: tally.unhandled - share.unhandled,
        weight: tally.weight - share.weight,
    }
}
