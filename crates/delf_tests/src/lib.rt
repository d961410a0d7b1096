//! Tests that cross crates: what runs print, row by row, and what an opening and a long graph answer. Nothing else stands here.
#![tactic(auto)]

#[cfg(test)]
mod books;
#[cfg(test)]
mod checks;
#[cfg(test)]
mod choices;
#[cfg(test)]
mod claims;
#[cfg(test)]
mod damage;
#[cfg(test)]
mod limits;
#[cfg(test)]
mod loads;
#[cfg(test)]
mod openings;
#[cfg(test)]
mod outside;
#[cfg(test)]
mod photos;
#[cfg(test)]
mod reads;
#[cfg(test)]
mod reserved;
#[cfg(test)]
mod rows;
#[cfg(test)]
mod runs;
#[cfg(test)]
mod scans;
#[cfg(test)]
mod stops;
#[cfg(test)]
mod strange;
