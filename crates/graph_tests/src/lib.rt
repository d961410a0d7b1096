//! Tests of the ledger over both graphs: the worked rows, many users that come and go, and drawn calls, answered alike over either. Nothing else stands here.
#![tactic(auto)]

#[cfg(test)]
mod drive;
#[cfg(test)]
mod orders;
