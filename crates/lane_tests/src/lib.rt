//! Tests of a book that many share: seats by hand, lanes and workers on threads, over a disk in memory and over files,
//! and scripts with blocks through the top call. Nothing else stands here.
#![tactic(auto)]

#[cfg(test)]
mod accounts;
#[cfg(test)]
mod blocks;
#[cfg(test)]
mod drawn;
#[cfg(test)]
mod files;
#[cfg(test)]
mod gates;
#[cfg(test)]
mod histories;
#[cfg(test)]
mod many;
#[cfg(test)]
mod orders;
#[cfg(test)]
mod restores;
#[cfg(test)]
mod rounds;
#[cfg(test)]
mod seats;
#[cfg(test)]
mod sends;
#[cfg(test)]
mod stores;
#[cfg(test)]
mod together;
#[cfg(test)]
mod top_calls;
