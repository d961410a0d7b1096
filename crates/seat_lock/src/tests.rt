//! Two values under the lock: a list of seat numbers, which two threads fill, and a shelf whose state has more parts.
mod numbers;
mod shelf;
