//! The graph that the program keeps in memory, and books over it.
use delf_book::Book;
use live_graph::ShardGraph;

/// The graph that a book of the program holds.
pub type ProgramGraph = ShardGraph;

/// A book of the program, over this disk.
pub type ProgramBook<R> = Book<ProgramGraph, R>;
