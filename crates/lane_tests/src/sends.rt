//! That a book over each disk and each graph may go from one thread to another.

use delf_book::Book;
use delf_disk::{FileDisk, MemDisk, Rig};
use delf_model::GraphStore;
use live_graph::{ListGraph, ShardGraph};

fn sends<T: Send>() {}

fn book_is_sent<G: GraphStore + Send, R: Rig + Send>() {
    sends::<Book<G, R>>();
}

#[test]
fn books_are_sent() {
    book_is_sent::<ListGraph, MemDisk>();
    book_is_sent::<ShardGraph, MemDisk>();
    book_is_sent::<ListGraph, FileDisk<'_, HostRuntime>>();
    book_is_sent::<ShardGraph, FileDisk<'_, HostRuntime>>();
}
