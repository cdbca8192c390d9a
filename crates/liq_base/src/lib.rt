//! What every other crate stands on: owned texts, want of memory, the limits of the language, and
//! the outside as the program sees it (byte sinks, shelves of files, gates), and values by tokens.
#![tactic(auto)]

mod closed;
mod gate;
pub mod limits;
mod mem_shelf;
mod mem_sink;
mod memory;
mod named_sink;
mod shelf;
mod sink;
mod sure_shelf;
mod sure_sink;
mod table;
mod text;

pub use gate::{FreeGate, Gate};
pub use mem_shelf::MemShelf;
pub use mem_sink::MemSink;
pub use memory::{Kind, Memory};
pub use named_sink::NamedSink;
pub use shelf::{Fetched, Looked, Shelf, ShelfFault};
pub use sink::{Failed, Sink};
pub use sure_shelf::SureShelf;
pub use sure_sink::SureSink;
pub use table::TokenTable;
pub use text::Text;
