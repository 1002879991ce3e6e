//! The program's view of the outside: files to load and store, sinks to put bytes into and the gate that pieces
//! pass, as traits with their contracts, over memory and over the system.
#![tactic(auto)]

mod attempt;
mod counts;
mod files;
mod gate;
mod mem_files;
mod mem_sink;
mod os_files;
mod os_sink;
mod reading;
mod shelf;
mod shelves;
mod sink;
mod slot;
#[cfg(test)]
mod streams;
mod writing;

pub use files::{Files, LoadFault, StoreFault};
pub use gate::{Gate, OpenGate};
pub use mem_files::MemFiles;
pub use mem_sink::MemSink;
pub use os_files::OsFiles;
pub use os_sink::OsSink;
pub use sink::{PutFault, Sink};
pub use slot::Slot;
