//! Array files: version 1.0 of NumPy's `.npy`, in the element types int64 and bool.
#![tactic(auto)]

mod arrays;
mod fault;
mod header;
mod numbers;
mod parts;
mod reading;
mod writing;

pub use arrays::file_laws;
pub use fault::NpyFault;
pub use reading::read_npy;
pub use writing::write_npy;

#[cfg(test)]
mod tests;
