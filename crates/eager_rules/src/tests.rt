mod arrays;
pub mod cases;
mod flow;
mod sizes;
mod views;
