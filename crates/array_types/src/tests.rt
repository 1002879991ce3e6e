mod calls;
pub mod cases;
mod expressions;
mod refused;
mod sizes;
mod statements;
