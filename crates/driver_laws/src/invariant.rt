//! The driver's invariant: each act and each call keeps it (`whole`), and drains end (`work`). The functions here do
//! nothing: each stands for a law.

pub mod whole;
pub mod work;
