//! Wrong outcomes, which the words of the contracts rule out: those of whole calls (`contracts`), of single parts (`parts`), and of
//! tables of numbers (`tables`). Also worked rows of the driver's machine (`machine`), and a worked script beside its text (`scripts`).
#![tactic(auto)]

pub mod contracts;
pub mod machine;
pub mod parts;
pub mod scripts;
pub mod tables;
