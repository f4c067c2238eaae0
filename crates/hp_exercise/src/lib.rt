//! A large script that is generated from a number, the packs on which it is played, and the lines of its tally.
//!
//! What is proved: `script_of`: the text is the script of the number, word by word. `spelling_law`: the text spells 2,051 known lines
//! by the whole grammar. `bounds_law`: between two drains these lines have at most 125 requests, each of at most 17 frames; the faults
//! strike at most 24 times; and every noise is a short burst. `ExercisePacks`: `SurePacks` with room for the blocks of a script. A
//! write beyond that room fails, and its bytes are kept as what the packs hold there. `exercise_lines`: exactly the four lines of the
//! tally.
//!
//! Only tested, in `hpsim_rows`: worked values, in addition to their proofs.
#![tactic(auto)]

mod draw;
mod packs;
mod tally;
mod text;

ghost use Rattle.std.specs.Prelude.{◌≡◌, ◌≤◌, ℕ, All, IfOk};
ghost use Rattle.hp_exercise.specs.Bounds.{IsNarrow, HasShortNoise, most_asked, armed};
ghost use Rattle.hp_exercise.specs.Exercise.{head_text, script_text};
ghost use Rattle.hp_exercise.specs.Statements.{script_statements};
ghost use Rattle.script_reader.specs.Grammar.{Spells};
ghost use Rattle.script_reader.specs.Printing.{numbered};
ghost use Rattle.script_lines.specs.Words.{all_verbs};

pub use mass_outside::mem_streams::SureSink;
use outside_traits::traits::NoMemory;
pub use packs::{ExercisePacks, Outside};
use rand_core::{Rng, SeedableRng};
use rand_xoshiro::SplitMix64;
use std::alloc::Global;
pub use tally::exercise_lines;

/// The number of lines that are drawn.
const STEPS: u32 = 2048;

/// The lines that declare the units.
#[tactic(auto, unfolding(crate::specs::Exercise::head_text))]
fn head(alloc: Global) -> Result<Vec<u8>, NoMemory>
    ensures { IfOk result (λ text. text.items ≡ head_text) }
{
    let mut text = Vec::new(alloc);
    text.extend_from_slice(b"unit 0 rp06\nunit 1 rm03\nunit 8 rm03\n")?;
    Ok(text)
}

/// The script of a number: three lines that declare units, and then 2,048 lines, each of which is drawn from the next word of
/// SplitMix64. The seed is the eight bytes of the number, the least one first. `NoMemory` comes only if there was no memory.
pub fn script_of(alloc: Global, number: u64) -> Result<Vec<u8>, NoMemory>
    ensures { IfOk result (λ text. text.items ≡ script_text number) }
{
    let mut text = head(alloc)?;
    let mut generator = SplitMix64::from_seed(number.to_le_bytes());
    for step in 0..STEPS {
        let line = text::line(step, generator.next_u64());
        text.extend_from_slice(line.as_bytes())?;
    }
    Ok(text)
}

/// The law of what such a text spells: 2,051 lines, of which the first three declare units, and each other line is the one that the
/// word of its step chooses.
pub fn spelling_law()
    ensures { (number : ℕ) → Spells all_verbs (script_text number) (numbered 1 (script_statements number)) 2051 }
{}

/// The law of how large such a script is. Between two drains it has at most 125 requests, each of at most 17 frames. The faults strike
/// at most 24 times in all, and all noise is short.
pub fn bounds_law()
    ensures asked { (number : ℕ) → most_asked 0 (script_statements number) ≤ 125 }
    ensures frames { (number : ℕ) → All IsNarrow (script_statements number) }
    ensures armed { (number : ℕ) → armed (script_statements number) ≤ 24 }
    ensures short { (number : ℕ) → All HasShortNoise (script_statements number) }
{}
