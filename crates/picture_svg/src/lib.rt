//! The picture of a run as SVG.
//!
//! What is proved of `svg`, for every run (`specs/Pictures.antt`): the text is written of pieces whose elements nest and have all
//! ended, with each word escaped and each coordinate below 20,000. The caption stands in it as its title and above the columns. Its
//! legend explains each letter once, by the words of one table. Each request that is listed has a row of its own. If a column is one
//! event, each line of the run that names a drive that is drawn stands in just one tooltip.
//!
//! Only tested: the exact bytes, by the pictures of `examples/`.
#![tactic(auto)]

mod arm;
mod bars;
mod holders;
mod lane;
mod legend;
mod marks;
mod markup;
mod picture;
mod pieces;
mod render;
mod scene;
mod script;
mod stretches;
mod style;
mod table;
mod tips;

pub use picture::svg;
