// Runs in which each call of each operation fails in turn, and the blocks that are watched in them.
use crate::shows::block_at;
use crate::stage::{NONE, OPERATIONS, Program, Row, Scene, Stage};
use crate::texts::{Outcome, add, add_number, add_piece, add_runs, holds, placed, times};
use outside_traits::traits::NoMemory;
use std::alloc::Global;

/// What a watched block is to hold in a run that stops, beside a run that does not.
#[derive(Drop)]
enum Rule {
    /// What the whole run leaves there if the trace has the text; otherwise what it held at first, except for at most one of all
    /// blocks.
    Told(Vec<u8>),
    /// What the whole run leaves there if the watched blocks before it hold that too; otherwise what it held at first. Nothing is
    /// printed.
    Order,
    /// One of these bytes throughout, of the former or the latter; and one of the latter if the answer after the sync is printed.
    Left(Vec<u8>, Vec<u8>),
}

/// A block that is watched.
#[derive(Drop)]
pub(crate) struct Watch {
    rule: Rule,
    unit: u8,
    block: u32,
}

/// The rule that a line states which begins with this word.
fn rule_of(alloc: Global, word: &str, rest: &str) -> Result<Rule, NoMemory> {
    let mut former = Vec::new(alloc);
    let mut latter = Vec::new(alloc);
    match word {
        "@order" => Ok(Rule::Order),
        "@told" => {
            add_piece(&mut former, rest)?;
            Ok(Rule::Told(former))
        }
        _ => {
            let (before, behind) = rest.split_once(" | ").unwrap_or(("", rest));
            add_runs(&mut former, before)?;
            add_runs(&mut latter, behind)?;
            Ok(Rule::Left(former, latter))
        }
    }
}

/// Watches the blocks of a range.
pub(crate) fn add_watches(row: &mut Row, word: &str, rest: &str) -> Outcome {
    let (unit, blocks, rest) = placed(rest);
    for block in blocks.0..blocks.1 {
        let rule = rule_of(row.command.alloc, word, rest)?;
        row.watches.push(Watch { rule, unit, block })?;
    }
    Ok(())
}

/// Whether a watched block is the same on the packs of a scene as where the run stopped.
fn is_left_by(watch: &Watch, scene: &Scene, left: &Scene) -> bool {
    let bytes = block_at(&scene.packs, watch.unit, watch.block);
    bytes == block_at(&left.packs, watch.unit, watch.block)
}

/// Whether all watched blocks are.
fn are_left_by(row: &Row, scene: &Scene) -> bool {
    let mut watches = row.watches.iter();
    watches.all(|watch| is_left_by(watch, scene, &row.left))
}

/// Whether a watched block is as its rule says. `is_front` says whether those before it are as the whole run leaves them.
fn is_right(row: &Row, watch: &Watch, is_front: bool) -> bool {
    let left = &row.left;
    let is_new = is_left_by(watch, &row.whole, left);
    let is_old = is_left_by(watch, &row.scene, left);
    match &watch.rule {
        Rule::Told(text) => is_new || is_old && !holds(left.trace.taken(), text.as_slice()),
        Rule::Order => left.out.taken().is_empty() && (is_front && is_new || is_old),
        Rule::Left(former, latter) => {
            let bytes = block_at(&left.packs, watch.unit, watch.block);
            let is_synced = holds(left.out.taken(), row.answer.as_slice());
            let is_known = latter.contains(&bytes[0]) || !is_synced && former.contains(&bytes[0]);
            is_known && bytes == [bytes[0]; 512]
        }
    }
}

/// Whether a watched block was written, and the trace does not have it.
fn is_untold(row: &Row, watch: &Watch) -> bool {
    match &watch.rule {
        Rule::Told(text) => {
            !is_left_by(watch, &row.scene, &row.left)
                && !holds(row.left.trace.taken(), text.as_slice())
        }
        _ => false,
    }
}

/// What does not agree between the packs of a run that stopped and the rules of the watched blocks; "" if everything does.
fn packs_amiss(row: &Row) -> &'static str {
    let mut untold = 0u32;
    let mut is_front = true;
    for watch in &row.watches {
        if !is_right(row, watch, is_front) {
            return "its packs are not those of its writes";
        }
        is_front = is_front && is_left_by(watch, &row.whole, &row.left);
        untold = untold.saturating_add(u32::from(is_untold(row, watch)));
    }
    if untold > 1 {
        return "its packs are not those of its trace";
    }
    ""
}

/// Whether a run that stopped printed the answers of the requests that it traced the ends of. The last of them may be missing if no
/// call of the packs failed.
fn has_answers(left: &Scene) -> bool {
    let answers = times(left.out.taken(), b"ans ");
    let ends = times(left.trace.taken(), b"end ");
    answers == ends || answers < ends && left.status != 6
}

/// What does not hold for a run that stopped; "" if everything does.
fn amiss(row: &Row, status: u8, is_play: bool) -> &'static str {
    let (whole, left) = (&row.whole, &row.left);
    if left.status != status {
        return "its status is another one";
    }
    if left.packs.set_marks() > 0 {
        return "its marks are others";
    }
    if status == 4 && !are_left_by(row, &row.scene) {
        return "its packs are others";
    }
    if is_play && !has_answers(left) {
        return "its answers are not those of its trace";
    }
    if !whole.out.taken().starts_with(left.out.taken()) {
        return "its text is no front";
    }
    if !whole.trace.taken().starts_with(left.trace.taken()) {
        return "its trace is no front";
    }
    packs_amiss(row)
}

/// What does not hold for a run that does not stop; "done" if everything does.
fn end_of(row: &Row) -> &'static str {
    let (whole, left) = (&row.whole, &row.left);
    let is_printed = left.out.taken() == whole.out.taken();
    let is_traced = left.trace.taken() == whole.trace.taken();
    if is_printed && is_traced && are_left_by(row, whole) {
        return "done";
    }
    "it goes on and ends otherwise"
}

impl<P: Program> Stage<P> {
    /// What does not hold for a run in which a call fails, or for one more run after it; "" if everything does, and "done" if that call
    /// is not made.
    fn stopped_at(
        &mut self,
        operation: &(&str, u8),
        number: u64,
        is_play: bool,
    ) -> Result<&'static str, NoMemory> {
        self.run_left(operation.0, number)?;
        let row = &mut self.row;
        if row.left.status == 0 {
            return Ok(end_of(row));
        }
        let word = amiss(row, operation.1, is_play);
        if !word.is_empty() {
            return Ok(word);
        }
        row.left.run(&self.program, &row.command, &NONE)?;
        if row.left.status == 0 && are_left_by(row, &row.whole) {
            return Ok("");
        }
        Ok("it ends otherwise where it is run again")
    }

    /// Runs the command with each call of an operation failing in turn, until that call is not made. Answers how many calls are made, and
    /// the first thing that does not hold; "" if everything does.
    fn each_call(
        &mut self,
        operation: &(&str, u8),
        is_play: bool,
    ) -> Result<(u64, &'static str), NoMemory> {
        for made in 0..999u64 {
            let number = made.saturating_add(1);
            match self.stopped_at(operation, number, is_play)? {
                "" => {}
                "done" => return Ok((made, "")),
                word => return Ok((number, word)),
            }
        }
        Ok((1000, "it does not end"))
    }

    /// Runs a command with each call of each operation failing in turn, and shows the operations of which calls are made, each followed
    /// by what does not hold.
    pub(crate) fn stops(&mut self, line: &str) -> Outcome {
        add(&mut self.page, &["each call fails in turn:"])?;
        self.row.command.set_words(line)?;
        self.row.whole.packs = self.row.scene.packs.copy(self.row.command.alloc)?;
        self.row.whole.run(&self.program, &self.row.command, &NONE)?;
        for operation in &OPERATIONS {
            let (count, word) = self.each_call(operation, line == "play")?;
            if count > 0 {
                add(&mut self.page, &[" ", operation.0])?;
            }
            if !word.is_empty() {
                add_number(&mut self.page, " ", count, ": ")?;
                add(&mut self.page, &[word, ","])?;
            }
        }
        self.row.command.source.clear();
        add(&mut self.page, &["\n"])
    }
}
