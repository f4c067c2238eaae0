// A run, and runs one after another.
use crate::shows::show_text;
use crate::stage::{Program, Stage};
use crate::texts::{Outcome, add, add_number, add_numbered, number, split, times};

impl<P: Program> Stage<P> {
    /// Runs a command over the packs of the row with its source, which is taken, and shows its status and what it prints.
    pub(crate) fn play(&mut self, is_shown: bool, line: &str) -> Outcome {
        self.row.command.set_words(line)?;
        self.run()?;
        self.row.command.source.clear();
        add(&mut self.page, &[line])?;
        add_number(
            &mut self.page,
            ": status ",
            u64::from(self.row.scene.status),
            "\n",
        )?;
        if is_shown {
            show_text(&mut self.page, self.row.scene.out.taken())?;
        }
        Ok(())
    }

    /// Runs a command for each of so many numbers from a first one on, which stand in the place of `%`, and shows how many of them come
    /// to status 0.
    pub(crate) fn each(&mut self, rest: &str) -> Outcome {
        let (count, rest) = split(rest);
        let (first, line) = split(rest);
        let mut done = 0u64;
        for before in 0..number(count) {
            let mut text = Vec::new(self.row.command.alloc);
            add_numbered(&mut text, line, number(first).saturating_add(before))?;
            self.row
                .command
                .set_words(std::str::from_utf8(text.as_slice()).unwrap_or(""))?;
            self.run()?;
            done = done.saturating_add(u64::from(self.row.scene.status == 0));
        }
        add(&mut self.page, &[line])?;
        add_number(&mut self.page, ": status 0 for ", done, " numbers\n")
    }

    /// Runs a command with each call of an operation of the packs failing in turn, until none does, and shows how often a word stands in
    /// the traces of those that stop there: each number that is the next one behind those before.
    pub(crate) fn counts(&mut self, rest: &str) -> Outcome {
        let (name, rest) = split(rest);
        let (word, line) = split(rest);
        self.row.command.set_words(line)?;
        add(&mut self.page, &[word])?;
        let mut next = 0u64;
        for number in 1..1000u64 {
            self.run_left(name, number)?;
            let left = &self.row.left;
            if left.status == 0 {
                break;
            }
            if left.status == 6 && times(left.trace.taken(), word.as_bytes()) == next {
                add_number(&mut self.page, " ", next, "")?;
                next = next.saturating_add(1);
            }
        }
        add(&mut self.page, &["\n"])
    }

    /// Runs a command with each front of the source, and shows how many come to status 0 or 3, and how many to another one.
    pub(crate) fn fronts(&mut self, line: &str) -> Outcome {
        let alloc = self.row.command.alloc;
        let source = Vec::from_slice(alloc, self.row.command.source.as_slice())?;
        let mut good = 0u64;
        self.row.command.set_words(line)?;
        self.row.command.source.clear();
        for byte in source.as_slice() {
            self.run_left("", 0)?;
            good = good.saturating_add(u64::from(matches!(self.row.left.status, 0 | 3)));
            self.row.command.source.push(*byte)?;
        }
        let others = (source.len() as u64).saturating_sub(good);
        add_number(
            &mut self.page,
            "",
            good,
            " fronts come to status 0 or 3, and ",
        )?;
        add_number(&mut self.page, "", others, " to another one\n")
    }
}
