ghost use Rattle.std.specs.Prelude.{◌≡◌, ◌<◌, ◌≤◌, ◌+◌, ◌==◌, ◌||◌, ℕ, true, false, if◌then◌else◌, OnOk};
ghost use Rattle.script_lines.specs.Known.{new_unit_field, unit_field, id_field, is_full};
ghost use Rattle.script_lines.specs.Fields.{number_field};
ghost use Rattle.script_lines.specs.Forms.{field, Parses};
ghost use Rattle.script_lines.specs.Knowing.{known_in, Learns};

use crate::fields::{need, number_field};
use crate::statement::Statement;
use crate::{ScriptKind, Verb};
use mass_text::Fields;
use pack_geometry::DriveKind;
use std::alloc::{AllocFailed, Global};
use std::collections::BTreeSet;

/// The largest number of requests in a script.
const MOST_REQUESTS: u32 = 65_536;

/// The largest number of noises in a script.
const MOST_NOISES: u32 = 4_096;

/// What the lines so far said about units and ids, and how many requests and noises they brought. The ids from `low` up to `next` came
/// one after another; the other ids are in the tree.
#[derive(Drop)]
pub struct Known {
    kinds: [Option<DriveKind>; 256],
    low: u64,
    next: u64,
    ids: BTreeSet<u32>,
    later: bool,
    requests: u32,
    noises: u32,
}

/// The number of a unit.
fn unit_number(field: &[u8]) -> Result<u8, ScriptKind>
    ensures { result ≡ number_field 0 31 field.now }
{
    let unit = number_field(field, 0, 31)?;
    Ok(unit as u8)
}

impl Known {
    /// What is known before the first line.
    pub fn new(alloc: Global) -> Known
        ensures kinds { (u : ℕ) → (known_in result).kinds u ≡ None }
        ensures used { (id : ℕ) → (known_in result).used id ≡ false }
        ensures later { (known_in result).later ≡ false }
        ensures requests { (known_in result).requests ≡ 0 }
        ensures noises { (known_in result).noises ≡ 0 }
    {
        Known {
            kinds: [None; 256],
            low: 0,
            next: 0,
            ids: BTreeSet::new(alloc),
            later: false,
            requests: 0,
            noises: 0,
        }
    }

    /// Whether a unit may be declared no more.
    pub(crate) fn is_later(&self) -> bool
        ensures { result ≡ (known_in self.now).later }
    {
        self.later
    }

    /// Whether a line with this word would bring one request or one noise too many.
    pub fn is_full(&self, verb: Verb) -> bool
        ensures { result ≡ is_full (known_in self.now) verb }
    {
        match verb {
            Verb::Read | Verb::Write => self.requests >= MOST_REQUESTS,
            Verb::Noise => self.noises >= MOST_NOISES,
            _ => false,
        }
    }

    /// The kind of a unit that was declared.
    fn kind(&self, unit: u8) -> Option<DriveKind>
        ensures { result ≡ (known_in self.now).kinds unit }
    {
        self.kinds[usize::from(unit)]
    }

    /// Takes the number of a unit that was not declared.
    #[tactic(auto, using(crate::proofs::FieldLaws::field_read))]
    pub(crate) fn new_unit(&self, fields: &mut Fields) -> Result<u8, ScriptKind>
        ensures { Parses (field (new_unit_field (known_in self.now))) fields.old result fields.new }
    {
        let unit = unit_number(need(fields)?)?;
        match self.kind(unit) {
            Some(_) => Err(ScriptKind::UnitTwice),
            None => Ok(unit),
        }
    }

    /// Takes the number of a unit that was declared, and gives its kind too.
    #[tactic(auto, using(crate::proofs::FieldLaws::field_read))]
    pub(crate) fn old_unit(&self, fields: &mut Fields) -> Result<(u8, DriveKind), ScriptKind>
        ensures { Parses (field (unit_field (known_in self.now))) fields.old result fields.new }
    {
        let unit = unit_number(need(fields)?)?;
        match self.kind(unit) {
            Some(kind) => Ok((unit, kind)),
            None => Err(ScriptKind::UnitUnknown),
        }
    }

    /// Whether an id was used.
    fn is_used(&self, id: u32) -> bool
        ensures { result ≡ (known_in self.now).used id }
    {
        let number = u64::from(id);
        (self.low <= number && number < self.next) || self.ids.contains(&id)
    }

    /// Takes an id that was not used.
    #[tactic(auto, using(crate::proofs::FieldLaws::field_read))]
    pub(crate) fn new_id(&self, fields: &mut Fields) -> Result<u32, ScriptKind>
        ensures { Parses (field (id_field (known_in self.now))) fields.old result fields.new }
    {
        match number_field(need(fields)?, 0, u32::MAX) {
            Ok(id) if self.is_used(id) => Err(ScriptKind::IdTwice),
            result => result,
        }
    }

    /// Takes in that a unit is of a kind.
    fn learn_unit(&mut self, unit: u8, kind: DriveKind)
        ensures kinds { (u : ℕ) → (known_in self.new).kinds u ≡ (if unit == u then Some kind else (known_in self.old).kinds u) }
        ensures low { self.new.low ≡ self.old.low }
        ensures next { self.new.next ≡ self.old.next }
        ensures ids { self.new.ids ≡ self.old.ids }
        ensures later { self.new.later ≡ self.old.later }
        ensures requests { self.new.requests ≡ self.old.requests }
        ensures noises { self.new.noises ≡ self.old.noises }
    {
        self.kinds[usize::from(unit)] = Some(kind);
    }

    /// Takes an id in.
    fn learn_id(&mut self, id: u32) -> Result<(), AllocFailed<u32>>
        ensures kinds { self.new.kinds ≡ self.old.kinds }
        ensures used { OnOk result ((other : ℕ) → (known_in self.new).used other ≡ (known_in self.old).used other || (id == other)) }
        ensures later { self.new.later ≡ self.old.later }
        ensures requests { self.new.requests ≡ self.old.requests }
        ensures noises { self.new.noises ≡ self.old.noises }
    {
        let number = u64::from(id);
        if self.low >= self.next {
            self.low = number;
            self.next = number + 1;
            return Ok(());
        }
        if number == self.next {
            self.next = number + 1;
            return Ok(());
        }
        self.ids.insert(id)?;
        Ok(())
    }

    /// Takes an id in, and that a request came.
    fn learn_request(&mut self, id: u32) -> Result<(), AllocFailed<u32>>
        requires { self.old.requests < 1000000 }
        ensures kinds { self.new.kinds ≡ self.old.kinds }
        ensures used { OnOk result ((other : ℕ) → (known_in self.new).used other ≡ (known_in self.old).used other || (id == other)) }
        ensures later { self.new.later ≡ true }
        ensures requests { self.new.requests ≡ self.old.requests + 1 }
        ensures noises { self.new.noises ≡ self.old.noises }
    {
        self.requests += 1;
        self.later = true;
        self.learn_id(id)
    }

    /// Records what a line says.
    pub fn learn<D, N>(&mut self, statement: &Statement<D, N>) -> Result<(), AllocFailed<u32>>
        requires requests { (known_in self.old).requests < 1000000 }
        requires noises { (known_in self.old).noises < 1000000 }
        ensures learns { OnOk result (Learns (known_in self.old) (known_in self.new) statement.now) }
        ensures requests { (known_in self.new).requests ≤ (known_in self.old).requests + 1 }
        ensures noises { (known_in self.new).noises ≤ (known_in self.old).noises + 1 }
    {
        match statement {
            Statement::Unit { unit, kind } => {
                self.learn_unit(*unit, *kind);
                Ok(())
            }
            Statement::Read { request } | Statement::Write { request, .. } => {
                self.learn_request(request.id)
            }
            Statement::Noise { .. } => {
                self.noises += 1;
                self.later = true;
                Ok(())
            }
            _ => {
                self.later = true;
                Ok(())
            }
        }
    }
}
