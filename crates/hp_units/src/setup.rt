use bad144_table::BadTable;
use pack_geometry::DriveKind;

/// A unit that is set up: its number, from 0 to 31, the kind of its drive, and the table of its pack, if the pack has
/// one. Unit `u` is drive `u % 8` of adapter `u / 8`.
#[derive(Drop)]
pub struct UnitSetup {
    pub unit: u8,
    pub kind: DriveKind,
    pub table: Option<BadTable>,
}
