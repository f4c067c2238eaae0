//! Outcomes of wrong bodies, which the words of the contracts rule out. A wrong body of a crate whose proof takes long is tried here,
//! and not as an edit of that crate, which would have to be proved once more.

ghost use Rattle.contract_rows.specs.Memory.{MemoryRefused};
ghost use Rattle.contract_rows.specs.Drives.{DriveRefused};
ghost use Rattle.contract_rows.specs.Machine.{MachineRefused, DeedsRefused};
ghost use Rattle.contract_rows.specs.Entries.{EntriesRefused};
ghost use Rattle.contract_rows.specs.Bytes.{BytesRefused};
ghost use Rattle.contract_rows.specs.Slots.{SlotsRefused};

/// Rules out wrong contents of main memory: by its window's `Writes`, what it knows of its frames, what it lent, and how many frames it
/// needs.
pub fn memory_law()
    ensures { MemoryRefused }
{}

/// Rules out wrong moves of a sector: by the code's `Judges`, the drive's `MovesSector`, what loads and steps do to an adapter, and
/// `Polls`.
pub fn drive_law()
    ensures { DriveRefused }
{}

/// Rules out wrong acts of the driver: by the deeds of its machine, and what its acts leave.
pub fn machine_law()
    ensures { MachineRefused }
{}

/// Rules out wrong single steps of the driver: by what a deed leaves, and by the acts of an event.
pub fn deeds_law()
    ensures { DeedsRefused }
{}

/// Rules out wrong entries of noise and of a cache: by where an entry is put, by what a change leaves of one, and by what a sync writes
/// back and leaves.
pub fn entries_law()
    ensures { EntriesRefused }
{}

/// Rules out wrong slots and a wrong row of the units' bits, by what they keep.
pub fn slots_law()
    ensures { SlotsRefused }
{}

/// Rules out wrong packs, buffers and tables, by what the driver bears of a map.
pub fn bytes_law()
    ensures { BytesRefused }
{}
