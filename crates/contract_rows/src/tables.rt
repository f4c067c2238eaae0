//! Outcomes of wrong bodies of the parts on which drives, driver and charts are built. A law rules each of them out, so that these
//! crates are proved only once.

ghost use Rattle.contract_rows.specs.tables.Places.{PlacesRefused};
ghost use Rattle.contract_rows.specs.tables.Registers.{RegistersRefused};

/// Rules out wrong places, partitions, headers and charts.
pub fn places_law()
    ensures { PlacesRefused }
{}

/// Rules out wrong registers, retries and positions.
pub fn registers_law()
    ensures { RegistersRefused }
{}
