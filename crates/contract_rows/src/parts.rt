//! Outcomes of wrong bodies of the parts that decide for the driver, and of the texts below it. The words of the part's own contract
//! rule each of them out.

ghost use Rattle.contract_rows.specs.Parts.{PartsRefused};

/// Rules out wrong transfers, queues, repaired blocks and lines: by what each end makes of a transfer, by the service order, by the
/// burst that is flipped, and by the text that was taken away.
pub fn parts_law()
    ensures { PartsRefused }
{}
