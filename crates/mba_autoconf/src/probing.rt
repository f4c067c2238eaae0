//! A drive's kind.
ghost use Rattle.std.specs.Prelude.{◌≡◌, ◌≢◌, ◌↔◌, IfErr};
ghost use Rattle.pack_geometry.specs.declared.DriveKind.{DriveKind};
ghost use Rattle.mba_autoconf.specs.declared.probing.ProbeFault.TheVariants.{Unknown};
ghost use Rattle.mba_autoconf.specs.Probe.{nine_bits, type_code};

use drive_model::Drive;
use hardware_table::Register;
use pack_geometry::DriveKind;
use thiserror::Error;

/// A drive whose kind is not known, with the nine bits that say so.
#[derive(Debug, Drop, PartialEq, Eq, Error)]
pub enum ProbeFault {
    #[error("unknown drive type {0:o}")]
    Unknown(u16),
}

/// The kind that the low nine bits of a drive type word name: octal 022 for an RP06, 024 for an RM03 and 027 for an RM05.
/// Unknown, with these bits, exactly if they are none of the three.
pub fn probe(word: u16) -> Result<DriveKind, ProbeFault>
    ensures known { (kind : DriveKind) → (result ≡ Ok kind) ↔ (nine_bits word ≡ type_code kind) }
    ensures unknown { IfErr result (λ fault. (fault ≡ Unknown (nine_bits word)) × ((kind : DriveKind) → nine_bits word ≢ type_code kind)) }
{
    match word & 0o777 {
        0o022 => Ok(DriveKind::Rp06),
        0o024 => Ok(DriveKind::Rm03),
        0o027 => Ok(DriveKind::Rm05),
        code => Err(ProbeFault::Unknown(code)),
    }
}

/// The kind of a drive, by its drive type register.
pub(crate) fn kind_of_drive(drive: &Drive) -> DriveKind
    ensures { result ≡ drive.now.kind }
{
    match probe(drive.read_register(Register::Dt)) {
        Ok(kind) => kind,
        Err(_) => unreachable!(),
    }
}
