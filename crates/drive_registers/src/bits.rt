// The registers that are sets of bits.
ghost use Rattle.std.specs.Prelude.{⊤};
ghost use Rattle.drive_registers.specs.Bits.{status_names, first_error_names, second_error_names, offset_names};

use bitflags::{Flag, Flags};

// These bits of a register, each with its name.
macro_rules! named {
    ($register:ident: $($bit:ident)*) => {
        [$(Flag { name: stringify!($bit), value: $register::$bit }),*]
    };
}

/// The drive status register.
#[derive(Clone, Copy, PartialEq, Eq)]
pub struct Ds(u16);

/// The first error register.
#[derive(Clone, Copy, PartialEq, Eq)]
pub struct Er1(u16);

/// The second error register.
#[derive(Clone, Copy, PartialEq, Eq)]
pub struct Er2(u16);

/// The offset register. Its low eight bits, which have no names, are the offset code.
#[derive(Clone, Copy, PartialEq, Eq)]
pub struct Of(u16);

impl Ds {
    /// Attention: it was raised and has not been cleared.
    pub const ATA: Ds = Ds(0o100000);
    /// Composite error: an error register is not zero.
    pub const ERR: Ds = Ds(0o40000);
    /// Positioning in progress.
    pub const PIP: Ds = Ds(0o20000);
    /// Medium on line.
    pub const MOL: Ds = Ds(0o10000);
    /// Write locked.
    pub const WRL: Ds = Ds(0o4000);
    /// Drive present.
    pub const DPR: Ds = Ds(0o400);
    /// Drive ready: the drive neither positions nor transfers.
    pub const DRY: Ds = Ds(0o200);
    /// Volume valid.
    pub const VV: Ds = Ds(0o100);

    /// Each bit with its name.
    const NAMES: [Flag<Ds>; 8] = named!(Ds: ATA ERR PIP MOL WRL DPR DRY VV);
}

impl Er1 {
    /// Data check.
    pub const DCK: Er1 = Er1(0o100000);
    /// Unsafe.
    pub const UNS: Er1 = Er1(0o40000);
    /// Operation incomplete.
    pub const OPI: Er1 = Er1(0o20000);
    /// Drive timing error.
    pub const DTE: Er1 = Er1(0o10000);
    /// Write lock error.
    pub const WLE: Er1 = Er1(0o4000);
    /// Invalid address error.
    pub const IAE: Er1 = Er1(0o2000);
    /// Header check (CRC) error.
    pub const HCRC: Er1 = Er1(0o400);
    /// Header compare error.
    pub const HCE: Er1 = Er1(0o200);
    /// ECC hard error: the check cannot correct the data.
    pub const ECH: Er1 = Er1(0o100);
    /// Format error.
    pub const FER: Er1 = Er1(0o20);
    /// Illegal function.
    pub const ILF: Er1 = Er1(0o1);

    /// Each bit with its name.
    const NAMES: [Flag<Er1>; 11] = named!(Er1: DCK UNS OPI DTE WLE IAE HCRC HCE ECH FER ILF);
}

impl Er2 {
    /// Bad sector error.
    pub const BSE: Er2 = Er2(0o100000);
    /// Seek incomplete.
    pub const SKI: Er2 = Er2(0o40000);

    /// Each bit with its name.
    const NAMES: [Flag<Er2>; 2] = named!(Er2: BSE SKI);
}

impl Of {
    /// The 16-bit format.
    pub const FMT22: Of = Of(0o10000);

    /// Each bit with its name.
    const NAMES: [Flag<Of>; 1] = named!(Of: FMT22);
}

impl Flags for Ds {
    type Bits = u16;

    ghost exact = { ⊤ };

    ghost table = { status_names };

    ghost set_of = { λ register. register.0 };

    fn flags<'a>() -> &'a [Flag<Ds>] {
        &Ds::NAMES
    }

    fn bits(&self) -> u16 {
        self.0
    }

    fn from_bits_retain(bits: u16) -> Ds {
        Ds(bits)
    }
}

impl Flags for Er1 {
    type Bits = u16;

    ghost exact = { ⊤ };

    ghost table = { first_error_names };

    ghost set_of = { λ register. register.0 };

    fn flags<'a>() -> &'a [Flag<Er1>] {
        &Er1::NAMES
    }

    fn bits(&self) -> u16 {
        self.0
    }

    fn from_bits_retain(bits: u16) -> Er1 {
        Er1(bits)
    }
}

impl Flags for Er2 {
    type Bits = u16;

    ghost exact = { ⊤ };

    ghost table = { second_error_names };

    ghost set_of = { λ register. register.0 };

    fn flags<'a>() -> &'a [Flag<Er2>] {
        &Er2::NAMES
    }

    fn bits(&self) -> u16 {
        self.0
    }

    fn from_bits_retain(bits: u16) -> Er2 {
        Er2(bits)
    }
}

impl Flags for Of {
    type Bits = u16;

    ghost exact = { ⊤ };

    ghost table = { offset_names };

    ghost set_of = { λ register. register.0 };

    fn flags<'a>() -> &'a [Flag<Of>] {
        &Of::NAMES
    }

    fn bits(&self) -> u16 {
        self.0
    }

    fn from_bits_retain(bits: u16) -> Of {
        Of(bits)
    }
}
