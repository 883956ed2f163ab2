// The prefixed instructions.
ghost use Rattle.std.specs.Prelude.{◌↔◌, IsTrue};
ghost use Rattle.power_insns.specs.Words.{InSigned};
ghost use Rattle.prefixed_insns.specs.Table.{Fits};

/// The mnemonics of the prefixed instructions (Power ISA 3.1, book I, "Fixed-Point Facility").
#[derive(Clone, Copy, Debug, PartialEq, Eq)]
pub enum POp {
    /// Add immediate.
    Paddi,
    /// Load word and zero.
    Plwz,
    /// Load byte and zero.
    Plbz,
    /// Load halfword and zero.
    Plhz,
    /// Load halfword algebraic.
    Plha,
    /// Load word algebraic.
    Plwa,
    /// Load doubleword.
    Pld,
    /// Store word.
    Pstw,
    /// Store byte.
    Pstb,
    /// Store halfword.
    Psth,
    /// Store doubleword.
    Pstd,
}

/// A prefixed instruction.
#[derive(Clone, Copy, Debug, PartialEq, Eq)]
pub struct PInsn {
    pub op: POp,

    /// The register that is loaded, stored or set.
    pub rt: u32,

    /// The base register, where 0 stands for the number 0.
    pub ra: u32,

    /// R: the base is the address of the prefix. `ra` is then 0.
    pub relative: bool,

    /// The displacement in bytes, or what `paddi` adds: a signed number of 34 bits.
    pub disp: i64,
}

impl PInsn {
    /// Whether the instruction has words: each field fits its bits, and R and a base register aren't both there.
    pub fn fits(&self) -> bool
        ensures { IsTrue result ↔ Fits self.now }
    {
        self.rt < 32 && self.ra < 32 && fits_34_bits(self.disp) && (!self.relative || self.ra == 0)
    }
}

fn fits_34_bits(z: i64) -> bool
    ensures { IsTrue result ↔ InSigned 34 z }
{
    let limit = 1 << 33;
    -limit <= z && z < limit
}
