// The loads and stores of one word that have a prefixed form, and that form.
ghost use Rattle.std.specs.Prelude.{◌≡◌, IfSome};
ghost use Rattle.power_insns.specs.Table.{Fits as FitsWord};
ghost use Rattle.power_insns.specs.Words.{InSigned};
ghost use Rattle.prefixed_insns.specs.Table.{Fits};
ghost use Rattle.prefixed_insns.specs.ShortForms.{short_form_of, relative_form, as_prefixed};

use crate::instruction::{PInsn, POp};
use power_insns::Insn;

/// A load or store of one word by a register and a displacement (Power ISA 3.1, book I, D-form and DS-form).
#[derive(Clone, Copy)]
pub struct ShortForm {
    /// The mnemonic of its prefixed form.
    pub op: POp,
    /// The register that is loaded or stored.
    pub register: u32,
    /// The base register, where 0 stands for the number 0.
    pub base: u32,
    /// The displacement in bytes: a signed number of 16 bits.
    pub disp: i32,
}

fn short_form_with(op: POp, register: u32, base: u32, disp: i32) -> Option<ShortForm>
    ensures { result ≡ Some (record { op = op; register = register; base = base; disp = disp }) }
{
    Some(ShortForm {
        op,
        register,
        base,
        disp,
    })
}

/// The parts of `lwz`, `lbz`, `lhz`, `lha`, `lwa`, `ld`, `stw`, `stb`, `sth` and `std`; `None` for every other instruction.
pub fn short_form(insn: &Insn) -> Option<ShortForm>
    ensures { result ≡ short_form_of insn.now }
{
    match *insn {
        Insn::Lwz { rt, ra, d } => short_form_with(POp::Plwz, rt, ra, d),
        Insn::Lbz { rt, ra, d } => short_form_with(POp::Plbz, rt, ra, d),
        Insn::Lhz { rt, ra, d } => short_form_with(POp::Plhz, rt, ra, d),
        Insn::Lha { rt, ra, d } => short_form_with(POp::Plha, rt, ra, d),
        Insn::Lwa { rt, ra, ds } => short_form_with(POp::Plwa, rt, ra, ds),
        Insn::Ld { rt, ra, ds } => short_form_with(POp::Pld, rt, ra, ds),
        Insn::Stw { rs, ra, d } => short_form_with(POp::Pstw, rs, ra, d),
        Insn::Stb { rs, ra, d } => short_form_with(POp::Pstb, rs, ra, d),
        Insn::Sth { rs, ra, d } => short_form_with(POp::Psth, rs, ra, d),
        Insn::Std { rs, ra, ds } => short_form_with(POp::Pstd, rs, ra, ds),
        _ => None,
    }
}

/// The prefixed form of such a load or store, relative to its own address: what it loads or stores then lies so many bytes past its
/// prefix. `None` exactly for every other instruction.
pub fn as_prefixed(insn: &Insn, disp: i64) -> Option<PInsn>
    requires insn { FitsWord insn.now }
    requires disp { InSigned 34 disp }
    ensures form { result ≡ as_prefixed insn.now disp }
    ensures fits { IfSome result Fits }
{
    match short_form(insn) {
        Some(form) => Some(PInsn {
            op: form.op,
            rt: form.register,
            ra: 0,
            relative: true,
            disp,
        }),
        None => None,
    }
}
