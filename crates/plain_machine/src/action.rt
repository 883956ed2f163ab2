// What a step of the machine of places does.

use crate::place::TextPlace;
use crate::value::PlainValue;
use power_insns::meaning::Operation;
use power_machine::Reason;

/// What a register must hold for a step, and the reason to leave where it doesn't.
#[derive(Clone, Copy)]
pub struct Need {
    /// The register, 0 to 33.
    pub register: u32,

    /// The value.
    pub value: PlainValue,

    /// The reason.
    pub reason: Reason,
}

/// A call as one step, whatever a link makes of it (ELFv2 ABI, "Function Call").
#[derive(Clone, Copy)]
pub struct FullCall {
    /// The callee: its global entry point.
    pub to: TextPlace,

    /// Whether the call comes back.
    pub link: bool,

    /// Whether the callee is entered with its own address in r12.
    pub enters: bool,

    /// The caller's TOC base, where it is saved at 24(r1) for the restore behind the call.
    pub saves: Option<u64>,
}

/// What a step does, where it leaves nothing undone.
#[derive(Clone, Copy)]
pub enum Effect {
    /// It can't be made.
    Leave(Reason),

    /// An operation, of an instruction of so many bytes.
    Operate {
        size: u64,
        operation: Operation,
    },

    /// A register gets a value, by an instruction of so many bytes.
    Give {
        size: u64,
        to: u32,
        value: PlainValue,
    },

    /// The access of a recognised pair, through the address in a register. No later instruction may use that.
    Access {
        operation: Operation,
        through: u32,
    },

    /// The second instruction of a recognised prologue: r2 gets the TOC base, and r12 may have been used.
    Enter {
        base: u64,
    },

    /// A call.
    Call(FullCall),

    /// The restore behind a call: r2 gets the TOC base that was saved.
    Restore {
        site: TextPlace,
        base: u64,
    },
}

/// A step: what it needs, and what it does.
#[derive(Clone, Copy)]
pub struct Action {
    /// What the first register that it names must hold.
    pub first: Option<Need>,

    /// What another one must hold.
    pub second: Option<Need>,

    /// What it does.
    pub effect: Effect,
}
