// The one-word instructions.

/// One instruction of a single word (Power ISA 3.1, books I to III, by its mnemonic).
///
/// Fields are named as in the instruction's layout. `si`, `d`, `ds`, `bd` and `li` are signed; `ds`, `bd` and `li` are displacements
/// in bytes, multiples of 4. `rc` asks to compare the result with 0, `lk` to set the link register, `l` to compare 64 bits.
#[derive(Clone, Copy)]
pub enum Insn {
    /// `mulli`: multiply low immediate.
    Mulli {
        rt: u32,
        ra: u32,
        si: i32,
    },
    /// `cmpli`: compare logical immediate.
    Cmpli {
        bf: u32,
        l: bool,
        ra: u32,
        ui: u32,
    },
    /// `cmpi`: compare immediate.
    Cmpi {
        bf: u32,
        l: bool,
        ra: u32,
        si: i32,
    },
    /// `addi`: add immediate.
    Addi {
        rt: u32,
        ra: u32,
        si: i32,
    },
    /// `addis`: add immediate shifted.
    Addis {
        rt: u32,
        ra: u32,
        si: i32,
    },
    /// `bc`: branch conditional.
    Bc {
        bo: u32,
        bi: u32,
        bd: i32,
        lk: bool,
    },
    /// `sc`: system call.
    Sc,
    /// `b`: branch.
    B {
        li: i32,
        lk: bool,
    },
    /// `bclr`: branch conditional to link register.
    Bclr {
        bo: u32,
        bi: u32,
        bh: u32,
        lk: bool,
    },
    /// `bcctr`: branch conditional to count register.
    Bcctr {
        bo: u32,
        bi: u32,
        bh: u32,
        lk: bool,
    },
    /// `rlwinm`: rotate left word immediate then and with mask.
    Rlwinm {
        rs: u32,
        ra: u32,
        sh: u32,
        mb: u32,
        me: u32,
        rc: bool,
    },
    /// `ori`: or immediate.
    Ori {
        rs: u32,
        ra: u32,
        ui: u32,
    },
    /// `oris`: or immediate shifted.
    Oris {
        rs: u32,
        ra: u32,
        ui: u32,
    },
    /// `xori`: xor immediate.
    Xori {
        rs: u32,
        ra: u32,
        ui: u32,
    },
    /// `xoris`: xor immediate shifted.
    Xoris {
        rs: u32,
        ra: u32,
        ui: u32,
    },
    /// `andi.`: and immediate, which always compares its result with 0.
    Andi {
        rs: u32,
        ra: u32,
        ui: u32,
    },
    /// `andis.`: and immediate shifted, which always compares its result with 0.
    Andis {
        rs: u32,
        ra: u32,
        ui: u32,
    },
    /// `rldicl`: rotate left doubleword immediate then clear left.
    Rldicl {
        rs: u32,
        ra: u32,
        sh: u32,
        mb: u32,
        rc: bool,
    },
    /// `rldicr`: rotate left doubleword immediate then clear right.
    Rldicr {
        rs: u32,
        ra: u32,
        sh: u32,
        me: u32,
        rc: bool,
    },
    /// `lwz`: load word and zero.
    Lwz {
        rt: u32,
        ra: u32,
        d: i32,
    },
    /// `lbz`: load byte and zero.
    Lbz {
        rt: u32,
        ra: u32,
        d: i32,
    },
    /// `lhz`: load halfword and zero.
    Lhz {
        rt: u32,
        ra: u32,
        d: i32,
    },
    /// `lha`: load halfword algebraic.
    Lha {
        rt: u32,
        ra: u32,
        d: i32,
    },
    /// `stw`: store word.
    Stw {
        rs: u32,
        ra: u32,
        d: i32,
    },
    /// `stb`: store byte.
    Stb {
        rs: u32,
        ra: u32,
        d: i32,
    },
    /// `sth`: store halfword.
    Sth {
        rs: u32,
        ra: u32,
        d: i32,
    },
    /// `ld`: load doubleword.
    Ld {
        rt: u32,
        ra: u32,
        ds: i32,
    },
    /// `lwa`: load word algebraic.
    Lwa {
        rt: u32,
        ra: u32,
        ds: i32,
    },
    /// `std`: store doubleword.
    Std {
        rs: u32,
        ra: u32,
        ds: i32,
    },
    /// `stdu`: store doubleword with update.
    Stdu {
        rs: u32,
        ra: u32,
        ds: i32,
    },
    /// `cmp`: compare.
    Cmp {
        bf: u32,
        l: bool,
        ra: u32,
        rb: u32,
    },
    /// `cmpl`: compare logical.
    Cmpl {
        bf: u32,
        l: bool,
        ra: u32,
        rb: u32,
    },
    /// `add`: add.
    Add {
        rt: u32,
        ra: u32,
        rb: u32,
        rc: bool,
    },
    /// `subf`: subtract from.
    Subf {
        rt: u32,
        ra: u32,
        rb: u32,
        rc: bool,
    },
    /// `neg`: negate.
    Neg {
        rt: u32,
        ra: u32,
        rc: bool,
    },
    /// `mullw`: multiply low word.
    Mullw {
        rt: u32,
        ra: u32,
        rb: u32,
        rc: bool,
    },
    /// `mulld`: multiply low doubleword.
    Mulld {
        rt: u32,
        ra: u32,
        rb: u32,
        rc: bool,
    },
    /// `divd`: divide doubleword.
    Divd {
        rt: u32,
        ra: u32,
        rb: u32,
        rc: bool,
    },
    /// `divdu`: divide doubleword unsigned.
    Divdu {
        rt: u32,
        ra: u32,
        rb: u32,
        rc: bool,
    },
    /// `and`: and.
    And {
        rs: u32,
        ra: u32,
        rb: u32,
        rc: bool,
    },
    /// `andc`: and with complement.
    Andc {
        rs: u32,
        ra: u32,
        rb: u32,
        rc: bool,
    },
    /// `nor`: nor.
    Nor {
        rs: u32,
        ra: u32,
        rb: u32,
        rc: bool,
    },
    /// `xor`: xor.
    Xor {
        rs: u32,
        ra: u32,
        rb: u32,
        rc: bool,
    },
    /// `or`: or.
    Or {
        rs: u32,
        ra: u32,
        rb: u32,
        rc: bool,
    },
    /// `slw`: shift left word.
    Slw {
        rs: u32,
        ra: u32,
        rb: u32,
        rc: bool,
    },
    /// `srw`: shift right word.
    Srw {
        rs: u32,
        ra: u32,
        rb: u32,
        rc: bool,
    },
    /// `sld`: shift left doubleword.
    Sld {
        rs: u32,
        ra: u32,
        rb: u32,
        rc: bool,
    },
    /// `srd`: shift right doubleword.
    Srd {
        rs: u32,
        ra: u32,
        rb: u32,
        rc: bool,
    },
    /// `extsb`: extend sign byte.
    Extsb {
        rs: u32,
        ra: u32,
        rc: bool,
    },
    /// `extsh`: extend sign halfword.
    Extsh {
        rs: u32,
        ra: u32,
        rc: bool,
    },
    /// `extsw`: extend sign word.
    Extsw {
        rs: u32,
        ra: u32,
        rc: bool,
    },
    /// `ldx`: load doubleword indexed.
    Ldx {
        rt: u32,
        ra: u32,
        rb: u32,
    },
    /// `lwzx`: load word and zero indexed.
    Lwzx {
        rt: u32,
        ra: u32,
        rb: u32,
    },
    /// `lbzx`: load byte and zero indexed.
    Lbzx {
        rt: u32,
        ra: u32,
        rb: u32,
    },
    /// `lhzx`: load halfword and zero indexed.
    Lhzx {
        rt: u32,
        ra: u32,
        rb: u32,
    },
    /// `lhax`: load halfword algebraic indexed.
    Lhax {
        rt: u32,
        ra: u32,
        rb: u32,
    },
    /// `lwax`: load word algebraic indexed.
    Lwax {
        rt: u32,
        ra: u32,
        rb: u32,
    },
    /// `stdx`: store doubleword indexed.
    Stdx {
        rs: u32,
        ra: u32,
        rb: u32,
    },
    /// `stwx`: store word indexed.
    Stwx {
        rs: u32,
        ra: u32,
        rb: u32,
    },
    /// `stbx`: store byte indexed.
    Stbx {
        rs: u32,
        ra: u32,
        rb: u32,
    },
    /// `sthx`: store halfword indexed.
    Sthx {
        rs: u32,
        ra: u32,
        rb: u32,
    },
    /// `mfspr`: move from special purpose register.
    Mfspr {
        rt: u32,
        spr: u32,
    },
    /// `mtspr`: move to special purpose register.
    Mtspr {
        rs: u32,
        spr: u32,
    },
}
