// Instructions, as decoding tells them.

/// The form of an instruction (SPARC V9, appendix A). The cc forms set the condition codes.
#[derive(Clone, Copy, Debug, PartialEq, Eq)]
pub enum Op {
    /// No instruction that is executed: the word traps with the number in `trap`.
    Trap,
    BPcc,
    Bicc,
    BPr,
    Sethi,
    Call,
    Add,
    And,
    Or,
    Xor,
    Sub,
    Andn,
    Orn,
    Xnor,
    Addc,
    Subc,
    Mulx,
    Umul,
    Smul,
    Udivx,
    Sdivx,
    AddCc,
    AndCc,
    OrCc,
    XorCc,
    SubCc,
    AndnCc,
    OrnCc,
    XnorCc,
    AddcCc,
    UmulCc,
    SmulCc,
    SubcCc,
    Sll,
    Srl,
    Sra,
    Sllx,
    Srlx,
    Srax,
    RdY,
    RdCcr,
    RdPc,
    Membar,
    Stbar,
    Flushw,
    Movcc,
    Popc,
    Movr,
    WrY,
    WrCcr,
    Jmpl,
    Return,
    Tcc,
    Flush,
    Save,
    Restore,
    Lduw,
    Ldub,
    Lduh,
    Ldsw,
    Ldsb,
    Ldsh,
    Ldx,
    Stw,
    Stb,
    Sth,
    Stx,
    Ldstub,
    Swap,
    Prefetch,
    Casa,
    Casxa,
}

/// The second operand of an instruction: a register of the window, or an immediate.
#[derive(Clone, Copy, Debug, PartialEq, Eq)]
pub enum Src2 {
    Reg(u8),
    Imm(i64),
}

/// An instruction. A field that the form does not use has the value 0, `false` or `Src2::Reg(0)`.
// The wide fields stand first, so that no bytes lie unused between them.
#[derive(Clone, Copy, Debug, PartialEq, Eq)]
pub struct Instr {
    /// Operand 2, a shift count, or the short immediate of MOVcc and MOVr.
    pub src2: Src2,
    /// The displacement of a branch or CALL in bytes; the value of SETHI.
    pub disp: i64,
    /// The trap number of `Op::Trap`.
    pub trap: u16,
    /// The form.
    pub op: Op,
    /// The register of the field rd, where the form reads or writes it.
    pub rd: u8,
    /// The register of the field rs1, where the form reads it.
    pub rs1: u8,
    /// The condition of Bicc, BPcc, MOVcc and Tcc; the register condition of BPr and MOVr.
    pub cond: u8,
    /// Which accesses MEMBAR or STBAR orders: 1 LoadLoad, 2 StoreLoad, 4 LoadStore, 8 StoreStore.
    pub mask: u8,
    /// Whether BPcc, MOVcc or Tcc looks at xcc in place of icc.
    pub extended: bool,
    /// The annul bit of a branch.
    pub annul: bool,
    /// The prediction bit of BPcc and BPr.
    pub hint: bool,
}
