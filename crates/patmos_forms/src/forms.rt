ghost use Rattle.std.specs.Prelude.{◌≡◌, ◌++◌, codes};
ghost use Rattle.patmos_forms.specs.Forms.{form_of, flow_of, mnemonic, imm_name, alu_name, cmp_name, cmp_imm_name, pred_name, stack_name, load_name, store_name, mem_name, flow_name};

use patmos_instr::{AluFunc, CmpFunc, ImmFunc, Mem, PredFunc, StackFunc, StoreWidth, Width};

/// A jump whose target is written as a name.
#[derive(Clone, Copy, Debug, PartialEq, Eq)]
pub enum JumpKind {
    /// To a label of the same function.
    Branch,
    /// A call of a function.
    Call,
    /// To the first word of a function.
    BranchFill,
}

impl JumpKind {
    /// Its mnemonic.
    pub fn mnemonic(self) -> &'static str
        ensures { result.now ≡ flow_name self }
    {
        match self {
            JumpKind::Branch => "br",
            JumpKind::Call => "call",
            JumpKind::BranchFill => "brcf",
        }
    }

    /// The jump of this mnemonic.
    pub fn of_mnemonic(word: &[u8]) -> Option<JumpKind>
        ensures { result ≡ flow_of word.now }
    {
        [JumpKind::Branch, JumpKind::Call, JumpKind::BranchFill]
            .iter()
            .copied()
            .find(|flow| word == flow.mnemonic().as_bytes())
    }
}

/// How an instruction that is no jump by name is written: its mnemonic and the kind of its operands.
#[derive(Clone, Copy, Debug, PartialEq, Eq)]
pub enum Form {
    AluReg(AluFunc),
    AluImm(ImmFunc),
    AluLong(AluFunc),
    /// A product, unsigned or signed.
    Mul(bool),
    Cmp(CmpFunc),
    CmpImm(CmpFunc),
    Comb(PredFunc),
    ToSpecial,
    FromSpecial,
    Stack(StackFunc),
    Load(Width, Mem),
    Store(StoreWidth, Mem),
    Return,
    Nop,
}

/// All forms.
const FORMS: [Form; 88] = [
    Form::AluReg(AluFunc::Add),
    Form::AluReg(AluFunc::Sub),
    Form::AluReg(AluFunc::Xor),
    Form::AluReg(AluFunc::Sl),
    Form::AluReg(AluFunc::Sr),
    Form::AluReg(AluFunc::Sra),
    Form::AluReg(AluFunc::Or),
    Form::AluReg(AluFunc::And),
    Form::AluReg(AluFunc::Nor),
    Form::AluReg(AluFunc::Shadd),
    Form::AluReg(AluFunc::Shadd2),
    Form::AluImm(ImmFunc::Add),
    Form::AluImm(ImmFunc::Sub),
    Form::AluImm(ImmFunc::Xor),
    Form::AluImm(ImmFunc::Sl),
    Form::AluImm(ImmFunc::Sr),
    Form::AluImm(ImmFunc::Sra),
    Form::AluImm(ImmFunc::Or),
    Form::AluImm(ImmFunc::And),
    Form::AluLong(AluFunc::Add),
    Form::AluLong(AluFunc::Sub),
    Form::AluLong(AluFunc::Xor),
    Form::AluLong(AluFunc::Sl),
    Form::AluLong(AluFunc::Sr),
    Form::AluLong(AluFunc::Sra),
    Form::AluLong(AluFunc::Or),
    Form::AluLong(AluFunc::And),
    Form::AluLong(AluFunc::Nor),
    Form::AluLong(AluFunc::Shadd),
    Form::AluLong(AluFunc::Shadd2),
    Form::Mul(false),
    Form::Mul(true),
    Form::Cmp(CmpFunc::Eq),
    Form::Cmp(CmpFunc::Neq),
    Form::Cmp(CmpFunc::Lt),
    Form::Cmp(CmpFunc::Le),
    Form::Cmp(CmpFunc::Ult),
    Form::Cmp(CmpFunc::Ule),
    Form::Cmp(CmpFunc::Btest),
    Form::CmpImm(CmpFunc::Eq),
    Form::CmpImm(CmpFunc::Neq),
    Form::CmpImm(CmpFunc::Lt),
    Form::CmpImm(CmpFunc::Le),
    Form::CmpImm(CmpFunc::Ult),
    Form::CmpImm(CmpFunc::Ule),
    Form::CmpImm(CmpFunc::Btest),
    Form::Comb(PredFunc::Por),
    Form::Comb(PredFunc::Pand),
    Form::Comb(PredFunc::Pxor),
    Form::ToSpecial,
    Form::FromSpecial,
    Form::Stack(StackFunc::Sres),
    Form::Stack(StackFunc::Sens),
    Form::Stack(StackFunc::Sfree),
    Form::Load(Width::Word, Mem::S),
    Form::Load(Width::Word, Mem::L),
    Form::Load(Width::Word, Mem::C),
    Form::Load(Width::Word, Mem::M),
    Form::Load(Width::Half, Mem::S),
    Form::Load(Width::Half, Mem::L),
    Form::Load(Width::Half, Mem::C),
    Form::Load(Width::Half, Mem::M),
    Form::Load(Width::Byte, Mem::S),
    Form::Load(Width::Byte, Mem::L),
    Form::Load(Width::Byte, Mem::C),
    Form::Load(Width::Byte, Mem::M),
    Form::Load(Width::HalfUnsigned, Mem::S),
    Form::Load(Width::HalfUnsigned, Mem::L),
    Form::Load(Width::HalfUnsigned, Mem::C),
    Form::Load(Width::HalfUnsigned, Mem::M),
    Form::Load(Width::ByteUnsigned, Mem::S),
    Form::Load(Width::ByteUnsigned, Mem::L),
    Form::Load(Width::ByteUnsigned, Mem::C),
    Form::Load(Width::ByteUnsigned, Mem::M),
    Form::Store(StoreWidth::Word, Mem::S),
    Form::Store(StoreWidth::Word, Mem::L),
    Form::Store(StoreWidth::Word, Mem::C),
    Form::Store(StoreWidth::Word, Mem::M),
    Form::Store(StoreWidth::Half, Mem::S),
    Form::Store(StoreWidth::Half, Mem::L),
    Form::Store(StoreWidth::Half, Mem::C),
    Form::Store(StoreWidth::Half, Mem::M),
    Form::Store(StoreWidth::Byte, Mem::S),
    Form::Store(StoreWidth::Byte, Mem::L),
    Form::Store(StoreWidth::Byte, Mem::C),
    Form::Store(StoreWidth::Byte, Mem::M),
    Form::Return,
    Form::Nop,
];

// an operation on two registers
fn alu_name(func: AluFunc) -> &'static str
    ensures { result.now ≡ alu_name func }
{
    match func {
        AluFunc::Add => "add",
        AluFunc::Sub => "sub",
        AluFunc::Xor => "xor",
        AluFunc::Sl => "sl",
        AluFunc::Sr => "sr",
        AluFunc::Sra => "sra",
        AluFunc::Or => "or",
        AluFunc::And => "and",
        AluFunc::Nor => "nor",
        AluFunc::Shadd => "shadd",
        AluFunc::Shadd2 => "shadd2",
    }
}

// an operation on a register and a number
fn imm_name(func: ImmFunc) -> &'static str
    ensures { result.now ≡ imm_name func ++ codes "i" }
{
    match func {
        ImmFunc::Add => "addi",
        ImmFunc::Sub => "subi",
        ImmFunc::Xor => "xori",
        ImmFunc::Sl => "sli",
        ImmFunc::Sr => "sri",
        ImmFunc::Sra => "srai",
        ImmFunc::Or => "ori",
        ImmFunc::And => "andi",
    }
}

// an operation on a register and a word
fn long_name(func: AluFunc) -> &'static str
    ensures { result.now ≡ alu_name func ++ codes "l" }
{
    match func {
        AluFunc::Add => "addl",
        AluFunc::Sub => "subl",
        AluFunc::Xor => "xorl",
        AluFunc::Sl => "sll",
        AluFunc::Sr => "srl",
        AluFunc::Sra => "sral",
        AluFunc::Or => "orl",
        AluFunc::And => "andl",
        AluFunc::Nor => "norl",
        AluFunc::Shadd => "shaddl",
        AluFunc::Shadd2 => "shadd2l",
    }
}

// a compare of two registers
fn cmp_name(func: CmpFunc) -> &'static str
    ensures { result.now ≡ cmp_name func }
{
    match func {
        CmpFunc::Eq => "cmpeq",
        CmpFunc::Neq => "cmpneq",
        CmpFunc::Lt => "cmplt",
        CmpFunc::Le => "cmple",
        CmpFunc::Ult => "cmpult",
        CmpFunc::Ule => "cmpule",
        CmpFunc::Btest => "btest",
    }
}

// a compare of a register and a number
fn cmp_imm_name(func: CmpFunc) -> &'static str
    ensures { result.now ≡ cmp_imm_name func }
{
    match func {
        CmpFunc::Eq => "cmpieq",
        CmpFunc::Neq => "cmpineq",
        CmpFunc::Lt => "cmpilt",
        CmpFunc::Le => "cmpile",
        CmpFunc::Ult => "cmpiult",
        CmpFunc::Ule => "cmpiule",
        CmpFunc::Btest => "btesti",
    }
}

// a combination of predicates
fn pred_name(func: PredFunc) -> &'static str
    ensures { result.now ≡ pred_name func }
{
    match func {
        PredFunc::Por => "por",
        PredFunc::Pand => "pand",
        PredFunc::Pxor => "pxor",
    }
}

// an operation of the stack cache
fn stack_name(func: StackFunc) -> &'static str
    ensures { result.now ≡ stack_name func }
{
    match func {
        StackFunc::Sres => "sres",
        StackFunc::Sens => "sens",
        StackFunc::Sfree => "sfree",
    }
}

// a load
fn load_name(width: Width, space: Mem) -> &'static str
    ensures { result.now ≡ load_name width ++ mem_name space }
{
    match (width, space) {
        (Width::Word, Mem::S) => "lws",
        (Width::Word, Mem::L) => "lwl",
        (Width::Word, Mem::C) => "lwc",
        (Width::Word, Mem::M) => "lwm",
        (Width::Half, Mem::S) => "lhs",
        (Width::Half, Mem::L) => "lhl",
        (Width::Half, Mem::C) => "lhc",
        (Width::Half, Mem::M) => "lhm",
        (Width::Byte, Mem::S) => "lbs",
        (Width::Byte, Mem::L) => "lbl",
        (Width::Byte, Mem::C) => "lbc",
        (Width::Byte, Mem::M) => "lbm",
        (Width::HalfUnsigned, Mem::S) => "lhus",
        (Width::HalfUnsigned, Mem::L) => "lhul",
        (Width::HalfUnsigned, Mem::C) => "lhuc",
        (Width::HalfUnsigned, Mem::M) => "lhum",
        (Width::ByteUnsigned, Mem::S) => "lbus",
        (Width::ByteUnsigned, Mem::L) => "lbul",
        (Width::ByteUnsigned, Mem::C) => "lbuc",
        (Width::ByteUnsigned, Mem::M) => "lbum",
    }
}

// a store
fn store_name(width: StoreWidth, space: Mem) -> &'static str
    ensures { result.now ≡ store_name width ++ mem_name space }
{
    match (width, space) {
        (StoreWidth::Word, Mem::S) => "sws",
        (StoreWidth::Word, Mem::L) => "swl",
        (StoreWidth::Word, Mem::C) => "swc",
        (StoreWidth::Word, Mem::M) => "swm",
        (StoreWidth::Half, Mem::S) => "shs",
        (StoreWidth::Half, Mem::L) => "shl",
        (StoreWidth::Half, Mem::C) => "shc",
        (StoreWidth::Half, Mem::M) => "shm",
        (StoreWidth::Byte, Mem::S) => "sbs",
        (StoreWidth::Byte, Mem::L) => "sbl",
        (StoreWidth::Byte, Mem::C) => "sbc",
        (StoreWidth::Byte, Mem::M) => "sbm",
    }
}

impl Form {
    /// Its mnemonic.
    pub fn mnemonic(self) -> &'static str
        ensures { result.now ≡ mnemonic self }
    {
        match self {
            Form::AluReg(func) => alu_name(func),
            Form::AluImm(func) => imm_name(func),
            Form::AluLong(func) => long_name(func),
            Form::Mul(false) => "mul",
            Form::Mul(true) => "mulu",
            Form::Cmp(func) => cmp_name(func),
            Form::CmpImm(func) => cmp_imm_name(func),
            Form::Comb(func) => pred_name(func),
            Form::ToSpecial => "mts",
            Form::FromSpecial => "mfs",
            Form::Stack(func) => stack_name(func),
            Form::Load(width, space) => load_name(width, space),
            Form::Store(width, space) => store_name(width, space),
            Form::Return => "ret",
            Form::Nop => "nop",
        }
    }

    /// The form of this mnemonic.
    pub fn of_mnemonic(word: &[u8]) -> Option<Form>
        ensures { result ≡ form_of word.now }
    {
        FORMS
            .iter()
            .copied()
            .find(|form| word == form.mnemonic().as_bytes())
    }
}
