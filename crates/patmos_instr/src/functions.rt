ghost use Rattle.std.specs.Prelude.{◌≡◌, ◌<◌, slice_get};
ghost use Rattle.patmos_instr.specs.Numbers.{IsNumbered};
ghost use Rattle.patmos_instr.specs.Functions.{imm_func_number, imm_funcs, alu_func_number, alu_funcs, cmp_func_number, cmp_funcs, pred_func_number, pred_funcs, stack_func_number, stack_funcs};

/// What a short operation does with a register and an immediate.
#[derive(Clone, Copy, Debug, PartialEq, Eq)]
pub enum ImmFunc {
    /// The sum.
    Add,
    /// The difference.
    Sub,
    /// The bits that differ.
    Xor,
    /// A shift left.
    Sl,
    /// A shift right, zeros coming in.
    Sr,
    /// A shift right, copies of the sign coming in.
    Sra,
    /// The bits of either.
    Or,
    /// The bits of both.
    And,
}

impl ImmFunc {
    /// Its number in an instruction's word.
    pub fn number(self) -> u32
        ensures value { result ≡ imm_func_number self }
        ensures range { result < 8 }
    {
        match self {
            ImmFunc::Add => 0,
            ImmFunc::Sub => 1,
            ImmFunc::Xor => 2,
            ImmFunc::Sl => 3,
            ImmFunc::Sr => 4,
            ImmFunc::Sra => 5,
            ImmFunc::Or => 6,
            ImmFunc::And => 7,
        }
    }

    /// The function of this number; None exactly where there is none.
    pub fn of_number(number: u32) -> Option<ImmFunc>
        ensures exact { IsNumbered imm_func_number number result }
        ensures listed { result ≡ slice_get imm_funcs number }
    {
        match number {
            0 => Some(ImmFunc::Add),
            1 => Some(ImmFunc::Sub),
            2 => Some(ImmFunc::Xor),
            3 => Some(ImmFunc::Sl),
            4 => Some(ImmFunc::Sr),
            5 => Some(ImmFunc::Sra),
            6 => Some(ImmFunc::Or),
            7 => Some(ImmFunc::And),
            _ => None,
        }
    }
}

/// What an operation does with two words.
#[derive(Clone, Copy, Debug, PartialEq, Eq)]
pub enum AluFunc {
    /// The sum.
    Add,
    /// The difference.
    Sub,
    /// The bits that differ.
    Xor,
    /// A shift left.
    Sl,
    /// A shift right, zeros coming in.
    Sr,
    /// A shift right, copies of the sign coming in.
    Sra,
    /// The bits of either.
    Or,
    /// The bits of both.
    And,
    /// The bits of neither.
    Nor,
    /// Twice the first operand plus the second.
    Shadd,
    /// Four times the first operand plus the second.
    Shadd2,
}

impl AluFunc {
    /// Its number in an instruction's word.
    pub fn number(self) -> u32
        ensures value { result ≡ alu_func_number self }
        ensures range { result < 11 }
    {
        match self {
            AluFunc::Add => 0,
            AluFunc::Sub => 1,
            AluFunc::Xor => 2,
            AluFunc::Sl => 3,
            AluFunc::Sr => 4,
            AluFunc::Sra => 5,
            AluFunc::Or => 6,
            AluFunc::And => 7,
            AluFunc::Nor => 8,
            AluFunc::Shadd => 9,
            AluFunc::Shadd2 => 10,
        }
    }

    /// The function of this number; None exactly where there is none.
    pub fn of_number(number: u32) -> Option<AluFunc>
        ensures exact { IsNumbered alu_func_number number result }
        ensures listed { result ≡ slice_get alu_funcs number }
    {
        match number {
            0 => Some(AluFunc::Add),
            1 => Some(AluFunc::Sub),
            2 => Some(AluFunc::Xor),
            3 => Some(AluFunc::Sl),
            4 => Some(AluFunc::Sr),
            5 => Some(AluFunc::Sra),
            6 => Some(AluFunc::Or),
            7 => Some(AluFunc::And),
            8 => Some(AluFunc::Nor),
            9 => Some(AluFunc::Shadd),
            10 => Some(AluFunc::Shadd2),
            _ => None,
        }
    }
}

/// What a compare asks of two words.
#[derive(Clone, Copy, Debug, PartialEq, Eq)]
pub enum CmpFunc {
    /// Equal.
    Eq,
    /// Not equal.
    Neq,
    /// Less, signed.
    Lt,
    /// Less or equal, signed.
    Le,
    /// Less, unsigned.
    Ult,
    /// Less or equal, unsigned.
    Ule,
    /// The bit of the first operand that the second numbers.
    Btest,
}

impl CmpFunc {
    /// Its number in an instruction's word.
    pub fn number(self) -> u32
        ensures value { result ≡ cmp_func_number self }
        ensures range { result < 7 }
    {
        match self {
            CmpFunc::Eq => 0,
            CmpFunc::Neq => 1,
            CmpFunc::Lt => 2,
            CmpFunc::Le => 3,
            CmpFunc::Ult => 4,
            CmpFunc::Ule => 5,
            CmpFunc::Btest => 6,
        }
    }

    /// The function of this number; None exactly where there is none.
    pub fn of_number(number: u32) -> Option<CmpFunc>
        ensures exact { IsNumbered cmp_func_number number result }
        ensures listed { result ≡ slice_get cmp_funcs number }
    {
        match number {
            0 => Some(CmpFunc::Eq),
            1 => Some(CmpFunc::Neq),
            2 => Some(CmpFunc::Lt),
            3 => Some(CmpFunc::Le),
            4 => Some(CmpFunc::Ult),
            5 => Some(CmpFunc::Ule),
            6 => Some(CmpFunc::Btest),
            _ => None,
        }
    }
}

/// How two predicates are combined.
#[derive(Clone, Copy, Debug, PartialEq, Eq)]
pub enum PredFunc {
    /// Either.
    Por,
    /// Both.
    Pand,
    /// Exactly one.
    Pxor,
}

impl PredFunc {
    /// Its number in an instruction's word.
    pub fn number(self) -> u32
        ensures value { result ≡ pred_func_number self }
        ensures range { result < 3 }
    {
        match self {
            PredFunc::Por => 0,
            PredFunc::Pand => 1,
            PredFunc::Pxor => 2,
        }
    }

    /// The function of this number; None exactly where there is none.
    pub fn of_number(number: u32) -> Option<PredFunc>
        ensures exact { IsNumbered pred_func_number number result }
        ensures listed { result ≡ slice_get pred_funcs number }
    {
        match number {
            0 => Some(PredFunc::Por),
            1 => Some(PredFunc::Pand),
            2 => Some(PredFunc::Pxor),
            _ => None,
        }
    }
}

/// What a stack operation does with the stack cache.
#[derive(Clone, Copy, Debug, PartialEq, Eq)]
pub enum StackFunc {
    /// Reserve: the stack grows by some words.
    Sres,
    /// Ensure: some words of the top are in the cache.
    Sens,
    /// Free: the stack shrinks by some words.
    Sfree,
}

impl StackFunc {
    /// Its number in an instruction's word.
    pub fn number(self) -> u32
        ensures value { result ≡ stack_func_number self }
        ensures range { result < 3 }
    {
        match self {
            StackFunc::Sres => 0,
            StackFunc::Sens => 1,
            StackFunc::Sfree => 2,
        }
    }

    /// The function of this number; None exactly where there is none.
    pub fn of_number(number: u32) -> Option<StackFunc>
        ensures exact { IsNumbered stack_func_number number result }
        ensures listed { result ≡ slice_get stack_funcs number }
    {
        match number {
            0 => Some(StackFunc::Sres),
            1 => Some(StackFunc::Sens),
            2 => Some(StackFunc::Sfree),
            _ => None,
        }
    }
}
