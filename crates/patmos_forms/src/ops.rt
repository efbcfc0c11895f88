ghost use Rattle.std.specs.Prelude.{◌≡◌, ◌^◌, slice_get, if◌then◌else◌};
ghost use Rattle.std.specs.Option.{ok_or};
ghost use Rattle.patmos_instr.specs.Specials.{specials, writable_specials};
ghost use Rattle.patmos_forms.specs.declared.faults.AsmKind.TheVariants.{Operand, Range};
ghost use Rattle.patmos_forms.specs.Readers.{at_end};
ghost use Rattle.patmos_forms.specs.Forms.{below, guard_of, op_in};

use crate::faults::AsmKind;
use crate::forms::Form;
use crate::numerals::Numeral;
use crate::operands::{
    cell_register, lone_number, predicate_conditions, predicate_register_number,
    predicate_registers, register_cell, register_special, three_registers, two_registers,
    two_registers_number, writable_register,
};
use crate::readers::at_end;
use patmos_instr::{
    AluFunc, CmpFunc, Guard, Imm5, Imm7, Imm12, ImmFunc, Instr, Mem, Op, Pred, PredFunc, Reg,
    Special, StackFunc, StoreWidth, Width, WritableSpecial,
};

fn register(number: Numeral<'_>) -> Result<Reg, AsmKind>
    ensures { result ≡ below 32 number.entry }
{
    Ok(Reg::low(number.below(32)?))
}

fn predicate(number: Numeral<'_>) -> Result<Pred, AsmKind>
    ensures { result ≡ below 8 number.entry }
{
    Ok(Pred::low(number.below(8)?))
}

fn imm5(number: Numeral<'_>) -> Result<Imm5, AsmKind>
    ensures { result ≡ below 32 number.entry }
{
    Ok(Imm5::low(number.below(32)?))
}

fn imm7(number: Numeral<'_>) -> Result<Imm7, AsmKind>
    ensures { result ≡ below 128 number.entry }
{
    Ok(Imm7::low(number.below(128)?))
}

fn imm12(number: Numeral<'_>) -> Result<Imm12, AsmKind>
    ensures { result ≡ below 4096 number.entry }
{
    Ok(Imm12::low(number.below(4096)?))
}

/// A predicate or its negation, where the predicate is one of the eight.
pub fn guard_of(negated: bool, pred: Numeral<'_>) -> Result<Guard, AsmKind>
    ensures { result ≡ guard_of (if negated then 1 else 0) pred.entry }
{
    let pred = predicate(pred)?;
    Ok(Guard { negated, pred })
}

fn special(place: usize) -> Result<Special, AsmKind>
    ensures { result ≡ ok_or (slice_get specials place) Range }
{
    match place {
        0 => Ok(Special::S0),
        1 => Ok(Special::Sl),
        2 => Ok(Special::Sh),
        3 => Ok(Special::Srb),
        4 => Ok(Special::Sro),
        5 => Ok(Special::St),
        6 => Ok(Special::Ss),
        _ => Err(AsmKind::Range),
    }
}

fn writable_special(place: usize) -> Result<WritableSpecial, AsmKind>
    ensures { result ≡ ok_or (slice_get writable_specials place) Range }
{
    match place {
        0 => Ok(WritableSpecial::S0),
        1 => Ok(WritableSpecial::Sl),
        2 => Ok(WritableSpecial::Sh),
        3 => Ok(WritableSpecial::Srb),
        4 => Ok(WritableSpecial::Sro),
        _ => Err(AsmKind::Range),
    }
}

fn alu_reg(func: AluFunc, text: &[u8]) -> Result<Op, AsmKind>
    ensures { result ≡ op_in (Form.AluReg func) text.now }
{
    let (d, a, b) = three_registers(text).ok_or(AsmKind::Operand)?;
    let rd = register(d)?;
    let ra = register(a)?;
    let rb = register(b)?;
    Ok(Op::AluReg { func, rd, ra, rb })
}

fn alu_imm(func: ImmFunc, text: &[u8]) -> Result<Op, AsmKind>
    ensures { result ≡ op_in (Form.AluImm func) text.now }
{
    let (d, a, n) = two_registers_number(text).ok_or(AsmKind::Operand)?;
    let rd = register(d)?;
    let ra = register(a)?;
    let imm = imm12(n)?;
    Ok(Op::AluImm { func, rd, ra, imm })
}

fn alu_long(func: AluFunc, text: &[u8]) -> Result<Op, AsmKind>
    ensures { result ≡ op_in (Form.AluLong func) text.now }
{
    let (d, a, n) = two_registers_number(text).ok_or(AsmKind::Operand)?;
    let rd = register(d)?;
    let ra = register(a)?;
    let constant = n.word()?;
    Ok(Op::AluLong {
        func,
        rd,
        ra,
        constant,
    })
}

fn mul(unsigned: bool, text: &[u8]) -> Result<Op, AsmKind>
    ensures { result ≡ op_in (Form.Mul unsigned) text.now }
{
    let (a, b) = two_registers(text).ok_or(AsmKind::Operand)?;
    let ra = register(a)?;
    let rb = register(b)?;
    Ok(Op::Mul { unsigned, ra, rb })
}

fn cmp(func: CmpFunc, text: &[u8]) -> Result<Op, AsmKind>
    ensures { result ≡ op_in (Form.Cmp func) text.now }
{
    let (d, a, b) = predicate_registers(text).ok_or(AsmKind::Operand)?;
    let pd = predicate(d)?;
    let ra = register(a)?;
    let rb = register(b)?;
    Ok(Op::Cmp { func, pd, ra, rb })
}

fn cmp_imm(func: CmpFunc, text: &[u8]) -> Result<Op, AsmKind>
    ensures { result ≡ op_in (Form.CmpImm func) text.now }
{
    let (d, a, n) = predicate_register_number(text).ok_or(AsmKind::Operand)?;
    let pd = predicate(d)?;
    let ra = register(a)?;
    let imm = imm5(n)?;
    Ok(Op::CmpImm { func, pd, ra, imm })
}

fn comb(func: PredFunc, text: &[u8]) -> Result<Op, AsmKind>
    ensures { result ≡ op_in (Form.Comb func) text.now }
{
    let (d, (not_a, a), (not_b, b)) = predicate_conditions(text).ok_or(AsmKind::Operand)?;
    let pd = predicate(d)?;
    let a = guard_of(not_a, a)?;
    let b = guard_of(not_b, b)?;
    Ok(Op::Comb { func, pd, a, b })
}

fn to_special(text: &[u8]) -> Result<Op, AsmKind>
    ensures { result ≡ op_in Form.ToSpecial text.now }
{
    let (s, a) = writable_register(text).ok_or(AsmKind::Operand)?;
    let special = writable_special(s)?;
    let ra = register(a)?;
    Ok(Op::ToSpecial { special, ra })
}

fn from_special(text: &[u8]) -> Result<Op, AsmKind>
    ensures { result ≡ op_in Form.FromSpecial text.now }
{
    let (d, s) = register_special(text).ok_or(AsmKind::Operand)?;
    let rd = register(d)?;
    let special = special(s)?;
    Ok(Op::FromSpecial { rd, special })
}

fn stack(func: StackFunc, text: &[u8]) -> Result<Op, AsmKind>
    ensures { result ≡ op_in (Form.Stack func) text.now }
{
    let n = lone_number(text).ok_or(AsmKind::Operand)?;
    let count = imm12(n)?;
    Ok(Op::Stack { func, count })
}

fn load(width: Width, space: Mem, text: &[u8]) -> Result<Op, AsmKind>
    ensures { result ≡ op_in (Form.Load width space) text.now }
{
    let (d, a, n) = register_cell(text).ok_or(AsmKind::Operand)?;
    let rd = register(d)?;
    let ra = register(a)?;
    let imm = imm7(n)?;
    Ok(Op::Load {
        space,
        width,
        rd,
        ra,
        imm,
    })
}

fn store(width: StoreWidth, space: Mem, text: &[u8]) -> Result<Op, AsmKind>
    ensures { result ≡ op_in (Form.Store width space) text.now }
{
    let (a, n, s) = cell_register(text).ok_or(AsmKind::Operand)?;
    let ra = register(a)?;
    let imm = imm7(n)?;
    let rs = register(s)?;
    Ok(Op::Store {
        space,
        width,
        ra,
        rs,
        imm,
    })
}

fn without_operands(op: Op, text: &[u8]) -> Result<Op, AsmKind>
    ensures { result ≡ (if at_end text.now then Ok op else Err Operand) }
{
    if at_end(text) {
        Ok(op)
    } else {
        Err(AsmKind::Operand)
    }
}

/// The operation of a form with these operands.
pub fn op_in(form: Form, text: &[u8]) -> Result<Op, AsmKind>
    ensures { result ≡ op_in form text.now }
{
    match form {
        Form::AluReg(func) => alu_reg(func, text),
        Form::AluImm(func) => alu_imm(func, text),
        Form::AluLong(func) => alu_long(func, text),
        Form::Mul(unsigned) => mul(unsigned, text),
        Form::Cmp(func) => cmp(func, text),
        Form::CmpImm(func) => cmp_imm(func, text),
        Form::Comb(func) => comb(func, text),
        Form::ToSpecial => to_special(text),
        Form::FromSpecial => from_special(text),
        Form::Stack(func) => stack(func, text),
        Form::Load(width, space) => load(width, space, text),
        Form::Store(width, space) => store(width, space, text),
        Form::Return => without_operands(Op::Return, text),
        Form::Nop => without_operands(Instr::nop().op, text),
    }
}
