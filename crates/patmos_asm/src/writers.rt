ghost use Rattle.std.specs.Prelude.{◌≡◌, ◌++◌, [], OnOk, string_bytes, slice_index_or, codes, if◌then◌else◌};
ghost use Rattle.patmos_instr.specs.Specials.{special_number, writable_special_number};
ghost use Rattle.patmos_forms.specs.Operands.{special_names};
ghost use Rattle.patmos_syntax.specs.Drafts.{ready};
ghost use Rattle.patmos_asm.specs.Written as specs;

use patmos_forms::Form;
use patmos_instr::{Guard, ImmFunc, Instr, Op, Special, WritableSpecial};
use std::alloc::AllocError;
use std::fmt::Write;

fn special_name(special: Special) -> &'static str
    ensures { result.now ≡ slice_index_or special_names (special_number special) [] }
{
    match special {
        Special::S0 => "s0",
        Special::Sl => "sl",
        Special::Sh => "sh",
        Special::Srb => "srb",
        Special::Sro => "sro",
        Special::St => "st",
        Special::Ss => "ss",
    }
}

fn writable_name(special: WritableSpecial) -> &'static str
    ensures { result.now ≡ slice_index_or special_names (writable_special_number special) [] }
{
    match special {
        WritableSpecial::S0 => "s0",
        WritableSpecial::Sl => "sl",
        WritableSpecial::Sh => "sh",
        WritableSpecial::Srb => "srb",
        WritableSpecial::Sro => "sro",
    }
}

// the sign of a negation, or none
fn negation(negated: bool) -> &'static str
    ensures { result.now ≡ (if negated then codes "!" else []) }
{
    if negated { "!" } else { "" }
}

/// Adds an operation. A jump is written with a name instead.
pub fn write_op(text: &mut String, op: &Op) -> Result<(), AllocError>
    ensures { OnOk result (string_bytes text.new ≡ string_bytes text.old ++ specs.op_text op.now) }
{
    match *op {
        Op::AluReg { func, rd, ra, rb } => {
            let name = Form::AluReg(func).mnemonic();
            let (d, a, b) = (rd.number(), ra.number(), rb.number());
            write!(text, "{name} r{d} = r{a}, r{b}")
        }
        Op::AluImm { func, rd, ra, imm } => {
            let name = Form::AluImm(func).mnemonic();
            let (d, a, n) = (rd.number(), ra.number(), imm.number());
            write!(text, "{name} r{d} = r{a}, {n}")
        }
        Op::AluLong {
            func,
            rd,
            ra,
            constant,
        } => {
            let name = Form::AluLong(func).mnemonic();
            let (d, a) = (rd.number(), ra.number());
            write!(text, "{name} r{d} = r{a}, {constant}")
        }
        Op::Mul { unsigned, ra, rb } => {
            let name = Form::Mul(unsigned).mnemonic();
            let (a, b) = (ra.number(), rb.number());
            write!(text, "{name} r{a}, r{b}")
        }
        Op::Cmp { func, pd, ra, rb } => {
            let name = Form::Cmp(func).mnemonic();
            let (d, a, b) = (pd.number(), ra.number(), rb.number());
            write!(text, "{name} p{d} = r{a}, r{b}")
        }
        Op::CmpImm { func, pd, ra, imm } => {
            let name = Form::CmpImm(func).mnemonic();
            let (d, a, n) = (pd.number(), ra.number(), imm.number());
            write!(text, "{name} p{d} = r{a}, {n}")
        }
        Op::Comb { func, pd, a, b } => {
            let name = Form::Comb(func).mnemonic();
            let (d, not_a, not_b) = (pd.number(), negation(a.negated), negation(b.negated));
            let (a, b) = (a.pred.number(), b.pred.number());
            write!(text, "{name} p{d} = {not_a}p{a}, {not_b}p{b}")
        }
        Op::ToSpecial { special, ra } => {
            let (s, a) = (writable_name(special), ra.number());
            write!(text, "mts {s} = r{a}")
        }
        Op::FromSpecial { rd, special } => {
            let (d, s) = (rd.number(), special_name(special));
            write!(text, "mfs r{d} = {s}")
        }
        Op::Stack { func, count } => {
            let (name, n) = (Form::Stack(func).mnemonic(), count.number());
            write!(text, "{name} {n}")
        }
        Op::Load {
            space,
            width,
            rd,
            ra,
            imm,
        } => {
            let name = Form::Load(width, space).mnemonic();
            let (d, a, n) = (rd.number(), ra.number(), imm.number());
            write!(text, "{name} r{d} = [r{a} + {n}]")
        }
        Op::Store {
            space,
            width,
            ra,
            rs,
            imm,
        } => {
            let name = Form::Store(width, space).mnemonic();
            let (a, n, s) = (ra.number(), imm.number(), rs.number());
            write!(text, "{name} [r{a} + {n}] = r{s}")
        }
        Op::Return => text.push_str("ret"),
        Op::Branch { .. } | Op::Call { .. } | Op::BranchFill { .. } => Ok(()),
    }
}

/// Adds a guard, which is left out where it is (p0).
pub fn write_guard(text: &mut String, guard: Guard) -> Result<(), AllocError>
    ensures { OnOk result (string_bytes text.new ≡ string_bytes text.old ++ specs.guard_text guard) }
{
    let pred = guard.pred.number();
    if !guard.negated && pred == 0 {
        return Ok(());
    }
    let not = negation(guard.negated);
    write!(text, "({not}p{pred}) ")
}

// whether the instruction's code is 0
fn is_nop(instr: &Instr) -> bool
    ensures { result ≡ specs.is_nop instr.now.guard (ready instr.now.op) }
{
    match instr.op {
        Op::AluImm {
            func: ImmFunc::Add,
            rd,
            ra,
            imm,
        } => {
            !instr.guard.negated
                && instr.guard.pred.number() == 0
                && rd.number() == 0
                && ra.number() == 0
                && imm.number() == 0
        }
        _ => false,
    }
}

/// Adds an instruction that is no jump by name.
pub fn write_plain(text: &mut String, instr: &Instr) -> Result<(), AllocError>
    ensures { OnOk result (string_bytes text.new ≡ string_bytes text.old ++ specs.plain_text instr.now) }
{
    if is_nop(instr) {
        return text.push_str("nop");
    }
    write_guard(text, instr.guard)?;
    write_op(text, &instr.op)
}
