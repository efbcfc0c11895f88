use crate::expect::expect_same;
use patmos_instr::{
    Addr22, AluFunc, Bundle, CmpFunc, Guard, Imm5, Imm7, Imm12, ImmFunc, Instr, Mem, Off22, Op,
    Pred, PredFunc, Reg, Special, StackFunc, StoreWidth, Width, WritableSpecial,
};
use patmos_sem::{Effect, FlowKind, Pending, Regs, arrive, exec, merge, pick};
use std::test::Fail;

// the stack's places in words: 4 * SS passes 2^32
const ST: u32 = 49_160;

const SS: u32 = 0x4000_0003;

fn always(op: Op) -> Instr {
    Instr {
        guard: Guard::low(0),
        op,
    }
}

fn when(guard: u32, op: Op) -> Instr {
    Instr {
        guard: Guard::low(guard),
        op,
    }
}

fn run(regs: &mut Regs, op: Op) -> Effect {
    exec(regs, &Bundle::single(always(op)), ST, SS)
}

fn set(rd: u32, constant: u32) -> Op {
    Op::AluLong {
        func: AluFunc::Add,
        rd: Reg::low(rd),
        ra: Reg::low(0),
        constant,
    }
}

fn add_short(rd: u32, ra: u32, imm: u32) -> Op {
    Op::AluImm {
        func: ImmFunc::Add,
        rd: Reg::low(rd),
        ra: Reg::low(ra),
        imm: Imm12::low(imm),
    }
}

fn from_special(special: Special) -> Op {
    Op::FromSpecial {
        rd: Reg::low(3),
        special,
    }
}

/// The word of a special register, brought into r3.
fn word_of(regs: &mut Regs, special: Special) -> u32 {
    run(regs, from_special(special));
    regs.general(Reg::low(3))
}

fn to_special(special: WritableSpecial, ra: u32) -> Op {
    Op::ToSpecial {
        special,
        ra: Reg::low(ra),
    }
}

fn is_zero(pd: u32, ra: u32) -> Op {
    Op::CmpImm {
        func: CmpFunc::Eq,
        pd: Pred::low(pd),
        ra: Reg::low(ra),
        imm: Imm5::low(0),
    }
}

// r1 = 12, r2 = -10, p1 true
fn begun() -> Regs {
    let mut regs = Regs::new();
    run(&mut regs, set(1, 12));
    run(&mut regs, set(2, 0xffff_fff6));
    run(&mut regs, is_zero(1, 0));
    regs
}

#[test]
fn operations_give_their_words(rt: HostRuntime) {
    let short = [
        (ImmFunc::Add, 1, 4095, 4107),
        (ImmFunc::Sub, 1, 13, 0xffff_ffff),
        (ImmFunc::Xor, 1, 10, 6),
        (ImmFunc::Sl, 1, 33, 24),
        (ImmFunc::Sr, 2, 1, 0x7fff_fffb),
        (ImmFunc::Sra, 2, 1, 0xffff_fffb),
        (ImmFunc::Or, 1, 3, 15),
        (ImmFunc::And, 1, 10, 8),
    ];
    for (func, ra, imm, value) in short {
        let mut regs = begun();
        let (rd, ra, imm) = (Reg::low(3), Reg::low(ra), Imm12::low(imm));
        let effect = run(&mut regs, Op::AluImm { func, rd, ra, imm });
        expect_same(&rt, effect, Effect::Nothing);
        expect_same(&rt, (func, regs.general(rd)), (func, value));
    }
    let long = [
        (AluFunc::Add, 2),
        (AluFunc::Nor, 1),
        (AluFunc::Shadd, 14),
        (AluFunc::Shadd2, 38),
    ];
    for (func, value) in long {
        let mut regs = begun();
        let (rd, ra, rb) = (Reg::low(31), Reg::low(1), Reg::low(2));
        run(&mut regs, Op::AluReg { func, rd, ra, rb });
        expect_same(&rt, (func, regs.general(rd)), (func, value));
    }
}

#[test]
fn compares_and_combinations_give_predicates(rt: HostRuntime) {
    let compares = [
        (CmpFunc::Eq, 1, 1, true),
        (CmpFunc::Neq, 1, 1, false),
        (CmpFunc::Lt, 2, 1, true),
        (CmpFunc::Le, 1, 1, true),
        (CmpFunc::Le, 1, 2, false),
        (CmpFunc::Ult, 2, 1, false),
        (CmpFunc::Ule, 1, 2, true),
    ];
    for (func, ra, rb, value) in compares {
        let mut regs = begun();
        let (pd, ra, rb) = (Pred::low(7), Reg::low(ra), Reg::low(rb));
        run(&mut regs, Op::Cmp { func, pd, ra, rb });
        expect_same(&rt, (func, regs.pred(pd)), (func, value));
    }
    for (ra, imm, value) in [(1, 3, true), (1, 1, false), (2, 31, true)] {
        let mut regs = begun();
        let (pd, ra, imm) = (Pred::low(7), Reg::low(ra), Imm5::low(imm));
        let func = CmpFunc::Btest;
        run(&mut regs, Op::CmpImm { func, pd, ra, imm });
        expect_same(&rt, (imm, regs.pred(pd)), (imm, value));
    }
    // p1 is true and p2 is false; 8 negates
    let combinations = [
        (PredFunc::Por, 1, 2, true),
        (PredFunc::Por, 9, 2, false),
        (PredFunc::Pand, 1, 10, true),
        (PredFunc::Pand, 1, 2, false),
        (PredFunc::Pxor, 1, 2, true),
        (PredFunc::Pxor, 1, 10, false),
    ];
    for (func, a, b, value) in combinations {
        let mut regs = begun();
        let (pd, a, b) = (Pred::low(7), Guard::low(a), Guard::low(b));
        run(&mut regs, Op::Comb { func, pd, a, b });
        expect_same(&rt, (func, regs.pred(pd)), (func, value));
    }
}

#[test]
fn specials_are_read_and_written(rt: HostRuntime) {
    let mut regs = begun();
    expect_same(&rt, word_of(&mut regs, Special::St), 196_640);
    expect_same(&rt, word_of(&mut regs, Special::Ss), 12);
    // s0 is written with bit 0 clear and with bits past the eighth
    run(&mut regs, set(4, 0x184));
    run(&mut regs, to_special(WritableSpecial::S0, 4));
    expect_same(
        &rt,
        (
            regs.pred(Pred::low(0)),
            regs.pred(Pred::low(1)),
            regs.pred(Pred::low(2)),
        ),
        (true, false, true),
    );
    expect_same(&rt, word_of(&mut regs, Special::S0), 0x85);
    let pairs = [
        (WritableSpecial::Sl, Special::Sl),
        (WritableSpecial::Sh, Special::Sh),
        (WritableSpecial::Srb, Special::Srb),
        (WritableSpecial::Sro, Special::Sro),
    ];
    for (written, read) in pairs {
        run(&mut regs, to_special(written, 1));
        expect_same(&rt, (read, word_of(&mut regs, read)), (read, 12));
        run(&mut regs, to_special(written, 0));
    }
    regs.set_return(70, 9);
    expect_same(&rt, (regs.srb(), regs.sro()), (70, 9));
    let kind = FlowKind::Return {
        base: 70,
        offset: 9,
    };
    expect_same(&rt, run(&mut regs, Op::Return), Effect::Flow { kind });
}

#[test]
fn products_are_seen_from_the_second_bundle_after(rt: HostRuntime) {
    for (unsigned, high) in [(false, 0xffff_ffff), (true, 11)] {
        let mut regs = begun();
        let (ra, rb) = (Reg::low(1), Reg::low(2));
        run(&mut regs, Op::Mul { unsigned, ra, rb });
        let low = 0xffff_ff88;
        expect_same(&rt, regs.pending(), Pending::Product { low, high });
        expect_same(&rt, word_of(&mut regs, Special::Sl), 0);
        expect_same(&rt, word_of(&mut regs, Special::Sl), low);
        expect_same(&rt, word_of(&mut regs, Special::Sh), high);
    }
    // an own write to sl wins over the product, and sh gets its half
    let mut regs = begun();
    let (ra, rb) = (Reg::low(1), Reg::low(1));
    run(
        &mut regs,
        Op::Mul {
            unsigned: true,
            ra,
            rb,
        },
    );
    run(&mut regs, to_special(WritableSpecial::Sl, 1));
    expect_same(&rt, word_of(&mut regs, Special::Sl), 12);
}

fn load() -> Op {
    Op::Load {
        space: Mem::C,
        width: Width::Word,
        rd: Reg::low(4),
        ra: Reg::low(2),
        imm: Imm7::low(3),
    }
}

/// What that asks for, where r2 = -10.
fn loaded() -> Effect {
    Effect::Load {
        space: Mem::C,
        width: Width::Word,
        rd: Reg::low(4),
        address: 2,
    }
}

#[test]
fn loads_are_seen_from_the_second_bundle_after(rt: HostRuntime) {
    let mut regs = begun();
    expect_same(&rt, run(&mut regs, load()), loaded());
    assert_eq!(rt; regs.pending(), Pending::Nothing);
    arrive(&mut regs, Reg::low(4), 77);
    run(&mut regs, add_short(5, 4, 1));
    expect_same(&rt, regs.general(Reg::low(5)), 1);
    run(&mut regs, add_short(5, 4, 1));
    expect_same(&rt, regs.general(Reg::low(5)), 78);
    // the next bundle's own write wins
    expect_same(&rt, run(&mut regs, load()), loaded());
    assert_eq!(rt; regs.pending(), Pending::Nothing);
    arrive(&mut regs, Reg::low(4), 88);
    run(&mut regs, add_short(4, 0, 5));
    expect_same(&rt, regs.general(Reg::low(4)), 5);
}

#[test]
fn both_slots_read_the_state_before(rt: HostRuntime) -> Result<(), Fail> {
    let mut regs = begun();
    let swapped = Bundle::pair(always(add_short(1, 2, 0)), always(add_short(2, 1, 0)))?;
    exec(&mut regs, &swapped, ST, SS);
    expect_same(&rt, regs.general(Reg::low(2)), 12);
    expect_same(&rt, regs.general(Reg::low(1)), 0xffff_fff6);
    let twice = Bundle::pair(always(add_short(6, 0, 1)), always(add_short(6, 0, 2)))?;
    exec(&mut regs, &twice, ST, SS);
    expect_same(&rt, regs.general(Reg::low(6)), 2);
    // the second slot's guard is !p1, which is false, so the first slot's write stands
    let guarded = Bundle::pair(always(add_short(6, 0, 3)), when(9, add_short(6, 0, 4)))?;
    exec(&mut regs, &guarded, ST, SS);
    expect_same(&rt, regs.general(Reg::low(6)), 3);
    let compared = Bundle::pair(when(9, is_zero(2, 0)), always(is_zero(0, 6)))?;
    exec(&mut regs, &compared, ST, SS);
    expect_same(
        &rt,
        (regs.pred(Pred::low(0)), regs.pred(Pred::low(2))),
        (true, false),
    );
    exec(
        &mut regs,
        &Bundle::single(when(1, add_short(0, 0, 9))),
        ST,
        SS,
    );
    expect_same(&rt, regs.general(Reg::low(0)), 0);
    Ok(())
}

#[test]
fn what_lies_outside_is_asked_for(rt: HostRuntime) {
    let mut regs = begun();
    let count = Imm12::low(100);
    let func = StackFunc::Sens;
    expect_same(
        &rt,
        run(&mut regs, Op::Stack { func, count }),
        Effect::StackOp { func, count: 100 },
    );
    // -10 and three units of the width
    let stores = [
        (StoreWidth::Word, 2),
        (StoreWidth::Half, 0xffff_fffc),
        (StoreWidth::Byte, 0xffff_fff9),
    ];
    for (width, address) in stores {
        let store = Op::Store {
            space: Mem::M,
            width,
            ra: Reg::low(2),
            rs: Reg::low(1),
            imm: Imm7::low(3),
        };
        let asked = Effect::Store {
            space: Mem::M,
            width,
            address,
            value: 12,
        };
        expect_same(&rt, run(&mut regs, store), asked);
    }
    let target = Addr22::low(500);
    let back = Off22::low(0x3f_fffe);
    let flows = [
        (Op::Branch { offset: back }, FlowKind::Branch { offset: -2 }),
        (Op::Call { target }, FlowKind::Call { target: 500 }),
        (
            Op::BranchFill { target },
            FlowKind::BranchFill { target: 500 },
        ),
        (Op::Return, FlowKind::Return { base: 0, offset: 0 }),
    ];
    for (op, kind) in flows {
        expect_same(&rt, run(&mut regs, op), Effect::Flow { kind });
    }
    // under !p0 nothing is asked for
    for op in [Op::Call { target }, Op::Return, load()] {
        let bundle = Bundle::single(when(8, op));
        expect_same(&rt, exec(&mut regs, &bundle, ST, SS), Effect::Nothing);
    }
}

#[test]
fn bytes_and_halves_are_picked_and_merged(rt: HostRuntime) {
    let bytes = [
        (0, 0x11, 0x11, 0xff22_3344),
        (1, 0xffff_ffff, 0xff, 0x11ff_3344),
        (2, 0x33, 0x33, 0x1122_ff44),
        (3, 0x44, 0x44, 0x1122_33ff),
    ];
    for (address, signed, unsigned, put) in bytes {
        let word = 0x11ff_3344;
        let picked = pick(Width::Byte, address, word);
        expect_same(&rt, (address, picked), (address, signed));
        let picked = pick(Width::ByteUnsigned, address, word);
        expect_same(&rt, (address, picked), (address, unsigned));
        let merged = merge(StoreWidth::Byte, address, 0x1122_3344, 0xabcd_efff);
        expect_same(&rt, (address, merged), (address, put));
    }
    let picks = [
        (Width::HalfUnsigned, 0, 0x11ff_3344, 4607),
        (Width::Half, 2, 0x11ff_3344, 13_124),
        (Width::HalfUnsigned, 6, 0x11ff_8344, 0x8344),
        (Width::Half, 6, 0x11ff_8344, 0xffff_8344),
        (Width::Word, 8, 0x11ff_3344, 0x11ff_3344),
    ];
    for (width, address, word, value) in picks {
        let picked = pick(width, address, word);
        expect_same(&rt, (width, address, picked), (width, address, value));
    }
    let merges = [
        (StoreWidth::Half, 0, 0xabcd_efff, 0xefff_3344),
        (StoreWidth::Half, 6, 0xabcd_efff, 0x1122_efff),
        (StoreWidth::Word, 4, 5, 5),
    ];
    for (width, address, value, put) in merges {
        let merged = merge(width, address, 0x1122_3344, value);
        expect_same(&rt, (width, address, merged), (width, address, put));
    }
}
