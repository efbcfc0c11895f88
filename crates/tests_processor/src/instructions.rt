use crate::expect::expect_same;
use patmos_instr::{
    Addr22, AluFunc, Bundle, CmpFunc, Guard, Imm5, Imm7, Imm12, ImmFunc, Instr, Mem, Off22, Op,
    Pred, PredFunc, Reg, SlotFault, Special, StackFunc, StoreWidth, Width, WritableSpecial,
};

#[test]
fn fields_keep_their_ranges(rt: HostRuntime) {
    // the greatest number that each field holds, and the one after it
    let reg = (Reg::new(31), Reg::low(31).number(), Reg::new(32));
    expect_same(&rt, reg, (Some(Reg::low(31)), 31, None));
    let pred = (Pred::new(7), Pred::low(7).number(), Pred::new(8));
    expect_same(&rt, pred, (Some(Pred::low(7)), 7, None));
    let imm5 = (Imm5::new(31), Imm5::low(31).number(), Imm5::new(32));
    expect_same(&rt, imm5, (Some(Imm5::low(31)), 31, None));
    let imm7 = (Imm7::new(127), Imm7::low(127).number(), Imm7::new(128));
    expect_same(&rt, imm7, (Some(Imm7::low(127)), 127, None));
    let imm12 = (
        Imm12::new(4095),
        Imm12::low(4095).number(),
        Imm12::new(4096),
    );
    expect_same(&rt, imm12, (Some(Imm12::low(4095)), 4095, None));
    let most = Addr22::low(0x3f_ffff);
    let addr22 = (
        Addr22::new(0x3f_ffff),
        most.number(),
        Addr22::new(0x40_0000),
    );
    expect_same(&rt, addr22, (Some(most), 0x3f_ffff, None));
    let signed = [
        (0, 0),
        (5, 5),
        (-1, 0x3f_ffff),
        (-0x20_0000, 0x20_0000),
        (0x1f_ffff, 0x1f_ffff),
    ];
    for (number, bits) in signed {
        let told = Off22::low(0x1540_0000 + bits);
        expect_same(&rt, (told.number(), told.bits()), (number, bits));
        expect_same(&rt, (number, Off22::new(number)), (number, Some(told)));
    }
    expect_same(&rt, Off22::new(0x20_0000), None);
    expect_same(&rt, Off22::new(-0x20_0001), None);
    let guard = Guard::low(0x1a);
    expect_same(&rt, guard.negated, true);
    expect_same(&rt, guard.pred.number(), 2);
    expect_same(&rt, guard.number(), 10);
}

#[test]
fn lists_have_their_numbers(rt: HostRuntime) {
    expect_same(
        &rt,
        (ImmFunc::And.number(), ImmFunc::of_number(8)),
        (7, None),
    );
    expect_same(
        &rt,
        (AluFunc::Shadd2.number(), AluFunc::of_number(8)),
        (10, Some(AluFunc::Nor)),
    );
    expect_same(
        &rt,
        (CmpFunc::Btest.number(), CmpFunc::of_number(4)),
        (6, Some(CmpFunc::Ult)),
    );
    expect_same(
        &rt,
        (PredFunc::Pxor.number(), PredFunc::of_number(3)),
        (2, None),
    );
    expect_same(
        &rt,
        (StackFunc::Sfree.number(), StackFunc::of_number(1)),
        (2, Some(StackFunc::Sens)),
    );
    expect_same(
        &rt,
        (Special::Ss.number(), Special::of_number(5)),
        (6, Some(Special::St)),
    );
    expect_same(
        &rt,
        (WritableSpecial::Sro.number(), WritableSpecial::of_number(5)),
        (4, None),
    );
    expect_same(&rt, (Mem::M.number(), Mem::of_number(1)), (3, Some(Mem::L)));
    expect_same(&rt, (Mem::low(0x86), Mem::low(0x87)), (Mem::C, Mem::M));
    expect_same(
        &rt,
        (Width::ByteUnsigned.number(), Width::of_number(3)),
        (4, Some(Width::HalfUnsigned)),
    );
    expect_same(
        &rt,
        (StoreWidth::Byte.number(), StoreWidth::of_number(3)),
        (2, None),
    );
}

fn always(op: Op) -> Instr {
    Instr {
        guard: Guard::low(0),
        op,
    }
}

fn long() -> Instr {
    always(Op::AluLong {
        func: AluFunc::Add,
        rd: Reg::low(3),
        ra: Reg::low(3),
        constant: u32::MAX,
    })
}

fn compare() -> Instr {
    always(Op::CmpImm {
        func: CmpFunc::Eq,
        pd: Pred::low(1),
        ra: Reg::low(3),
        imm: Imm5::low(4),
    })
}

fn load() -> Instr {
    always(Op::Load {
        space: Mem::C,
        width: Width::Word,
        rd: Reg::low(3),
        ra: Reg::low(3),
        imm: Imm7::low(0),
    })
}

/// What stands in the slots of a bundle of these two, if they go together.
fn slots_of(first: Instr, second: Instr) -> Result<(Instr, Option<Instr>), SlotFault> {
    let pair = Bundle::pair(first, second)?;
    Ok((pair.first(), pair.second()))
}

#[test]
fn pairs_go_together(rt: HostRuntime) {
    let cases = [
        (load(), compare(), None),
        (always(Op::Return), Instr::nop(), None),
        (Instr::nop(), load(), Some(SlotFault::SecondKind)),
        (Instr::nop(), long(), Some(SlotFault::SecondKind)),
        (
            Instr::nop(),
            always(Op::Return),
            Some(SlotFault::SecondKind),
        ),
        (long(), compare(), Some(SlotFault::FirstLong)),
        (long(), load(), Some(SlotFault::FirstLong)),
    ];
    for (first, second, fault) in cases {
        expect_same(&rt, slots_of(first, second).err(), fault);
    }
    let together = (load(), Some(compare()));
    expect_same(&rt, slots_of(load(), compare()), Ok(together));
    let single = Bundle::single(long());
    expect_same(&rt, (single.first(), single.second()), (long(), None));
}
