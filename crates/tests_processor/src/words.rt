use crate::expect::expect_same;
use patmos_code::{Coded, Image, codes_differ, decode, decoding_is_exact, encode, worked_words};
use patmos_instr::{
    Addr22, AluFunc, Bundle, CmpFunc, Guard, Imm5, Imm7, Imm12, ImmFunc, Instr, Mem, Off22, Op,
    Pred, PredFunc, Reg, Special, StackFunc, StoreWidth, Width, WritableSpecial,
};
use std::alloc::{AllocError, Global};
use std::test::Fail;
use tc_word::List;

fn alone(guard: u32, op: Op) -> Bundle {
    Bundle::single(Instr {
        guard: Guard::low(guard),
        op,
    })
}

fn reg(number: u32) -> Reg {
    Reg::low(number)
}

fn load(space: Mem, width: Width, rd: u32, ra: u32, imm: u32) -> Op {
    Op::Load {
        space,
        width,
        rd: reg(rd),
        ra: reg(ra),
        imm: Imm7::low(imm),
    }
}

fn store(space: Mem, width: StoreWidth, ra: u32, imm: u32, rs: u32) -> Op {
    Op::Store {
        space,
        width,
        ra: reg(ra),
        rs: reg(rs),
        imm: Imm7::low(imm),
    }
}

fn one_word(first: u32) -> Coded {
    Coded {
        first,
        second: 0,
        two: false,
    }
}

fn two_words(first: u32, second: u32) -> Coded {
    Coded {
        first,
        second,
        two: true,
    }
}

// the words of operations, worked out by hand from the table of the word's fields
#[test]
fn operations_have_their_words(rt: HostRuntime) {
    let cases = [
        (
            0,
            Op::AluImm {
                func: ImmFunc::Add,
                rd: reg(0),
                ra: reg(0),
                imm: Imm12::low(0),
            },
            0,
        ),
        (
            0,
            Op::AluImm {
                func: ImmFunc::Add,
                rd: reg(3),
                ra: reg(0),
                imm: Imm12::low(5),
            },
            0x0006_0005,
        ),
        (
            11,
            Op::AluImm {
                func: ImmFunc::And,
                rd: reg(31),
                ra: reg(30),
                imm: Imm12::low(4095),
            },
            0x59ff_efff,
        ),
        (
            10,
            Op::AluReg {
                func: AluFunc::Add,
                rd: reg(3),
                ra: reg(4),
                rb: reg(5),
            },
            0x5206_4280,
        ),
        (
            0,
            Op::AluReg {
                func: AluFunc::Shadd2,
                rd: reg(1),
                ra: reg(2),
                rb: reg(31),
            },
            0x0202_2f8a,
        ),
        (
            0,
            Op::Mul {
                unsigned: true,
                ra: reg(6),
                rb: reg(7),
            },
            0x0240_6381,
        ),
        (
            1,
            Op::Cmp {
                func: CmpFunc::Ult,
                pd: Pred::low(7),
                ra: reg(8),
                rb: reg(9),
            },
            0x0a8e_8484,
        ),
        (
            0,
            Op::CmpImm {
                func: CmpFunc::Btest,
                pd: Pred::low(1),
                ra: reg(10),
                imm: Imm5::low(31),
            },
            0x02c2_af86,
        ),
        (
            0,
            Op::Comb {
                func: PredFunc::Pxor,
                pd: Pred::low(2),
                a: Guard::low(11),
                b: Guard::low(4),
            },
            0x0305_6802,
        ),
        (
            0,
            Op::ToSpecial {
                special: WritableSpecial::Sro,
                ra: reg(5),
            },
            0x0340_5004,
        ),
        (
            0,
            Op::FromSpecial {
                rd: reg(5),
                special: Special::Ss,
            },
            0x038a_0006,
        ),
        (
            0,
            Op::Stack {
                func: StackFunc::Sfree,
                count: Imm12::low(100),
            },
            0x03c8_0064,
        ),
        (0, load(Mem::M, Width::HalfUnsigned, 1, 2, 0), 0x0402_2780),
        (0, load(Mem::S, Width::ByteUnsigned, 9, 8, 127), 0x0412_887f),
        (0, store(Mem::M, StoreWidth::Byte, 2, 1, 4), 0x0456_2201),
        (0, store(Mem::M, StoreWidth::Word, 2, 0, 3), 0x0446_2180),
        (
            1,
            Op::Branch {
                offset: Off22::low(0x3f_fffe),
            },
            0x0cbf_fffe,
        ),
        (
            0,
            Op::Call {
                target: Addr22::low(0x2a_bcde),
            },
            0x04ea_bcde,
        ),
        (
            15,
            Op::BranchFill {
                target: Addr22::low(1),
            },
            0x7d00_0001,
        ),
        (0, Op::Return, 0x0540_0000),
    ];
    for (guard, op, word) in cases {
        let bundle = alone(guard, op);
        expect_same(&rt, (word, encode(&bundle)), (word, one_word(word)));
        expect_same(&rt, (word, decode(word, 0xffff_ffff)), (word, Some(bundle)));
    }
}

#[test]
fn two_words_have_a_mark(rt: HostRuntime) -> Result<(), Fail> {
    let long = alone(
        0,
        Op::AluLong {
            func: AluFunc::Add,
            rd: reg(2),
            ra: reg(0),
            constant: 0x0100_0000,
        },
    );
    expect_same(&rt, encode(&long), two_words(0x8584_0000, 0x0100_0000));
    expect_same(&rt, decode(0x8584_0000, 0x0100_0000), Some(long));
    let first = Instr {
        guard: Guard::low(0),
        op: load(Mem::C, Width::Word, 1, 2, 3),
    };
    let second = Instr {
        guard: Guard::low(0),
        op: Op::AluImm {
            func: ImmFunc::Sub,
            rd: reg(4),
            ra: reg(4),
            imm: Imm12::low(1),
        },
    };
    let pair = Bundle::pair(first, second)?;
    expect_same(&rt, encode(&pair), two_words(0x8402_2103, 0x0048_4001));
    expect_same(&rt, decode(0x8402_2103, 0x0048_4001), Some(pair));
    Ok(())
}

#[test]
fn other_words_have_no_bundle(rt: HostRuntime) {
    let cases = [
        (0x0540_0001, 0, "a bit of ret that has no name"),
        (0x05c0_0000, 0, "opcode 23"),
        (0x0584_0000, 0, "a long immediate without the mark"),
        (0x0200_000b, 0, "function 11"),
        (0x0340_5005, 0, "mts st"),
        (0x0400_0a00, 0, "a load of kind 20"),
        (0x0458_0000, 0, "a store of kind 12"),
        (0x8000_0000, 0x0402_2103, "a load in the second slot"),
        (0x8000_0000, 0x8000_0000, "the mark in the second word"),
        (
            0x8000_0000,
            0x0584_0000,
            "a long immediate in the second slot",
        ),
    ];
    for (first, second, what) in cases {
        expect_same(&rt, (what, decode(first, second)), (what, None));
    }
}

/// Functions of two words and of one, a data word, and an input of ten words from word 4 on.
fn image_of_two(alloc: Global) -> Result<Image, AllocError> {
    let words = List::of(vec![in alloc; 2, 0, 0, 1, 0x0540_0000]?);
    let starts = List::of(vec![in alloc; 1, 4]?);
    let initial = List::of(vec![in alloc; 7]?);
    Ok(Image::of(words, starts, initial, 4, 10))
}

#[test]
fn images_give_their_parts(rt: HostRuntime) -> Result<(), Fail> {
    let image = image_of_two(rt.alloc())?;
    expect_same(&rt, image.words(), &[2, 0, 0, 1, 0x0540_0000]);
    expect_same(&rt, image.starts(), &[1, 4]);
    expect_same(&rt, image.initial(), &[7]);
    expect_same(&rt, (image.input_at(), image.input_room()), (4, 10));
    let sizes = (image.function_size(1), image.function_size(4));
    expect_same(&rt, sizes, (Some(2), Some(1)));
    let others = (image.function_size(0), image.function_size(2));
    expect_same(&rt, others, (None, None));
    codes_differ();
    decoding_is_exact();
    worked_words();
    Ok(())
}
