use crate::expect::expect_same;
use patmos_asm::{AsmError, AsmFault, AsmKind, Code, assemble, image_of, print};
use std::alloc::{AllocError, Global};
use std::fmt::Write;
use std::test::Fail;

/// The fault and the line that a text is refused with.
fn refusal(alloc: Global, text: &str) -> Option<(AsmKind, u32)> {
    if text.len() > 1_000_000 {
        return None;
    }
    match assemble(alloc, text) {
        Err(AsmError::Fault(AsmFault { fault, line })) => Some((fault, line)),
        _ => None,
    }
}

/// The code of a valid text that is not very long.
fn assembled(alloc: Global, text: &str) -> Option<Code> {
    if text.len() > 1_000_000 {
        return None;
    }
    assemble(alloc, text).ok()
}

/// The printed code of a text.
fn printed(alloc: Global, text: &str) -> Option<Vec<u8>> {
    let code = assembled(alloc, text)?;
    print(alloc, &code).ok()
}

/// A code, printed and assembled again.
fn again(alloc: Global, code: &Code) -> Option<Code> {
    let bytes = print(alloc, code).ok()?;
    let text = str::from_utf8(bytes.as_slice()).ok()?;
    assembled(alloc, text)
}

/// Whether two codes have the same words and starts, and are printed with the same names.
fn are_alike(alloc: Global, one: &Code, other: &Code) -> Option<bool> {
    let first = print(alloc, one).ok()?;
    let second = print(alloc, other).ok()?;
    let parts = (one.words(), one.starts(), first.as_slice());
    Some(parts == (other.words(), other.starts(), second.as_slice()))
}

/// Whether the code of a text, printed and assembled again, is the same.
fn comes_back(alloc: Global, text: &str) -> Option<bool> {
    let code = assembled(alloc, text)?;
    are_alike(alloc, &code, &again(alloc, &code)?)
}

#[test]
fn codes_are_printed(rt: HostRuntime) {
    let cases = [
        (
            ".func f; top:x: nop; {(!p2) br top;addi r1=r0,0x1f}; call g; br end; end: .func g; ret",
            ".func f\nL0:\n  nop\n  { (!p2) br L0 ; addi r1 = r0, 31 }\n  call g\n  br L5\nL5:\n.func g\n  ret\n",
        ),
        (
            ".func f; pand p1 = !p2, p3; mts sl = r4; mfs r5 = ss; lhum r1 = [r2]; sbm [r2 + 1] = r4; sens 9",
            ".func f\n  pand p1 = !p2, p3\n  mts sl = r4\n  mfs r5 = ss\n  lhum r1 = [r2 + 0]\n  sbm [r2 + 1] = r4\n  sens 9\n",
        ),
    ];
    for (text, want) in cases {
        let told = printed(rt.alloc(), text).expect(&rt, text);
        expect_same(&rt, told.as_slice(), want.as_bytes());
    }
}

#[test]
fn printed_codes_come_back(rt: HostRuntime) {
    let texts = [
        ".func main; addl r2 = r0, 0x01000000; addl r3 = r0, 10000; top: subi r3 = r3, 1; cmpineq p1 = r3, 0; (p1) br top; nop; nop; lwm r1 = [r2 + 0]; ret; nop; nop; nop",
        ".func a; mul r1, r2; (p1) mulu r3, r4; { cmpult p3 = r1, r2 ; btesti p4 = r2, 7 }; brcf b; .func b; sres 4; swc [r1] = r2; (!p7) ret; br x; x:",
    ];
    for text in texts {
        expect_same(
            &rt,
            (text, comes_back(rt.alloc(), text)),
            (text, Some(true)),
        );
    }
}

/// A text of so many functions, each of so many bundles of one word.
fn long_text(alloc: Global, functions: u32, bundles: u32) -> Result<String, AllocError> {
    let mut text = String::new(alloc);
    for number in 0..functions {
        write!(text, ".func f{number}\n")?;
        for _ in 0..bundles {
            text.push_str("nop\n")?;
        }
    }
    Ok(text)
}

// eight functions of 4,095 words with their size words fill the image
#[test]
fn limits_of_functions_and_images(rt: HostRuntime) -> Result<(), Fail> {
    for (functions, bundles, fault) in [
        (1, 4096, None),
        (1, 4097, Some((AsmKind::TooLarge, 4098))),
        (8, 4095, None),
        (9, 4095, Some((AsmKind::TooLarge, 32769))),
    ] {
        let text = long_text(rt.alloc(), functions, bundles)?;
        let refused = refusal(rt.alloc(), text.as_str());
        expect_same(
            &rt,
            (functions, bundles, refused),
            (functions, bundles, fault),
        );
    }
    Ok(())
}

#[test]
fn images_of_codes(rt: HostRuntime) -> Result<(), Fail> {
    let code = assemble(rt.alloc(), ".func f; ret; .func g; ret")?;
    expect_same(&rt, code.names().len(), 2);
    let image = image_of(code);
    expect_same(&rt, image.starts(), &[1, 3]);
    expect_same(&rt, image.input_room(), 4096);
    Ok(())
}
