use crate::expect::expect_same;
use c_lex::{LexFault, every_text, lex, worked_texts};
use c_parse::{ParseFault, parse};
use c_tree::{Token, Unit};
use std::alloc::Global;
use std::test::Fail;
use tc_word::List;

/// The tokens of a text that is not very long.
fn tokens_of(alloc: Global, text: &str) -> Result<List<Token>, LexFault> {
    if text.len() > 1_000_000 {
        return Err(LexFault::Memory);
    }
    lex(alloc, text)
}

/// The tokens of a text, as they are shown.
fn shown(alloc: Global, text: &str) -> Result<String, Fail> {
    let tokens = tokens_of(alloc, text)?;
    Ok(format!(in alloc; "{:?}", tokens.as_slice())?)
}

#[test]
fn reads_tokens(rt: HostRuntime) -> Result<(), Fail> {
    worked_texts();
    every_text();
    let cases = [
        (
            "/* a loop */\n\t#pragma loopbound  min 0\tmax 10 \r\nwhile (i <= 0x1Fu) sizeof // to here",
            "[Bound { min: 0, max: 10 }, Keyword { word: While }, Sign { sign: OpenParenthesis }, \
            Word { text: Text { text: \"i\" } }, Sign { sign: LessEqual }, Number { value: 31, unsigned: true }, \
            Sign { sign: CloseParenthesis }, Keyword { word: Other }]",
        ),
        (
            "_Pragma(\"loopbound min 1 max 2\")-1>>~_x9",
            "[Bound { min: 1, max: 2 }, Sign { sign: Minus }, Number { value: 1, unsigned: false }, \
            Sign { sign: ShiftRight }, Sign { sign: Tilde }, Word { text: Text { text: \"_x9\" } }]",
        ),
        (" // nothing\n/**/", "[]"),
    ];
    for (text, want) in cases {
        let told = shown(rt.alloc(), text)?;
        expect_same(&rt, told.as_str(), want);
    }
    Ok(())
}

/// The tree of a text that is not very long, or the place of its syntax.
pub fn parsed(alloc: Global, text: &str) -> Result<Unit, ParseFault> {
    let tokens = match tokens_of(alloc, text) {
        Ok(tokens) if tokens.as_slice().len() < 1_000_000 => tokens,
        _ => return Err(ParseFault::Memory),
    };
    parse(alloc, &tokens)
}

#[test]
fn reads_programs(rt: HostRuntime) {
    let texts = [
        "",
        "int main(void) { return 4; }",
        "int main() { if (1) { } else if (2) { } else { } if (0) { } return 3; }",
        "int main() { return -~!+0; }",
        "unsigned int a[3] = {1, -2, 3}; _SPM int x; void f(int b, unsigned c) { }",
        "int main() { _Pragma(\"loopbound min 1 max 2\") for (i = 0; i < 3; i = i + 1) { x[i] = f(1, i); } }",
        "int main() { int s = f(); unsigned t; g(s, 1 + 2 * 3 << 4); break; continue; }",
        "int main() { send(1, 2, 3, 4); { } while (x == 1 || y & 2) { return; } }",
        "int x = -5;",
    ];
    for text in texts {
        let fault = parsed(rt.alloc(), text).err();
        expect_same(&rt, (text, fault), (text, None));
    }
}

/// `int main() { return ((.. 1 ..)); }` with so many parentheses.
fn nested(alloc: Global, depth: usize) -> Result<String, Fail> {
    let mut text = String::from_str(alloc, "int main() { return ")?;
    for _ in 0..depth {
        text.push_str("(")?;
    }
    text.push_str("1")?;
    for _ in 0..depth {
        text.push_str(")")?;
    }
    text.push_str("; }")?;
    Ok(text)
}

#[test]
fn at_most_64_brackets_are_open(rt: HostRuntime) -> Result<(), Fail> {
    for (depth, fault) in [(63, None), (64, Some(ParseFault::Syntax { at: 69 }))] {
        let text = nested(rt.alloc(), depth)?;
        let refused = parsed(rt.alloc(), text.as_str()).err();
        expect_same(&rt, (depth, refused), (depth, fault));
    }
    Ok(())
}
