//! Words of 32 bits, and the small types that every crate above shares.
//!
//! A word is a number from 0 to 2^32 - 1. The operations here are those of a word that more than one
//! crate needs: quotients and products that read a word as signed or unsigned, shifts by a word, and
//! the signed order. Each is proved equal to a number that `specs/Word.antt` defines over plain
//! numbers. `List` and `Text` are a `Vec` and a `String` that contracts see as a list and as bytes.
//!
//! What its words mean stands in [the glossary](../../../docs/GLOSSARY.md).
#![tactic(auto)]

mod lists;
mod text;
mod word;

pub use lists::List;
pub use text::Text;
pub use word::{
    divide, divide_unsigned, less, mul_pair, mul_pair_unsigned, remainder, remainder_unsigned,
    shift_left, shift_right, shift_right_arith,
};

/// Want of memory: the one free answer of a call that takes some.
pub type OutOfMemory = std::alloc::AllocError;

#[cfg(test)]
mod tests {
    use super::*;
    use std::test::Fail;

    /// A tree that reaches itself through a list, as the syntax trees above do.
    #[cycle(tree)]
    #[derive(Drop)]
    enum Tree {
        Leaf { value: u32 },
        Node { branches: List<Branch> },
    }

    #[cycle(tree)]
    #[derive(Drop)]
    struct Branch {
        negated: bool,
        tree: Tree,
    }

    #[cycle(walk)]
    fn sum(tree: &Tree) -> u32 {
        match tree {
            Tree::Leaf { value } => *value,
            Tree::Node { branches } => sum_of(branches.as_slice()),
        }
    }

    #[cycle(walk)]
    fn sum_of(branches: &[Branch]) -> u32 {
        let mut total: u32 = 0;
        for branch in branches {
            let part = sum(&branch.tree);
            total = if branch.negated {
                total.wrapping_sub(part)
            } else {
                total.wrapping_add(part)
            };
        }
        total
    }

    #[test]
    fn lists_and_texts_give_back_what_they_took(rt: HostRuntime) -> Result<(), Fail> {
        let words = List::of(vec![in rt.alloc(); 4, 5]?);
        assert_eq!(rt; words.as_slice(), [4, 5].as_slice());
        assert_eq!(rt; words.into_vec().as_slice(), [4, 5].as_slice());
        let text = Text::of(String::from_str(rt.alloc(), "core")?);
        assert_eq!(rt; text.as_str(), "core");
        assert_eq!(rt; text.into_string().as_str(), "core");
        Ok(())
    }

    #[test]
    fn trees_hold_lists_of_themselves(rt: HostRuntime) -> Result<(), Fail> {
        let nine = Branch {
            negated: false,
            tree: Tree::Leaf { value: 9 },
        };
        let two = Branch {
            negated: true,
            tree: Tree::Leaf { value: 2 },
        };
        let tree = Tree::Node {
            branches: List::of(vec![in rt.alloc(); nine, two]?),
        };
        assert_eq!(rt; sum(&tree), 7);
        Ok(())
    }

    #[test]
    fn words_are_their_numbers(rt: HostRuntime) {
        let least = 0x8000_0000;
        let minus_one = 0xffff_ffff;
        assert_eq!(rt;
            (divide(least, minus_one), remainder(least, minus_one)),
            (least, 0)
        );
        assert_eq!(rt; (divide(5, 0), remainder(5, 0)), (0, 5));
        assert_eq!(rt;
            (
                divide_unsigned(minus_one, 2),
                remainder_unsigned(minus_one, 2)
            ),
            (0x7fff_ffff, 1)
        );
        assert_eq!(rt; mul_pair(minus_one, 2), (0xffff_fffe, minus_one));
        assert_eq!(rt; mul_pair_unsigned(minus_one, 2), (0xffff_fffe, 1));
        assert_eq!(rt; (shift_left(1, 33), shift_right(least, 31)), (2, 1));
        assert_eq!(rt; shift_right_arith(least, 31), minus_one);
        assert!(rt; less(least, 0) && !less(0, least));
    }
}
