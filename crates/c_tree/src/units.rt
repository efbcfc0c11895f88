use crate::statements::{Kind, Stmt};
use tc_word::{List, Text};

/// A constant with its sign, and whether its number is unsigned.
#[derive(Clone, Copy, Debug, PartialEq, Eq)]
pub struct Const {
    pub negative: bool,
    pub value: u32,
    pub unsigned: bool,
}

/// The number that stands for the length of an array, in words.
#[derive(Clone, Copy, Debug, PartialEq, Eq)]
pub struct Length {
    pub value: u32,
    pub unsigned: bool,
}

/// A variable or an array outside functions. One without a length is a single number; `scratch` says that it stands
/// in the scratchpad.
#[derive(Debug, Drop)]
pub struct Global {
    pub scratch: bool,
    pub kind: Kind,
    pub name: Text,
    pub length: Option<Length>,
    pub initial: List<Const>,
}

/// A parameter of a function.
#[derive(Debug, Drop)]
pub struct Parameter {
    pub kind: Kind,
    pub name: Text,
}

/// A function. One without a kind gives nothing; `void_word` says that its empty list of parameters is written
/// `void`.
#[derive(Debug, Drop)]
pub struct Function {
    pub kind: Option<Kind>,
    pub name: Text,
    pub void_word: bool,
    pub parameters: List<Parameter>,
    pub body: List<Stmt>,
}

/// A declaration outside functions.
#[derive(Debug, Drop)]
pub enum Item {
    Global { global: Global },
    Function { function: Function },
}

/// A whole program.
#[derive(Debug, Drop)]
pub struct Unit {
    pub items: List<Item>,
}
