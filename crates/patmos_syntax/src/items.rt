ghost use Rattle.std.specs.Prelude.{◌≡◌, ◌+◌, ◌^◌, ◌<◌, ◌≤◌, ◌++◌, ◌∷◌, [], length, IsTrue, IfSome, IfOk, OnOk};
ghost use Rattle.patmos_forms.specs.Readers.{is_name};
ghost use Rattle.std.specs.Option.{option_map};
ghost use Rattle.patmos_syntax.specs.Shown.{shown_item, shown_items};
ghost use Rattle.patmos_syntax.specs.Items.{line_of};
ghost use Rattle.patmos_syntax.specs.Items as specs;
ghost use Rattle.patmos_syntax.specs.Drafts as drafts;

use crate::draft_types::DraftBundle;
use crate::drafts::{bundle_of, name_in};
use crate::statements::{Unread, next_statement};
use patmos_forms::{AsmKind, Refused, at_end, is_name, sign_at, word_at};
use std::alloc::{AllocError, Global};
use tc_word::Text;

/// A statement of a text, with its line.
#[derive(Drop)]
pub enum Item {
    /// A function begins.
    Function { line: u32, name: Text },
    /// A label is set.
    Label { line: u32, name: Vec<u8> },
    Bundle { line: u32, bundle: DraftBundle },
    /// The statement is faulty by itself.
    Faulty { line: u32, fault: AsmKind },
}

impl Item {
    /// Its line, from 1.
    pub fn line(&self) -> u32
        ensures { result ≡ line_of (shown_item self.now) }
    {
        match self {
            Item::Function { line, .. }
            | Item::Label { line, .. }
            | Item::Bundle { line, .. }
            | Item::Faulty { line, .. } => *line,
        }
    }
}

// a label at the front, and what stands after its colon
#[tactic(auto, using(crate::proofs::Labels::after_shorter))]
fn label_at(text: &[u8]) -> Option<(&[u8], &[u8])>
    ensures value { option_map (λ x. (x.0.now, x.1.now)) result ≡ specs.label_at text.now }
    ensures shorter { IfSome result (λ x. length x.1.now < length text.now) }
{
    let (word, rest) = word_at(text);
    if !is_name(word) {
        return None;
    }
    let behind = sign_at(rest, b':')?;
    Some((word, behind))
}

// the text of a name
#[tactic(auto, using(patmos_forms::proofs::Ascii::name_is_text))]
fn text_of(alloc: Global, name: &[u8]) -> Result<Text, AllocError>
    requires { IsTrue (is_name name.now) }
    ensures { IfOk result (λ text. text ≡ name.now) }
{
    match str::from_utf8(name) {
        Ok(text) => Ok(Text::of(String::from_str(alloc, text)?)),
        Err(_) => unreachable!(),
    }
}

// a function that begins
fn function_item(alloc: Global, line: u32, rest: &[u8]) -> Result<Item, AllocError>
    ensures { IfOk result (λ item. shown_item item ≡ specs.function_item line (drafts.name_in rest.now)) }
{
    match name_in(rest) {
        Some(name) => Ok(Item::Function {
            line,
            name: text_of(alloc, name)?,
        }),
        None => Ok(Item::Faulty {
            line,
            fault: AsmKind::Operand,
        }),
    }
}

// a bundle
fn bundle_item(alloc: Global, line: u32, text: &[u8]) -> Result<Item, AllocError>
    ensures { IfOk result (λ item. shown_item item ≡ specs.bundle_item line (drafts.bundle_of text.now)) }
{
    match bundle_of(alloc, text) {
        Ok(bundle) => Ok(Item::Bundle { line, bundle }),
        Err(Refused::Fault(fault)) => Ok(Item::Faulty { line, fault }),
        Err(Refused::Memory) => Err(AllocError),
    }
}

// a statement that is no label: a function that begins, or a bundle
#[tactic(auto, unfolding(crate::specs::Items::statement_of))]
fn statement_of(alloc: Global, line: u32, text: &[u8]) -> Result<Item, AllocError>
    ensures { IfOk result (λ item. shown_item item ≡ specs.statement_of line text.now) }
{
    let (word, rest) = word_at(text);
    if word == b".func".as_slice() {
        function_item(alloc, line, rest)
    } else {
        bundle_item(alloc, line, text)
    }
}

// adds the statements of a text of one line
#[tactic(auto, using(crate::proofs::Labels::label_first, crate::proofs::Labels::no_label))]
fn push_items(
    alloc: Global,
    items: &mut Vec<Item>,
    line: u32,
    text: &[u8],
) -> Result<(), AllocError>
    ensures { OnOk result (shown_items items.new.items
        ≡ shown_items items.old.items ++ specs.items_in line (length text.now) text.now) }
{
    let mut rest = text;
    'labels: while let Some((name, behind)) = label_at(rest) {
        let name = Vec::from_slice(alloc, name)?;
        items.push(Item::Label { line, name })?;
        rest = behind;
    }
    if !at_end(rest) {
        items.push(statement_of(alloc, line, rest)?)?;
    }
    Ok(())
}

/// The statements of a text.
#[tactic(auto, unfolding(crate::specs::Items::items_of))]
pub fn items_of(alloc: Global, text: &[u8]) -> Result<Vec<Item>, AllocError>
    requires { length text.now < 2 ^ 32 }
    ensures { IfOk result (λ items. shown_items items.items ≡ specs.items_of text.now) }
{
    let mut items = Vec::new(alloc);
    let mut unread = Unread { line: 1, text };
    'statements: while let Some((statement, rest)) = next_statement(unread) {
        push_items(alloc, &mut items, statement.line as u32, statement.text)?;
        unread = rest;
    }
    Ok(items)
}
