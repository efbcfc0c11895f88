ghost use Rattle.std.specs.Prelude.{◌≡◌, ◌^◌, ◌≤◌, [], ◌∷◌, take, position, bytes_eq, if◌then◌else◌, IfSome};
ghost use Rattle.std.specs.Option.{option_map};
ghost use Rattle.patmos_forms.specs.Operands.{number_at, numbered_at, negation_at, offset_at, special_names, register, predicate, negation, number, offset, special, writable, sign, read};
ghost use Rattle.patmos_forms.specs.Forms as specs;

use crate::numerals::{Numeral, numbered, written_number};
use crate::readers::{at_end, sign_at, word_at};

// a number and what stands after it
fn number_at(text: &[u8]) -> Option<(Numeral<'_>, &[u8])>
    ensures { option_map (λ x. (x.0, x.1.now)) result ≡ number_at text.now }
{
    let (word, rest) = word_at(text);
    Some((written_number(word)?, rest))
}

// the number after a letter, and what stands after it
fn numbered_at(letter: u8, text: &[u8]) -> Option<(Numeral<'_>, &[u8])>
    ensures { option_map (λ x. (x.0, x.1.now)) result ≡ numbered_at letter text.now }
{
    let (word, rest) = word_at(text);
    Some((numbered(letter, word)?, rest))
}

fn register_at(text: &[u8]) -> Option<(Numeral<'_>, &[u8])>
    ensures { option_map (λ x. (x.0, x.1.now)) result ≡ numbered_at 114 text.now }
{
    numbered_at(b'r', text)
}

fn predicate_at(text: &[u8]) -> Option<(Numeral<'_>, &[u8])>
    ensures { option_map (λ x. (x.0, x.1.now)) result ≡ numbered_at 112 text.now }
{
    numbered_at(b'p', text)
}

// whether a `!` stands there, and what stands after it
fn negation_at(text: &[u8]) -> (bool, &[u8])
    ensures { ((if result.0 then 1 else 0), result.1.now) ≡ negation_at text.now }
{
    match sign_at(text, b'!') {
        Some(rest) => (true, rest),
        None => (false, text),
    }
}

// a `+` and a number, or 0 where there is no `+`
fn offset_at(text: &[u8]) -> Option<(Numeral<'_>, &[u8])>
    ensures { option_map (λ x. (x.0, x.1.now)) result ≡ offset_at text.now }
{
    match sign_at(text, b'+') {
        Some(rest) => number_at(rest),
        None => Some((Numeral::zero(), text)),
    }
}

/// A guard in front of an instruction: whether it is negated, its predicate, and what stands after it.
/// It is `p0` where none is written, and None where it has not its form.
pub fn guard_at(text: &[u8]) -> Option<(bool, Numeral<'_>, &[u8])>
    ensures { option_map (λ x. ((if x.0 then 1 else 0), x.1, x.2.now)) result ≡ specs.guard_at text.now }
{
    let Some(rest) = sign_at(text, b'(') else {
        return Some((false, Numeral::zero(), text));
    };
    let (negated, rest) = negation_at(rest);
    let (pred, rest) = predicate_at(rest)?;
    let rest = sign_at(rest, b')')?;
    Some((negated, pred, rest))
}

/// `rD = rA, rB`
pub fn three_registers(text: &[u8]) -> Option<(Numeral<'_>, Numeral<'_>, Numeral<'_>)>
    ensures { option_map (λ v. v.0 ∷ v.1 ∷ v.2 ∷ []) result
        ≡ read (register ∷ sign 61 ∷ register ∷ sign 44 ∷ register ∷ []) text.now }
{
    let (d, rest) = register_at(text)?;
    let rest = sign_at(rest, b'=')?;
    let (a, rest) = register_at(rest)?;
    let rest = sign_at(rest, b',')?;
    let (b, rest) = register_at(rest)?;
    if at_end(rest) { Some((d, a, b)) } else { None }
}

/// `rD = rA, number`
pub fn two_registers_number(text: &[u8]) -> Option<(Numeral<'_>, Numeral<'_>, Numeral<'_>)>
    ensures { option_map (λ v. v.0 ∷ v.1 ∷ v.2 ∷ []) result
        ≡ read (register ∷ sign 61 ∷ register ∷ sign 44 ∷ number ∷ []) text.now }
{
    let (d, rest) = register_at(text)?;
    let rest = sign_at(rest, b'=')?;
    let (a, rest) = register_at(rest)?;
    let rest = sign_at(rest, b',')?;
    let (n, rest) = number_at(rest)?;
    if at_end(rest) { Some((d, a, n)) } else { None }
}

/// `rA, rB`
pub fn two_registers(text: &[u8]) -> Option<(Numeral<'_>, Numeral<'_>)>
    ensures { option_map (λ v. v.0 ∷ v.1 ∷ []) result
        ≡ read (register ∷ sign 44 ∷ register ∷ []) text.now }
{
    let (a, rest) = register_at(text)?;
    let rest = sign_at(rest, b',')?;
    let (b, rest) = register_at(rest)?;
    if at_end(rest) { Some((a, b)) } else { None }
}

/// `pD = rA, rB`
pub fn predicate_registers(text: &[u8]) -> Option<(Numeral<'_>, Numeral<'_>, Numeral<'_>)>
    ensures { option_map (λ v. v.0 ∷ v.1 ∷ v.2 ∷ []) result
        ≡ read (predicate ∷ sign 61 ∷ register ∷ sign 44 ∷ register ∷ []) text.now }
{
    let (d, rest) = predicate_at(text)?;
    let rest = sign_at(rest, b'=')?;
    let (a, rest) = register_at(rest)?;
    let rest = sign_at(rest, b',')?;
    let (b, rest) = register_at(rest)?;
    if at_end(rest) { Some((d, a, b)) } else { None }
}

/// `pD = rA, number`
pub fn predicate_register_number(text: &[u8]) -> Option<(Numeral<'_>, Numeral<'_>, Numeral<'_>)>
    ensures { option_map (λ v. v.0 ∷ v.1 ∷ v.2 ∷ []) result
        ≡ read (predicate ∷ sign 61 ∷ register ∷ sign 44 ∷ number ∷ []) text.now }
{
    let (d, rest) = predicate_at(text)?;
    let rest = sign_at(rest, b'=')?;
    let (a, rest) = register_at(rest)?;
    let rest = sign_at(rest, b',')?;
    let (n, rest) = number_at(rest)?;
    if at_end(rest) { Some((d, a, n)) } else { None }
}

/// A predicate, and whether it is negated.
pub type Condition<'a> = (bool, Numeral<'a>);

/// `pD = P, P`
pub fn predicate_conditions(text: &[u8]) -> Option<(Numeral<'_>, Condition<'_>, Condition<'_>)>
    ensures { option_map (λ v. v.0 ∷ (if v.1.0 then 1 else 0) ∷ v.1.1 ∷ (if v.2.0 then 1 else 0) ∷ v.2.1 ∷ []) result
        ≡ read (predicate ∷ sign 61 ∷ negation ∷ predicate ∷ sign 44 ∷ negation ∷ predicate ∷ []) text.now }
{
    let (d, rest) = predicate_at(text)?;
    let rest = sign_at(rest, b'=')?;
    let (not_a, rest) = negation_at(rest);
    let (a, rest) = predicate_at(rest)?;
    let rest = sign_at(rest, b',')?;
    let (not_b, rest) = negation_at(rest);
    let (b, rest) = predicate_at(rest)?;
    if at_end(rest) {
        Some((d, (not_a, a), (not_b, b)))
    } else {
        None
    }
}

// the place of the word among the names of the special registers that can be written
fn writable_place(word: &[u8]) -> Option<usize>
    ensures { result ≡ position (bytes_eq word.now) (take 5 special_names) }
{
    if word == b"s0".as_slice() {
        Some(0)
    } else if word == b"sl".as_slice() {
        Some(1)
    } else if word == b"sh".as_slice() {
        Some(2)
    } else if word == b"srb".as_slice() {
        Some(3)
    } else if word == b"sro".as_slice() {
        Some(4)
    } else {
        None
    }
}

// the place of the word among the names of the special registers
fn special_place(word: &[u8]) -> Option<usize>
    ensures { result ≡ position (bytes_eq word.now) special_names }
{
    if let Some(place) = writable_place(word) {
        Some(place)
    } else if word == b"st".as_slice() {
        Some(5)
    } else if word == b"ss".as_slice() {
        Some(6)
    } else {
        None
    }
}

/// `special = rA`
pub fn writable_register(text: &[u8]) -> Option<(usize, Numeral<'_>)>
    ensures { option_map (λ v. v.0 ∷ v.1 ∷ []) result
        ≡ read (writable ∷ sign 61 ∷ register ∷ []) text.now }
{
    let (word, rest) = word_at(text);
    let special = writable_place(word)?;
    let rest = sign_at(rest, b'=')?;
    let (a, rest) = register_at(rest)?;
    if at_end(rest) {
        Some((special, a))
    } else {
        None
    }
}

/// `rD = special`
pub fn register_special(text: &[u8]) -> Option<(Numeral<'_>, usize)>
    ensures { option_map (λ v. v.0 ∷ v.1 ∷ []) result
        ≡ read (register ∷ sign 61 ∷ special ∷ []) text.now }
{
    let (d, rest) = register_at(text)?;
    let rest = sign_at(rest, b'=')?;
    let (word, rest) = word_at(rest);
    let special = special_place(word)?;
    if at_end(rest) {
        Some((d, special))
    } else {
        None
    }
}

/// A number alone.
pub fn lone_number(text: &[u8]) -> Option<Numeral<'_>>
    ensures { option_map (λ n. n ∷ []) result ≡ read (number ∷ []) text.now }
{
    let (n, rest) = number_at(text)?;
    if at_end(rest) { Some(n) } else { None }
}

/// `rD = [rA + number]`
pub fn register_cell(text: &[u8]) -> Option<(Numeral<'_>, Numeral<'_>, Numeral<'_>)>
    ensures { option_map (λ v. v.0 ∷ v.1 ∷ v.2 ∷ []) result
        ≡ read (register ∷ sign 61 ∷ sign 91 ∷ register ∷ offset ∷ sign 93 ∷ []) text.now }
{
    let (d, rest) = register_at(text)?;
    let rest = sign_at(rest, b'=')?;
    let rest = sign_at(rest, b'[')?;
    let (a, rest) = register_at(rest)?;
    let (n, rest) = offset_at(rest)?;
    let rest = sign_at(rest, b']')?;
    if at_end(rest) { Some((d, a, n)) } else { None }
}

/// `[rA + number] = rS`
pub fn cell_register(text: &[u8]) -> Option<(Numeral<'_>, Numeral<'_>, Numeral<'_>)>
    ensures { option_map (λ v. v.0 ∷ v.1 ∷ v.2 ∷ []) result
        ≡ read (sign 91 ∷ register ∷ offset ∷ sign 93 ∷ sign 61 ∷ register ∷ []) text.now }
{
    let rest = sign_at(text, b'[')?;
    let (a, rest) = register_at(rest)?;
    let (n, rest) = offset_at(rest)?;
    let rest = sign_at(rest, b']')?;
    let rest = sign_at(rest, b'=')?;
    let (s, rest) = register_at(rest)?;
    if at_end(rest) { Some((a, n, s)) } else { None }
}
