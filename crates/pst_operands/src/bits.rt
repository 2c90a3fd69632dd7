// The operands of operations on bits, where none is negative.
ghost use Rattle.std.specs.Prelude.{◌≡◌, ℤ, pos, ◌≤ℤ◌, ◌<ℤ◌, IfSome, Some};
ghost use Rattle.pst_num.specs.Bits.{bits_and, bits_or, bits_xor};
ghost use Rattle.pst_expr.specs.Spans.{IsInSpan};
ghost use Rattle.pst_operands.specs.Keeps.{KeepsLeft};
ghost use Rattle.pst_operands.specs.Operands.{KeepOperands};
ghost use Rattle.pst_operands.specs.Powers.{IsMask, IsField, IsRoundedDown, KeepsField};

use crate::cuts::{NOTHING, at_least, at_most, not_negative};
use crate::exact::{minus, moved, plus};
use crate::operands::Operands;
use crate::remainder::{residue, residues};
use pst_expr::Span;
use pst_num::{add, div, mul, shl, sub};

// The number 0 alone.
const ZERO: Span = Span { low: 0, high: 0 };

// One more than a mask, where that is a power of 2: the mask's digits are the residue of it.
fn modulus_of(mask: i64) -> Option<i64>
    ensures { IfSome result (λ modulus. IsMask mask modulus) }
{
    let digits = 64 - i64::from(mask.leading_zeros());
    let power = shl(1, digits)?;
    let next = add(mask, 1)?;
    if next == power { Some(power) } else { None }
}

// Digits of a mask that stand side by side: the power of 2 of the lowest one, and that of the next one above them.
#[derive(Clone, Copy)]
struct Field {
    unit: i64,
    modulus: i64,
}

// The digits of a mask, where they stand side by side.
fn field_of(mask: i64) -> Option<Field>
    ensures { IfSome result (λ field. IsField mask field.unit field.modulus) }
{
    let unit = shl(1, i64::from(mask.trailing_zeros()))?;
    let digits = div(mask, unit)?;
    let count = modulus_of(digits)?;
    let modulus = mul(count, unit)?;
    let top = sub(modulus, unit)?;
    if top == mask {
        Some(Field { unit, modulus })
    } else {
        None
    }
}

// The multiple of a power of 2 that is no greater than a number.
fn rounded_down(number: i64, unit: i64) -> i64
    requires number { pos 0 ≤ℤ number }
    requires unit { pos 0 <ℤ unit }
    ensures { IsRoundedDown unit number result }
{
    number - residue(number, unit)
}

// The numbers whose digits under a mask may be wanted.
fn by_field(span: Span, field: Field, wanted: Span) -> Span
    requires low { pos 0 ≤ℤ span.low }
    requires high { pos 0 ≤ℤ span.high }
    requires unit { pos 0 <ℤ field.unit }
    requires modulus { pos 0 <ℤ field.modulus }
    ensures { KeepsField field.unit field.modulus span wanted result }
{
    let wanted = residues(not_negative(wanted), field.unit, ZERO);
    if wanted.high < wanted.low {
        return NOTHING;
    }
    let whole = Span {
        low: rounded_down(span.low, field.unit),
        high: rounded_down(span.high, field.unit),
    };
    let multiples = residues(whole, field.modulus, wanted);
    let end = moved(multiples.high, 1, field.unit);
    at_most(end, at_least(i128::from(multiples.low), span))
}

// The numbers whose digits under a mask may be wanted.
fn by_mask(span: Span, mask: i64, wanted: Span) -> Span
    requires low { pos 0 ≤ℤ span.low }
    requires high { pos 0 ≤ℤ span.high }
    ensures { (x z : ℤ) → IsInSpan x span → IsInSpan z wanted → bits_and x mask ≡ Some z → IsInSpan x result }
{
    match field_of(mask) {
        Some(field) => by_field(span, field, wanted),
        None => span,
    }
}

// The numbers some of whose digits may be wanted.
fn masked(span: Span, mask: Span, wanted: Span) -> Span
    ensures { KeepsLeft bits_and span mask wanted result }
{
    if span.low < 0 {
        return span;
    }
    let cut = at_least(i128::from(wanted.low), span);
    if mask.low < mask.high {
        return cut;
    }
    if cut.low < 0 {
        return cut;
    }
    if cut.high < 0 {
        return cut;
    }
    by_mask(cut, mask.low, wanted)
}

// The numbers that with more digits may be wanted.
fn with_more(span: Span, more: Span, wanted: Span) -> Span
    ensures { KeepsLeft bits_or span more wanted result }
{
    if span.low < 0 {
        return span;
    }
    if more.low < 0 {
        return span;
    }
    let low = minus(wanted.low, more.high);
    at_most(i128::from(wanted.high), at_least(low, span))
}

// The numbers that with some digits turned may be wanted.
fn turned(span: Span, digits: Span, wanted: Span) -> Span
    ensures { KeepsLeft bits_xor span digits wanted result }
{
    if span.low < 0 {
        return span;
    }
    if digits.low < 0 {
        return span;
    }
    let low = minus(wanted.low, digits.high);
    let high = plus(wanted.high, digits.high);
    let lowest = minus(digits.low, wanted.high);
    at_most(high, at_least(lowest, at_least(low, span)))
}

/// `left & right`
pub fn and(spans: Operands, wanted: Span) -> Operands
    ensures { KeepOperands bits_and spans wanted result }
{
    Operands {
        left: masked(spans.left, spans.right, wanted),
        right: masked(spans.right, spans.left, wanted),
    }
}

/// `left | right`
pub fn or(spans: Operands, wanted: Span) -> Operands
    ensures { KeepOperands bits_or spans wanted result }
{
    Operands {
        left: with_more(spans.left, spans.right, wanted),
        right: with_more(spans.right, spans.left, wanted),
    }
}

/// `left ^ right`
pub fn xor(spans: Operands, wanted: Span) -> Operands
    ensures { KeepOperands bits_xor spans wanted result }
{
    Operands {
        left: turned(spans.left, spans.right, wanted),
        right: turned(spans.right, spans.left, wanted),
    }
}
