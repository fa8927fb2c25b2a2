// The pieces of a line, pushed behind what a buffer has.
ghost use Rattle.std.specs.Prelude.{◌≡◌, ◌++◌, [], ◌∷◌, OnOk, IfSome, codes, length};
ghost use Rattle.std.specs.List.{flat_map};
ghost use Rattle.std.specs.Fmt.{decimal, signed_decimal};
ghost use Rattle.vipr_print.specs.Spelling.{spelled_number, spelled_term, spelled_terms, spelled_sense, spelled_row, spelled_why, nonzero, count_nonzero, spelled_nonzero, spelled_nonzeros, next_column, column_numbers};

use crate::short_pieces::{push_front, push_integer_term, push_numbers};
use cert_rows::{CertRow, Label, Why};
use fraction::Frac;
use itoa::Buffer;
use problem::{Sense, Term};
use std::alloc::AllocError;

/// Pushes a whole number.
pub fn push_whole(out: &mut Vec<u8>, n: i128) -> Result<(), AllocError>
    ensures { OnOk result (out.new.items ≡ out.old.items ++ signed_decimal n) }
{
    let mut buffer = Buffer::new();
    out.extend_from_slice(buffer.format(n).as_bytes())?;
    Ok(())
}

/// Pushes a whole number that isn't negative.
pub fn push_natural(out: &mut Vec<u8>, n: u128) -> Result<(), AllocError>
    ensures { OnOk result (out.new.items ≡ out.old.items ++ decimal n) }
{
    let mut buffer = Buffer::new();
    out.extend_from_slice(buffer.format(n).as_bytes())?;
    Ok(())
}

/// Pushes `p` or `p/q`.
pub fn push_number(out: &mut Vec<u8>, x: Frac) -> Result<(), AllocError>
    ensures { OnOk result (out.new.items ≡ out.old.items ++ spelled_number x) }
{
    push_whole(out, x.numer())?;
    let den = x.denom();
    if den == 1 {
        return Ok(());
    }
    out.extend_from_slice(b"/")?;
    push_natural(out, den)
}

fn push_long_term(out: &mut Vec<u8>, term: &Term) -> Result<(), AllocError>
    ensures { OnOk result (out.new.items ≡ out.old.items ++ spelled_term term.now) }
{
    out.extend_from_slice(b" ")?;
    push_natural(out, u128::from(term.column()))?;
    out.extend_from_slice(b" ")?;
    push_number(out, term.coefficient())
}

fn push_term(out: &mut Vec<u8>, term: &Term) -> Result<(), AllocError>
    ensures { OnOk result (out.new.items ≡ out.old.items ++ spelled_term term.now) }
{
    match term.integer() {
        Some(number) => push_integer_term(out, term.column(), number),
        None => push_long_term(out, term),
    }
}

fn push_each_term(out: &mut Vec<u8>, terms: &[Term]) -> Result<(), AllocError>
    ensures { OnOk result (out.new.items ≡ out.old.items ++ flat_map spelled_term terms.now) }
{
    for term in terms {
        push_term(out, term)?;
    }
    Ok(())
}

/// Pushes how many terms there are, and each term.
pub fn push_terms(out: &mut Vec<u8>, terms: &[Term]) -> Result<(), AllocError>
    ensures { OnOk result (out.new.items ≡ out.old.items ++ spelled_terms terms.now) }
{
    push_natural(out, terms.len() as u128)?;
    push_each_term(out, terms)
}

fn sense_text(sense: Sense) -> &'static [u8]
    ensures { result.now ≡ spelled_sense sense }
{
    match sense {
        Sense::G => b" G ",
        Sense::L => b" L ",
        Sense::E => b" E ",
    }
}

fn push_label(out: &mut Vec<u8>, label: &Label) -> Result<(), AllocError>
    ensures { OnOk result (out.new.items ≡ out.old.items ++ label.now) }
{
    let (letter, number) = label.parts();
    out.push(letter)?;
    push_natural(out, number as u128)
}

/// The letter of a sense.
fn sense_letter(sense: Sense) -> u8
    ensures { 32 ∷ result ∷ 32 ∷ [] ≡ spelled_sense sense }
{
    match sense {
        Sense::G => b'G',
        Sense::L => b'L',
        Sense::E => b'E',
    }
}

/// The number itself, where it is whole and its size is below 2^63.
fn integer(x: Frac) -> Option<i64>
    ensures { IfSome result (λ n. signed_decimal n ≡ spelled_number x) }
{
    x.narrow()?.integer()
}

// Pushes a row whose right side is this whole number.
fn push_short_row(out: &mut Vec<u8>, row: &CertRow, side: i64) -> Result<(), AllocError>
    requires { signed_decimal side ≡ spelled_number row.now.rhs }
    ensures { OnOk result (out.new.items ≡ out.old.items ++ spelled_row row.now) }
{
    let terms = row.terms.as_slice();
    push_front(
        out,
        row.label.parts(),
        sense_letter(row.sense),
        side,
        terms.len(),
    )?;
    push_each_term(out, terms)
}

fn push_long_row(out: &mut Vec<u8>, row: &CertRow) -> Result<(), AllocError>
    ensures { OnOk result (out.new.items ≡ out.old.items ++ spelled_row row.now) }
{
    push_label(out, &row.label)?;
    out.extend_from_slice(sense_text(row.sense))?;
    push_number(out, row.rhs)?;
    out.extend_from_slice(b" ")?;
    push_terms(out, row.terms.as_slice())
}

/// Pushes `label sense rhs list`.
pub fn push_row(out: &mut Vec<u8>, row: &CertRow) -> Result<(), AllocError>
    ensures { OnOk result (out.new.items ≡ out.old.items ++ spelled_row row.now) }
{
    match integer(row.rhs) {
        Some(side) => push_short_row(out, row, side),
        None => push_long_row(out, row),
    }
}

fn push_multipliers(out: &mut Vec<u8>, word: &[u8], terms: &[Term]) -> Result<(), AllocError>
    ensures { OnOk result (out.new.items ≡ out.old.items ++ word.now ++ spelled_terms terms.now) }
{
    out.extend_from_slice(word)?;
    push_terms(out, terms)
}

fn push_why(out: &mut Vec<u8>, why: &Why) -> Result<(), AllocError>
    ensures { OnOk result (out.new.items ≡ out.old.items ++ spelled_why why.now) }
{
    match why {
        Why::Asm => Ok(out.extend_from_slice(b"asm")?),
        Why::Lin { mult } => push_multipliers(out, b"lin ", mult.as_slice()),
        Why::Rnd { mult } => push_multipliers(out, b"rnd ", mult.as_slice()),
        Why::Uns { i1, l1, i2, l2 } => {
            out.extend_from_slice(b"uns")?;
            push_numbers(out, (*i1, *l1), (*i2, *l2))
        }
    }
}

/// Pushes a reason between braces, and the end of its line.
pub fn push_reason(out: &mut Vec<u8>, why: &Why) -> Result<(), AllocError>
    ensures { OnOk result (out.new.items ≡ out.old.items ++ (codes " { " ++ spelled_why why.now ++ codes " } -1\n")) }
{
    if let Why::Asm = why {
        return Ok(out.extend_from_slice(b" { asm } -1\n")?);
    }
    out.extend_from_slice(b" { ")?;
    push_why(out, why)?;
    Ok(out.extend_from_slice(b" } -1\n")?)
}

fn one_if_nonzero(number: i64) -> usize
    ensures { result ≡ nonzero number }
{
    if number == 0 { 0 } else { 1 }
}

/// How many numbers of the point aren't 0.
fn count_nonzero(point: &[i64]) -> usize
    ensures { result ≡ count_nonzero point.now }
{
    let mut count = 0;
    for number in point {
        count += one_if_nonzero(*number);
    }
    count
}

fn push_nonzero(out: &mut Vec<u8>, column: usize, number: i64) -> Result<(), AllocError>
    ensures { OnOk result (out.new.items ≡ out.old.items ++ spelled_nonzero column number) }
{
    if number == 0 {
        return Ok(());
    }
    out.extend_from_slice(b" ")?;
    push_natural(out, column as u128)?;
    out.extend_from_slice(b" ")?;
    push_whole(out, i128::from(number))
}

fn push_nonzeros(out: &mut Vec<u8>, point: &[i64]) -> Result<(), AllocError>
    ensures { OnOk result (out.new.items ≡ out.old.items ++ spelled_nonzeros 0 point.now) }
{
    for (column, number) in point.iter().enumerate() {
        push_nonzero(out, column, *number)?;
    }
    Ok(())
}

/// Pushes how many numbers of the point aren't 0, and each of these behind its column.
pub fn push_point(out: &mut Vec<u8>, point: &[i64]) -> Result<(), AllocError>
    ensures { OnOk result (out.new.items ≡ out.old.items ++ decimal (count_nonzero point.now) ++ spelled_nonzeros 0 point.now) }
{
    push_natural(out, count_nonzero(point) as u128)?;
    push_nonzeros(out, point)
}

/// Pushes the numbers below `count`, parted by blanks.
pub fn push_columns(out: &mut Vec<u8>, count: usize) -> Result<(), AllocError>
    ensures { OnOk result (out.new.items ≡ out.old.items ++ column_numbers count) }
{
    for column in 0..count {
        push_column(out, column)?;
    }
    Ok(())
}

fn push_column(out: &mut Vec<u8>, column: usize) -> Result<(), AllocError>
    ensures { OnOk result (out.new.items ≡ out.old.items ++ next_column column) }
{
    if column > 0 {
        out.extend_from_slice(b" ")?;
    }
    push_natural(out, column as u128)
}
