// The problem part of a certificate.
ghost use Rattle.std.specs.Prelude.{◌≡◌, ◌<◌, ◌≤◌, ◌++◌, ◌^◌, [], ◌∷◌, pos, IfOk, OnOk, ℕ, take, length, codes, map};
ghost use Rattle.fraction.specs.Rational.{whole};
ghost use Rattle.cert_rows.specs.Validity.{lower_row, upper_row};
ghost use Rattle.cert_merge.specs.Merged.{label_of, labelled, row_lines, bound_lines, part_of};
ghost use Rattle.problem.specs.Limits.{most_columns};

use cert_rows::{CertRow, CertRows, Label, Part};
use fraction::Frac;
use problem::{Problem, Row, Sense, Terms};
use problem_box::{IntBox, Span};
use std::alloc::{AllocError, Global};

/// One column with the coefficient 1.
pub fn unit_terms(alloc: Global, column: usize) -> Result<Terms, AllocError>
    requires { column < 2 ^ 32 }
    ensures { IfOk result (λ t. t ≡ (column, whole (pos 1)) ∷ []) }
{
    Terms::make(alloc, &[(column as u32, Frac::of(1))])
}

/// A row with a letter and a number.
pub fn labelled_row(
    alloc: Global,
    letter: u8,
    number: usize,
    row: &Row,
) -> Result<CertRow, AllocError>
    ensures { IfOk result (λ r. r ≡ labelled (label_of (letter ∷ []) number) row.now) }
{
    let terms = row.terms.copy(alloc)?;
    Ok(CertRow {
        label: Label::make(letter, number),
        sense: row.sense,
        rhs: row.rhs,
        terms,
    })
}

fn lower_line(alloc: Global, column: usize, span: Span) -> Result<CertRow, AllocError>
    requires { column < 2 ^ 32 }
    ensures { IfOk result (λ r. r ≡ labelled (label_of (codes "L") column) (lower_row column span)) }
{
    let terms = unit_terms(alloc, column)?;
    Ok(CertRow {
        label: Label::make(b'L', column),
        sense: Sense::G,
        rhs: Frac::of(span.lo as i128),
        terms,
    })
}

fn upper_line(alloc: Global, column: usize, span: Span) -> Result<CertRow, AllocError>
    requires { column < 2 ^ 32 }
    ensures { IfOk result (λ r. r ≡ labelled (label_of (codes "U") column) (upper_row column span)) }
{
    let terms = unit_terms(alloc, column)?;
    Ok(CertRow {
        label: Label::make(b'U', column),
        sense: Sense::L,
        rhs: Frac::of(span.hi as i128),
        terms,
    })
}

fn push_rows(alloc: Global, lines: &mut Vec<CertRow>, problem: &Problem) -> Result<(), AllocError>
    ensures { OnOk result (lines.new.items ≡ lines.old.items ++ row_lines 0 problem.now.rows) }
{
    for i in 0..problem.rows() {
        lines.push(labelled_row(alloc, b'R', i, problem.row(i))?)?;
    }
    Ok(())
}

fn push_bounds(alloc: Global, lines: &mut Vec<CertRow>, root: &IntBox) -> Result<(), AllocError>
    requires { length root.now ≤ most_columns }
    ensures { OnOk result (lines.new.items ≡ lines.old.items ++ bound_lines 0 root.now) }
{
    for j in 0..root.len() {
        let span = root.span(j);
        lines.push(lower_line(alloc, j, span)?)?;
        lines.push(upper_line(alloc, j, span)?)?;
    }
    Ok(())
}

/// The problem part of a problem's certificates.
pub fn problem_part(alloc: Global, problem: &Problem) -> Result<Part, AllocError>
    ensures { IfOk result (λ p. p ≡ part_of problem.now) }
{
    problem.limits_hold();
    let names = problem.names().copy(alloc)?;
    let objective = problem.objective().copy(alloc)?;
    let mut lines = Vec::new(alloc);
    push_rows(alloc, &mut lines, problem)?;
    push_bounds(alloc, &mut lines, problem.root())?;
    Ok(Part {
        names,
        objective,
        sense: problem.sense(),
        rows: CertRows::make(lines),
    })
}
