// Numbers in memory have at most 64 digits. Each part of a certificate is read, since what a type says of a number is known where it is read.
ghost use Rattle.std.specs.Prelude.{◌≡◌, All, List, length, nat_abs};
ghost use Rattle.cert_rows.specs.declared.line.CertRow.{CertRow};
ghost use Rattle.cert_rows.specs.declared.line.Why.{Why};
ghost use Rattle.cert_rows.specs.Feeds.{with_lines};
ghost use Rattle.vipr_print.specs.Unique.{IsShortFraction, IsShortTerm, IsShortList, IsShortRow, IsShortReason, IsShortLine, IsShortClaim, IsShortPoint, IsShort, HasShortNumbers};

use cert_rows::{CertHead, CertRow, Goal, Why};
use fraction::Frac;
use problem::{Point, Term};

fn fraction_is_short(x: Frac)
    ensures { IsShortFraction x }
{
    let _numerator = x.numer();
}

fn term_is_short(term: &Term)
    ensures { IsShortTerm term.now }
{
    let _number = term.column();
    fraction_is_short(term.coefficient());
}

// Each number of these terms has at most 64 digits, and so has their count.
fn terms_are_short(terms: &[Term])
    ensures { IsShortList terms.now }
{
    for term in terms {
        term_is_short(term);
    }
}

fn row_is_short(row: &CertRow)
    ensures { IsShortRow row.now }
{
    fraction_is_short(row.rhs);
    terms_are_short(row.terms.as_slice());
}

// Each number of these rows has at most 64 digits.
fn rows_are_short(rows: &[CertRow])
    ensures { All IsShortRow rows.now }
{
    for row in rows {
        row_is_short(row);
    }
}

// Each number of the claim has at most 64 digits.
fn claim_is_short(claim: &Goal)
    ensures { IsShortClaim claim.now }
{
    match claim {
        Goal::Infeas => {}
        Goal::Range { lb, ub } => {
            fraction_is_short(*lb);
            fraction_is_short(*ub);
        }
    }
}

// Each number of these points has at most 64 digits.
fn points_are_short(points: &[Point])
    ensures { All IsShortPoint points.now }
{
    for point in points {
        point_is_short(point.as_slice());
    }
}

fn point_is_short(point: &[i64])
    ensures { IsShortPoint point.now }
{
    for number in point {
        number_is_short(number);
    }
}

fn number_is_short(number: &i64)
    ensures { IsShort (nat_abs number.now) }
{
    let _value = *number;
}

/// Each number of this line has at most 64 digits.
pub fn line_is_short(line: &(CertRow, Why))
    ensures { IsShortLine line.now }
{
    row_is_short(&line.0);
    reason_is_short(&line.1);
}

fn reason_is_short(reason: &Why)
    ensures { IsShortReason reason.now }
{
    match reason {
        Why::Asm => {}
        Why::Lin { mult } => terms_are_short(mult.as_slice()),
        Why::Rnd { mult } => terms_are_short(mult.as_slice()),
        Why::Uns { i1, l1, i2, l2 } => {
            let _first = (*i1, *l1);
            let _second = (*i2, *l2);
        }
    }
}

/// No number of a certificate with this head has more than 64 digits, where that holds of its derived lines.
pub fn head_is_short(head: &CertHead)
    ensures { (ls : List (CertRow × Why)) → length ls ≡ head.now.lines → All IsShortLine ls → HasShortNumbers (with_lines head.now ls) }
{
    let _columns = head.part.names.len();
    let _lines = head.lines;
    terms_are_short(head.part.objective.as_slice());
    rows_are_short(head.part.rows.as_slice());
    claim_is_short(&head.claim);
    points_are_short(head.points.as_slice());
}
