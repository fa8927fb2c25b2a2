// The lines of a certificate.
ghost use Rattle.std.specs.Prelude.{◌≡◌, ◌∷◌};
ghost use Rattle.std.specs.Fmt.{decimal};

use fraction::Frac;
use problem::{Sense, Terms};
use std::marker::Model;

/// A label: a letter with a number, as `N12`. It is seen as its text.
///
/// A certificate has a label for each of its lines, so a label keeps no text (docs/DECISIONS.md, entry 38).
#[derive(Debug, Drop)]
pub struct Label {
    letter: u8,
    number: usize,
}

impl Model for Label {
    ghost use Rattle.std.specs.Prelude.{List, ℕ, ◌∷◌};
    ghost use Rattle.std.specs.Fmt.{decimal};

    ghost Value = { List ℕ };

    ghost view = { λ l. l.letter ∷ decimal l.number };
}

impl Label {
    /// The label of a letter, by its code, and a number.
    pub fn make(letter: u8, number: usize) -> Label
        ensures { result ≡ letter ∷ decimal number }
    {
        Label { letter, number }
    }

    /// The letter and the number.
    pub fn parts(&self) -> (u8, usize)
        ensures { self.now ≡ result.0 ∷ decimal result.1 }
    {
        (self.letter, self.number)
    }
}

/// A row with its label.
///
/// The fields stand in this order so that a row takes 80 bytes: a certificate has a row for each of its lines.
#[derive(Drop)]
pub struct CertRow {
    pub rhs: Frac,
    pub terms: Terms,
    pub label: Label,
    pub sense: Sense,
}

const _: () = prove!(size_of::<CertRow>() == 80);

/// Why a line follows from earlier ones. A multiplier is a line's number with the factor of that line; lines are numbered from 0 over
/// the rows of the problem part and the derived lines behind them.
#[derive(Drop)]
pub enum Why {
    /// It is assumed.
    Asm,
    /// The sum of lines times multipliers dominates it.
    Lin { mult: Terms },
    /// That sum has whole coefficients, and with its right side rounded it dominates the line.
    Rnd { mult: Terms },
    /// Lines `i1` and `i2` dominate it, and the assumptions `l1` of the first and `l2` of the second share out all whole points.
    Uns { i1: u32, l1: u32, i2: u32, l2: u32 },
}

/// Rows, seen as a list.
#[derive(Drop)]
pub struct CertRows {
    items: Vec<CertRow>,
}

impl Model for CertRows {
    ghost use Rattle.std.specs.Prelude.{List};
    ghost use Rattle.cert_rows.specs.declared.line.CertRow.{CertRow};

    ghost Value = { List CertRow };

    ghost view = { λ r. r.items.items };
}

impl CertRows {
    /// The list of these rows.
    pub fn make(items: Vec<CertRow>) -> CertRows
        ensures { result ≡ items.items }
    {
        CertRows { items }
    }

    /// The rows.
    pub fn as_slice(&self) -> &[CertRow]
        ensures { result.now ≡ self.now }
    {
        self.items.as_slice()
    }
}

/// Derived lines, each with the reason why it follows, seen as a list.
#[derive(Drop)]
pub struct Derived {
    items: Vec<(CertRow, Why)>,
}

impl Model for Derived {
    ghost use Rattle.std.specs.Prelude.{List};
    ghost use Rattle.cert_rows.specs.declared.line.CertRow.{CertRow};
    ghost use Rattle.cert_rows.specs.declared.line.Why.{Why};

    ghost Value = { List (CertRow × Why) };

    ghost view = { λ d. d.items.items };
}

impl Derived {
    /// The list of these lines.
    pub fn make(items: Vec<(CertRow, Why)>) -> Derived
        ensures { result ≡ items.items }
    {
        Derived { items }
    }

    /// The lines.
    pub fn as_slice(&self) -> &[(CertRow, Why)]
        ensures { result.now ≡ self.now }
    {
        self.items.as_slice()
    }
}
