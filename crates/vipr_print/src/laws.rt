//! Laws of the text of a certificate.

ghost use Rattle.vipr_print.specs.Unique.{TextsSpellOneCertificate, TextsBeginNoOther, ValidPointsAreWhole};

use problem::Problem;

/// Two certificates with one text are the same certificate, and no text of one begins that of another. Names and labels have neither
/// blanks nor line feeds, each point has a number for each column, and no number has more than 64 digits (docs/DECISIONS.md, entry 23).
pub fn texts_spell_one_certificate()
    ensures one { TextsSpellOneCertificate }
    ensures no_prefix { TextsBeginNoOther }
{}

/// Each point of a valid certificate of a problem has a number for each column.
pub fn valid_points_are_whole(problem: &Problem)
    ensures { ValidPointsAreWhole problem.now }
{
    problem.limits_hold();
}
