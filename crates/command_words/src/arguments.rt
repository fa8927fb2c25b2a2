// The arguments in the matches of a command: paths and whole numbers.
ghost use Rattle.std.specs.Prelude.{◌≡◌, ◌≤◌, Some, None, IfErr, IfOk, IfSome};
ghost use Rattle.clap.specs.Words.{first_of, found_of, one_of, rows_of};
ghost use Rattle.command_words.specs.Commands.{number_in as number_in_range};

use crate::fault::WordsFault;
use clap::ArgMatches;

// The text of a path. `Usage`: the words don't have the path.
pub(crate) fn path_in<'a>(matches: &ArgMatches<'a>, id: &str) -> Result<&'a str, WordsFault>
    ensures path { IfOk result (λ s. first_of id.now (rows_of (found_of matches.now)) ≡ Some s.now) }
    ensures usage { IfErr result (λ fault. (fault ≡ WordsFault.Usage) × (first_of id.now (rows_of (found_of matches.now)) ≡ None)) }
{
    match matches.get_str(id) {
        Some(text) => Ok(text),
        None => Err(WordsFault::Usage),
    }
}

// The number of an argument, where the words have the argument. `Usage`: it isn't a whole number in the range.
pub(crate) fn number_in(
    matches: &ArgMatches<'_>,
    id: &str,
    low: u32,
    high: u32,
) -> Result<Option<u32>, WordsFault>
    ensures number { IfOk result (λ n. number_in_range low high (one_of id.now (rows_of (found_of matches.now))) ≡ Some n) }
    ensures range { IfOk result (λ n. IfSome n (λ k. (low ≤ k) × (k ≤ high))) }
    ensures usage { IfErr result (λ fault. (fault ≡ WordsFault.Usage) × (number_in_range low high (one_of id.now (rows_of (found_of matches.now))) ≡ None)) }
{
    match matches.try_get_one::<u32>(id) {
        Ok(None) => Ok(None),
        Ok(Some(number)) => {
            if low <= number && number <= high {
                Ok(Some(number))
            } else {
                Err(WordsFault::Usage)
            }
        }
        Err(_) => Err(WordsFault::Usage),
    }
}
