// The list of the basic columns, few of all: loops that pass over the others go over it.

ghost use Rattle.std.specs.Prelude.{◌≡◌, ◌<◌, ◌≤◌, length, IsTrue};
ghost use Rattle.std.specs.List.{insert, remove};
ghost use Rattle.integer_tableau.specs.BasicColumns.{count_below, basic_exchanged};

/// How many of these numbers, which rise, are less than this one.
pub(crate) fn place_of(numbers: &[usize], number: usize) -> usize
    ensures value { result ≡ count_below number numbers.now }
    ensures within { result ≤ length numbers.now }
{
    for (place, other) in numbers.iter().enumerate() {
        if *other >= number {
            return place;
        }
    }
    numbers.len()
}

/// Takes a number out of numbers that rise.
fn remove(numbers: &mut Vec<usize>, number: usize)
    requires { count_below number numbers.old.items < length numbers.old.items }
    ensures { numbers.new.items ≡ remove numbers.old.items (count_below number numbers.old.items) }
{
    let place = place_of(numbers, number);
    numbers.remove(place);
}

/// Puts a number into numbers that rise; false where memory is wanting.
fn insert(numbers: &mut Vec<usize>, number: usize) -> bool
    ensures { IsTrue result → numbers.new.items ≡ insert numbers.old.items (count_below number numbers.old.items) number }
{
    let place = place_of(numbers, number);
    numbers.insert(place, number).is_ok()
}

/// The basic columns, of so many, after two variables are exchanged; false where memory is wanting.
pub(crate) fn exchange_columns(
    basic_columns: &mut Vec<usize>,
    columns: usize,
    leaving: usize,
    entering: usize,
) -> bool
    requires { leaving < columns → count_below leaving basic_columns.old.items < length basic_columns.old.items }
    ensures { IsTrue result → basic_columns.new.items ≡ basic_exchanged columns leaving entering basic_columns.old.items }
{
    if leaving < columns {
        remove(basic_columns, leaving);
    }
    entering >= columns || insert(basic_columns, entering)
}
