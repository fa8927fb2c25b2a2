// Where two payloads differ.
ghost use Rattle.std.specs.Prelude.{◌≡◌, ◌≢◌};
ghost use Rattle.resume.specs.Models.{DiffersFirstAt};

/// The first place at which two payloads differ, which aren't equal.
pub fn first_difference(a: &[u8], b: &[u8]) -> usize
    requires { a.now ≢ b.now }
    ensures { DiffersFirstAt a.now b.now result }
{
    let mut at = 0;
    while at < a.len() && at < b.len() && a[at] == b[at] {
        at += 1;
    }
    at
}
