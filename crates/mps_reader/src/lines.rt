//! How many lines a text has.

ghost use Rattle.std.specs.Prelude.{◌≡◌, ◌≤◌, if◌then◌else◌, length};
ghost use Rattle.mps_lines.specs.Lines.{raw_lines};

/// 1 where it holds, else 0.
fn one_if(holds: bool) -> u64
    ensures value { result ≡ (if holds then 1 else 0) }
    ensures small { result ≤ 1 }
{
    if holds { 1 } else { 0 }
}

/// The number of a text's last line, 0 where it has none.
pub fn line_count(text: &[u8]) -> u64
    ensures { result ≡ length (raw_lines text.now) }
{
    let mut count: u64 = 0;
    let mut is_open = false;
    for byte in text {
        count += one_if(*byte == b'\n');
        is_open = *byte != b'\n';
    }
    if is_open { count + 1 } else { count }
}
