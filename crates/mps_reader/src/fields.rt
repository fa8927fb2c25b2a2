//! Fields of data lines.

ghost use Rattle.std.specs.Prelude.{◌≡◌, nat_le, ◌&&◌};
ghost use Rattle.std.specs.List.{list_all};
ghost use Rattle.mps_reader.specs.Faults.{is_field};
ghost use Rattle.mps_reader.specs.Tables.{texts};

/// Whether each byte is 0x21 to 0x7e.
fn are_visible(field: &[u8]) -> bool
    ensures { result ≡ list_all (λ b. nat_le 33 b && nat_le b 126) field.now }
{
    field.iter().all(|b| *b >= 0x21 && *b <= 0x7e)
}

/// Whether a field is within the limits.
fn is_field(field: &[u8]) -> bool
    ensures { result ≡ is_field field.now }
{
    field.len() > 0 && field.len() <= 255 && are_visible(field)
}

/// Whether all fields are.
pub fn are_fields(fields: &[&[u8]]) -> bool
    ensures { result ≡ list_all is_field (texts fields.now) }
{
    for field in fields {
        if !is_field(field) {
            return false;
        }
    }
    true
}
