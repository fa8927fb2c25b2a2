//! The record behind which the payloads of a journal are in encoding 2.

ghost use Rattle.std.specs.Prelude.{◌≡◌};
ghost use Rattle.event_codec.specs.Upgrades.{upgrade_code, is_upgrade};

/// The record: a tag, and the encoding.
const UPGRADE: [u8; 2] = [7, 2];

/// The record behind which the payloads of a journal are in encoding 2. It is no event.
pub fn upgrade_record() -> [u8; 2]
    ensures { result ≡ upgrade_code }
{
    UPGRADE
}

/// Whether a payload is this record.
pub fn is_upgrade(payload: &[u8]) -> bool
    ensures { result ≡ is_upgrade payload.now }
{
    payload == UPGRADE.as_slice()
}
