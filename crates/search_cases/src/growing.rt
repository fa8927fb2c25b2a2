//! A disk that grows while it is read.

use outside::{Disk, Failed};

/// A disk to which another run writes: it tells a smaller size when it is asked first. It can only be read.
#[derive(Drop)]
pub(crate) struct Growing<'a> {
    bytes: &'a [u8],
    first: Option<u64>,
    faults: u64,
}

impl<'a> Growing<'a> {
    /// The disk of these bytes that tells this size first.
    pub(crate) fn seen_first(bytes: &'a [u8], size: u64) -> Growing<'a> {
        Growing {
            bytes,
            first: Some(size),
            faults: 0,
        }
    }
}

/// It doesn't tell its content, so it owes nothing of what a disk holds.
impl Disk for Growing<'_> {
    ghost use Rattle.std.specs.Prelude.{false, [], refl};
    ghost use Rattle.outside.specs.Images.{resting};
    ghost use Rattle.outside.specs.Lemmas.SeenIsImage.{rests};

    ghost tells = { false };

    ghost past = { λ _. [] };

    ghost now = { λ _. resting [] };

    ghost ticks = { λ _. 0 };

    ghost count = { λ d. d.faults };

    ghost ticks_is = { λ _ _. refl };

    ghost seen_is_image = { λ _ _. rests [] };

    fn size(&mut self) -> Result<u64, Failed> {
        Ok(self.first.take().unwrap_or(self.bytes.len() as u64))
    }

    fn read_at(&mut self, at: u64, buf: &mut [u8]) -> Result<(), Failed> {
        let rest = &self.bytes[self.bytes.len().min(at as usize)..];
        let count = rest.len().min(buf.len());
        buf[..count].copy_from_slice(&rest[..count]);
        Ok(())
    }

    fn write_at(&mut self, _at: u64, _bytes: &[u8]) -> Result<(), Failed> {
        self.faults = self.faults.saturating_add(1);
        Err(Failed)
    }

    fn cut(&mut self, _size: u64) -> Result<(), Failed> {
        self.faults = self.faults.saturating_add(1);
        Err(Failed)
    }

    fn sync(&mut self) -> Result<(), Failed> {
        Ok(())
    }

    fn clock(&self) -> u64 {
        0
    }

    fn faults(&self) -> u64 {
        self.faults
    }
}
