// The moment that calls of a disk in memory lead to, worked out anew from what the disk had at first.
ghost use Rattle.std.specs.Prelude.{◌≡◌, ◌+◌, ◌<◌, ◌≤◌, ◌-◌, ◌++◌, [], ◌∷◌, List, ℕ, true, length, take, drop, slice_index, OnOk, OnErr, IfOk, IsTrue, Bool, nat_le, nat_lt, ◌||◌, ◌&&◌};
ghost use Rattle.outside.specs.Replay.{replay, moment_after_call};
ghost use Rattle.outside.specs.Images.{IsImage, resting, overwritten, is_in_ranges};
ghost use Rattle.outside.specs.Choice.{moment_of, chosen};

use crate::mem_disk::Call;
use std::alloc::{AllocError, Global};

/// A moment of a disk in memory, as values.
#[derive(Drop)]
pub struct Replayed {
    pub seen: Vec<u8>,
    pub kept: Vec<u8>,
    pub ranges: Vec<(u64, u64)>,
    pub least: u64,
    pub most: u128,
}

/// Writes over the bytes from a place on, and past their end, or leaves them as they are.
pub fn overwrite(bytes: &mut Vec<u8>, at: u64, more: &[u8]) -> Result<(), AllocError>
    ensures ok { OnOk result (bytes.new.items ≡ overwritten at more.now bytes.old.items) }
    ensures err { OnErr result (bytes.new.items ≡ bytes.old.items) }
{
    let start = (at as usize).min(bytes.len());
    let over = more.len().min(bytes.len() - start);
    bytes.extend_from_slice(&more[over..])?;
    bytes[start..start + over].copy_from_slice(&more[..over]);
    Ok(())
}

/// Whether the range, a place and a length, has this place.
fn covers(range: &(u64, u64), place: u64) -> bool
    ensures { result ≡ (nat_le range.now.0 place && nat_lt place (range.now.0 + range.now.1)) }
{
    range.0 <= place && place - range.0 < range.1
}

/// Whether one of the ranges has this place.
fn is_covered(ranges: &[(u64, u64)], place: u64) -> bool
    ensures { result ≡ is_in_ranges ranges.now place }
{
    for range in ranges {
        if covers(range, place) {
            return true;
        }
    }
    false
}

impl Replayed {
    /// The moment after all of the calls.
    pub fn new(alloc: Global, first: &[u8], calls: &[Call]) -> Result<Replayed, AllocError>
        ensures { IfOk result (λ r. moment_of r ≡ replay (resting first.now) calls.now) }
    {
        let mut now = Replayed {
            seen: first.to_vec(alloc)?,
            kept: first.to_vec(alloc)?,
            ranges: Vec::new(alloc),
            least: first.len() as u64,
            most: first.len() as u128,
        };
        for call in calls {
            now.step(alloc, call)?;
        }
        Ok(now)
    }

    fn step(&mut self, alloc: Global, call: &Call) -> Result<(), AllocError>
        ensures { OnOk result (moment_of self.new ≡ moment_after_call (moment_of self.old) call.now) }
    {
        match call {
            Call::Write(at, bytes) => {
                overwrite(&mut self.seen, *at, bytes)?;
                self.ranges.push((*at, bytes.len() as u64))?;
                self.most = self.most.max(*at as u128 + bytes.len() as u128);
            }
            Call::Cut(size) => {
                self.seen.truncate(*size as usize);
                self.least = self.least.min(*size);
            }
            Call::Sync => {
                self.kept = self.seen.as_slice().to_vec(alloc)?;
                self.ranges.clear();
                self.least = self.seen.len() as u64;
                self.most = self.seen.len() as u128;
            }
        }
        Ok(())
    }

    /// Whether a crash may leave any byte at this place.
    fn is_free(&self, place: u64) -> bool
        ensures { result ≡ (nat_le self.now.least place || is_in_ranges self.now.ranges.items place) }
    {
        self.least <= place || is_covered(&self.ranges, place)
    }

    /// The byte that an image closest to the wish has at this place.
    fn byte(&self, wish: &[u8], place: u64) -> u8
        ensures { result ≡ chosen (moment_of self.now) wish.now place }
    {
        let bytes = if self.is_free(place) {
            wish
        } else {
            &self.kept
        };
        bytes.get(place as usize).copied().unwrap_or(0)
    }

    /// The image closest to the wish.
    pub fn image(&self, alloc: Global, wish: &[u8]) -> Result<Vec<u8>, AllocError>
        requires { self.now.least ≤ self.now.most }
        ensures image { IfOk result (λ v. IsImage (moment_of self.now) v.items) }
        ensures each { IfOk result (λ v. IsImage (moment_of self.now) wish.now → v.items ≡ wish.now) }
    {
        let length = (wish.len() as u128).max(self.least as u128).min(self.most);
        let mut image = Vec::new(alloc);
        for place in 0..length as u64 {
            image.push(self.byte(wish, place))?;
        }
        Ok(image)
    }
}
