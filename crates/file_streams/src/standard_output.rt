// The sink that is the standard output.
ghost use Rattle.std.specs.Prelude.{◌≡◌, true};
ghost use Rattle.outside.specs.Faults.{Counts};

use crate::retried::write_some;
use outside::{Failed, Put, Sink};
use std::io::{Error, ErrorKind, Stdout};
use std::rt::Clock;

/// The standard output. It keeps nothing back. Of its faults it keeps what the system said of the last one, for a person; no contract speaks of
/// that.
pub struct StandardOutput<'a, R: Clock> {
    clock: &'a R,
    out: Stdout,
    faults: u64,
    met: Option<Error>,
}

impl<'a, R: Clock> Drop for StandardOutput<'a, R> {
    fn drop(self) {
        let StandardOutput {
            clock: _,
            out: _,
            faults: _,
            met: _,
        } = self;
    }
}

impl<'a, R: Clock> StandardOutput<'a, R> {
    /// This output, without a fault.
    pub fn new(clock: &'a R, out: Stdout) -> StandardOutput<'a, R>
        ensures { result.faults ≡ 0 }
    {
        StandardOutput {
            clock,
            out,
            faults: 0,
            met: None,
        }
    }

    /// What the system said of the last fault; none where there was none.
    pub fn met(&self) -> Option<Error> {
        self.met
    }

    // Counts a fault.
    fn fail(&mut self, error: Error) -> Put
        ensures failed { result ≡ Put.Failed }
        ensures counted { Counts self.old.faults self.new.faults true }
    {
        self.faults = self.faults.saturating_add(1);
        self.met = Some(error);
        Put::Failed
    }
}

impl<'a, R: Clock> Sink for StandardOutput<'a, R> {
    ghost use Rattle.std.specs.Prelude.{false, []};

    ghost tells = { false };

    ghost taken = { λ _. [] };

    ghost faults = { λ s. s.faults };

    ghost kept = { λ _. [] };

    // An output that takes nothing of a piece has failed.
    fn write(&mut self, piece: &[u8]) -> Put {
        match write_some(self.clock, &mut self.out, piece) {
            Ok(count) if count > 0 => Put::Took(count),
            Ok(_) => self.fail(Error::from(ErrorKind::WriteZero)),
            Err(error) => self.fail(error),
        }
    }

    // What was taken was handed to the system, and `std` can't sync a stream.
    fn finish(&mut self) -> Result<(), Failed> {
        Ok(())
    }
}
