// The paths of a command.
ghost use Rattle.std.specs.Prelude.{◌≡◌, Some, None, IfOk, IsErrOf, option_map};
ghost use Rattle.command_words.specs.Commands.{command_of, paths_asked, texts_of};

use crate::command::{Command, parse};
use crate::fault::WordsFault;
use crate::words::Words;
use std::alloc::Global;

/// The paths of a command, each there as the command has it.
#[derive(Debug)]
pub struct Paths {
    /// Where the model is read.
    pub model: Option<String>,
    /// Where the journal is kept.
    pub journal: Option<String>,
    /// Where the certificate is written.
    pub cert: Option<String>,
}

/// By hand (docs/DECISIONS.md, entry 98).
impl Drop for Paths {
    fn drop(self) {
        let Paths {
            model: _,
            journal: _,
            cert: _,
        } = self;
    }
}

/// The paths of the command that the words are.
///
/// `Usage`: the words are no command. `Memory`: memory ran out, which says nothing of the words.
pub fn paths_of(alloc: Global, words: &Words) -> Result<Paths, WordsFault>
    ensures paths { IfOk result (λ p. option_map paths_asked (command_of words.now) ≡ Some (texts_of p)) }
    ensures usage { IsErrOf result WordsFault.Usage → command_of words.now ≡ None }
{
    match parse(alloc, words) {
        Ok(
            Command::Solve {
                model,
                journal,
                cert,
                limits: _,
                upper: _,
            },
        ) => Ok(Paths {
            model: Some(model),
            journal: Some(journal),
            cert: Some(cert),
        }),
        Ok(
            Command::Resume {
                journal,
                cert,
                limits: _,
            },
        ) => Ok(Paths {
            model: None,
            journal: Some(journal),
            cert: Some(cert),
        }),
        Ok(Command::Show { journal }) => Ok(Paths {
            model: None,
            journal: Some(journal),
            cert: None,
        }),
        Ok(
            Command::Drill {
                seed: _,
                cert,
                limits: _,
            },
        ) => Ok(Paths {
            model: None,
            journal: None,
            cert: Some(cert),
        }),
        Err(fault) => Err(fault),
    }
}
