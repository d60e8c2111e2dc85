// The words of the commands: which command they name, if any.
ghost use Rattle.std.specs.Prelude.{◌≡◌, ◌<◌, ◌^◌, IfSome, map, string_bytes};
ghost use Rattle.mix_tools.specs.Commands.{command_of, keys_in};
ghost use Rattle.lab_text.specs.WordForms.{alone};

use lab_text::{LAST_MOMENT, read_32, read_number, read_suite};

/// A command.
#[derive(Clone, Copy, Debug, PartialEq, Eq)]
pub enum Command {
    /// The public key of an epoch, below 2^60, under a node's seed.
    Keys {
        /// Whether the suite is `ntru` and not `lab`.
        ntru: bool,
        seed: [u8; 32],
        epoch: u64,
    },
    /// A packet or a reply block from a request.
    Make,
    /// The packet that answers a reply block.
    Answer,
    /// The body of what came back to a reply block.
    Open,
}

/// The command that the words of a command line name.
pub fn read_command(words: &[String]) -> Option<Command>
    ensures { result ≡ command_of (map string_bytes words.now) }
{
    let (first, others) = words.split_first()?;
    match first.as_str() {
        "keys" => read_keys(others),
        "make" => read_alone(Command::Make, others),
        "answer" => read_alone(Command::Answer, others),
        "open" => read_alone(Command::Open, others),
        _ => None,
    }
}

// What stands behind `keys`.
fn read_keys(words: &[String]) -> Option<Command>
    ensures { result ≡ keys_in (map string_bytes words.now) }
{
    match words {
        [suite, seed, epoch] => {
            let ntru = read_suite(suite.as_bytes())?;
            let seed = read_32(seed.as_bytes())?;
            let epoch = read_number(epoch.as_bytes(), 0, LAST_MOMENT)?;
            Some(Command::Keys { ntru, seed, epoch })
        }
        _ => None,
    }
}

// A command behind whose first word none stands.
fn read_alone(command: Command, words: &[String]) -> Option<Command>
    ensures { result ≡ alone command (map string_bytes words.now) }
{
    if words.is_empty() {
        Some(command)
    } else {
        None
    }
}
