// The texts that the commands write.
ghost use Rattle.std.specs.Prelude.{◌≡◌, ℕ, List, Result, IfOk, string_bytes};
ghost use Rattle.reply_blocks.specs.Blocks.{keys_seen};
ghost use Rattle.mix_base.specs.Results.{GivesAs};
ghost use Rattle.reply_blocks.specs.Faults.{opening_cause};
ghost use Rattle.reply_blocks.specs.declared.faults.OpenFault.{OpenFault};
ghost use Rattle.mix_tools.specs.Texts.{bytes_text, keeping_text, key_text, opened_text, sending_text};

use crate::replies::join_keys;
use mix_base::Memory;
use reply_blocks::{MadeBlock, OpenFault};
use std::alloc::{AllocError, Global};

/// The line of a public key.
pub fn key_line(alloc: Global, epoch: u64, key: &[u8]) -> Result<String, AllocError>
    ensures { IfOk result (λ text. string_bytes text ≡ key_text epoch key.now) }
{
    let key = hex::encode(alloc, key)?;
    format!(in alloc; "key {epoch} {key}\n")
}

/// The lines of a packet and the hop that it goes to first.
pub fn sending_lines(alloc: Global, first: &[u8; 32], packet: &[u8]) -> Result<String, AllocError>
    ensures { IfOk result (λ text. string_bytes text ≡ sending_text first.now packet.now) }
{
    let first = bytes_line(alloc, "first", first.as_slice())?;
    let packet = bytes_line(alloc, "packet", packet)?;
    format!(in alloc; "{first}{packet}")
}

/// The lines of a block and the keys that its maker keeps.
pub fn keeping_lines(alloc: Global, made: &MadeBlock) -> Result<String, AllocError>
    ensures { IfOk result (λ text.
        string_bytes text ≡ keeping_text made.now.block (keys_seen made.now.keys)) }
{
    let keys = join_keys(alloc, &made.keys)?;
    let block = bytes_line(alloc, "block", made.block.as_slice())?;
    let keys = bytes_line(alloc, "keys", &keys)?;
    format!(in alloc; "{block}{keys}")
}

/// The line of a body, or `damaged`.
pub fn opened_line(alloc: Global, opened: Result<Vec<u8>, OpenFault>) -> Result<String, Memory>
    ensures { (value : Result (List ℕ) OpenFault) →
        GivesAs opening_cause (λ body. body.items) opened value →
        IfOk result (λ text. string_bytes text ≡ opened_text value) }
{
    match opened {
        Ok(body) => Ok(bytes_line(alloc, "body", &body)?),
        Err(OpenFault::Damaged) => Ok(String::from_str(alloc, "damaged\n")?),
        Err(OpenFault::Memory) => Err(Memory),
    }
}

// A line of a name and bytes.
fn bytes_line(alloc: Global, name: &str, bytes: &[u8]) -> Result<String, AllocError>
    ensures { IfOk result (λ text. string_bytes text ≡ bytes_text name.now bytes.now) }
{
    let bytes = hex::encode(alloc, bytes)?;
    format!(in alloc; "{name} {bytes}\n")
}
