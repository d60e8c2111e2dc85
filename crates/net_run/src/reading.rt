// The settings of a run are read from a source, which is read whole.
ghost use Rattle.std.specs.Prelude.{◌≡◌, ◌≤◌, IfErr, IfOk, IfSome, IsErrOf, IsSomeAnd, OnOk};
ghost use Rattle.mix_base.specs.Faults.{Rose};
ghost use Rattle.lab_text.specs.Readers.{ReachesEnd};
ghost use Rattle.lab_text.specs.Settings.{IsConfigInRange};
ghost use Rattle.net_run.specs.Reading.{HasFront, ReadsSettings, SaysOf, StopsReading, StopsText};

use lab_text::{Config, ConfigFault, Status, read_config};
use mix_base::Source;
use std::alloc::Global;

/// The most bytes of a text of settings. A source that gives more is read no further.
const LONGEST_TEXT: usize = 65_536;

/// How many bytes are asked of the source at once.
const BLOCK: usize = 4096;

/// The settings that the source has left. `Key` names the first place of them that is bad, which is place 0 where they are
/// longer than 65,536 bytes; `ReadFault` comes only where the source failed; and no other answer comes but want of memory.
pub(crate) fn read_settings<I: Source>(alloc: Global, source: &mut I) -> Result<Config, Status>
    ensures exact { ReadsSettings (I.left source.old) result }
    ensures in_range { IfOk result IsConfigInRange }
    ensures kind { IfErr result StopsReading }
    ensures end { OnOk result (ReachesEnd (I.left source.old) (I.left source.new)) }
    ensures read_fault { IsErrOf result Status.ReadFault →
        Rose (I.faults source.old) (I.faults source.new) }
    ensures count { I.faults source.old ≤ I.faults source.new }
{
    match read_text(alloc, source) {
        Ok(text) => settings_in(alloc, &text),
        Err(status) => Err(status),
    }
}

/// The settings of a text, or the first place that is bad.
fn settings_in(alloc: Global, text: &[u8]) -> Result<Config, Status>
    ensures says { SaysOf text.now result }
    ensures in_range { IfOk result IsConfigInRange }
    ensures kind { IfErr result StopsReading }
    ensures no_read { IsErrOf result Status.ReadFault → ⊥ }
{
    match read_config(alloc, text) {
        Ok(config) => Ok(config),
        Err(ConfigFault::BadConfig { key }) => Err(Status::Key { key }),
        Err(ConfigFault::Memory) => Err(Status::Memory),
    }
}

/// All bytes that the source has left, or a front of them that is longer than a text of settings.
fn read_text<I: Source>(alloc: Global, source: &mut I) -> Result<Vec<u8>, Status>
    ensures text { IfOk result (λ text. IfSome (I.left source.old) (λ before.
        IsSomeAnd (I.left source.new) (λ after. HasFront before text.items after))) }
    ensures kind { IfErr result StopsText }
    ensures read_fault { IsErrOf result Status.ReadFault →
        Rose (I.faults source.old) (I.faults source.new) }
    ensures count { I.faults source.old ≤ I.faults source.new }
{
    let mut text = Vec::new(alloc);
    let mut block = [0; BLOCK];
    'reads: while text.len() <= LONGEST_TEXT {
        let Ok(count) = source.read(&mut block) else {
            return Err(Status::ReadFault);
        };
        if count == 0 {
            return Ok(text);
        }
        if text.extend_from_slice(&block[..count]).is_err() {
            return Err(Status::Memory);
        }
    }
    Ok(text)
}
