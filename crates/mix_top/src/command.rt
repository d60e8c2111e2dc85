// The program's commands over any source, sink and disks. The command `drive` carries the headline: whatever the script,
// its report hands on at most one packet for each epoch key and replay tag, over all restarts, and each is honest. So does
// `storm`, for events that follow from its words. `look` reads the kept disks. The other commands are the tools'.
ghost use Rattle.std.specs.Prelude.{◌≡◌, ◌≢◌, ◌↔◌, ◌≤◌, None, false, true, length, map};
ghost use Rattle.std.specs.Prelude.{string_bytes};
ghost use Rattle.mix_base.specs.Faults.{Rose};
ghost use Rattle.lab_text.specs.Readers.{ReachesEnd};
ghost use Rattle.mix_tools.specs.Answers.{AnswersCommand, EndsInput, EndsTool, ExplainsInput};
ghost use Rattle.mix_tools.specs.Answers.{HasNoKey, IfKeyless, IsReadBy, IsUnwritten};
ghost use Rattle.mix_tools.specs.Commands.{command_of};
ghost use Rattle.mix_top.specs.Commands.{OnDrive, OnLook, OnStorm, OnTool, names_drive};
ghost use Rattle.mix_top.specs.Headline.{AnswersScript};
ghost use Rattle.mix_top.specs.Look.{AnswersLook, look_of};
ghost use Rattle.mix_top.specs.Storm.{storm_of};
ghost use Rattle.mix_top.specs.StormHeadline.{AnswersStorm};

use crate::bench::Bench;
use crate::drive::drive;
use crate::look::{look_at_disks, read_look};
use crate::storm::{read_storm, storm};
use lab_text::Status;
use mix_base::{Sink, Source};
use mix_tools::tool;
use replay_disk::{CrashRack, Rack};
use std::alloc::Global;

/// Runs the command that the words name: `drive` reads a script from the source, drives a node over the bench's laboratory
/// disks, and writes its report to the sink; `storm` drives a node over these disks by its words alone, and writes a summary;
/// `look` reads the first kept disks, and writes what their journals come to; the tools' commands are those of `tool`. `Words`
/// comes exactly where the words are no form of a command, and then source, sink and bench are as they were. Asks 16
/// laboratory disks and 32 kept ones, and leaves each in its place.
pub fn mix_command<I: Source, O: Sink, C: CrashRack, K: Rack>(
    alloc: Global,
    words: &[String],
    source: &mut I,
    sink: &mut O,
    bench: &mut Bench<C, K>,
) -> Status
    requires lab { length bench.old.lab.items ≡ 16 }
    requires kept { length bench.old.kept.items ≡ 32 }
    ensures forms { (result ≡ Status.Words) ↔
        ((names_drive (map string_bytes words.now) ≡ false)
        × (storm_of (map string_bytes words.now) ≡ None)
        × (look_of (map string_bytes words.now) ≡ None)
        × (command_of (map string_bytes words.now) ≡ None)) }
    ensures untouched { result ≡ Status.Words → (source.new ≡ source.old) × (sink.new ≡ sink.old) }

    // `drive`: the headline, of the script that the source tells, the report that the sink tells, and the disks.
    ensures headline { OnDrive (map string_bytes words.now)
        (AnswersScript C.tells (I.left source.old) result
        (O.given sink.old) (O.given sink.new)
        (map C.state bench.old.lab.items) (map C.state bench.new.lab.items)) }
    ensures end { OnDrive (map string_bytes words.now)
        (result ≡ Status.Done → ReachesEnd (I.left source.old) (I.left source.new)) }

    // `storm`: the same of the events of its words, and the summary of their report, for which nothing is read.
    ensures storm { OnStorm (map string_bytes words.now) (λ named.
        AnswersStorm C.tells named result (O.given sink.old) (O.given sink.new)
        (map C.state bench.old.lab.items) (map C.state bench.new.lab.items)) }
    ensures storm_reads_nothing { OnStorm (map string_bytes words.now) (λ named.
        source.new ≡ source.old) }

    // `look`: where the kept disks tell what they hold, just the lines of their journals are given, once all were read; the
    // disks are only read, and nothing else is.
    ensures look { OnLook (map string_bytes words.now) (λ shards.
        AnswersLook K.tells shards result (O.given sink.old) (O.given sink.new)
        (map K.state bench.old.kept.items) (map K.state bench.new.kept.items)) }
    ensures look_reads_nothing { OnLook (map string_bytes words.now) (λ shards.
        source.new ≡ source.old) }

    // No other command than `drive` and `storm` changes a laboratory disk, none but `look` a kept one, and each stays in
    // its place.
    ensures lab_stays { names_drive (map string_bytes words.now) ≡ false →
        storm_of (map string_bytes words.now) ≡ None → bench.new.lab ≡ bench.old.lab }
    ensures kept_stays { look_of (map string_bytes words.now) ≡ None →
        bench.new.kept ≡ bench.old.kept }
    ensures lab { length bench.new.lab.items ≡ 16 }
    ensures kept { length bench.new.kept.items ≡ 32 }

    // The tools: where they are told, just the text that is owed is given, and none before the input's end. Line
    // and NoKey have their cause whatever the sink tells.
    ensures tool_text { OnTool (map string_bytes words.now) (λ command.
        AnswersCommand command (I.left source.old) (O.given sink.old) (O.given sink.new) result) }
    ensures tool_cause { OnTool (map string_bytes words.now) (λ command.
        ExplainsInput command (I.left source.old) result) }
    ensures tool_kind { OnTool (map string_bytes words.now) (λ command. EndsTool result) }
    ensures tool_no_key { OnTool (map string_bytes words.now) (λ command.
        IfKeyless result (HasNoKey command)) }
    ensures tool_unwritten { OnTool (map string_bytes words.now) (λ command.
        IsUnwritten result sink.old sink.new) }
    ensures tool_end { result ≡ Status.Done → OnTool (map string_bytes words.now) (λ command.
        EndsInput command (I.left source.old) (I.left source.new)) }
    ensures tool_given_at_end { O.given sink.new ≢ O.given sink.old →
        OnTool (map string_bytes words.now) (λ command.
        EndsInput command (I.left source.old) (I.left source.new)) }
    ensures keys_reads_nothing { OnTool (map string_bytes words.now) (λ command.
        IsReadBy command source.old source.new) }

    // A fault comes only where the source or the sink has failed in this call; their counts never fall.
    ensures read_fault { result ≡ Status.ReadFault →
        Rose (I.faults source.old) (I.faults source.new) }
    ensures write_fault { result ≡ Status.WriteFault →
        Rose (O.faults sink.old) (O.faults sink.new) }
    ensures source_faults { I.faults source.old ≤ I.faults source.new }
    ensures sink_faults { O.faults sink.old ≤ O.faults sink.new }
{
    if is_drive(words) {
        return drive(alloc, source, sink, &mut bench.lab);
    }
    if let Some(named) = read_storm(words) {
        return storm(alloc, &named, sink, &mut bench.lab);
    }
    if let Some(shards) = read_look(words) {
        return look_at_disks(alloc, shards, sink, bench.kept.as_mut_slice());
    }
    match tool(alloc, words, source, sink) {
        Some(status) => status,
        None => Status::Words,
    }
}

/// Whether the words are the one word `drive`.
fn is_drive(words: &[String]) -> bool
    ensures { result ≡ names_drive (map string_bytes words.now) }
{
    match words {
        [word] => word.as_str() == "drive",
        _ => false,
    }
}
