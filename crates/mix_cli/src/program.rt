// The program as one call over a source and two sinks: the words of the command line, the command that they name, the
// text of its status, and the exit code.
ghost use Rattle.std.specs.Prelude.{◌≡◌, ◌≢◌, ◌↔◌, ◌≤◌, ◌++◌, drop, false, length, map, None, Some};
ghost use Rattle.std.specs.Prelude.{IfErr, IfOk, IfSome, IsSomeAnd, OnErr, OnOk};
ghost use Rattle.std.specs.Vec.Iter.{into_iter_items};
ghost use Rattle.mix_base.specs.Faults.{Rose};
ghost use Rattle.mix_base.specs.Writing.{GivesFront};
ghost use Rattle.lab_text.specs.Readers.{ReachesEnd};
ghost use Rattle.lab_text.specs.Statuses.{code_of, status_text};
ghost use Rattle.mix_tools.specs.Answers.{AnswersCommand, EndsInput, EndsTool, ExplainsInput};
ghost use Rattle.mix_tools.specs.Answers.{HasNoKey, IfKeyless, IsReadBy, IsUnwritten};
ghost use Rattle.mix_tools.specs.Commands.{command_of};
ghost use Rattle.mix_top.specs.Commands.{OnDrive, OnLook, OnStorm, OnTool, names_drive};
ghost use Rattle.mix_top.specs.Headline.{AnswersScript};
ghost use Rattle.mix_top.specs.Look.{AnswersLook, look_of};
ghost use Rattle.mix_top.specs.Storm.{storm_of};
ghost use Rattle.mix_top.specs.StormHeadline.{AnswersStorm};
ghost use Rattle.mix_cli.specs.Program.{OnWords, ReadsArgs};

use lab_text::{Status, code, write_status};
use mix_base::{PutFault, Sink, Source};
use mix_top::{Bench, mix_command};
use replay_disk::{CrashRack, Rack};
use std::alloc::Global;
use std::env::Args;
use std::io;

/// How the program ended.
#[derive(Drop)]
pub struct Ended {
    /// The words behind the program's name, or why there are none.
    pub words: Result<Vec<String>, Status>,
    pub status: Status,
    /// The exit code.
    pub code: u8,
    /// Whether the status's text was given to the sink of errors whole.
    pub told: Result<(), PutFault>,
}

/// Runs the command that the words behind the program's name say, and tells how it ended. Words that aren't UTF-8 are
/// the status `Words`.
pub fn run<I: Source, O: Sink, E: Sink, C: CrashRack, K: Rack>(
    alloc: Global,
    args: io::Result<Args>,
    source: &mut I,
    sink: &mut O,
    errors: &mut E,
    bench: &mut Bench<C, K>,
) -> Ended
    requires lab { length bench.old.lab.items ≡ 16 }
    requires kept { length bench.old.kept.items ≡ 32 }
    // The words are all those behind the program's name, or there are none.
    ensures words { ReadsArgs args result.words }
    ensures no_words { IfErr result.words (λ status. result.status ≡ status) }

    // The code is the status's.
    ensures code { result.code ≡ code_of result.status }

    // The text of the status is given whole, or a front of it where the sink of errors failed or wanted memory.
    ensures whole { OnOk result.told (IfSome (E.given errors.old) (λ before.
        E.given errors.new ≡ Some (before ++ status_text result.status))) }
    ensures front { OnErr result.told (IfSome (E.given errors.old) (λ before.
        IsSomeAnd (E.given errors.new) (λ after.
        GivesFront before after (status_text result.status)))) }

    // The rest is what `mix_command` promises at these words.
    ensures forms { OnWords result.words (λ words. (result.status ≡ Status.Words) ↔
        ((names_drive words ≡ false) × (storm_of words ≡ None)
        × (look_of words ≡ None) × (command_of words ≡ None))) }
    ensures untouched { result.status ≡ Status.Words →
        (source.new ≡ source.old) × (sink.new ≡ sink.old) }
    ensures headline { OnWords result.words (λ words. OnDrive words
        (AnswersScript C.tells (I.left source.old) result.status
        (O.given sink.old) (O.given sink.new)
        (map C.state bench.old.lab.items) (map C.state bench.new.lab.items))) }
    ensures storm { OnWords result.words (λ words. OnStorm words (λ named.
        AnswersStorm C.tells named result.status (O.given sink.old) (O.given sink.new)
        (map C.state bench.old.lab.items) (map C.state bench.new.lab.items))) }
    ensures storm_reads_nothing { OnWords result.words (λ words. OnStorm words (λ named.
        source.new ≡ source.old)) }
    ensures look { OnWords result.words (λ words. OnLook words (λ shards.
        AnswersLook K.tells shards result.status (O.given sink.old) (O.given sink.new)
        (map K.state bench.old.kept.items) (map K.state bench.new.kept.items))) }
    ensures look_reads_nothing { OnWords result.words (λ words. OnLook words (λ shards.
        source.new ≡ source.old)) }
    ensures lab_stays { OnWords result.words (λ words.
        names_drive words ≡ false → storm_of words ≡ None → bench.new.lab ≡ bench.old.lab) }
    ensures kept_stays { OnWords result.words (λ words.
        look_of words ≡ None → bench.new.kept ≡ bench.old.kept) }
    ensures end { OnWords result.words (λ words. OnDrive words
        (result.status ≡ Status.Done → ReachesEnd (I.left source.old) (I.left source.new))) }
    ensures tool_text { OnWords result.words (λ words. OnTool words (λ command.
        AnswersCommand command (I.left source.old)
        (O.given sink.old) (O.given sink.new) result.status)) }
    ensures tool_cause { OnWords result.words (λ words. OnTool words (λ command.
        ExplainsInput command (I.left source.old) result.status)) }
    ensures tool_kind { OnWords result.words (λ words.
        OnTool words (λ command. EndsTool result.status)) }
    ensures tool_no_key { OnWords result.words (λ words. OnTool words (λ command.
        IfKeyless result.status (HasNoKey command))) }
    ensures tool_unwritten { OnWords result.words (λ words. OnTool words (λ command.
        IsUnwritten result.status sink.old sink.new)) }
    ensures tool_end { result.status ≡ Status.Done →
        OnWords result.words (λ words. OnTool words (λ command.
        EndsInput command (I.left source.old) (I.left source.new))) }
    ensures tool_given_at_end { O.given sink.new ≢ O.given sink.old →
        OnWords result.words (λ words. OnTool words (λ command.
        EndsInput command (I.left source.old) (I.left source.new))) }
    ensures keys_reads_nothing { OnWords result.words (λ words. OnTool words (λ command.
        IsReadBy command source.old source.new)) }
    ensures read_fault { result.status ≡ Status.ReadFault →
        Rose (I.faults source.old) (I.faults source.new) }
    ensures write_fault { result.status ≡ Status.WriteFault →
        Rose (O.faults sink.old) (O.faults sink.new) }
    ensures source_faults { I.faults source.old ≤ I.faults source.new }
    ensures sink_faults { O.faults sink.old ≤ O.faults sink.new }
{
    let words = command_words(alloc, args);
    let status = match &words {
        Ok(words) => mix_command(alloc, words.as_slice(), source, sink, bench),
        Err(status) => *status,
    };
    let told = write_status(alloc, errors, &status);
    let code = code(&status);
    Ended {
        words,
        status,
        code,
        told,
    }
}

/// How the program ends where there is no memory for its disks: with the status `Memory`, whatever the words are.
pub fn run_without_disks<E: Sink>(alloc: Global, errors: &mut E) -> Ended
    ensures code { result.code ≡ code_of Status.Memory }
    ensures whole { OnOk result.told (IfSome (E.given errors.old) (λ before.
        E.given errors.new ≡ Some (before ++ status_text Status.Memory))) }
    ensures front { OnErr result.told (IfSome (E.given errors.old) (λ before.
        IsSomeAnd (E.given errors.new)
        (λ after. GivesFront before after (status_text Status.Memory)))) }
{
    let told = write_status(alloc, errors, &Status::Memory);
    Ended {
        words: Err(Status::Memory),
        status: Status::Memory,
        code: code(&Status::Memory),
        told,
    }
}

// The words behind the program's name.
fn command_words(alloc: Global, args: io::Result<Args>) -> Result<Vec<String>, Status>
    ensures exact { ReadsArgs args result }
    ensures no_read { IfErr result (λ status. status ≢ Status.ReadFault) }
    ensures no_write { IfErr result (λ status. status ≢ Status.WriteFault) }
{
    match args {
        Ok(args) => words_behind(alloc, args),
        Err(error) => {
            if error.kind() == io::ErrorKind::OutOfMemory {
                Err(Status::Memory)
            } else {
                Err(Status::Words)
            }
        }
    }
}

// All arguments but the first.
fn words_behind(alloc: Global, args: Args) -> Result<Vec<String>, Status>
    ensures words { IfOk result (λ words. words.items ≡ drop 1 (into_iter_items args)) }
    ensures memory { IfErr result (λ status. status ≡ Status.Memory) }
{
    let mut args = args;
    let _name = args.next();
    let mut words = Vec::new(alloc);
    'words: while let Some(word) = args.next() {
        if words.push(word).is_err() {
            return Err(Status::Memory);
        }
    }
    Ok(words)
}
