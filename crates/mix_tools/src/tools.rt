// The commands over any source and sink. Nothing is written before the whole input was read, and what is written is
// exactly the text that the input asks for.
ghost use Rattle.std.specs.Prelude.{◌≡◌, ◌≢◌, ◌↔◌, ◌≤◌, map, option_map, string_bytes};
ghost use Rattle.std.specs.Prelude.{None, Some, IfOk, IfSome, IsNone};
ghost use Rattle.mix_base.specs.Faults.{Rose};
ghost use Rattle.epoch_keys.specs.Keys.{epoch_public_key};
ghost use Rattle.lab_text.specs.Outcomes.{Says};
ghost use Rattle.lab_text.specs.Readers.{ReachesEnd};
ghost use Rattle.mix_tools.specs.Answers.{AnswersCommand, AnswersOutcome, EndsInput, EndsTool};
ghost use Rattle.mix_tools.specs.Answers.{Explains, ExplainsInput, HasNoKey, IfKeyless, IsReadBy};
ghost use Rattle.mix_tools.specs.Answers.{IsUnwritten};
ghost use Rattle.mix_tools.specs.Commands.{command_of};
ghost use Rattle.mix_tools.specs.Drafts.{IsDraftInRange, IsRequestInRange};
ghost use Rattle.mix_tools.specs.Reading.{request_of};
ghost use Rattle.mix_tools.specs.Suites.{scheme_for};
ghost use Rattle.mix_tools.specs.Texts.{answer_to, key_owed, request_answer};
ghost use Rattle.mix_tools.specs.declared.commands.Command.TheVariants.{Keys};

use crate::commands::{Command, read_command};
use crate::packets::{block_for, packet_for};
use crate::reading::read_request;
use crate::replies::{answer_for, body_for};
use crate::requests::{Draft, Request};
use crate::texts::{keeping_lines, key_line, opened_line, sending_lines};
use epoch_keys::{KeyFault, epoch_pair};
use lab_text::{LineReader, Status};
use mix_base::{Memory, PutFault, Sink, Source, Suite};
use ntru_prime::NtruSuite;
use prim_std::LabSuite;
use std::alloc::Global;

/// Runs the command that the words name: `keys SUITE SEED EPOCH` writes the public key of an epoch; `make` reads a
/// request and writes its packet or reply block; `answer` and `open` answer a block and open what came back. None comes
/// exactly where the words are no form of a command, and then source and sink are as they were.
pub fn tool<I: Source, O: Sink>(
    alloc: Global,
    words: &[String],
    source: &mut I,
    sink: &mut O,
) -> Option<Status>
    ensures forms { IsNone result ↔ (command_of (map string_bytes words.now) ≡ None) }
    ensures untouched { IsNone result → (source.new ≡ source.old) × (sink.new ≡ sink.old) }

    // Where the source tells the input and the sink what it is given, just the text that is owed is given.
    ensures text { IfSome result (λ status.
        IfSome (command_of (map string_bytes words.now)) (λ command.
        AnswersCommand command (I.left source.old) (O.given sink.old) (O.given sink.new) status)) }
    ensures not_words { result ≢ Some Status.Words }
    ensures kind { IfSome result EndsTool }

    // Line and NoKey have their cause wherever the source tells the input, whatever the sink tells; and NoKey, which
    // comes from `keys` alone, also where nothing is told.
    ensures cause { IfSome result (λ status.
        IfSome (command_of (map string_bytes words.now)) (λ command.
        ExplainsInput command (I.left source.old) status)) }
    ensures no_key { IfSome result (λ status.
        IfSome (command_of (map string_bytes words.now)) (λ command.
        IfKeyless status (HasNoKey command))) }

    // What is left as it was: the sink where the input stops or an epoch has no key, and the source of `keys`.
    ensures unwritten { IfSome result (λ status. IsUnwritten status sink.old sink.new) }
    ensures keys_reads_nothing { IfSome (command_of (map string_bytes words.now)) (λ command.
        IsReadBy command source.old source.new) }

    // Nothing is given before the input was read to its end; `keys` reads nothing.
    ensures end { result ≡ Some Status.Done →
        IfSome (command_of (map string_bytes words.now)) (λ command.
        EndsInput command (I.left source.old) (I.left source.new)) }
    ensures given_at_end { O.given sink.new ≢ O.given sink.old →
        IfSome (command_of (map string_bytes words.now)) (λ command.
        EndsInput command (I.left source.old) (I.left source.new)) }

    // A fault comes only where the source or the sink has failed in this call.
    ensures read_fault { result ≡ Some Status.ReadFault →
        Rose (I.faults source.old) (I.faults source.new) }
    ensures write_fault { result ≡ Some Status.WriteFault →
        Rose (O.faults sink.old) (O.faults sink.new) }
    ensures source_faults { I.faults source.old ≤ I.faults source.new }
    ensures sink_faults { O.faults sink.old ≤ O.faults sink.new }
{
    match read_command(words)? {
        Command::Keys { ntru, seed, epoch } => Some(answer_keys(alloc, sink, ntru, &seed, epoch)),
        Command::Make => Some(answer_request(alloc, Draft::Making, source, sink)),
        Command::Answer => Some(answer_request(alloc, Draft::Answering, source, sink)),
        Command::Open => Some(answer_request(alloc, Draft::Opening, source, sink)),
    }
}

// Writes the public key of an epoch in a suite.
fn answer_keys<O: Sink>(
    alloc: Global,
    sink: &mut O,
    ntru: bool,
    seed: &[u8; 32],
    epoch: u64,
) -> Status
    ensures text { AnswersOutcome
        (Some (key_owed epoch (epoch_public_key (scheme_for ntru) seed.now epoch)))
        (O.given sink.old) (O.given sink.new) result }
    ensures cause { Explains
        (key_owed epoch (epoch_public_key (scheme_for ntru) seed.now epoch)) result }
    ensures no_key { IfKeyless result (HasNoKey (Keys ntru seed.now epoch)) }
    ensures unwritten { IsUnwritten result sink.old sink.new }
    ensures not_words { result ≢ Status.Words }
    ensures kind { EndsTool result }
    ensures not_read { result ≢ Status.ReadFault }
    ensures write_fault { result ≡ Status.WriteFault →
        Rose (O.faults sink.old) (O.faults sink.new) }
    ensures faults { O.faults sink.old ≤ O.faults sink.new }
{
    if ntru {
        write_key::<NtruSuite, O>(alloc, sink, seed, epoch)
    } else {
        write_key::<LabSuite, O>(alloc, sink, seed, epoch)
    }
}

// Writes the public key of an epoch, where its words make a pair.
fn write_key<S: Suite, O: Sink>(alloc: Global, sink: &mut O, seed: &[u8; 32], epoch: u64) -> Status
    ensures text { AnswersOutcome
        (Some (key_owed epoch (epoch_public_key S.meaning.kem seed.now epoch)))
        (O.given sink.old) (O.given sink.new) result }
    ensures cause { Explains
        (key_owed epoch (epoch_public_key S.meaning.kem seed.now epoch)) result }
    ensures no_key { IfKeyless result (λ named.
        (named ≡ epoch) × (epoch_public_key S.meaning.kem seed.now epoch ≡ None)) }
    ensures unwritten { IsUnwritten result sink.old sink.new }
    ensures not_words { result ≢ Status.Words }
    ensures kind { EndsTool result }
    ensures not_read { result ≢ Status.ReadFault }
    ensures write_fault { result ≡ Status.WriteFault →
        Rose (O.faults sink.old) (O.faults sink.new) }
    ensures faults { O.faults sink.old ≤ O.faults sink.new }
{
    match epoch_pair::<S>(alloc, seed, epoch) {
        Ok(key) => match key_line(alloc, epoch, key.pk.as_slice()) {
            Ok(text) => give(alloc, sink, &text),
            Err(_) => Status::Memory,
        },
        Err(KeyFault::NoKey { epoch }) => Status::NoKey { epoch },
        Err(KeyFault::Memory) => Status::Memory,
    }
}

// Reads a request to the end of the input, and writes its answer.
fn answer_request<I: Source, O: Sink>(
    alloc: Global,
    draft: Draft,
    source: &mut I,
    sink: &mut O,
) -> Status
    requires { IsDraftInRange draft }
    ensures text { AnswersOutcome
        (option_map (λ text. answer_to (request_of draft text)) (I.left source.old))
        (O.given sink.old) (O.given sink.new) result }
    ensures cause { IfSome
        (option_map (λ text. answer_to (request_of draft text)) (I.left source.old))
        (λ outcome. Explains outcome result) }
    ensures keyed { IfKeyless result (λ epoch. ⊥) }
    ensures unwritten { IsUnwritten result sink.old sink.new }
    ensures end { result ≡ Status.Done → ReachesEnd (I.left source.old) (I.left source.new) }
    ensures given_at_end { O.given sink.new ≢ O.given sink.old →
        ReachesEnd (I.left source.old) (I.left source.new) }
    ensures not_words { result ≢ Status.Words }
    ensures kind { EndsTool result }
    ensures read_fault { result ≡ Status.ReadFault →
        Rose (I.faults source.old) (I.faults source.new) }
    ensures write_fault { result ≡ Status.WriteFault →
        Rose (O.faults sink.old) (O.faults sink.new) }
    ensures source_faults { I.faults source.old ≤ I.faults source.new }
    ensures sink_faults { O.faults sink.old ≤ O.faults sink.new }
{
    let mut reader = LineReader::new(alloc, source);
    let read = read_request(alloc, &mut reader, draft);
    let _ = reader.into_source();
    match read {
        Ok(request) => write_answer(alloc, sink, &request),
        Err(status) => status,
    }
}

// Writes the answer to a request.
fn write_answer<O: Sink>(alloc: Global, sink: &mut O, request: &Request) -> Status
    requires { IsRequestInRange request.now }
    ensures text { AnswersOutcome (Some (Says (request_answer request.now)))
        (O.given sink.old) (O.given sink.new) result }
    ensures cause { Explains (Says (request_answer request.now)) result }
    ensures keyed { IfKeyless result (λ epoch. ⊥) }
    ensures unwritten { IsUnwritten result sink.old sink.new }
    ensures not_words { result ≢ Status.Words }
    ensures kind { EndsTool result }
    ensures not_read { result ≢ Status.ReadFault }
    ensures write_fault { result ≡ Status.WriteFault →
        Rose (O.faults sink.old) (O.faults sink.new) }
    ensures faults { O.faults sink.old ≤ O.faults sink.new }
{
    match answer_text(alloc, request) {
        Ok(text) => give(alloc, sink, &text),
        Err(Memory) => Status::Memory,
    }
}

// The text of the answer to a request.
fn answer_text(alloc: Global, request: &Request) -> Result<String, Memory>
    requires { IsRequestInRange request.now }
    ensures { IfOk result (λ text. string_bytes text ≡ request_answer request.now) }
{
    match request {
        Request::Packet { packet } => {
            let made = packet_for(alloc, packet)?;
            Ok(sending_lines(alloc, packet.hops.first_id(), &made)?)
        }
        Request::Block { block } => {
            let made = block_for(alloc, block)?;
            Ok(keeping_lines(alloc, &made)?)
        }
        Request::Answer { answer } => {
            let made = answer_for(alloc, answer)?;
            Ok(sending_lines(alloc, &made.first, made.packet.as_slice())?)
        }
        Request::Open { opening } => opened_line(alloc, body_for(alloc, opening)),
    }
}

// Gives a whole text.
fn give<O: Sink>(alloc: Global, sink: &mut O, text: &String) -> Status
    ensures text { AnswersOutcome (Some (Says (string_bytes text.now)))
        (O.given sink.old) (O.given sink.new) result }
    ensures cause { Explains (Says (string_bytes text.now)) result }
    ensures keyed { IfKeyless result (λ epoch. ⊥) }
    ensures unwritten { IsUnwritten result sink.old sink.new }
    ensures not_words { result ≢ Status.Words }
    ensures kind { EndsTool result }
    ensures not_read { result ≢ Status.ReadFault }
    ensures write_fault { result ≡ Status.WriteFault →
        Rose (O.faults sink.old) (O.faults sink.new) }
    ensures faults { O.faults sink.old ≤ O.faults sink.new }
{
    match sink.put(alloc, text.as_bytes()) {
        Ok(()) => Status::Done,
        Err(PutFault::WriteFault) => Status::WriteFault,
        Err(PutFault::Memory) => Status::Memory,
    }
}
