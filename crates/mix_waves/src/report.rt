// The report of a run: its lines in their order, and each given to the sink.
ghost use Rattle.std.specs.Prelude.{◌≡◌, ℕ, ◌+◌, ◌≤◌, ◌++◌, List, length, map, Some, IfOk, IfSome, IsSomeAnd, OnOk, OnErr, IsErrOf, string_bytes};
ghost use Rattle.mix_base.specs.Faults.{Rose};
ghost use Rattle.mix_base.specs.Writing.{GivesFront};
ghost use Rattle.std.specs.List.{count_by, flat_map};
ghost use Rattle.mix_waves.specs.Report as reports;

use crate::fates::{MessageFate, ReplyFate};
use mix_base::{PutFault, Sink};
use std::alloc::{AllocError, Global};

/// What the report says of a shard of a node.
#[derive(Clone, Copy, Debug, PartialEq, Eq)]
pub struct ShardCount {
    /// The node's number.
    pub node: u32,
    pub shard: u8,
    /// The spent pairs of its journal.
    pub spent: u64,
    /// The packets that it handed on, in both waves.
    pub handed: u64,
}

/// A line of the report.
#[derive(Clone, Copy, Debug, PartialEq, Eq)]
pub enum ReportLine {
    /// Of the first wave.
    Messages { sent: usize, delivered: usize },
    Message { number: u32, delivered: bool },
    /// Of the second wave.
    Replies { sent: usize, opened: usize },
    Reply { number: u32, fate: ReplyFate },
    Node { count: ShardCount },
}

/// The lines of the report on these messages and these shards.
pub fn report_lines(
    alloc: Global,
    messages: &[MessageFate],
    counts: &[ShardCount],
) -> Result<Vec<ReportLine>, AllocError>
    ensures { IfOk result (λ lines. lines.items ≡ reports.all_lines messages.now counts.now) }
{
    let delivered = count_delivered(messages);
    let mut lines = Vec::new(alloc);
    lines.push(ReportLine::Messages {
        sent: messages.len(),
        delivered,
    })?;
    add_messages(&mut lines, messages)?;
    lines.push(ReportLine::Replies {
        sent: delivered,
        opened: count_opened(messages),
    })?;
    add_replies(&mut lines, messages)?;
    add_counts(&mut lines, counts)?;
    Ok(lines)
}

/// How many messages were delivered.
fn count_delivered(messages: &[MessageFate]) -> usize
    ensures { result ≡ count_by reports.was_delivered messages.now }
{
    let mut count = 0;
    'messages: for message in messages {
        if message.reply.is_some() {
            count += 1;
        }
    }
    count
}

/// How many replies were opened.
fn count_opened(messages: &[MessageFate]) -> usize
    ensures { result ≡ count_by reports.was_opened messages.now }
{
    let mut count = 0;
    'messages: for message in messages {
        if let Some(ReplyFate::Opened) = message.reply {
            count += 1;
        }
    }
    count
}

/// Adds a line for each message.
fn add_messages(lines: &mut Vec<ReportLine>, messages: &[MessageFate]) -> Result<(), AllocError>
    ensures { OnOk result (lines.new.items ≡ lines.old.items
        ++ map reports.message_line messages.now) }
{
    'messages: for message in messages {
        lines.push(ReportLine::Message {
            number: message.number,
            delivered: message.reply.is_some(),
        })?;
    }
    Ok(())
}

/// Adds a line for the reply to each message that was delivered.
fn add_replies(lines: &mut Vec<ReportLine>, messages: &[MessageFate]) -> Result<(), AllocError>
    ensures { OnOk result (lines.new.items ≡ lines.old.items
        ++ flat_map reports.reply_lines_of messages.now) }
{
    'messages: for message in messages {
        if let Some(fate) = message.reply {
            lines.push(ReportLine::Reply {
                number: message.number,
                fate,
            })?;
        }
    }
    Ok(())
}

/// Adds a line for each shard.
fn add_counts(lines: &mut Vec<ReportLine>, counts: &[ShardCount]) -> Result<(), AllocError>
    ensures { OnOk result (lines.new.items ≡ lines.old.items ++ map reports.node_line counts.now) }
{
    'counts: for count in counts {
        lines.push(ReportLine::Node { count: *count })?;
    }
    Ok(())
}

/// Gives the report to the sink, line by line. After an `Err` a front of it was given.
pub fn write_report<O: Sink>(
    alloc: Global,
    sink: &mut O,
    messages: &[MessageFate],
    counts: &[ShardCount],
) -> Result<(), PutFault>
    ensures whole { OnOk result (IfSome (O.given sink.old) (λ before.
        O.given sink.new ≡ Some (before ++ reports.report_text messages.now counts.now))) }
    ensures front { OnErr result (IfSome (O.given sink.old) (λ before. IsSomeAnd (O.given sink.new)
        (λ after. GivesFront before after (reports.report_text messages.now counts.now)))) }
    ensures fault { IsErrOf result PutFault.WriteFault →
        Rose (O.faults sink.old) (O.faults sink.new) }
    ensures count { O.faults sink.old ≤ O.faults sink.new }
{
    let lines = report_lines(alloc, messages, counts)?;
    put_lines(alloc, sink, &lines)
}

/// Gives the texts of lines to the sink.
fn put_lines<O: Sink>(alloc: Global, sink: &mut O, lines: &[ReportLine]) -> Result<(), PutFault>
    ensures whole { OnOk result (IfSome (O.given sink.old) (λ before.
        O.given sink.new ≡ Some (before ++ flat_map reports.text_of lines.now))) }
    ensures front { OnErr result (IfSome (O.given sink.old) (λ before. IsSomeAnd (O.given sink.new)
        (λ after. GivesFront before after (flat_map reports.text_of lines.now)))) }
    ensures fault { IsErrOf result PutFault.WriteFault →
        Rose (O.faults sink.old) (O.faults sink.new) }
    ensures count { O.faults sink.old ≤ O.faults sink.new }
{
    'lines: for line in lines {
        let text = spell(alloc, line)?;
        sink.put(alloc, text.as_bytes())?;
    }
    Ok(())
}

/// The text of a line, with its line feed.
fn spell(alloc: Global, line: &ReportLine) -> Result<String, AllocError>
    ensures { IfOk result (λ text. string_bytes text ≡ reports.text_of line.now) }
{
    match *line {
        ReportLine::Messages { sent, delivered } => {
            format!(in alloc; "wave 1 sent {sent} delivered {delivered}\n")
        }
        ReportLine::Message { number, delivered } => {
            let word = message_word(delivered);
            format!(in alloc; "message {number} {word}\n")
        }
        ReportLine::Replies { sent, opened } => spell_replies(alloc, sent, opened),
        ReportLine::Reply { number, fate } => {
            let word = reply_word(fate);
            format!(in alloc; "reply {number} {word}\n")
        }
        ReportLine::Node { count } => spell_count(alloc, &count),
    }
}

/// The text of the second wave's first line.
fn spell_replies(alloc: Global, sent: usize, opened: usize) -> Result<String, AllocError>
    ensures { IfOk result (λ text.
        string_bytes text ≡ reports.text_of (reports.replies_line sent opened)) }
{
    format!(in alloc; "wave 2 sent {sent} opened {opened}\n")
}

/// The text of a shard's line.
fn spell_count(alloc: Global, count: &ShardCount) -> Result<String, AllocError>
    ensures { IfOk result (λ text.
        string_bytes text ≡ reports.text_of (reports.node_line count.now)) }
{
    let ShardCount {
        node,
        shard,
        spent,
        handed,
    } = *count;
    format!(in alloc; "node {node} shard {shard} spent {spent} handed {handed}\n")
}

/// What the line of a message says.
fn message_word(delivered: bool) -> &'static str
    ensures { result.now ≡ reports.message_word delivered }
{
    if delivered { "delivered" } else { "lost" }
}

/// What the line of a reply says.
fn reply_word(fate: ReplyFate) -> &'static str
    ensures { result.now ≡ reports.reply_word fate }
{
    match fate {
        ReplyFate::Opened => "opened",
        ReplyFate::Damaged => "damaged",
        ReplyFate::Lost => "lost",
    }
}
