// How a run ends: the statuses, with their exit codes and the texts for standard error.
ghost use Rattle.std.specs.Prelude.{◌≡◌, ◌≤◌, [], ◌∷◌, ◌++◌, Some, IfSome, IsSomeAnd};
ghost use Rattle.std.specs.Prelude.{IfOk, OnOk, OnErr, IsErrOf};
ghost use Rattle.std.specs.Fmt.{decimal};
ghost use Rattle.std.specs.String.{string_bytes};
ghost use Rattle.mix_base.specs.Faults.{Rose};
ghost use Rattle.mix_base.specs.Writing.{GivesFront};
ghost use Rattle.lab_text.specs.Statuses.{code_of, shape_word, status_text};
ghost use Rattle.lab_text.specs.declared.statuses.Status.TheVariants.{Disk, Foreign, Key, OtherShape};

use crate::{ConfigFault, LineFault, key_name};
use mix_base::{PutFault, Shape, Sink};
use std::alloc::{AllocError, Global};

/// How a run ends.
#[derive(Clone, Copy, Debug, PartialEq, Eq)]
pub enum Status {
    /// The input was read to its end, and all output was given.
    Done,
    /// The words are no form of a command.
    Words,
    /// The line of this number is the first outside the grammar.
    Line {
        line: u64,
    },
    /// The key at this place is the first of the settings that is bad.
    Key {
        key: u8,
    },
    /// The source failed.
    ReadFault,
    /// The sink failed.
    WriteFault,
    /// The journal of this shard holds what no store has written: in this area, at this byte.
    Foreign {
        node: u32,
        shard: u8,
        area: u8,
        at: u64,
    },
    /// The journal of this shard was made for another number of shards, or for another index.
    OtherShape {
        node: u32,
        shard: u8,
        stored: Shape,
        asked: Shape,
    },
    Memory,
    /// A thread didn't start.
    NoThread,
    /// The words of this epoch make no key pair.
    NoKey {
        epoch: u64,
    },
    /// A line from node to node didn't come about.
    NoLine,
    /// The disk of this shard failed.
    Disk {
        node: u32,
        shard: u8,
    },
}

impl From<LineFault> for Status {
    ghost use Rattle.lab_text.specs.Statuses.{line_status};

    ghost from_gives = { λ fault status. status ≡ line_status fault };

    fn from(fault: LineFault) -> Status {
        match fault {
            LineFault::BadLine { number } => Status::Line { line: number },
            LineFault::ReadFault => Status::ReadFault,
            LineFault::Memory => Status::Memory,
        }
    }
}

impl From<ConfigFault> for Status {
    ghost use Rattle.lab_text.specs.Statuses.{config_status};

    ghost from_gives = { λ fault status. status ≡ config_status fault };

    fn from(fault: ConfigFault) -> Status {
        match fault {
            ConfigFault::BadConfig { key } => Status::Key { key },
            ConfigFault::Memory => Status::Memory,
        }
    }
}

impl From<PutFault> for Status {
    ghost use Rattle.lab_text.specs.Statuses.{put_status};

    ghost from_gives = { λ fault status. status ≡ put_status fault };

    fn from(fault: PutFault) -> Status {
        match fault {
            PutFault::WriteFault => Status::WriteFault,
            PutFault::Memory => Status::Memory,
        }
    }
}

/// The exit code of a status.
pub fn code(status: &Status) -> u8
    ensures { result ≡ code_of status.now }
{
    match status {
        Status::Done => 0,
        Status::Words => 1,
        Status::Line { .. } | Status::Key { .. } => 2,
        Status::ReadFault => 3,
        Status::WriteFault => 4,
        Status::Foreign { .. } | Status::OtherShape { .. } => 5,
        Status::Memory => 6,
        Status::NoThread => 7,
        Status::NoKey { .. } => 8,
        Status::NoLine => 9,
        Status::Disk { .. } => 10,
    }
}

/// Gives the text of a status to the sink. After an `Err` a front of it was given.
pub fn write_status<O: Sink>(alloc: Global, sink: &mut O, status: &Status) -> Result<(), PutFault>
    ensures whole { OnOk result (IfSome (O.given sink.old) (λ before.
        O.given sink.new ≡ Some (before ++ status_text status.now))) }
    ensures front { OnErr result (IfSome (O.given sink.old) (λ before.
        IsSomeAnd (O.given sink.new) (λ after. GivesFront before after (status_text status.now)))) }
    ensures fault { IsErrOf result PutFault.WriteFault →
        Rose (O.faults sink.old) (O.faults sink.new) }
    ensures count { O.faults sink.old ≤ O.faults sink.new }
{
    match status {
        Status::Done => sink.put(alloc, b""),
        Status::Words => sink.put(alloc, b"mix: words\n"),
        Status::Line { line } => write_line(alloc, sink, "mix: line ", *line),
        Status::Key { key } => write_key(alloc, sink, *key),
        Status::ReadFault => sink.put(alloc, b"mix: read fault\n"),
        Status::WriteFault => sink.put(alloc, b"mix: write fault\n"),
        Status::Foreign {
            node,
            shard,
            area,
            at,
        } => write_foreign(alloc, sink, *node, *shard, *area, *at),
        Status::OtherShape {
            node,
            shard,
            stored,
            asked,
        } => write_other_shape(alloc, sink, *node, *shard, stored, asked),
        Status::Memory => sink.put(alloc, b"mix: memory\n"),
        Status::NoThread => sink.put(alloc, b"mix: no thread\n"),
        Status::NoKey { epoch } => write_line(alloc, sink, "mix: no key for epoch ", *epoch),
        Status::NoLine => sink.put(alloc, b"mix: no line\n"),
        Status::Disk { node, shard } => write_disk(alloc, sink, *node, *shard),
    }
}

// Gives a text, a number and a line feed.
fn write_line<O: Sink>(alloc: Global, sink: &mut O, text: &str, line: u64) -> Result<(), PutFault>
    ensures whole { OnOk result (IfSome (O.given sink.old) (λ before.
        O.given sink.new ≡ Some (before ++ (text.now ++ decimal line ++ 10 ∷ [])))) }
    ensures front { OnErr result (IfSome (O.given sink.old) (λ before.
        IsSomeAnd (O.given sink.new) (λ after.
        GivesFront before after (text.now ++ decimal line ++ 10 ∷ [])))) }
    ensures fault { IsErrOf result PutFault.WriteFault →
        Rose (O.faults sink.old) (O.faults sink.new) }
    ensures count { O.faults sink.old ≤ O.faults sink.new }
{
    match line_text(alloc, text, line) {
        Ok(piece) => sink.put(alloc, piece.as_bytes()),
        Err(_) => Err(PutFault::Memory),
    }
}

// A text, a number and a line feed.
fn line_text(alloc: Global, text: &str, line: u64) -> Result<String, AllocError>
    ensures { IfOk result (λ piece. string_bytes piece ≡ text.now ++ decimal line ++ 10 ∷ []) }
{
    format!(in alloc; "{text}{line}\n")
}

// Gives the text of a key that is bad.
fn write_key<O: Sink>(alloc: Global, sink: &mut O, key: u8) -> Result<(), PutFault>
    ensures whole { OnOk result (IfSome (O.given sink.old) (λ before.
        O.given sink.new ≡ Some (before ++ status_text (Key key)))) }
    ensures front { OnErr result (IfSome (O.given sink.old) (λ before.
        IsSomeAnd (O.given sink.new) (λ after.
        GivesFront before after (status_text (Key key))))) }
    ensures fault { IsErrOf result PutFault.WriteFault →
        Rose (O.faults sink.old) (O.faults sink.new) }
    ensures count { O.faults sink.old ≤ O.faults sink.new }
{
    match key_text(alloc, key) {
        Ok(piece) => sink.put(alloc, piece.as_bytes()),
        Err(_) => Err(PutFault::Memory),
    }
}

// The text of a key that is bad.
fn key_text(alloc: Global, key: u8) -> Result<String, AllocError>
    ensures { IfOk result (λ piece. string_bytes piece ≡ status_text (Key key)) }
{
    let name = key_name(key);
    format!(in alloc; "mix: key {name}\n")
}

// Gives the text of a journal that holds what no store has written.
fn write_foreign<O: Sink>(
    alloc: Global,
    sink: &mut O,
    node: u32,
    shard: u8,
    area: u8,
    at: u64,
) -> Result<(), PutFault>
    ensures whole { OnOk result (IfSome (O.given sink.old) (λ before.
        O.given sink.new ≡ Some (before ++ status_text (Foreign node shard area at)))) }
    ensures front { OnErr result (IfSome (O.given sink.old) (λ before.
        IsSomeAnd (O.given sink.new) (λ after.
        GivesFront before after (status_text (Foreign node shard area at))))) }
    ensures fault { IsErrOf result PutFault.WriteFault →
        Rose (O.faults sink.old) (O.faults sink.new) }
    ensures count { O.faults sink.old ≤ O.faults sink.new }
{
    match foreign_text(alloc, node, shard, area, at) {
        Ok(piece) => sink.put(alloc, piece.as_bytes()),
        Err(_) => Err(PutFault::Memory),
    }
}

// The text of a journal that holds what no store has written.
fn foreign_text(
    alloc: Global,
    node: u32,
    shard: u8,
    area: u8,
    at: u64,
) -> Result<String, AllocError>
    ensures { IfOk result (λ piece.
        string_bytes piece ≡ status_text (Foreign node shard area at)) }
{
    format!(in alloc; "mix: journal {node} {shard} foreign area {area} at {at}\n")
}

// Gives the text of a journal that was made for another shape.
fn write_other_shape<O: Sink>(
    alloc: Global,
    sink: &mut O,
    node: u32,
    shard: u8,
    stored: &Shape,
    asked: &Shape,
) -> Result<(), PutFault>
    ensures whole { OnOk result (IfSome (O.given sink.old) (λ before.
        O.given sink.new ≡
        Some (before ++ status_text (OtherShape node shard stored.now asked.now)))) }
    ensures front { OnErr result (IfSome (O.given sink.old) (λ before.
        IsSomeAnd (O.given sink.new) (λ after.
        GivesFront before after (status_text (OtherShape node shard stored.now asked.now))))) }
    ensures fault { IsErrOf result PutFault.WriteFault →
        Rose (O.faults sink.old) (O.faults sink.new) }
    ensures count { O.faults sink.old ≤ O.faults sink.new }
{
    match shape_text(alloc, node, shard, stored, asked) {
        Ok(piece) => sink.put(alloc, piece.as_bytes()),
        Err(_) => Err(PutFault::Memory),
    }
}

// The text of a journal that was made for another shape.
fn shape_text(
    alloc: Global,
    node: u32,
    shard: u8,
    stored: &Shape,
    asked: &Shape,
) -> Result<String, AllocError>
    ensures { IfOk result (λ piece.
        string_bytes piece ≡ status_text (OtherShape node shard stored.now asked.now)) }
{
    let stored = shape_word(alloc, stored)?;
    let asked = shape_word(alloc, asked)?;
    format!(in alloc; "mix: journal {node} {shard} stored {stored} asked {asked}\n")
}

// Which shard of how many, as N/I.
fn shape_word(alloc: Global, shape: &Shape) -> Result<String, AllocError>
    ensures { IfOk result (λ word. string_bytes word ≡ shape_word shape.now) }
{
    let (shards, index) = (shape.shards, shape.index);
    format!(in alloc; "{shards}/{index}")
}

// Gives the text of a disk that failed.
fn write_disk<O: Sink>(alloc: Global, sink: &mut O, node: u32, shard: u8) -> Result<(), PutFault>
    ensures whole { OnOk result (IfSome (O.given sink.old) (λ before.
        O.given sink.new ≡ Some (before ++ status_text (Disk node shard)))) }
    ensures front { OnErr result (IfSome (O.given sink.old) (λ before.
        IsSomeAnd (O.given sink.new) (λ after.
        GivesFront before after (status_text (Disk node shard))))) }
    ensures fault { IsErrOf result PutFault.WriteFault →
        Rose (O.faults sink.old) (O.faults sink.new) }
    ensures count { O.faults sink.old ≤ O.faults sink.new }
{
    match disk_text(alloc, node, shard) {
        Ok(piece) => sink.put(alloc, piece.as_bytes()),
        Err(_) => Err(PutFault::Memory),
    }
}

// The text of a disk that failed.
fn disk_text(alloc: Global, node: u32, shard: u8) -> Result<String, AllocError>
    ensures { IfOk result (λ piece. string_bytes piece ≡ status_text (Disk node shard)) }
{
    format!(in alloc; "mix: disk {node} {shard}\n")
}
