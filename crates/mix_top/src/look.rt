// `look SHARDS`: what the journals of the first kept disks come to, a line for each. The disks are only read.
ghost use Rattle.std.specs.Prelude.{◌≡◌, ◌+◌, ◌*◌, ◌^◌, ◌≤◌, List, IfErr, IfOk, IfSome, IsErrOf, Ok, map, length, string_bytes};
ghost use Rattle.std.specs.Result.{result_err};
ghost use Rattle.mix_base.specs.Faults.{Rose};
ghost use Rattle.mix_base.specs.Shards.{IsShape};
ghost use Rattle.packet_form.specs.Geometry.{IsWithin};
ghost use Rattle.replay_disk.specs.Disk.{OnlyRead, Owes};
ghost use Rattle.gate_log.specs.Log.{most_reads};
ghost use Rattle.spent_store.specs.Faults.{Refuses};
ghost use Rattle.spent_store.specs.Stores.{book_in};
ghost use Rattle.mix_top.specs.Look.{AnswersLook, line_on, look_of, shard_line, shards_in};
ghost use Rattle.mix_top.specs.Looking.{HasRead, fault_status};

use crate::reading::LOG_LIMIT;
use crate::storm::put_status;
use lab_text::{Status, read_number};
use mix_base::{Shape, Sink};
use replay_disk::Rack;
use spent_store::{Book, OpenStore, look};
use std::alloc::{AllocError, Global};

/// The number of shards, 1 to 16, where the words of a command line name a look.
pub fn read_look(words: &[String]) -> Option<u8>
    ensures exact { result ≡ look_of (map string_bytes words.now) }
    ensures in_range { IfSome result (IsWithin 1 16) }
{
    let (first, others) = words.split_first()?;
    if first.as_str() == "look" {
        read_behind(others)
    } else {
        None
    }
}

/// What stands behind the first word.
fn read_behind(words: &[String]) -> Option<u8>
    ensures exact { result ≡ shards_in (map string_bytes words.now) }
    ensures in_range { IfSome result (IsWithin 1 16) }
{
    match words {
        [shards] => {
            let shards = read_number(shards.as_bytes(), 1, 16)?;
            Some(shards as u8)
        }
        _ => None,
    }
}

/// Reads the journals of the first so many disks, each as that shard of so many, and gives a line for each to the sink once
/// all were read.
pub fn look_at_disks<K: Rack, O: Sink>(
    alloc: Global,
    shards: u8,
    sink: &mut O,
    disks: &mut [K],
) -> Status
    requires shards { IsWithin 1 16 shards }
    requires count { shards ≤ length disks.old }
    ensures answered { AnswersLook K.tells shards result (O.given sink.old) (O.given sink.new)
        (map K.state disks.old) (map K.state disks.new) }
    ensures write_fault { result ≡ Status.WriteFault →
        Rose (O.faults sink.old) (O.faults sink.new) }
    ensures sink_faults { O.faults sink.old ≤ O.faults sink.new }
{
    match read_disks(alloc, shards, disks) {
        Ok(text) => put_status(sink.put(alloc, text.as_bytes())),
        Err(status) => status,
    }
}

/// The lines of the first so many disks.
fn read_disks<K: Rack>(alloc: Global, shards: u8, disks: &mut [K]) -> Result<String, Status>
    requires shards { IsWithin 1 16 shards }
    requires count { shards ≤ length disks.old }
    ensures { HasRead K.tells shards result (map K.state disks.old) (map K.state disks.new) }
{
    let mut text = String::new(alloc);
    'disks: for index in 0..shards {
        let shape = Shape { shards, index };
        match read_line(alloc, &shape, &mut disks[index as usize]) {
            Ok(line) => {
                if text.push_str(&line).is_err() {
                    return Err(Status::Memory);
                }
            }
            Err(fault) => return Err(fault_to_status(&shape, fault)),
        }
    }
    Ok(text)
}

/// The line of the journal on a disk, as this shard.
fn read_line<K: Rack>(alloc: Global, shape: &Shape, disk: &mut K) -> Result<String, OpenStore>
    requires { IsShape shape.now }
    ensures line { K.tells →
        IfOk result (λ line. line_on shape.now (K.state disk.old) ≡ Ok (string_bytes line)) }
    ensures objection { K.tells → IfErr result (λ fault.
        Refuses fault (result_err (book_in (K.state disk.old).areas shape.now (2 ^ 26)))) }
    ensures same { OnlyRead (K.state disk.old) (K.state disk.new) }
    ensures owes { Owes (3 * most_reads (2 ^ 26) + 1) (IsErrOf result OpenStore.Failed)
        (K.state disk.old) (K.state disk.new) }
{
    let book = look(alloc, disk, shape, LOG_LIMIT)?;
    Ok(spell(alloc, shape.index, &book)?)
}

/// The line of a journal, with its line feed.
fn spell(alloc: Global, index: u8, book: &Book) -> Result<String, AllocError>
    ensures { IfOk result (λ text. string_bytes text ≡ shard_line index book.now) }
{
    let Book { floor, spent, root } = *book;
    format!(in alloc; "shard {index} floor {floor} spent {spent} root {root}\n")
}

/// How a disk that gave no book ends the call.
fn fault_to_status(shape: &Shape, fault: OpenStore) -> Status
    ensures { result ≡ fault_status shape.now fault }
{
    match fault {
        OpenStore::Failed => Status::Disk {
            node: 0,
            shard: shape.index,
        },
        OpenStore::Foreign { area, at } => Status::Foreign {
            node: 0,
            shard: shape.index,
            area,
            at,
        },
        OpenStore::OtherShape { stored } => Status::OtherShape {
            node: 0,
            shard: shape.index,
            stored,
            asked: *shape,
        },
        OpenStore::Memory => Status::Memory,
    }
}
