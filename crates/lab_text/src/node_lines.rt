// The node line of a script of `drive`: the suite and sizes of a node's packets, its shards, its epochs and its seed. It
// is read exactly where it is in the grammar.
ghost use Rattle.std.specs.Prelude.{◌≡◌, IfOk, IfSome, IsErrOf};
ghost use Rattle.lab_text.specs.Faults.{ReadsLine};
ghost use Rattle.lab_text.specs.NodeLines.{IsNodeInRange, node_in, node_of, sizes_of};
ghost use Rattle.lab_text.specs.Words.{words_of};

use crate::{LineFault, SizesLine, next_number, next_sizes, next_word, one_word, read_32};

/// What the node line says.
#[derive(Clone, Copy, Debug, PartialEq, Eq)]
pub struct NodeLine {
    /// Whether the suite is `ntru` and not `lab`.
    pub ntru: bool,
    /// The greatest number of hops, 1 to 5.
    pub hops: usize,
    /// The bytes of a body, 1 to 4096.
    pub body: usize,
    /// 1 to 16.
    pub shards: u8,
    /// The length of an epoch, 4 to 2^40 milliseconds.
    pub epoch: u64,
    /// The milliseconds of a grace, at most a quarter of an epoch.
    pub grace: u64,
    pub seed: [u8; 32],
}

impl NodeLine {
    /// The suite, and the sizes of its packets.
    pub fn sizes(&self) -> SizesLine
        ensures { result ≡ sizes_of self.now }
    {
        SizesLine {
            ntru: self.ntru,
            hops: self.hops,
            body: self.body,
        }
    }
}

/// What the node line says; `number` is the line's. `BadLine` comes, for this number, exactly where the line is outside
/// the grammar, and neither `ReadFault` nor `Memory` comes.
pub fn read_node(line: &[u8], number: u64) -> Result<NodeLine, LineFault>
    ensures exact { ReadsLine (node_of line.now) number result }
    ensures in_range { IfOk result IsNodeInRange }
    ensures no_memory { IsErrOf result LineFault.Memory → ⊥ }
{
    match said_node(line) {
        Some(node) => Ok(node),
        None => Err(LineFault::BadLine { number }),
    }
}

// What a node line says.
fn said_node(line: &[u8]) -> Option<NodeLine>
    ensures exact { result ≡ node_of line.now }
    ensures in_range { IfSome result IsNodeInRange }
{
    let (first, rest) = next_word(line)?;
    if first == b"node".as_slice() {
        node_fields(rest)
    } else {
        None
    }
}

// What the words of a node line say behind the first.
fn node_fields(rest: &[u8]) -> Option<NodeLine>
    ensures exact { result ≡ node_in (words_of rest.now) }
    ensures in_range { IfSome result IsNodeInRange }
{
    let (sizes, rest) = next_sizes(rest)?;
    let (shards, rest) = next_number(rest, 1, 16)?;
    let (epoch, rest) = next_number(rest, 4, 1 << 40)?;
    let (grace, rest) = next_number(rest, 0, epoch / 4)?;
    let seed = read_32(one_word(rest)?)?;
    Some(NodeLine {
        ntru: sizes.ntru,
        hops: sizes.hops,
        body: sizes.body,
        shards: shards as u8,
        epoch,
        grace,
        seed,
    })
}
