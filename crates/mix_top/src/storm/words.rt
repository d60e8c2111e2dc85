// `storm SUITE N SEED`: the words of a storm.
ghost use Rattle.std.specs.Prelude.{◌≡◌, IfSome, map, string_bytes};
ghost use Rattle.mix_top.specs.Storm.{most_packets, storm_in, storm_of};
ghost use Rattle.mix_top.specs.Storming.{IsStormInRange};

use lab_text::{read_32, read_number, read_suite};

/// A storm: so many packets for the node of a seed.
#[derive(Clone, Copy, Debug, PartialEq, Eq)]
pub struct Storm {
    /// Whether the suite is `ntru` and not `lab`.
    pub ntru: bool,
    /// How many packets, 1 to 100,000, of `ntru` 1 to 2,000.
    pub count: u64,
    /// The seed of the node's keys and of the packets' words.
    pub seed: [u8; 32],
}

/// The storm that the words of a command line name.
pub fn read_storm(words: &[String]) -> Option<Storm>
    ensures exact { result ≡ storm_of (map string_bytes words.now) }
    ensures in_range { IfSome result IsStormInRange }
{
    let (first, others) = words.split_first()?;
    if first.as_str() == "storm" {
        read_behind(others)
    } else {
        None
    }
}

/// What stands behind the first word.
fn read_behind(words: &[String]) -> Option<Storm>
    ensures exact { result ≡ storm_in (map string_bytes words.now) }
    ensures in_range { IfSome result IsStormInRange }
{
    match words {
        [suite, count, seed] => {
            let ntru = read_suite(suite.as_bytes())?;
            let count = read_number(count.as_bytes(), 1, most(ntru))?;
            let seed = read_32(seed.as_bytes())?;
            Some(Storm { ntru, count, seed })
        }
        _ => None,
    }
}

/// The greatest number of packets.
fn most(ntru: bool) -> u64
    ensures { result ≡ most_packets ntru }
{
    if ntru { 2000 } else { 100_000 }
}
