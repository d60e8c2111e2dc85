// The settings of the command `run`, a text of TOML: which keys they have, in which ranges, and which is the first that is
// bad. They are read exactly as their definition says, over what `toml` makes of the text.
ghost use Rattle.std.specs.Prelude.{◌≡◌, IfOk, IfSome, option_map};
ghost use Rattle.lab_text.specs.Settings.{IsConfigInRange, ReadsConfig, ReadsDocument, config_of};
ghost use Rattle.lab_text.specs.Settings.{has_unknown, is_setting, key_name, number_at, number_of, read_at};
ghost use Rattle.lab_text.specs.Settings.{seed_in, suite_in, whole_within};
ghost use Rattle.packet_form.specs.Geometry.{IsWithin};
ghost use Rattle.toml.specs.Data.{get_member};
ghost use Rattle.toml.specs.View.{table_view, view};

use crate::{read_32, read_suite};
use sphinx_make::Draw;
use std::alloc::Global;
use thiserror::Error;
use toml::{Table, Value};

/// The most bytes of a text of settings.
const LONGEST_TEXT: usize = 65_536;

/// The place of a text that is no document.
const TEXT: u8 = 0;

/// The place of a key that isn't one of the settings.
const UNKNOWN: u8 = 14;

/// The settings of a run.
#[derive(Clone, Copy, Debug, PartialEq, Eq)]
pub struct Config {
    /// Whether the suite is `ntru` and not `lab`.
    pub ntru: bool,
    /// The bytes of a body, 16 to 4096.
    pub body: usize,
    /// The layers of nodes, 1 to 5, and the hops of a path.
    pub layers: u8,
    /// The nodes of a layer, 1 to 4.
    pub width: u8,
    /// The workers of a node, 1 to 4.
    pub workers: u8,
    /// The shards of a node, 1 to 16.
    pub shards: u8,
    /// The length of an epoch, 4 to 2^40 milliseconds.
    pub epoch: u64,
    /// The milliseconds of a grace, at most a quarter of an epoch.
    pub grace: u64,
    pub seed: [u8; 32],
    /// At most 10,000.
    pub messages: u32,
    /// How delays are drawn: a unit of at most 60,000 milliseconds, and a cap of at most 10,800,000.
    pub draw: Draw,
}

/// Why there are no settings.
#[derive(Clone, Copy, Debug, PartialEq, Eq, Error)]
pub enum ConfigFault {
    /// What stands at this place is the first that is bad; `key_name` has its name.
    #[error("the key at place {key} is bad")]
    BadConfig { key: u8 },
    #[error("want of memory")]
    Memory,
}

/// The key of this place: 1 to 13 are the settings in their order, 0 is the text as a whole, and above stands a key that
/// isn't one of the settings.
pub fn key_name(place: u8) -> &'static str
    ensures { result.now ≡ key_name place }
{
    match place {
        0 => "toml",
        1 => "suite",
        2 => "body",
        3 => "layers",
        4 => "width",
        5 => "workers",
        6 => "shards",
        7 => "epoch_ms",
        8 => "grace_ms",
        9 => "seed",
        10 => "messages",
        11 => "delay_threshold",
        12 => "delay_unit",
        13 => "delay_cap",
        _ => "unknown",
    }
}

/// The settings of a text. `BadConfig` comes exactly where something is bad, and names the first place: 0 where the text is
/// longer than 65,536 bytes, isn't UTF-8, or is refused by `toml`; a key of 1 to 13 that is missing or out of its range; or
/// 14 where the table has another key.
pub fn read_config(alloc: Global, bytes: &[u8]) -> Result<Config, ConfigFault>
    ensures exact { ReadsConfig bytes.now result }
    ensures in_range { IfOk result IsConfigInRange }
{
    let table = document(alloc, bytes)?;
    match config_in(&table) {
        Ok(config) => Ok(config),
        Err(key) => Err(ConfigFault::BadConfig { key }),
    }
}

// The table of a text.
fn document(alloc: Global, bytes: &[u8]) -> Result<Table, ConfigFault>
    ensures { ReadsDocument bytes.now result }
{
    if bytes.len() > LONGEST_TEXT {
        return Err(ConfigFault::BadConfig { key: TEXT });
    }
    match toml::table_from_slice(alloc, bytes) {
        Ok(table) => Ok(table),
        Err(error) if error.is_memory() => Err(ConfigFault::Memory),
        Err(_) => Err(ConfigFault::BadConfig { key: TEXT }),
    }
}

// The settings of a table, or the first place that is bad.
fn config_in(table: &Table) -> Result<Config, u8>
    ensures exact { result ≡ config_of (table_view table.now) }
    ensures in_range { IfOk result IsConfigInRange }
{
    let ntru = suite_at(table)?;
    let body = number_at(table, 2, 16, 4096)?;
    let layers = number_at(table, 3, 1, 5)?;
    let width = number_at(table, 4, 1, 4)?;
    let workers = number_at(table, 5, 1, 4)?;
    let shards = number_at(table, 6, 1, 16)?;
    let epoch = number_at(table, 7, 4, 1 << 40)?;
    let grace = number_at(table, 8, 0, epoch / 4)?;
    let seed = seed_at(table)?;
    let messages = number_at(table, 10, 0, 10_000)?;
    let threshold = number_at(table, 11, 0, (1 << 32) - 1)?;
    let unit = number_at(table, 12, 1, 60_000)?;
    let cap = number_at(table, 13, 0, 10_800_000)?;
    if has_unknown(table) {
        return Err(UNKNOWN);
    }
    Ok(Config {
        ntru,
        body: body as usize,
        layers: layers as u8,
        width: width as u8,
        workers: workers as u8,
        shards: shards as u8,
        epoch,
        grace,
        seed,
        messages: messages as u32,
        draw: Draw {
            threshold: threshold as u32,
            unit: unit as u32,
            cap: cap as u32,
        },
    })
}

// Whether a table has a key that isn't one of the settings.
fn has_unknown(table: &Table) -> bool
    ensures { result ≡ has_unknown (table_view table.now) }
{
    table.keys().any(|key| !is_setting(key.as_str()))
}

// Whether a key is one of the settings.
fn is_setting(key: &str) -> bool
    ensures { result ≡ is_setting key.now }
{
    'places: for place in 1..UNKNOWN {
        if key_name(place) == key {
            return true;
        }
    }
    false
}

// What stands at the key of this place.
fn value_at(table: &Table, place: u8) -> Option<&Value>
    ensures { option_map (λ value. view value.now) result
        ≡ get_member (key_name place) (table_view table.now) }
{
    table.get(key_name(place))
}

// The suite: whether it is `ntru`.
fn suite_at(table: &Table) -> Result<bool, u8>
    ensures { result ≡ read_at (table_view table.now) 1 suite_in }
{
    match value_at(table, 1) {
        Some(value) => suite(value).ok_or(1),
        None => Err(1),
    }
}

// The seed.
fn seed_at(table: &Table) -> Result<[u8; 32], u8>
    ensures { result ≡ read_at (table_view table.now) 9 seed_in }
{
    match value_at(table, 9) {
        Some(value) => seed(value).ok_or(9),
        None => Err(9),
    }
}

// The number at the key of this place, in a range.
fn number_at(table: &Table, place: u8, low: u64, high: u64) -> Result<u64, u8>
    ensures exact { result ≡ number_at (table_view table.now) place low high }
    ensures in_range { IfOk result (λ number. IsWithin low high number) }
{
    match value_at(table, place) {
        Some(value) => number(value, low, high).ok_or(place),
        None => Err(place),
    }
}

// Whether a value is the string `ntru`, where it is that or `lab`.
fn suite(value: &Value) -> Option<bool>
    ensures { result ≡ suite_in (view value.now) }
{
    read_suite(value.as_str()?.as_bytes())
}

// The bytes of a value that is a string of 64 hexadecimal digits.
fn seed(value: &Value) -> Option<[u8; 32]>
    ensures { result ≡ seed_in (view value.now) }
{
    read_32(value.as_str()?.as_bytes())
}

// The number that a value is, in a range.
fn number(value: &Value, low: u64, high: u64) -> Option<u64>
    ensures exact { result ≡ number_of low high (view value.now) }
    ensures in_range { IfSome result (λ number. IsWithin low high number) }
{
    whole_within(value.as_integer()?, low, high)
}

// An integer that is in a range.
fn whole_within(number: i64, low: u64, high: u64) -> Option<u64>
    ensures exact { result ≡ whole_within low high number }
    ensures in_range { IfSome result (λ number. IsWithin low high number) }
{
    let Ok(number) = u64::try_from(number) else {
        return None;
    };
    if low <= number && number <= high {
        Some(number)
    } else {
        None
    }
}
