// Logs of a store, as a list: whether an epoch has one, where it stands, and what they hold together.
ghost use Rattle.std.specs.Prelude.{◌≡◌, ℕ, ◌+◌, ◌^◌, ◌<◌, ◌≤◌, ◌==◌, ◌&&◌, nat_le, length, map};
ghost use Rattle.std.specs.Prelude.{filter, slice_index_or, Bool, true, false, OnOk, vec_len};
ghost use Rattle.std.specs.Prelude.{vec_capacity, if◌then◌else◌};
ghost use Rattle.std.specs.List.{list_any, sum_by};
ghost use Rattle.std.specs.Str.{bytes_eq};
ghost use Rattle.spent_store.specs.Books as books;
ghost use Rattle.spent_store.specs.Kept.{AreOfStore};
ghost use Rattle.spent_store.specs.TagLogs.{TagLogState, epoch_log};

use crate::tag_log::TagLog;
use mix_base::Memory;

/// Whether one of these logs is the epoch's.
pub fn has_log(logs: &[TagLog], epoch: u64) -> bool
    ensures { result ≡ list_any (λ log. log.epoch == epoch) logs.now }
{
    logs.iter().any(|log| log.epoch() == epoch)
}

/// How many tags the logs of an epoch have.
pub fn tags_in(logs: &[TagLog], epoch: u64) -> u64
    requires { length logs.now ≤ 2 }
    ensures value { result ≡ sum_by (λ log.
        if log.epoch == epoch then length log.tags else 0) logs.now }
    ensures bound { result ≤ 2 ^ 27 }
{
    let mut count = 0;
    'counting: for log in logs {
        if log.epoch() == epoch {
            count += log.len();
        }
    }
    count
}

/// Where the log of an epoch stands.
pub fn place_of(logs: &[TagLog], epoch: u64) -> usize
    requires { list_any (λ log. log.epoch == epoch) logs.now ≡ true }
    ensures within { result < length logs.now }
    ensures there { (log : TagLogState) → (slice_index_or logs.now result log).epoch ≡ epoch }
{
    'looking: for (i, log) in logs.iter().enumerate() {
        if log.epoch() == epoch {
            return i;
        }
    }
    unreachable!()
}

/// Keeps the logs of a floor and the epochs above it.
pub fn keep_from(logs: &mut Vec<TagLog>, floor: u64)
    ensures logs { logs.new.items ≡ filter (λ log. nat_le floor log.epoch) logs.old.items }
    ensures fewer { vec_len logs.new ≤ vec_len logs.old }
    ensures capacity { vec_capacity logs.old ≤ vec_capacity logs.new }
{
    logs.retain(|log| floor <= log.epoch());
}

/// Whether one of these logs is the epoch's and has the tag.
pub fn is_in(logs: &[TagLog], epoch: u64, tag: &[u8; 32]) -> bool
    ensures { result ≡ list_any (λ log.
        log.epoch == epoch && list_any (λ other. bytes_eq other tag.now) log.tags) logs.now }
{
    logs.iter().any(|log| log.epoch() == epoch && log.has(tag))
}

/// How many different tags are spent in these logs.
pub fn spent_in(logs: &[TagLog]) -> u64
    requires { length logs.now ≤ 2 }
    ensures { result ≡ sum_by (λ log. books.distinct_count log.tags) logs.now }
{
    let mut spent = 0;
    'counting: for log in logs {
        spent += log.spent();
    }
    spent
}

/// Makes room for a tag more in each log.
pub fn reserve_logs(logs: &mut Vec<TagLog>) -> Result<(), Memory>
    ensures same { map epoch_log logs.new.items ≡ map epoch_log logs.old.items }
    ensures capacity { vec_capacity logs.old ≤ vec_capacity logs.new }
    ensures kept { (limit : ℕ) → (sound : Bool) → AreOfStore limit sound false logs.old.items →
        AreOfStore limit sound false logs.new.items }
    ensures ready { (limit : ℕ) → (sound : Bool) → AreOfStore limit sound false logs.old.items →
        OnOk result (AreOfStore limit sound true logs.new.items) }
{
    let count = logs.len();
    'reserving: for i in 0..count {
        logs[i].reserve()?;
    }
    Ok(())
}
