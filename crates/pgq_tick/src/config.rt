ghost use Rattle.std.specs.Prelude.{◌≡◌, ◌<◌, ◌≤◌, pos, Ok, Err, OnOk, OnErr, IfErr, IfSome, option_map};
ghost use Rattle.sky_val.specs.Intervals.{longest_interval, interval_of};
ghost use Rattle.sky_model.specs.Config.{default_config, param_of, count_of, flag_of};
ghost use Rattle.pgq_tick.specs.Config.{IsInterval, set_to};

use sky_val::{interval_of, number_of};
use std::marker::Model;
use thiserror::Error;

/// The largest number of events that a queue may be set to wait for.
const MOST_EVENTS: u64 = 1_000_000_000;

/// Why a parameter of a queue isn't set.
#[derive(Clone, Copy, Debug, PartialEq, Eq, Error)]
pub enum ConfigFault {
    /// No parameter has this name.
    #[error("no such parameter")]
    NoParam,
    /// The parameter can't have this value.
    #[error("not a value of the parameter")]
    BadValue,
}

/// The settings of a queue. Intervals are in microseconds.
#[derive(Debug, Drop)]
pub struct QueueConfig {
    max_count: u64,
    max_lag: u64,
    idle_period: u64,
    rotation_period: u64,
    is_paused: bool,
}

impl Model for QueueConfig {
    ghost use Rattle.std.specs.Prelude.{◌<◌, ◌≤◌, pos};
    ghost use Rattle.sky_val.specs.Intervals.{longest_interval};
    ghost use Rattle.sky_model.specs.Config.{Config};

    ghost Value = { Config };

    ghost view = { λ c. record { max_count = c.max_count; max_lag = pos c.max_lag; idle_period = pos c.idle_period; rotation_period = pos c.rotation_period; paused = c.is_paused } };

    ghost invariant = { λ c. (0 < c.max_count) × (c.max_count ≤ 1000000000)
        × (c.max_lag ≤ longest_interval) × (c.idle_period ≤ longest_interval) × (c.rotation_period ≤ longest_interval) };
}

impl QueueConfig {
    /// The default settings.
    pub fn new() -> QueueConfig
        ensures { result ≡ default_config }
    {
        QueueConfig {
            max_count: 500,
            max_lag: 3_000_000,
            idle_period: 60_000_000,
            rotation_period: 7_200_000_000,
            is_paused: false,
        }
    }

    /// With this many new events or more, a tick is due at once.
    pub fn ticker_max_count(&self) -> u64
        ensures value { result ≡ self.now.max_count }
        ensures some { 0 < result }
        ensures most { result ≤ 1000000000 }
    {
        self.max_count
    }

    /// With new events, a tick is due when this much time has passed since the last one. Without any, none is due
    /// before half of it has passed.
    pub fn ticker_max_lag(&self) -> i64
        ensures value { result ≡ self.now.max_lag }
        ensures interval { IsInterval result }
    {
        self.max_lag as i64
    }

    /// Without new events, a tick is due when this much time has passed, or earlier, when twice the time between the
    /// last two ticks has; but never before half of `ticker_max_lag`.
    pub fn ticker_idle_period(&self) -> i64
        ensures value { result ≡ self.now.idle_period }
        ensures interval { IsInterval result }
    {
        self.idle_period as i64
    }

    /// How long an event table is the current one, at least.
    pub fn rotation_period(&self) -> i64
        ensures value { result ≡ self.now.rotation_period }
        ensures interval { IsInterval result }
    {
        self.rotation_period as i64
    }

    /// Whether no tick is due at all.
    pub fn ticker_paused(&self) -> bool
        ensures { result ≡ self.now.paused }
    {
        self.is_paused
    }

    /// Sets the parameter of this name to the value that a text writes. Nothing changes if there is no such parameter,
    /// or it can't have that value.
    pub fn set(&mut self, param: &[u8], value: &[u8]) -> Result<(), ConfigFault>
        ensures ok { OnOk result (set_to self.old (param_of param.now) value.now ≡ Ok self.new) }
        ensures fault { IfErr result (λ fault. set_to self.old (param_of param.now) value.now ≡ Err fault) }
        ensures err { OnErr result (self.new ≡ self.old) }
    {
        if param == b"ticker_max_count".as_slice() {
            self.max_count = count_of(value).ok_or(ConfigFault::BadValue)?;
        } else if param == b"ticker_max_lag".as_slice() {
            self.max_lag = interval_of(value).ok_or(ConfigFault::BadValue)?;
        } else if param == b"ticker_idle_period".as_slice() {
            self.idle_period = interval_of(value).ok_or(ConfigFault::BadValue)?;
        } else if param == b"rotation_period".as_slice() {
            self.rotation_period = interval_of(value).ok_or(ConfigFault::BadValue)?;
        } else if param == b"ticker_paused".as_slice() {
            self.is_paused = flag_of(value).ok_or(ConfigFault::BadValue)?;
        } else {
            return Err(ConfigFault::NoParam);
        }
        Ok(())
    }
}

/// A number of events, which isn't 0.
fn count_of(text: &[u8]) -> Option<u64>
    ensures value { result ≡ count_of text.now }
    ensures some { IfSome result (λ count. 0 < count) }
    ensures most { IfSome result (λ count. count ≤ 1000000000) }
{
    match number_of(text, MOST_EVENTS) {
        Some(0) => None,
        count => count,
    }
}

fn flag_of(text: &[u8]) -> Option<bool>
    ensures { result ≡ flag_of text.now }
{
    if text == b"true".as_slice() {
        return Some(true);
    }
    if text == b"false".as_slice() {
        return Some(false);
    }
    None
}
