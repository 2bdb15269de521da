use pgq_tick::{ConfigFault, QueueConfig};
use std::alloc::Global;
use trials::{first_word, no_command};

/// The settings of a queue.
#[derive(Drop)]
pub struct Settings {
    config: QueueConfig,
}

impl Settings {
    pub fn new() -> Settings {
        Settings {
            config: QueueConfig::new(),
        }
    }

    pub fn answer(&mut self, alloc: Global, command: &str, words: &str) -> anyhow::Result<String> {
        match command {
            "set" => self.set(alloc, words),
            "faults" => faults(alloc),
            _ => Err(no_command()),
        }
    }

    // The result of setting the parameter of the first word, and the settings then.
    fn set(&mut self, alloc: Global, words: &str) -> anyhow::Result<String> {
        let (param, value) = first_word(words);
        let came = self.config.set(param.as_bytes(), value.as_bytes());
        let count = self.config.ticker_max_count();
        let lag = self.config.ticker_max_lag();
        let idle = self.config.ticker_idle_period();
        let rotation = self.config.rotation_period();
        let is_paused = self.config.ticker_paused();
        Ok(format!(in alloc; "{came:?} {count} {lag} {idle} {rotation} {is_paused}")?)
    }
}

fn faults(alloc: Global) -> anyhow::Result<String> {
    let (none, bad) = (ConfigFault::NoParam, ConfigFault::BadValue);
    Ok(format!(in alloc; "{none}; {bad}")?)
}
