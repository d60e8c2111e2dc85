// The texts of the commands: an input read line by line, the words of a line and what they say, the node line and the
// events of a script, settings, and the statuses by which a command ends. Each reader answers exactly what its definition in
// specs/ has.
#![tactic(auto)]

mod events;
mod faults;
mod lines;
mod node_lines;
mod settings;
mod sizes;
mod statuses;
#[cfg(test)]
mod tests;
mod word_forms;
mod words;

pub use events::{Event, read_event};
pub use faults::{LineFault, WordFault};
pub use lines::LineReader;
pub use node_lines::{NodeLine, read_node};
pub use settings::{Config, ConfigFault, key_name, read_config};
pub use sizes::{SizesLine, next_sizes};
pub use statuses::{Status, code, write_status};
pub use word_forms::{
    is_skipped, next_bytes, next_number, one_word, read_suite, read_surb, said_line, sized_bytes,
    whole_bytes, without_words,
};
pub use words::{LAST_MOMENT, next_word, read_32, read_bytes, read_number};
