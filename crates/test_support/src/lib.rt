//! What the programs of tests share that read lines of words and print such lines: why a line has
//! no answer, the words of a line, values by their names, published configurations, stores, and
//! pages.
#![tactic(auto)]

mod answering;
mod named_values;
mod page;
mod publishing;
mod stores;
mod words;
mod wrong;

pub use answering::{Answers, answer_all};
pub use named_values::{NamedValues, parse_settings, shared};
pub use page::Page;
pub use publishing::published;
pub use stores::{Checks, add_parts, add_row_lines, load_store};
pub use words::{
    add, first_word, kept, own_text_or_empty, parse_hex, parse_long, parse_longs, parse_number,
    parse_numbers, parse_option, split_number, split_put, strip_key, two_lines, two_words,
};
pub use wrong::{Wrong, answer_or_line};
