//! Scripts and transcripts as text.
#![tactic(auto)]

mod arguments;
mod awaits;
mod call_words;
mod calls;
mod contents;
mod declarations;
mod declared;
mod draft;
mod entries;
mod fault;
mod forms;
mod generator;
mod laws;
mod lines;
mod parser;
mod print;
mod replies;
mod reply_words;
mod script_text;
mod shown;
mod statements;
mod strings;
mod tokens;
mod transcript;
mod words;

pub use contents::push_contents;
pub use fault::{ScriptFault, Which};
pub use generator::make_script;
pub use laws::{
    blanks_and_comments_say_nothing, calls_are_read_back, made_scripts_are_read,
    no_transcript_is_bad, one_transcript, only_words_are_read, scripts_have_texts,
    what_is_read_has_a_text, what_is_read_is_a_script, what_is_read_is_wide,
};
pub use parser::parse;
pub use print::{print_entry, print_world, push_entry, push_world, push_world_line};
pub use script_text::print_script;
pub use transcript::{Transcript, TranscriptFault, read_transcript};
