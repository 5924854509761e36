// What a command is given: its words, the files that they name, and standard input, read under the limits; and how refusals are told.
#![tactic(auto)]

mod command_line;
mod files;
mod told;

use clap::ArgMatches;
pub use command_line::{COMMAND_LINE, process_words, show};
use cs_reason_words::{Form, Format};
use cs_reasons::Telling;
use cs_tool::{Fault, Profile, Rules, write_text};
use cs_widen::schema_stands_for_in;
pub use files::{
    STANDARD_INPUT, given_sources, named_sources, named_text, read_input, read_sources, sources_of,
};
use std::alloc::Global;
pub use told::{about_unread, or_told, over_sources, tell_refusal};

/// How many reasons are told at most where the words don't say.
const MOST_REASONS: usize = 20;

/// What comes of a command: its status.
pub type Status = Result<u8, Fault>;

/// A call of the program: the runtime, and the words of its command.
#[derive(Clone, Copy)]
pub struct Call<'m, 'w> {
    pub rt: &'m HostRuntime,
    pub words: &'m ArgMatches<'w>,
}

/// How reasons are asked for.
#[derive(Clone, Copy)]
pub struct Reasons {
    pub form: Form,
    pub telling: Telling,
}

impl<'m, 'w> Call<'m, 'w> {
    /// The allocator of the runtime.
    pub fn alloc(self) -> Global {
        self.rt.alloc()
    }

    /// The value of an option that `clap` asks for.
    pub fn word(self, name: &str) -> &'w str {
        self.words.get_str(name).unwrap_or("")
    }

    /// The files that a word names.
    pub fn paths(self, name: &str) -> &'m [&'m str] {
        self.words.get_strs(name).unwrap_or(&[])
    }

    /// Writes a text on standard output, and gives the status of a command that does so.
    pub fn print(self, text: &[u8]) -> Status {
        write_text(&mut self.rt.stdout(), text)?;
        Ok(0)
    }

    /// How the words ask for reasons; `None` where they don't.
    pub fn reasons(self) -> Option<Reasons> {
        let form = match self.words.get_str("format") {
            Some(name) => Form::Object(Format::named(name)?),
            None if self.words.contains_id("why") => Form::Lines,
            None => return None,
        };
        let most = self.words.get_one("most").unwrap_or(MOST_REASONS);
        let all = self.words.get_str("why") == Some("all");
        let telling = Telling { most, all };
        Some(Reasons { form, telling })
    }

    /// The form in which the words ask for refusals to be told; `None` where they don't.
    pub fn told_form(self) -> Option<Form> {
        let asked = self.reasons().map(|reasons| reasons.form);
        asked.or(self.words.get_flag("why_refused").then_some(Form::Lines))
    }

    /// The profile that the words ask for: the default one where they name none.
    pub fn profile(self) -> Profile {
        match self.words.get_str("profile") {
            Some(_) => Profile::Wide,
            None => Profile::Default,
        }
    }

    /// The rules with the schema that theirs stands for in the profile that the words ask for; `None` where they stand for themselves, as
    /// those of sources do.
    pub fn meant_rules(self, rules: &Rules) -> Result<Option<Rules>, Fault> {
        let Rules::Schema { vocabulary, schema } = rules else {
            return Ok(None);
        };
        let vocabulary = *vocabulary;
        let meant = schema_stands_for_in(self.alloc(), self.profile(), schema)?;
        Ok(meant.map(|schema| Rules::Schema { vocabulary, schema }))
    }
}
