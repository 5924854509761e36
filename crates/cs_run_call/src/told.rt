// Refusals of commands, told as their words ask for it.
use crate::files::{STANDARD_INPUT, given_sources, named_sources, sizes_of, unread_file};
use crate::{Call, Status};
use cs_fault_words::{About, Profile, why_refused, write_refusal_json};
use cs_place::Named;
use cs_reason_words::Form;
use cs_tool::{Fault, accepted_package, slices_of, write_fault, write_fault_json, write_text};
use std::alloc::{AllocError, Global};
use std::io::Write;

/// The names of the sources where none is given.
const UNNAMED: &[&str] = &[STANDARD_INPUT];

/// What a command answers for the sources that the words name, or standard input as the one source where they name none, and for these
/// with their names. A refusal of them is told where a form is asked for.
pub fn over_sources<A: FnOnce(&[&[u8]], &[Named<'_>]) -> Status>(
    call: Call<'_, '_>,
    answer: A,
) -> Status
    requires { A.IsAlwaysCallable answer }
{
    let sources = given_sources(call)?;
    let named = named_sources(call.alloc(), call.paths("FILE"), &sources)?;
    let texts = slices_of(call.alloc(), &sources)?;
    let about = About::of(&named, call.word("root"));
    or_told(call, about, answer(&texts, &named))
}

/// The status of an answer; a refusal is told where a form is asked for.
pub fn or_told(call: Call<'_, '_>, about: About<'_>, answer: Status) -> Status {
    let side = None;
    match (&answer, call.told_form()) {
        (Err(fault), Some(form)) => Teller { call, form, side }.tell(fault, about),
        _ => answer,
    }
}

/// The status of a refusal, of the side of a comparison with that word where there is one. It is told where a form is asked for, and which
/// file can't be read is told in any case.
pub fn tell_refusal(
    call: Call<'_, '_>,
    side: Option<&'static str>,
    fault: Fault,
    about: About<'_>,
) -> Status {
    let form = match call.told_form() {
        Some(form) => form,
        None if matches!(fault, Fault::ReadFailed) => Form::Lines,
        None => return Err(fault),
    };
    Teller { call, form, side }.tell(&fault, about)
}

/// What is known of a call by the file at fault and why it is, and by files with their bytes.
pub fn about_unread<'a>(
    path: Option<&'a str>,
    cause: &'a str,
    sizes: &'a [(&'a str, u64)],
) -> About<'a> {
    About {
        path,
        cause,
        sizes,
        ..About::of(&[], "")
    }
}

/// Who tells the refusals of a call.
#[derive(Clone, Copy)]
struct Teller<'m, 'w> {
    call: Call<'m, 'w>,
    form: Form,
    /// The word of the side of a comparison that is refused.
    side: Option<&'static str>,
}

impl<'m> Teller<'m, '_> {
    /// Tells a refusal of what was read in the profile that the words ask for, or of what couldn't be read, and gives its status.
    fn tell(self, fault: &Fault, about: About<'_>) -> Status {
        if let Fault::SourcesTooLong | Fault::ReadFailed | Fault::InputTooLong = fault {
            return self.tell_unread(fault);
        }
        let profile = self.call.profile();
        let about = About { profile, ..about };
        let is_joined = is_joined(self.call.alloc(), fault, about)?;
        self.tell_known(fault, About { is_joined, ..about })
    }

    /// The same of a call whose input wasn't read, with the file at fault.
    fn tell_unread(self, fault: &Fault) -> Status {
        let words = ["schema", self.side.unwrap_or("FILE"), "doc"];
        let found = unread_file(self.call, fault, &words);
        let cause = found.map_or("", |(_, cause)| cause);
        let path = found.map(|(path, _)| path);
        let sizes = match (fault, path) {
            (Fault::SourcesTooLong, _) => sizes_of(self.call, self.paths())?,
            (Fault::InputTooLong, Some(path)) => sizes_of(self.call, &[path])?,
            _ => Vec::new(self.call.alloc()),
        };
        self.tell_known(fault, about_unread(path, cause, &sizes))
    }

    /// Tells a refusal in the form, as that of the side where there is one, and gives its status. Want of memory is told by its number
    /// alone, and so is each refusal in the output formats of JSON Schema; no object is written where nothing can be written.
    fn tell_known(self, fault: &Fault, about: About<'_>) -> Status {
        let output = &mut self.call.rt.stdout();
        match (self.form, fault) {
            (Form::Lines, Fault::OutOfMemory) => return Err(Fault::OutOfMemory),
            (Form::Lines, _) => self.tell_lines(fault, about)?,
            (Form::Object(_), Fault::WriteFailed) => return Err(Fault::WriteFailed),
            (Form::Object(format), _)
                if format.is_standard() || matches!(fault, Fault::OutOfMemory) => {
                write_fault_json(self.call.alloc(), fault, self.names(), output)?;
            }
            (Form::Object(_), _) => self.tell_object(fault, about)?,
        }
        Ok(fault.status())
    }

    /// The files of the sources.
    fn paths(self) -> &'m [&'m str] {
        self.call.paths(self.side.unwrap_or("FILE"))
    }

    /// The names of the sources.
    fn names(self) -> &'m [&'m str] {
        let paths = self.paths();
        if paths.is_empty() { UNNAMED } else { paths }
    }

    /// Writes the line of a refusal, and behind the word of its side what it means.
    fn tell_lines(self, fault: &Fault, about: About<'_>) -> Result<(), AllocError> {
        let why = why_refused(self.call.alloc(), fault, about)?;
        let mut errors = self.call.rt.stderr();
        // What can't be written changes no status.
        let _ = write_fault(fault, &mut errors);
        if let Some(side) = self.side {
            let _ = write!(errors, "{side}: ");
        }
        let _ = errors.write_all(why.as_bytes());
        Ok(())
    }

    /// Writes the object of a refusal with what it means, as the member of its side.
    fn tell_object(self, fault: &Fault, about: About<'_>) -> Result<(), Fault> {
        let (alloc, names) = (self.call.alloc(), self.names());
        let output = &mut self.call.rt.stdout();
        let Some(side) = self.side else {
            return write_refusal_json(alloc, fault, names, about, output);
        };
        let mut object = format!(in alloc; "{{\"{side}\":")?.into_bytes();
        // Only memory stops a write to a list.
        write_refusal_json(alloc, fault, names, about, &mut object).or(Err(Fault::OutOfMemory))?;
        let end = object.trim_ascii_end().len();
        object.truncate(end);
        object.extend_from_slice(b"}\n")?;
        write_text(output, &object)
    }
}

/// Whether the wide profile puts together what has to be opened in the default one: it takes the sources, or what it
/// refuses first is behind that, or of what is looked at later.
fn is_joined(alloc: Global, fault: &Fault, about: About<'_>) -> Result<bool, AllocError> {
    let (Fault::NotOpened { file, offset }, Profile::Default) = (fault, about.profile) else {
        return Ok(false);
    };
    let mut texts = Vec::with_capacity(alloc, about.sources.len())?;
    for source in about.sources {
        texts.push(source.text)?;
    }
    let place = (*file, *offset);
    match &accepted_package(alloc, Profile::Wide, &texts) {
        Err(Fault::OutOfMemory) => Err(AllocError),
        Err(Fault::NotOpened { file, offset }) => Ok(place < (*file, *offset)),
        Ok(_) | Err(Fault::Cycle { .. } | Fault::ChainTooLong { .. }) => Ok(true),
        Err(_) => Ok(false),
    }
}
