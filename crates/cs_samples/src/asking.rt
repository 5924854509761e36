// The questions that places ask, the documents that they find, and how far they come.
ghost use Rattle.std.specs.Prelude.{IfOk, IfSome};
ghost use Rattle.cs_document.specs.View.{doc_view};
ghost use Rattle.cs_question.specs.ReadAgain.{IsReadAgain};

use cs_document::Doc;
use cs_guard::Guarded;
use cs_instance::is_instance;
use cs_json::shown_text;
use cs_question::{Answered, Budget, QuestionFault, instance_of, separating};
use cs_variants::{Place, Sampled, Walk, Where};
use std::alloc::{AllocError, Global};
use std::collections::BTreeSet;

/// What is asked for: samples of the root of a package.
#[derive(Clone, Copy)]
pub(crate) struct Asking<'b, 'a> {
    pub(crate) alloc: Global,
    pub(crate) package: &'a Guarded,
    pub(crate) root: &'b str,
    pub(crate) which: Sampled,
    pub(crate) walk: &'b Walk<'a>,
}

/// What a question answers: the text of a sample, where it finds one.
pub(crate) type Answer = Answered<Option<Vec<u8>>>;

/// Where the change of a place is made, and whether that is without what a document may lack, in the order of the questions.
const ATTEMPTS: [(Where, bool); 4] = [
    (Where::Once, true),
    (Where::Once, false),
    (Where::Everywhere, true),
    (Where::Everywhere, false),
];

impl Asking<'_, '_> {
    ghost use Rattle.cs_samples.specs.Answers.{IsAnswer};

    /// What the question of a place answers: the first text that an attempt gives, or `TooManyCases` where a limit was met. Where the
    /// change breaks nothing at one reference, it is made at all of them.
    pub(crate) fn asked(&self, place: &Place<'_>, budget: &mut Budget) -> Answer
        ensures { IfOk result (IsAnswer self.now) }
    {
        let walk = self.walk;
        for (at, is_least) in ATTEMPTS {
            if matches!(at, Where::Everywhere) && !walk.is_asked_again(place) {
                break;
            }
            let variant = walk.variant(place, at, is_least)?;
            if let Some(text) = self.answered(variant, budget)? {
                return Ok(Some(text));
            }
        }
        Ok(None)
    }

    /// What a variant answers, where there is one, by half of the steps that are left once it is made; `TooManyCases` where a limit
    /// was met.
    pub(crate) fn answered(&self, variant: Option<Guarded>, budget: &mut Budget) -> Answer
        ensures { IfOk result (IsAnswer self.now) }
    {
        budget.spend(self.walk.cost);
        let Some(variant) = variant else {
            return Ok(None);
        };
        if budget.steps == 0 {
            return Err(QuestionFault::TooManyCases);
        }
        let steps = budget.steps / 2;
        let mut share = Budget { steps };
        let answer = self.answer(&variant, &mut share);
        budget.spend(steps.saturating_sub(share.steps));
        answer
    }

    /// The text of a document of the last definition of a variant: of an instance of it that is one of the root too, or of one that
    /// isn't. What this takes is taken from the budget. A limit is met where the document has no text.
    fn answer(&self, variant: &Guarded, budget: &mut Budget) -> Answer
        ensures { IfOk result (IsAnswer self.now) }
    {
        let Some(doc) = self.found(variant, budget)? else {
            return Ok(None);
        };
        let is_valid = is_instance(self.alloc, self.package, self.root, &doc)?;
        if is_valid != self.which.is_valid() {
            return Ok(None);
        }
        match shown_text(self.alloc, &doc)? {
            Some(text) => Ok(Some(text)),
            None => Err(QuestionFault::TooManyCases),
        }
    }

    /// What the last definition of the variant admits, and the root refuses where no instance is asked for.
    fn found(&self, variant: &Guarded, budget: &mut Budget) -> Result<Option<Doc>, QuestionFault>
        ensures { IfOk result (λ o. IfSome o (λ d. IsReadAgain (doc_view d))) }
    {
        let package = variant.package();
        let Some(last) = package.count().checked_sub(1) else {
            return Ok(None);
        };
        let name = package.name(last);
        match self.which {
            Sampled::Valid => instance_of(self.alloc, variant, name, budget),
            Sampled::Invalid => {
                separating(self.alloc, variant, name, self.package, self.root, budget)
            }
        }
    }
}

/// The steps for each byte of a document's text: the document is built, judged and written, some ten microseconds a value.
const STEPS_OF_BYTE: usize = 10;

/// The steps that counting the documents beyond those that are asked for may take, even where the documents took fewer.
const LEAST_FOR_COUNTING: usize = 100_000;

/// The steps that are left for a question about the root as a whole, as long as there is no document.
const RESERVED: usize = 500_000;

/// The texts of the documents that questions answered, in the order of the questions, no two alike; how far the questions came, and
/// what is left for them.
#[derive(Drop)]
pub(crate) struct Found {
    pub(crate) texts: Vec<Vec<u8>>,
    seen: BTreeSet<Vec<u8>>,
    /// For which rules no question was answered.
    pub(crate) is_open: Vec<bool>,
    /// Whether a limit was met, or memory ran out.
    pub(crate) is_limited: bool,
    pub(crate) budget: Budget,
}

impl Found {
    ghost use Rattle.cs_samples.specs.Answers.{IsAnswer};
    ghost use Rattle.cs_samples.specs.Kept.{AreFound};

    /// Asks the questions of all places, and where no document just fails, for any that the root refuses. Where memory runs out, the
    /// documents so far stay.
    pub(crate) fn of(asking: &Asking<'_, '_>, most: usize) -> Result<Found, AllocError>
        ensures { IfOk result (AreFound asking.now) }
    {
        let is_open = vec![in asking.alloc; true; asking.walk.rules]?;
        let mut found = Found {
            texts: Vec::new(asking.alloc),
            seen: BTreeSet::new(asking.alloc),
            is_open,
            is_limited: false,
            budget: Budget::new(),
        };
        match found.ask_each(asking, most) {
            Ok(()) if found.texts.is_empty() && !asking.which.is_valid() => found.ask_any(asking)?,
            Ok(()) => {}
            Err(refused) if found.texts.is_empty() => return Err(refused),
            Err(_) => found.is_limited = true,
        }
        Ok(found)
    }

    /// Asks the questions of all places, in turns, as far as the budget lasts. The documents beyond those that are asked for are counted
    /// alone, by as many steps as were taken of these.
    fn ask_each(&mut self, asking: &Asking<'_, '_>, most: usize) -> Result<(), AllocError>
        requires { AreFound asking.now self.old }
        ensures { AreFound asking.now self.new }
    {
        let (whole, is_valid) = (self.budget.steps, asking.which.is_valid());
        for place in &asking.walk.places {
            let is_reserved = !is_valid && self.texts.is_empty();
            if self.budget.steps == 0 || (is_reserved && self.budget.steps <= RESERVED) {
                self.is_limited = true;
                break;
            }
            self.ask(asking, place)?;
            // The first question is about the root as it stands: where that has no instance, no place has one.
            if is_valid && self.texts.is_empty() && !self.is_limited {
                break;
            }
            if self.texts.len() >= most {
                let taken = whole.saturating_sub(self.budget.steps);
                self.budget.steps = self.budget.steps.min(taken.max(LEAST_FOR_COUNTING));
            }
        }
        Ok(())
    }

    /// Asks the question of a place, and notes for its rule whether it is answered.
    fn ask(&mut self, asking: &Asking<'_, '_>, place: &Place<'_>) -> Result<(), AllocError>
        requires { AreFound asking.now self.old }
        ensures { AreFound asking.now self.new }
    {
        let answer = asking.asked(place, &mut self.budget);
        self.is_limited |= answer.is_err();
        if let Some(is_open) = self.is_open.get_mut(place.rule) {
            *is_open &= answer.is_err();
        }
        self.take(asking, answer)
    }

    /// Asks for any document that is no instance of the root.
    fn ask_any(&mut self, asking: &Asking<'_, '_>) -> Result<(), AllocError>
        requires { AreFound asking.now self.old }
        ensures { AreFound asking.now self.new }
    {
        let anything = asking.walk.of_everything()?;
        let answer = asking.answered(anything, &mut self.budget);
        // Where there is no document, no limit kept one from being found.
        if !matches!(answer, Ok(Some(_))) {
            self.is_limited = answer.is_err();
        }
        self.take(asking, answer)
    }

    /// Puts the text that is answered, if there is one, behind the others, unless it is one of them, and counts what it took.
    fn take(&mut self, asking: &Asking<'_, '_>, answer: Answer) -> Result<(), AllocError>
        requires answer { IfOk answer (IsAnswer asking.now) }
        requires found { AreFound asking.now self.old }
        ensures { AreFound asking.now self.new }
    {
        let text = match answer {
            Ok(Some(text)) => text,
            Ok(None) | Err(QuestionFault::UnknownRoot | QuestionFault::TooManyCases) => {
                return Ok(());
            }
            Err(QuestionFault::OutOfMemory) => return Err(AllocError),
        };
        self.budget.spend(text.len().saturating_mul(STEPS_OF_BYTE));
        let copy = Vec::from_slice(asking.alloc, &text)?;
        if self.seen.insert(copy)? {
            self.texts.push(text)?;
        }
        Ok(())
    }
}
