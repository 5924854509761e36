// Judges that do next to nothing, or count how often they are asked.
use cs_table::{Judge, Verdicts, fill};
use cs_tool::Fault;
use std::alloc::Global;
use std::cell::Cell;
use std::str;

/// As many as the items of the largest table that is square.
const RULES: usize = 8192;

/// Answers yes where the rule is what is left of the item by thirds, or never, and has a class for each such rest.
#[derive(Drop)]
pub struct Thirds {
    pub items: usize,
    pub rules: usize,
    /// How many classes it says that there are.
    pub classes: usize,
    /// Whether it ever says yes.
    pub affirms: bool,
    /// Whether it counts how often it is asked, which takes as long as the rest of a judgement.
    pub counts: bool,
    pub asked: Cell<u64>,
}

impl Judge for Thirds {
    ghost use Rattle.std.specs.Prelude.{◌≡◌, ◌%◌, ◌&&◌, nat_eq, refl};
    ghost use Rattle.std.proofs.Common.{sym, ap, ◌∙◌};

    ghost item_count = { λ s. s.items };

    ghost rule_count = { λ s. s.rules };

    ghost answer = { λ s i r f. s.affirms && nat_eq (i % 3) r };

    ghost is_of_class = { λ s i c. i % 3 ≡ c };

    ghost looks_back = { λ s i r f g same. refl };

    ghost same_class = { λ s i j c h k f same r l. ap (λ n. s.affirms && nat_eq n r) (h ∙ sym k) };

    fn items(&self) -> usize {
        self.items
    }

    fn rules(&self) -> usize {
        self.rules
    }

    fn classes(&self) -> usize {
        self.classes
    }

    fn class(&self, item: usize) -> Option<usize> {
        Some(item % 3)
    }

    fn judge(&self, item: usize, rule: usize, _done: &Verdicts) -> bool {
        if self.counts {
            self.asked.set(self.asked.get().wrapping_add(1));
        }
        self.affirms && item % 3 == rule
    }
}

/// Answers as another judge, and counts how often it is asked.
#[derive(Drop)]
struct Counting<'a, J> {
    judge: &'a J,
    asked: Cell<u64>,
}

impl<'a, J: Judge> Judge for Counting<'a, J> {
    ghost item_count = { λ s. J.item_count s.judge.now };

    ghost rule_count = { λ s. J.rule_count s.judge.now };

    ghost answer = { λ s. J.answer s.judge.now };

    ghost looks_back = { λ s. J.looks_back s.judge.now };

    ghost same_class = { λ s i j c none. absurd none };

    fn items(&self) -> usize {
        self.judge.items()
    }

    fn rules(&self) -> usize {
        self.judge.rules()
    }

    fn judge(&self, item: usize, rule: usize, done: &Verdicts) -> bool {
        self.asked.set(self.asked.get().wrapping_add(1));
        self.judge.judge(item, rule, done)
    }
}

/// A judge by thirds that counts nothing, and has no classes.
pub fn by_thirds(items: usize, rules: usize) -> Thirds {
    Thirds {
        items,
        rules,
        classes: 0,
        affirms: true,
        counts: false,
        asked: Cell::new(0),
    }
}

/// How many judgements a table has of as many items as the text says.
pub fn judged(alloc: Global, items: &[u8]) -> Result<usize, Fault> {
    let Ok(items) = str::from_utf8(items).unwrap_or("").trim().parse::<usize>() else {
        return Err(Fault::ReadFailed);
    };
    let table = fill(alloc, &by_thirds(items, RULES))?;
    Ok(table.judged() as usize)
}

/// How often a judge is asked until its table is filled.
pub fn asked<J: Judge>(alloc: Global, judge: &J) -> Result<u64, Fault> {
    let counting = Counting {
        judge,
        asked: Cell::new(0),
    };
    fill(alloc, &counting)?;
    Ok(counting.asked.get())
}

/// The verdict of a table's last item by a rule.
pub fn last_verdict(table: &Verdicts, rule: usize) -> bool {
    match table.items().checked_sub(1) {
        Some(last) => rule < table.rules() && table.get(last, rule),
        None => false,
    }
}

/// A judge's verdict of its last item by a rule, where a table says no for every pair.
pub fn by_refusals<J: Judge>(alloc: Global, judge: &J, rule: usize) -> Result<bool, Fault> {
    let never = Thirds {
        affirms: false,
        ..by_thirds(judge.items(), judge.rules())
    };
    let done = fill(alloc, &never)?;
    Ok(verdict_by(judge, rule, &done))
}

/// A judge's verdict of its last item by a rule, where a table gives the others.
fn verdict_by<J: Judge>(judge: &J, rule: usize, done: &Verdicts) -> bool {
    let is_sized = done.items() == judge.items() && done.rules() == judge.rules();
    match judge.items().checked_sub(1) {
        Some(last) => is_sized && rule < judge.rules() && judge.judge(last, rule, done),
        None => false,
    }
}
