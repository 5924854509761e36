// Why two editions aren't compared.
ghost use Rattle.std.specs.Prelude.{◌≡◌, Some};
ghost use Rattle.cs_compare.specs.Refused.{fault_of_question};

use cs_question::QuestionFault;
use cs_tool::Fault;
use std::alloc::AllocError;

/// An edition of a definition.
#[derive(Clone, Copy)]
pub enum Side {
    Old,
    New,
}

/// Why two editions aren't compared: the refusal of one side's sources or root, or with no side one of the question,
/// `TooManyCases` or `OutOfMemory`.
#[derive(Drop)]
pub struct CompareRefusal {
    pub side: Option<Side>,
    pub fault: Fault,
}

impl CompareRefusal {
    /// The refusal of a side.
    pub fn of(side: Side, fault: Fault) -> CompareRefusal
        ensures side { result.side ≡ Some side }
        ensures fault { result.fault ≡ fault }
    {
        let side = Some(side);
        CompareRefusal { side, fault }
    }
}

impl From<Fault> for CompareRefusal {
    ghost use Rattle.std.specs.Prelude.{◌≡◌, None};

    ghost from_gives = { λ f r. (r.side ≡ None) × (r.fault ≡ f) };

    fn from(fault: Fault) -> CompareRefusal {
        CompareRefusal { side: None, fault }
    }
}

impl From<AllocError> for CompareRefusal {
    ghost use Rattle.std.specs.Prelude.{◌≡◌, None};
    ghost use Rattle.cs_tool.specs.declared.fault.Fault.TheVariants.{OutOfMemory};

    ghost from_gives = { λ _ r. (r.side ≡ None) × (r.fault ≡ OutOfMemory) };

    fn from(_refused: AllocError) -> CompareRefusal {
        CompareRefusal {
            side: None,
            fault: Fault::OutOfMemory,
        }
    }
}

/// A refusal of the question, as one of the tool.
pub(crate) fn of_question(fault: QuestionFault) -> Fault
    ensures { result ≡ fault_of_question fault }
{
    match fault {
        QuestionFault::OutOfMemory => Fault::OutOfMemory,
        QuestionFault::UnknownRoot => Fault::UnknownRoot,
        QuestionFault::TooManyCases => Fault::TooManyCases,
    }
}
