// What holds of the reasons by every guarded package.
ghost use Rattle.cs_instance_reasons.specs.Why.{ReasonsHold};

use cs_guard::Guarded;

/// Reasons hold, by every instance relation: the document is no instance of the rule that it is judged by, the pointer of a
/// reason leads to a value in the document, and this value is no instance of the rule that refuses it, whatever is true of the
/// parts of that rule. And each value that is no instance of a rule has a cause.
pub fn reasons_hold(package: &Guarded)
    ensures { ReasonsHold «package».now }
{}
