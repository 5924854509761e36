// What the profile's first edition accepted.
ghost use Rattle.std.specs.Prelude.{◌≡◌, ℕ, List, Bool};
ghost use Rattle.cs_document.specs.Document.{Document};
ghost use Rattle.cs_grammar.specs.declared.profile.Profile.TheVariants as profiles;
ghost use Rattle.cs_instance.specs.Earlier.{IsInstanceEarlier};
ghost use Rattle.cs_instance.specs.Instance.{Rule, definition, IsInstance};
ghost use Rattle.cs_package.specs.Environment.{Environment};
ghost use Rattle.cs_tool.specs.Accepted.{IsAccepted};
ghost use Rattle.cs_tool.specs.Earlier.{IsAcceptedEarlier};

/// A law: sources that the profile's first edition accepted are accepted, with the environment that they declared. Its
/// instance relation is one by the earlier reading too, and each that was one gives every definition the same instances.
pub fn earlier_law()
    ensures accepted { (sources : List (List ℕ)) (E : Environment) → IsAcceptedEarlier sources E
        → IsAccepted profiles.Default sources E }
    ensures still { (sources : List (List ℕ)) (E : Environment) → IsAcceptedEarlier sources E
        → (I : Rule → Document → Bool) → IsInstance E I → IsInstanceEarlier E I }
    ensures same { (sources : List (List ℕ)) (E : Environment) → IsAcceptedEarlier sources E
        → (I J : Rule → Document → Bool) → IsInstance E I → IsInstanceEarlier E J
        → (n : List ℕ) (x : Document) → I (definition n) x ≡ J (definition n) x }
{}
