// What holds of every guarded package.
ghost use Rattle.cs_instance.specs.Instance.{OneMeaning};

use cs_guard::Guarded;

/// A guarded package gives one meaning to its definitions: there is an instance relation, and only one.
pub fn one_meaning(package: &Guarded)
    ensures { OneMeaning «package».now }
{
    let _package = package.package(); // for the proof: the package is guarded
}
