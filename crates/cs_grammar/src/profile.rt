// The profiles of CUE.

/// Which forms of CUE a call takes.
#[derive(Clone, Copy, PartialEq, Eq)]
pub enum Profile {
    /// Those that stand for nothing but themselves.
    Default,
    /// Beside them those of ordinary CUE that stand for a package of the default profile.
    Wide,
}
