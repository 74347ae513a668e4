// What the lines come to.
ghost use Rattle.std.specs.Prelude.{◌*◌, ◌≤◌};

// Answers go from 0 to 99.
pub(crate) const ANSWERS: usize = 100;

// How many files there are, the bytes of their blocks, and the largest of those. Lines are few and say little: so no number here is long.
#[derive(Clone, Copy)]
pub(crate) struct Totals {
    pub(crate) files: usize,
    pub(crate) bytes: usize,
    pub(crate) largest: usize,
    ghost few: { files ≤ 100000 },
    ghost small: { bytes ≤ 65535 * files },
    ghost each: { largest ≤ 65535 },
}
