// A box, where a run finds it; whether it is opened, and where its children start.
ghost use Rattle.std.specs.Prelude.{◌≡◌, ◌≤◌, ◌<◌, length, IfOk};

use boxes::{Child, Header, IINF, META, Refusal};

const MOOV: u32 = 0x6d6f6f76;

const TRAK: u32 = 0x7472616b;

const MDIA: u32 = 0x6d646961;

const MINF: u32 = 0x6d696e66;

const DINF: u32 = 0x64696e66;

const STBL: u32 = 0x7374626c;

const IPRP: u32 = 0x69707270;

const IPCO: u32 = 0x6970636f;

// A whole box in the bytes `s`: where it starts, its type, and where its body is.
#[derive(Clone, Copy)]
pub(crate) struct Found<'a> {
    pub(crate) s: &'a [u8],
    pub(crate) start: usize,
    pub(crate) child: Child,
    ghost order: { (start < child.from) × (child.from ≤ child.to) },
    ghost inside: { child.to ≤ length s.now },
}

impl<'a> Found<'a> {
    ghost use Rattle.rules.specs.Doc.Headers.{child_at};
    ghost use Rattle.rules.specs.Doc.Listing.{behind, behind_count, opening};
    ghost use Rattle.listing.specs.Told.{box_in, found_of, starts};

    // The box at a position. A run follows the rules inside a box on every level.
    #[tactic(auto, using(boxes::specs::Loops::together))]
    pub(crate) fn at(s: &'a [u8], at: usize) -> Result<Self, Refusal>
        ensures value { found_of result ≡ child_at s.now at }
        ensures place { IfOk result (λ found. (found.s.now ≡ s.now) × (found.start ≡ at)) }
    {
        let child = boxes::child_box(s, Header::read(s, at))?;
        Ok(Found {
            s,
            start: at,
            child,
        })
    }

    // Where its children start, if it is opened: a box that holds boxes and nothing else at once, a leaf not at all.
    #[tactic(auto, using(crate::specs::Openings::opening_holder, crate::specs::Openings::opening_meta, crate::specs::Openings::opening_iinf, crate::specs::Openings::opening_none))]
    pub(crate) fn opening(self) -> Result<Option<usize>, Refusal>
        ensures { starts result ≡ opening self.entry.s.now (box_in self.entry) }
    {
        match self.child.kind {
            MOOV | TRAK | MDIA | MINF | DINF | STBL | IPRP | IPCO => self.behind(0),
            META => self.behind(4),
            IINF => self.behind_count(),
            _ => Ok(None),
        }
    }

    // After n bytes of the body.
    #[tactic(auto, unfolding(rules::specs::Doc::Listing::behind))]
    fn behind(self, n: usize) -> Result<Option<usize>, Refusal>
        ensures { starts result ≡ behind n (box_in self.entry) }
    {
        if self.child.to - self.child.from < n {
            return Err(Refusal::BoxTooSmall);
        }
        Ok(Some(self.child.from + n))
    }

    // An `iinf`: after its version and a count of two bytes (version 0) or four.
    #[tactic(auto, unfolding(rules::specs::Doc::Listing::behind_count, rules::specs::Doc::Iinf::count_size), using(rules::specs::Laws::Numbers::bytes_in_is))]
    fn behind_count(self) -> Result<Option<usize>, Refusal>
        ensures { starts result ≡ behind_count self.entry.s.now (box_in self.entry) }
    {
        match boxes::fullbox_header(&self.s[self.child.from..self.child.to], 0)? {
            0 => self.behind(6),
            _ => self.behind(8),
        }
    }
}
