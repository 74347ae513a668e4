ghost use Rattle.std.specs.Prelude.{◌≡◌, ◌==◌, eqb, length};
ghost use Rattle.rules.specs.Doc.Bytes.{field};
ghost use Rattle.boxes.specs.Told.{field_of};
ghost use Rattle.splitter.specs.Told.{held, sized_of, full_box_of, array4_of, piece_of, child_of};
ghost use Rattle.splitter.specs.Front.{sized_front, full_box_at, array4_at, slice_front, child_box_at};
ghost use Rattle.splitter.specs.Behind.{behind, behind_sized, behind_box};

use crate::behind::header_read;
use boxes::{Child, Header, Refusal};

// The rest of a box's bytes. What was read is gone. A box or a number at the front is read by a function at a position.
#[derive(Clone, Copy)]
pub struct BoxSplitter<'a> {
    pub inner: &'a [u8],
}

impl<'a> BoxSplitter<'a> {
    // Where the next field stands, and how many bytes the fields have.
    pub const FRONT: usize = 0;

    pub const UINT16: usize = 2;

    pub const UINT32: usize = 4;

    pub const UINT64: usize = 8;

    pub const ARRAY4: usize = 4;

    pub fn new(slice: &'a [u8]) -> BoxSplitter<'a>
        ensures { result.inner ≡ slice.entry }
    {
        BoxSplitter { inner: slice }
    }

    pub fn is_empty(&self) -> bool
        ensures { result ≡ eqb (length (held self.now)) 0 }
    {
        self.inner.is_empty()
    }

    pub fn len(&self) -> usize
        ensures { result ≡ length (held self.now) }
    {
        self.inner.len()
    }

    // The type and the body. Of a box that is refused the header is gone, as far as it could be read.
    pub fn child_box(&mut self) -> Result<(u32, BoxSplitter<'a>), Refusal>
        ensures value { child_of result ≡ child_box_at (held self.old) 0 }
        ensures left { held self.new ≡ behind_box (held self.old) 0 }
    {
        let s = self.inner;
        match boxes::child_box(s, Header::read(s, BoxSplitter::FRONT)) {
            Ok(Child { kind, from, to }) => {
                self.inner = &s[to..];
                Ok((kind, BoxSplitter::new(&s[from..to])))
            }
            Err(e) => {
                self.inner = &s[header_read(s)..];
                Err(e)
            }
        }
    }

    // A number of 0, 4 or 8 bytes. Another size reads nothing and is no refusal: the Rust has `None` for it, and each of its callers another message.
    #[tactic(auto, unfolding(crate::specs::Front::sized_front, crate::specs::Front::as_sized, crate::specs::Behind::behind_sized), using(crate::specs::Left::size_0))]
    pub fn size048(&mut self, size: usize) -> Result<Option<u64>, Refusal>
        ensures value { sized_of result ≡ sized_front (held self.old) size }
        ensures left { held self.new ≡ behind_sized (held self.old) size }
    {
        match size {
            0 => Ok(Some(0)),
            4 => self.uint32().map(u64::from).map(Some),
            8 => self.uint64().map(Some),
            _ => Ok(None),
        }
    }

    // The version and the flags that a full box starts with.
    #[tactic(auto, unfolding(crate::specs::Front::full_box_at))]
    pub fn fullbox_header(&mut self) -> Result<(u32, u32), Refusal>
        ensures value { full_box_of result ≡ full_box_at (held self.old) 0 }
        ensures left { held self.new ≡ behind (held self.old) 4 }
    {
        let tmp = self.uint32()?;
        Ok((tmp >> 24, tmp & 0xffffff))
    }

    // Numbers of two, four and eight bytes.
    #[tactic(auto, using(crate::specs::Taken::numbers))]
    pub fn uint16(&mut self) -> Result<u16, Refusal>
        ensures value { field_of result ≡ field (held self.old) 0 2 }
        ensures left { held self.new ≡ behind (held self.old) 2 }
    {
        self.slice(BoxSplitter::UINT16)
            .map(|num| endian::loadu16(num, BoxSplitter::FRONT))
    }

    #[tactic(auto, using(crate::specs::Taken::numbers))]
    pub fn uint32(&mut self) -> Result<u32, Refusal>
        ensures value { field_of result ≡ field (held self.old) 0 4 }
        ensures left { held self.new ≡ behind (held self.old) 4 }
    {
        self.slice(BoxSplitter::UINT32)
            .map(|num| endian::loadu32(num, BoxSplitter::FRONT))
    }

    #[tactic(auto, using(crate::specs::Taken::numbers))]
    pub fn uint64(&mut self) -> Result<u64, Refusal>
        ensures value { field_of result ≡ field (held self.old) 0 8 }
        ensures left { held self.new ≡ behind (held self.old) 8 }
    {
        self.slice(BoxSplitter::UINT64)
            .map(|num| endian::loadu64(num, BoxSplitter::FRONT))
    }

    // Four bytes in their order, one by one as the definition names them.
    #[tactic(auto, using(crate::specs::Taken::arrays))]
    pub fn array4(&mut self) -> Result<[u8; 4], Refusal>
        ensures value { array4_of result ≡ array4_at (held self.old) 0 }
        ensures left { held self.new ≡ behind (held self.old) 4 }
    {
        let x = self.slice(BoxSplitter::ARRAY4)?;
        Ok([x[0], x[1], x[2], x[3]])
    }

    // The next `n` bytes; where there are fewer, all stay.
    #[tactic(auto, unfolding(crate::specs::Front::slice_front, crate::specs::Behind::behind))]
    pub fn slice(&mut self, n: usize) -> Result<&'a [u8], Refusal>
        ensures value { piece_of result ≡ slice_front (held self.old) n }
        ensures left { held self.new ≡ behind (held self.old) n }
    {
        let slice = self.inner.get(..n).ok_or(Refusal::BoxTooSmall)?;
        self.inner = &self.inner[n..];
        Ok(slice)
    }
}
