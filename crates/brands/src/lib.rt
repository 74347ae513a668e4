// The file type box: one of two brands must be among the compatible ones.
#![tactic(auto)]

ghost use Rattle.std.specs.Prelude.{◌≡◌};
ghost use Rattle.rules.specs.Doc.Ftyp.{known, brand_test};
ghost use Rattle.rules.specs.Doc.Heif.{is_heif};
ghost use Rattle.brands.specs.Told.{ftyp_of};

use boxes::{FTYP, Header, Refusal};

// A brand, as the number of its four letters.
#[derive(Clone, Copy)]
struct Brand(u32);

impl Brand {
    const MIF1: u32 = 0x6d696631;

    const MSF1: u32 = 0x6d736631;

    // Where the compatible brands begin in an `ftyp`: after the major brand and the minor version.
    const COMPATIBLE: usize = 8;

    const SIZE: usize = 4;

    // Whether it is one of the two.
    fn is_known(self) -> bool
        ensures { result ≡ known self.0 }
    {
        matches!(self.0, Brand::MIF1 | Brand::MSF1)
    }
}

// An `ftyp`: one of its compatible brands must be known. Up to three bytes behind the last are ignored.
pub fn parse_ftyp(body: &[u8]) -> Result<(), Refusal>
    ensures { ftyp_of result ≡ brand_test body.now }
{
    let Some(brands) = body.get(Brand::COMPATIBLE..) else {
        return Err(Refusal::BoxTooSmall);
    };
    if brands
        .chunks_exact(Brand::SIZE)
        .any(|brand| Brand(endian::loadu32(brand, 0)).is_known())
    {
        Ok(())
    } else {
        Err(Refusal::NoKnownBrand)
    }
}

// By the first `ftyp` alone, with boxes as inside a box. The loops are two, with a label, as document 01 asks: the first matching brand ends both.
#[tactic(auto, using(crate::specs::Brands::heif_start, crate::specs::Brands::heif_done))]
pub fn is_heif(buf: &[u8]) -> bool
    ensures { result ≡ is_heif buf.now }
{
    let mut at = 0;
    'boxes: loop {
        if buf.len() <= at {
            break 'boxes false;
        }
        let Ok(child) = boxes::child_box(buf, Header::read(buf, at)) else {
            break 'boxes false;
        };
        if child.kind == FTYP {
            let body = &buf[child.from..child.to];
            if body.len() < Brand::COMPATIBLE {
                break 'boxes false;
            }
            // By places, counted by hand: with a `for`, over `chunks_exact` or by numbers, a brand takes a quarter more here.
            let mut i = Brand::COMPATIBLE;
            while Brand::SIZE <= body.len() - i {
                if Brand(endian::loadu32(body, i)).is_known() {
                    break 'boxes true;
                }
                i += Brand::SIZE;
            }
            break 'boxes false;
        }
        at = child.to;
    }
}
