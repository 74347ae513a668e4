// When a picture was taken, and its exposure bias: from an Exif block, or from an image by way of its block.
#![tactic(auto)]

mod bias;
mod date;
mod pointer;

ghost use Rattle.std.specs.Prelude.{◌≡◌};
ghost use Rattle.jpeg_rules.specs.Doc.Either.{either_answer};
ghost use Rattle.capture_rules.specs.Doc.Capture.{in_order, capture_in, capture_from, capture, photo};
ghost use Rattle.tiff.specs.Told.{by_directory};
ghost use Rattle.capture.specs.Told.{dated_of, biased_of, captured_of, not_handed, number, photo_of};
ghost use Rattle.capture.specs.declared.NotRead.TheVariants.{Unread};

use bias::bias_in;
use boxes::Refusal;
use date::date_in;
use dates::Time;
use fraction::Fraction;
use output::NoBlock;
use pointer::exif_at;
use tiff::{Directory, Fault};

// The bias may be missing: that is no refusal.
#[derive(Clone, Copy)]
pub struct Capture {
    pub time: Time,
    pub bias: Option<Fraction>,
}

// Why nothing was read of an image: extraction handed out no block (28 too: the block is longer than the buffer), or the block was refused.
#[derive(Clone, Copy)]
pub enum NotRead {
    NoBlock(Refusal),
    Unread(Fault),
}

impl NotRead {
    pub fn number(self) -> u8
        ensures { result ≡ number self }
    {
        match self {
            NotRead::NoBlock(e) => e.number(),
            NotRead::Unread(e) => e.number(),
        }
    }
}

// What no room was left for is refused as 28.
impl From<NoBlock> for NotRead {
    ghost from_gives = { λ e r. r ≡ not_handed e };

    fn from(e: NoBlock) -> NotRead {
        match e {
            NoBlock::NoRoom(_) => NotRead::NoBlock(Refusal::NoRoom),
            NoBlock::Refused(refusal) => NotRead::NoBlock(refusal),
        }
    }
}

impl From<Fault> for NotRead {
    ghost from_gives = { λ e r. r ≡ Unread e };

    fn from(fault: Fault) -> NotRead {
        NotRead::Unread(fault)
    }
}

// The date comes before the bias: where both are refused, the answer is the date's.
#[tactic(auto, unfolding(capture_rules::specs::Doc::Capture::in_order))]
fn in_order(
    dated: Result<Time, Fault>,
    biased: Result<Option<Fraction>, Fault>,
) -> Result<Capture, Fault>
    ensures { captured_of result ≡ in_order (dated_of dated) (biased_of biased) }
{
    let time = dated?;
    let bias = biased?;
    Ok(Capture { time, bias })
}

// From the Exif directory.
#[tactic(auto, unfolding(capture_rules::specs::Doc::Capture::capture_in))]
fn capture_in(exif: Directory<'_>) -> Result<Capture, Fault>
    ensures { captured_of result ≡ by_directory capture_in exif.entry }
{
    in_order(date_in(exif), bias_in(exif))
}

// From the first directory, which points to the Exif directory.
#[tactic(auto, unfolding(capture_rules::specs::Doc::Capture::capture_from))]
fn from_directory(first: Directory<'_>) -> Result<Capture, Fault>
    ensures { captured_of result ≡ by_directory capture_from first.entry }
{
    let at = exif_at(first)?;
    let exif = tiff::read_directory(first.order, first.block, at)?;
    capture_in(exif)
}

#[tactic(auto, unfolding(capture_rules::specs::Doc::Capture::capture))]
pub fn from_block(block: &[u8]) -> Result<Capture, Fault>
    ensures { captured_of result ≡ capture block.now }
{
    let header = tiff::read_header(block)?;
    let first = tiff::read_directory(header.order, block, header.first)?;
    from_directory(first)
}

// Extracts the block into `out` first, and then reads it there. After any answer `out` is what extraction left.
#[tactic(auto, using(crate::specs::Photo::photo_refused, crate::specs::Photo::block_inside, crate::specs::Photo::photo_read, rules::specs::Laws::Numbers::first_part))]
pub fn from_image(image: &[u8], out: &mut [u8]) -> Result<Capture, NotRead>
    ensures result_value { photo_of result ≡ photo image.now out.old }
    ensures out_after { out.new ≡ (either_answer image.now out.old).output }
{
    let n = reader::get_exif_attr(image, out)?;
    Ok(from_block(&out[..n])?)
}
