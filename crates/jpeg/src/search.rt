// The segments, up to the one that ends the search.
ghost use Rattle.std.specs.Prelude.{◌≡◌};
ghost use Rattle.jpeg.specs.Told.{found_of};
ghost use Rattle.jpeg_rules.specs.Doc.Block.{found_in};

use crate::segment::{Next, read_segment};
use boxes::{Refusal, Span};

// Where the segments begin: behind FF D8.
const SEGMENTS: usize = 2;

// Each segment says where the next one begins: so no index is counted here.
#[tactic(auto, using(crate::specs::Search::found_start, crate::specs::Search::search_refused, crate::specs::Search::search_found, crate::specs::Search::search_on, crate::specs::Search::search_done, crate::specs::Search::on_ahead))]
pub(crate) fn find(image: &[u8]) -> Result<Span, Refusal>
    ensures { found_of result ≡ found_in image.now }
{
    let mut at = SEGMENTS;
    while at < image.len() {
        match read_segment(image, at)? {
            Next::Found(block) => return Ok(block),
            Next::On(next) => at = next,
        }
    }
    Err(Refusal::ImageEnds)
}
