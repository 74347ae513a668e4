// The splitter at work, for callers that have a slice: whoever calls `children` need know nothing of it.
ghost use Rattle.std.specs.Prelude.{◌≡◌};
ghost use Rattle.rules.specs.Doc.Headers.{child_at};
ghost use Rattle.boxes.specs.Told.{child};
ghost use Rattle.splitter.specs.Children.{whole_children};

use crate::splitter::BoxSplitter;
use boxes::{Child, Header, Refusal};

// The first child of some bytes, and how many whole ones there are before a fault or the end. (`Children` beside `children` would be one name.)
#[derive(Clone, Copy)]
pub struct Counted {
    pub first: Result<Child, Refusal>,
    pub count: usize,
}

// How many bytes the body of the first one and what is left have tells where it stands.
#[tactic(auto, using(crate::specs::FrontBox::front_whole, crate::specs::FrontBox::front_refused, crate::specs::FrontBox::none_counted, crate::specs::Counting::whole_few))]
pub fn children(s: &[u8]) -> Counted
    ensures { (child 0 result.first ≡ child_at s.now 0) × (result.count ≡ whole_children s.now) }
{
    let mut splitter = BoxSplitter::new(s);
    match splitter.child_box() {
        Err(e) => Counted {
            first: Err(e),
            count: 0,
        },
        Ok((kind, body)) => {
            let to = s.len() - splitter.len();
            let from = to - body.len();
            Counted {
                first: Ok(Child { kind, from, to }),
                count: 1 + count_children(splitter.inner),
            }
        }
    }
}

// By the rules inside a box, by places: handing out a splitter for each body would cost a third more.
fn count_children(s: &[u8]) -> usize
    ensures { result ≡ whole_children s.now }
{
    let mut at = 0;
    let mut count = 0;
    while let Ok(child) = boxes::child_box(s, Header::read(s, at)) {
        count += 1;
        at = child.to;
    }
    count
}
