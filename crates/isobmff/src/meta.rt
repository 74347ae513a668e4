// The `meta` box: its children in order, and what they leave.
ghost use Rattle.std.specs.Prelude.{◌≡◌};
ghost use Rattle.rules.specs.Doc.Children.{kept};
ghost use Rattle.isobmff.specs.Told.{state_of, met_of, kept_of};
ghost use Rattle.isobmff.specs.Children.{children_over, afterwards};

use boxes::{Child, Header, IINF, Refusal, Span};

const ILOC: u32 = 0x696c6f63;

const IDAT: u32 = 0x69646174;

// Where the children begin: after the version.
const CHILDREN: usize = 4;

// What all children leave: the wanted id, and where the body of the last `iloc` and of the last `idat` is, each once one was met.
#[derive(Clone, Copy)]
struct Met {
    item_id: Option<u64>,
    iloc: Option<Span>,
    idat: Option<Span>,
}

// All children, in order. An `iinf` is read as it is met. `iloc` may stand before it: it is only kept here, and read when the wanted id is known.
fn children(body: &[u8]) -> Result<Met, Refusal>
    ensures { met_of result ≡ children_over body.now }
{
    let mut at = CHILDREN;
    let mut item_id = None;
    let mut iloc = None;
    let mut idat = None;
    while at < body.len() {
        let Child { kind, from, to } = boxes::child_box(body, Header::read(body, at))?;
        match kind {
            IINF => item_id = items::parse_iinf(&body[from..to], item_id)?,
            ILOC => iloc = Some(Span { from, to }),
            IDAT => idat = Some(Span { from, to }),
            _ => {}
        }
        at = to;
    }
    Ok(Met {
        item_id,
        iloc,
        idat,
    })
}

// What is asked of them: the wanted id, where the last `iloc` is, and where the last `idat` is if there is one.
#[derive(Clone, Copy)]
pub(crate) struct Kept {
    pub item_id: u64,
    pub iloc: Span,
    pub idat: Option<Span>,
}

// After the children: no wanted id is asked first, then no `iloc`.
#[tactic(auto, unfolding(crate::specs::Children::afterwards))]
fn after(met: Met) -> Result<Kept, Refusal>
    ensures { kept_of result ≡ afterwards (state_of met) }
{
    Ok(Kept {
        item_id: met.item_id.ok_or(Refusal::NotFound)?,
        iloc: met.iloc.ok_or(Refusal::NoIloc)?,
        idat: met.idat,
    })
}

// The version is judged before any child is looked at.
#[tactic(auto, using(crate::specs::Children::meta_cut, crate::specs::Children::meta_version, crate::specs::Children::meta_children))]
pub(crate) fn parse_meta(body: &[u8]) -> Result<Kept, Refusal>
    ensures { kept_of result ≡ kept body.now }
{
    match boxes::fullbox_header(body, 0)? {
        0 => after(children(body)?),
        _ => Err(Refusal::MetaVersion),
    }
}
