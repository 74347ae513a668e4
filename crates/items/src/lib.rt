// The item information box: which item is the Exif one.
#![tactic(auto)]

ghost use Rattle.std.specs.Prelude.{◌≡◌, ◌+◌, ◌^◌, ◌<◌};
ghost use Rattle.items.specs.Told.{id_of, ids_of};
ghost use Rattle.items.specs.Wanted.{infe_over, behind_id, entries_over, iinf_over};

use boxes::{Header, Refusal};

const INFE: u32 = 0x696e6665;

const EXIF: u64 = 0x45786966;

// An `iinf`, after those that left `wanted`: the id of the last Exif item, if there is one. Later bytes are ignored.
#[tactic(auto, using(crate::specs::Wanted::iinf_cut, crate::specs::Wanted::iinf_zero_cut, crate::specs::Wanted::iinf_zero, crate::specs::Wanted::iinf_other_cut, crate::specs::Wanted::iinf_other))]
pub fn parse_iinf(body: &[u8], wanted: Option<u64>) -> Result<Option<u64>, Refusal>
    ensures { ids_of result ≡ iinf_over body.now (id_of wanted) }
{
    match boxes::fullbox_header(body, 0)? {
        0 => entries(body, boxes::uint16(body, 4)?, 6, wanted),
        _ => entries(body, boxes::uint32(body, 4)?, 8, wanted),
    }
}

// That many boxes. The count is a promise only: the loop ends at the first box that doesn't fit, with its refusal. An `infe` is asked with
// nothing wanted before it, so that only an Exif one writes `item`: handing that through at every turn would cost a copy.
#[tactic(auto, using(crate::specs::Wanted::entries_none, crate::specs::Wanted::entries_cut))]
fn entries(
    body: &[u8],
    count: u64,
    first: usize,
    wanted: Option<u64>,
) -> Result<Option<u64>, Refusal>
    ensures { ids_of result ≡ entries_over body.now count first (id_of wanted) }
{
    let mut at = first;
    let mut item = wanted;
    for _ in 0..count {
        let child = boxes::child_box(body, Header::read(body, at))?;
        if child.kind == INFE {
            if let Some(exif) = parse_infe(&body[child.from..child.to], None)? {
                item = Some(exif);
            }
        }
        at = child.to;
    }
    Ok(item)
}

// An `infe`, after those that left `wanted`: its id, if its type is Exif.
#[tactic(auto, using(crate::specs::Wanted::infe_cut, crate::specs::Wanted::infe_two_cut, crate::specs::Wanted::infe_two, crate::specs::Wanted::infe_three_cut, crate::specs::Wanted::infe_three, crate::specs::Wanted::infe_other))]
pub fn parse_infe(body: &[u8], wanted: Option<u64>) -> Result<Option<u64>, Refusal>
    ensures { ids_of result ≡ infe_over body.now (id_of wanted) }
{
    match boxes::fullbox_header(body, 0)? {
        2 => behind_id(body, boxes::uint16(body, 4)?, 6, wanted),
        3 => behind_id(body, boxes::uint32(body, 4)?, 8, wanted),
        _ => Err(Refusal::InfeVersion),
    }
}

// The rest of an `infe`, whose id ends at `at`: two bytes, then four of type.
#[tactic(auto, unfolding(crate::specs::Wanted::behind_id), using(crate::specs::Wanted::type_exif, crate::specs::Wanted::type_other))]
fn behind_id(body: &[u8], id: u64, at: usize, wanted: Option<u64>) -> Result<Option<u64>, Refusal>
    requires { at + 2 < 2 ^ 64 }
    ensures { ids_of result ≡ behind_id body.now id at (id_of wanted) }
{
    boxes::uint16(body, at)?;
    match boxes::uint32(body, at + 2)? {
        EXIF => Ok(Some(id)),
        _ => Ok(wanted),
    }
}
