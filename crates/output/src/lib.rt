// The answer of extraction, whatever kind of image the block is from; the copy of bytes to the output, and the room for them.
#![tactic(auto)]

ghost use Rattle.std.specs.Prelude.{◌≡◌, ℕ, List, drop, length};
ghost use Rattle.rules.specs.Doc.Outcomes.{fine};
ghost use Rattle.rules.specs.OverBytes.{answer_of};
ghost use Rattle.output.specs.Told.{told};
ghost use Rattle.output.specs.declared.NoBlock.TheVariants.{Refused};
ghost use Rattle.output.specs.Copied.{Copied};

use boxes::Refusal;

// Why no block is handed out: there is no room for it, with the length that is needed, or it is refused before the room is asked.
#[derive(Clone, Copy)]
pub enum NoBlock {
    NoRoom(usize),
    Refused(Refusal),
}

// What is refused before is refused with the same number.
impl From<Refusal> for NoBlock {
    ghost from_gives = { λ e n. n ≡ Refused e };

    fn from(e: Refusal) -> NoBlock {
        NoBlock::Refused(e)
    }
}

// The block's length, or why there is no block.
pub type Extracted = Result<usize, NoBlock>;

// The number of an answer, and the length beside it: only 0 and 28 have one.
pub fn numbers(answer: Extracted) -> (u8, usize)
    ensures { (out : List ℕ) → (result.0 ≡ (told answer out).number) × (result.1 ≡ (told answer out).length) }
{
    match answer {
        Ok(block) => (0, block),
        Err(NoBlock::NoRoom(needed)) => (Refusal::NoRoom.number(), needed),
        Err(NoBlock::Refused(refusal)) => (refusal.number(), 0),
    }
}

// The library's `copy_from_slice` calls C's `memmove`: the archive for C would need it from outside, and a part of a few bytes would pay for the call.
#[tactic(auto, using(std::proofs::lemmas::List::take_more, std::proofs::lemmas::List::take_more_set, std::proofs::Common::take_all))]
fn copy(from: &[u8], to: &mut [u8])
    requires { length from.now ≡ length to.old }
    ensures { to.new ≡ from.now }
{
    for i in 0..to.len() {
        to[i] = from[i];
    }
}

// Copies the bytes of `part` from `skip` on to `out` from `at` on, as many as there is room for, and answers the place after the last.
pub fn put(part: &[u8], skip: usize, out: &mut [u8], at: usize) -> usize
    ensures { Copied (drop skip part.now) at out.old result out.new }
{
    if part.len() <= skip || out.len() <= at {
        return at;
    }
    let rest = &part[skip..];
    let n = rest.len().min(out.len() - at);
    copy(&rest[..n], &mut out[at..at + n]);
    at + n
}

// The block goes to the front of `out`, if there is room for all of it.
#[tactic(auto, using(crate::specs::Answers::answer_28))]
pub fn hand_out(block: &[u8], out: &mut [u8]) -> Extracted
    ensures { told result out.new ≡ answer_of out.old (fine block.now) }
{
    if out.len() < block.len() {
        return Err(NoBlock::NoRoom(block.len()));
    }
    put(block, 0, out, 0);
    Ok(block.len())
}
