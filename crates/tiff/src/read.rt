// Bytes inside a block, and the directory at a position.
ghost use Rattle.std.specs.Prelude.{◌≡◌, ◌+◌, length, leb, IfOk};
ghost use Rattle.endian.specs.Told.{endian_of};
ghost use Rattle.capture_rules.specs.Doc.Directory.{directory};
ghost use Rattle.tiff.specs.Told.{directory_of};

use crate::directory::Directory;
use crate::fault::Fault;
use endian::Endian;

// Whether the `n` bytes from `at` are inside the block.
pub fn inside(block: &[u8], at: usize, n: usize) -> bool
    ensures { result ≡ leb (at + n) (length block.now) }
{
    at.checked_add(n).is_some_and(|end| end <= block.len())
}

#[tactic(auto, unfolding(capture_rules::specs::Doc::Directory::directory))]
pub fn read_directory<'a>(order: Endian, block: &'a [u8], at: usize) -> Result<Directory<'a>, Fault>
    ensures read { directory_of result ≡ directory (endian_of order) block.now at }
    ensures of_block { IfOk result (λ d. (d.order ≡ order) × (d.block ≡ block.entry)) }
{
    if !inside(block, at, 2) {
        return Err(Fault::Outside);
    }
    let from = at + 2;
    let count = usize::from(order.loadu16(block, at));
    if !inside(block, from, Directory::ENTRY * count) {
        return Err(Fault::Outside);
    }
    Ok(Directory {
        order,
        block,
        from,
        count,
    })
}
