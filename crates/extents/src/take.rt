// An extent taken.
ghost use Rattle.extents.specs.Take.{CanTake, TakesExtent};

use bitops::block;

// Takes so many blocks from start on: their bits in COM and TAM become 1, and their numbers go to the first places of the
// list, rising. Later places stay.
pub fn take_extent(
    com: &mut [u32; 128],
    tam: &mut [u32; 128],
    list: &mut [u32],
    start: u32,
    count: u32,
)
    requires { CanTake start count list.old }
    ensures { TakesExtent start count «com».old tam.old list.old
        «com».new tam.new list.new }
{
    // No plainer without a count: n is a block's distance from start, and its place in the list.
    for n in 0..count {
        let block = start + n;
        block::put(com, block);
        block::put(tam, block);
        list[n as usize] = block;
    }
}
