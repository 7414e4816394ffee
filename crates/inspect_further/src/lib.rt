// What a further line does.
#![tactic(auto)]

use allocate_extent::allocate_extent;
use commit_cost::commit_cost;
use further_line::asked::Further;
use inspect_memory::overwrite;
use inspect_state::fixture::Fixture;
use model_types::error::Error;
use reserve::reserve;

// Value 0 of what is done, and of what is out of range that the line is malformed.
fn answer_of(done: Option<()>) -> Result<u32, Error> {
    done.map(|_| 0).ok_or(Error::LineMalformed)
}

// Does what a line asks for, and answers its value. Out of range it alters nothing. The list keeps what an extent wrote.
pub fn alter(line: Further, fixture: &mut Fixture) -> Result<u32, Error> {
    let memory = &mut fixture.memory;
    match line {
        Further::Disk { index, word } => answer_of(fixture.disk.set_word(index as usize, word)),
        Further::Length { words } => answer_of(fixture.disk.resize(words as usize)),
        Further::Memory(part) => answer_of(overwrite(part, memory)),
        Further::List { places } => answer_of(fixture.list.set_len(places as usize)),
        Further::Cost { slot, count } => commit_cost(memory, slot, count),
        Further::Extent { slot, count, near } => {
            allocate_extent(memory, slot, count, near, fixture.list.as_mut_slice())
        }
        Further::Reserve { slot, blocks } => reserve(memory, slot, blocks).map(|_| 0),
    }
}
