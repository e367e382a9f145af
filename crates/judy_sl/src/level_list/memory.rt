// How many bytes of memory the levels but the first have asked for.
use super::LevelList;
use judy_word::WordMap;
use std::mem::size_of;

// A place of the slab has a tag beside the level, as an option has.
const _: () = prove!(size_of::<Option<WordMap>>() == 48);

impl LevelList {
    // Those of both lists' places and of each level's nodes.
    pub fn bytes(&self) -> u64 {
        let place = size_of::<Option<WordMap>>() as u64;
        let places = (self.words.capacity() as u64).wrapping_mul(place);
        let numbers = (self.numbers.capacity() as u64).wrapping_mul(4);
        let mut total = places.wrapping_add(numbers);
        for (_, level) in self.words.iter() {
            total = total.wrapping_add(level.bytes());
        }
        total
    }
}
