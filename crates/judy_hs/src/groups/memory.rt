// How many bytes of memory all groups have asked for.
use super::Groups;
use crate::group::GroupPlace;
use std::mem::size_of;

impl GroupPlace {
    // Those of the group, where there is one.
    fn bytes(&self) -> u64 {
        match self {
            GroupPlace::Free(_) => 0,
            GroupPlace::Short(words) => words.bytes(),
            GroupPlace::Long(group) => group.bytes(),
        }
    }
}

impl Groups {
    // Those of the lengths, of the groups' places and of each group.
    pub fn bytes(&self) -> u64 {
        let places = (self.groups.capacity() as u64).wrapping_mul(size_of::<GroupPlace>() as u64);
        let mut total = self.lengths.bytes().wrapping_add(places);
        for group in &self.groups {
            total = total.wrapping_add(group.bytes());
        }
        total
    }
}
