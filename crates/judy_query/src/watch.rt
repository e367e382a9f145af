//! A meter that looks at the children that are entered by it.

ghost use Rattle.std.specs.Prelude.{◌≡◌, ◌+◌, ◌-◌, ◌^◌, ◌<◌, ◌≤◌, ◌==◌, if◌then◌else◌, length};
ghost use Rattle.judy_node.specs.Trees.{IsChild};
ghost use Rattle.judy_node.specs.Views.{IsView};

use crate::rooms::is_full;
use crate::sparing::{Inner, Sparing, Top};
use judy_bits::Meter;
use judy_leaf::Words;
use judy_node::ViewOf;

/// A meter that counts the full children that are entered by it. It would let any in: that a search enters none is said
/// of the search (laws.rt), and is nothing that this type keeps.
#[derive(Drop)]
pub struct Watch {
    meter: Meter,
    full: u64,
    ghost within: { full ≤ meter },
}

impl Watch {
    /// A watch that goes on counting where a meter stands, and has seen no child yet.
    pub fn new(meter: Meter) -> Watch
        ensures meter { result.meter ≡ meter }
        ensures full { result.full ≡ 0 }
    {
        Watch { meter, full: 0 }
    }

    /// How many full children were entered by it.
    pub fn full_children(&self) -> u64
        ensures { result ≡ self.now.full }
    {
        self.full
    }

    /// The visits so far.
    pub fn visits(&self) -> u64
        ensures { result ≡ self.now.meter }
    {
        self.meter.visits()
    }

    // Enters a child, whose keys have `width` bytes, and counts it where it is full.
    fn enter_any<'a, V: Words + Drop>(&mut self, child: Inner<'a, V>, width: u8) -> ViewOf<'a, V>
        requires below { self.old.meter < 2 ^ 64 - 1 }
        requires child { IsChild V.WORDS width child.0.now }
        requires narrow { width ≤ 7 }
        ensures visits { self.new.meter ≡ self.old.meter + 1 }
        ensures full { self.new.full
            ≡ self.old.full + (if length child.entry.0.now.pairs == 256 ^ width then 1 else 0) }
        ensures view { IsView V.WORDS width child.entry.0.now result }
    {
        if is_full(child.0, width) {
            self.full += 1;
        }
        child.0.enter(width, &mut self.meter)
    }
}

impl Sparing for Watch {
    ghost visits = { λ watch. watch.meter };

    ghost full = { λ watch. watch.full };

    fn enter_root<'a, V: Words + Drop>(&mut self, tree: Top<'a, V>) -> ViewOf<'a, V> {
        tree.0.enter(&mut self.meter)
    }

    fn enter<'a, V: Words + Drop>(&mut self, child: Inner<'a, V>, width: u8) -> ViewOf<'a, V> {
        self.enter_any(child, width)
    }
}
