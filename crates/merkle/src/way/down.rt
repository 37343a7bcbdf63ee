// Down a way, a level at a time.
ghost use Rattle.std.specs.Prelude.{◌≡◌, ◌≤◌, ◌<◌, false, true, MatchOption};
ghost use Rattle.merkle.specs.Ways.{AtRoot, Below, Down, ToLeft, ToRight};
ghost use Rattle.merkle.specs.declared.way.Way.{Way as Here};
ghost use Rattle.merkle_theory.specs.Tree.{split};

use crate::split::left_size;
use crate::way::Way;

impl Way {
    // None where the tree has no such place.
    pub(crate) fn from_root(count: u64, place: u64) -> Option<Way>
        ensures { MatchOption result (count ≤ place) (AtRoot count place) }
    {
        if place >= count {
            return None;
        }
        Some(Way {
            count,
            place,
            levels: 0,
            turns: 0,
        })
    }

    // Down to where the way ends, or None if that is below so many levels.
    pub(crate) fn down_until<F: Fn(Way) -> bool>(self, levels: usize, ends: F) -> Option<Way>
        requires callable { F.IsAlwaysCallable ends }
        requires goes_on { (w : Here) → F.post ends w false → 2 ≤ w.count }
        requires within { self.levels ≤ levels }
        ensures { MatchOption result ((w : Here) × Down (λ u. F.post ends u false) self w × (w.levels ≡ levels) × F.post ends w false) (λ w. Down (λ u. F.post ends u false) self w × (w.levels ≤ levels) × F.post ends w true) }
    {
        let mut way = self;
        // A loop that is left by its label, as was asked for.
        'down: loop {
            if ends(way) {
                break 'down;
            }
            if way.levels == levels {
                return None;
            }
            way = way.down();
        }
        Some(way)
    }

    // One level down, into the side that has the place. That there is one is asked here, since a way may have come to one leaf.
    fn down(self) -> Way
        requires { 2 ≤ self.count }
        ensures { Below self result }
    {
        let left = left_size(self.count);
        if self.place < left {
            self.to_left(left)
        } else {
            self.to_right(left)
        }
    }

    fn to_left(self, left: u64) -> Way
        requires many { 2 ≤ self.count }
        requires size { left ≡ split self.count }
        requires here { self.place < left }
        ensures { ToLeft self result }
    {
        Way {
            count: left,
            place: self.place,
            levels: self.levels + 1,
            turns: self.turns * 2,
        }
    }

    fn to_right(self, left: u64) -> Way
        requires many { 2 ≤ self.count }
        requires size { left ≡ split self.count }
        requires here { left ≤ self.place }
        ensures { ToRight self result }
    {
        Way {
            count: self.count - left,
            place: self.place - left,
            levels: self.levels + 1,
            turns: self.turns * 2 + 1,
        }
    }
}
