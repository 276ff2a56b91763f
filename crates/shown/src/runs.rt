// A section's Code words in the map, counted from its first.
ghost use Rattle.std.specs.Prelude.{◌+◌, ◌<◌, ◌≤◌, ◌^◌, ◌≡◌};
ghost use Rattle.shown.specs.Counted.{visited_in};
ghost use Rattle.shown.specs.Sought.{Sought};

use lookups::WordNumber;

// So many words, the first of which has the number `base`.
#[derive(Clone, Copy)]
pub(crate) struct CodeWords {
    pub(crate) base: u32,
    pub(crate) count: u32,
    ghost numbered: { base + count < 2 ^ 32 },
    ghost addressed: { count < 2 ^ 30 },
}

impl CodeWords {
    // The first word from j on that was visited, or was not, as wanted; or how many words there are.
    pub(crate) fn first(self, map: &[u32], j: u32, wanted: bool) -> u32
        requires { j ≤ self.count }
        ensures { Sought map.now self.base self.count j wanted result }
    {
        for k in j..self.count {
            if visited::contains(map, WordNumber(self.base + k)) == wanted {
                return k;
            }
        }
        self.count
    }

    // How many of the words were visited.
    #[tactic(auto, using(crate::proofs::Counting::none_counted))]
    pub(crate) fn visited(self, map: &[u32]) -> u32
        ensures { result ≡ visited_in map.now self.base self.count }
    {
        let mut n = 0;
        for k in 0..self.count {
            if visited::contains(map, WordNumber(self.base + k)) {
                n += 1;
            }
        }
        n
    }
}
