// What the programs share that hold a layer against recorded vectors (vectors/): records of one size, counted by kind.
#![tactic(auto)]

ghost use Rattle.std.specs.Prelude.{◌≤◌, ◌<◌, ◌/◌, length};

// How many records of one kind there are, and how many of them we answer alike.
#[derive(Clone, Copy)]
pub struct Tally {
    pub asked: usize,
    pub alike: usize,
}

// Counts the records of N bytes of one kind, which is their first word.
pub fn count_kind<const N: usize, F: Fn(&[u8]) -> bool>(s: &[u8], kind: usize, is_alike: F) -> Tally
    requires size { (0 < N) × (N < 65536) }
    requires callable { F.IsAlwaysCallable is_alike }
    ensures asked { result.asked ≤ length s.now / N }
    ensures alike { result.alike ≤ result.asked }
{
    let (records, _) = s.as_chunks::<N>();
    let mut asked = 0;
    let mut alike = 0;
    for record in records {
        if words::bytes::word_at(record, 0) as usize == kind {
            asked += 1;
            if is_alike(record) {
                alike += 1;
            }
        }
    }
    Tally { asked, alike }
}
