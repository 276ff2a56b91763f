// First matches, and what a search answers. Their laws, which every table's search cites, are in specs/ and proofs/.
#![tactic(auto)]

ghost use Rattle.std.specs.Prelude.{◌≡◌, ℕ, ◌<◌, Bool};
ghost use Rattle.search.specs.First.{first};

// The first number below n that passes a test: the test is any that answers as p does.
pub fn first<F: Fn(usize) -> bool>(n: usize, test: F) -> Option<usize>
    requires { (i : ℕ) → i < n → F.pre test i }
    ensures { (p : ℕ → Bool) → ((i : ℕ) (b : Bool) → i < n → F.post test i b → b ≡ p i) → result ≡ first p n }
{
    for i in 0..n {
        if test(i) {
            return Some(i);
        }
    }
    None
}
