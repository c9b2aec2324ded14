// The first of the cells at which a test passes: one search for every test.
#![tactic(auto)]

ghost use Rattle.std.specs.Prelude.{◌≡◌, ℕ, Bool, ◌<◌, ◌≤◌};
ghost use Rattle.method.specs.Cast.{first};

// The first of the cells 0 to n - 1 at which the test passes.
pub fn first_where<F: Fn(usize) -> bool>(n: usize, test: F) -> Option<u32>
    requires small { n ≤ 32768 }
    requires callable { (c : ℕ) → c < n → F.pre test c }
    ensures { (t : ℕ → Bool) → ((c : ℕ) → (b : Bool) → c < n → F.post test c b → b ≡ t c) → result ≡ first t n }
{
    for c in 0..n {
        if test(c) {
            return Some(c as u32);
        }
    }
    None
}
