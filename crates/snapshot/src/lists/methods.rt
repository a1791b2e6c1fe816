// What can be done with a list of numbers.
ghost use Rattle.std.specs.Prelude.{◌≡◌, ℕ, Bool, [], ◌∷◌, ◌++◌, length, if◌then◌else◌, filter, nat_lt};
ghost use Rattle.snapshot.specs.Lists.{numbers_of, is_listed, Computes};

use super::XidList;

impl XidList {
    pub fn new() -> XidList
        ensures { numbers_of result ≡ [] }
    {
        XidList {
            items: [0; 64],
            len: 0,
        }
    }

    pub fn as_slice(&self) -> &[u32]
        ensures { result.now ≡ numbers_of self.now }
    {
        &self.items[0..self.len]
    }

    pub fn contains(&self, x: u32) -> bool
        ensures { result ≡ is_listed x (numbers_of self.now) }
    {
        self.as_slice().contains(&x)
    }

    // Adds x at the end, unless there are 64 numbers, and answers whether it did, as a set does.
    pub fn push(&mut self, x: u32) -> bool
        ensures answer { result ≡ nat_lt (length (numbers_of self.old)) 64 }
        ensures numbers { numbers_of self.new ≡ (if nat_lt (length (numbers_of self.old)) 64 then numbers_of self.old ++ (x ∷ []) else numbers_of self.old) }
    {
        if self.len >= 64 {
            return false;
        }
        self.items[self.len] = x;
        self.len += 1;
        true
    }

    // Keeps the numbers that pass, in their order. Of a test that answers by a function p, these are the ones of p.
    pub fn retain<F: Fn(u32) -> bool>(&mut self, keeps: F)
        requires { F.IsAlwaysCallable keeps }
        ensures { (p : ℕ → Bool) → Computes (F.post keeps) p → numbers_of self.new ≡ filter p (numbers_of self.old) }
    {
        // By index, since the pass writes at `count` into the items that it reads at `i`.
        let mut count = 0;
        for i in 0..self.len {
            let x = self.items[i];
            if keeps(x) {
                self.items[count] = x;
                count += 1;
            }
        }
        self.len = count;
    }
}
