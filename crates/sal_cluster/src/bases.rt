//! The numbers with which the streams of a broker's domains begin.
ghost use Rattle.std.specs.Prelude.{◌≡◌, ◌<◌, ℕ};
ghost use Rattle.sal_cluster.specs.Numbers.{base_of};

/// The number of commit 0 of each domain in its stream.
#[derive(Clone, Copy)]
pub struct Bases {
    list: [u64; 64],
}

impl Bases {
    /// Each stream begins with the broker: commit 0 has the number 0.
    pub fn zeros() -> Bases
        ensures { (n : ℕ) → base_of result n ≡ 0 }
    {
        Bases { list: [0; 64] }
    }

    /// That of the domain; 0 for one of number 64 or more, which there is not.
    pub fn of(&self, domain: u32) -> u64
        ensures { result ≡ base_of self.now domain }
    {
        if domain < 64 {
            return self.list[domain as usize];
        }
        0
    }

    /// Sets that of the domain.
    pub(crate) fn set(&mut self, domain: u32, number: u64)
        requires { domain < 64 }
        ensures here { base_of self.new domain ≡ number }
        ensures others { (n : ℕ) → (n ≡ domain → ⊥) → base_of self.new n ≡ base_of self.old n }
    {
        self.list[domain as usize] = number;
    }
}
