// The set bits of a word, the highest first.

ghost use Rattle.std.specs.Iterator.{at_most};
ghost use Rattle.memory.specs.Bits.{bit};
ghost use Rattle.memory.specs.Candidate.{candidate};
ghost use Rattle.kernels.specs.Ones.{GivesHighest};

// The bits that are left.
#[derive(Clone, Debug, Drop)]
pub struct Ones {
    pub left: u64,
}

impl Iterator for Ones {
    type Item = usize;

    ghost next_gives = { GivesHighest };

    ghost remaining = { λ s. at_most (candidate (bit s.left) 64) };

    fn next(&mut self) -> Option<usize> {
        if self.left == 0 {
            return None;
        }
        let f = crate::top(self.left);
        self.left = crate::without(self.left, f);
        Some(f)
    }
}
