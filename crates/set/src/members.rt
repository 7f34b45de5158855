// The members of a set, lowest first.
ghost use Rattle.std.specs.Prelude.{◌≡◌, ◌<◌};
ghost use Rattle.std.specs.Iterator.{at_most};
ghost use Rattle.set.specs.Words.{mask};
ghost use Rattle.set.specs.Members.{Step, Taken};

use crate::Set;

// A walk over a set: the members that are left.
#[derive(Drop)]
pub struct Members {
    left: Set,
}

impl Members {
    // Takes the lowest member that is left.
    fn take(&mut self) -> usize
        requires { 0 < mask self.old.left }
        ensures taken { Taken (mask self.old.left) result (mask self.new.left) }
        ensures fewer { mask self.new.left < mask self.old.left }
    {
        let left = self.left;
        self.left = left.without_lowest();
        left.lowest()
    }
}

impl IntoIterator for Set {
    type Item = usize;

    type IntoIter = Members;

    ghost into_iter_gives = { λ s m. m.left ≡ s };

    fn into_iter(self) -> Members {
        Members { left: self }
    }
}

impl Iterator for Members {
    type Item = usize;

    ghost next_gives = { Step };

    ghost remaining = { λ m. at_most (mask m.left) };

    // Word by word: a step in the first word looks at no other.
    fn next(&mut self) -> Option<usize> {
        if self.left.words[0] != 0 {
            return Some(self.take());
        }
        if self.left.words[1] != 0 {
            return Some(self.take());
        }
        None
    }
}
