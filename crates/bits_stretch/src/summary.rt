// The summary of a stretch, and the join of two summaries.
ghost use Rattle.std.specs.Prelude.{◌≡◌};
ghost use Rattle.bits_stretch.specs.Summary.{TamePair, join_of, holds_for, holds_back};

// Total, least and greatest running excess. The running excess is counted after each bit, from the start of the stretch.
#[derive(Clone, Copy, Debug, PartialEq, Eq)]
pub struct Summary {
    pub total: i64,
    pub least: i64,
    pub greatest: i64,
}

impl Summary {
    // Returns the summary of the stretch of `self` followed by the stretch of y.
    pub fn join(self, y: Summary) -> Summary
        requires { TamePair self y }
        ensures { result ≡ join_of self y }
    {
        Summary {
            total: self.total + y.total,
            least: self.least.min(self.total + y.least),
            greatest: self.greatest.max(self.total + y.greatest),
        }
    }

    // Tests whether the running excess is r after some bit of the stretch.
    pub fn spans(self, r: i64) -> bool
        ensures { result ≡ holds_for self r }
    {
        self.least <= r && r <= self.greatest
    }

    // Tests whether the stretch qualifies going backward, where s is the remainder plus the total. A backward search compares the
    // excess before a bit. Before the first bit it is 0, so s = 0 always qualifies.
    pub fn spans_back(self, s: i64) -> bool
        ensures { result ≡ holds_back self s }
    {
        s == 0 || self.spans(s)
    }
}
