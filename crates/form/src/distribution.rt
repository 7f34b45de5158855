// A distribution over targets.
ghost use Rattle.std.specs.Prelude.{◌≡◌, ◌≤◌, ◌<◌, length};
ghost use Rattle.simulation.specs.Limits.{most_states, most_total};
ghost use Rattle.simulation.specs.Fit.{Positive, total};

// The targets, and by their places the weights. That the targets are states, or ascend, is asked where it is needed.
#[derive(Clone, Copy)]
pub struct Distribution<'a> {
    pub targets: &'a [u16],
    pub weights: &'a [u16],
    pub ghost paired: { length targets.now ≡ length weights.now },
    pub ghost some: { 0 < length weights.now },
    pub ghost few: { length weights.now ≤ most_states },
    pub ghost positive: { Positive weights.now },
    pub ghost light: { total weights.now ≤ most_total },
}
