// The repetitions round a step.
ghost use Rattle.std.specs.Prelude.{◌<◌, ℕ, IsTrue, ◌↔◌};

/// The repetitions round a step, from the innermost to the outermost.
#[derive(Clone, Copy)]
pub enum Repeats<'a> {
    /// There is none.
    Nothing,
    /// There is one, and these stand round it.
    Within(&'a Repeats<'a>),
}

impl Repeats<'_> {
    ghost use Rattle.pst_sound_parts.specs.Depth.{depth};

    /// Whether there is a repetition of that level, counted from 0.
    pub fn has_level(&self, level: u32) -> bool
        ensures { IsTrue result ↔ level < depth self.now }
    {
        let mut rest = self;
        let mut left = level;
        loop {
            match rest {
                Repeats::Nothing => return false,
                Repeats::Within(outer) => {
                    if left == 0 {
                        return true;
                    }
                    left -= 1;
                    rest = outer;
                }
            }
        }
    }
}
