//! Laws of the definitions. The function does nothing; its contract says them.
ghost use Rattle.std.specs.Prelude.{ℕ, ◌≤◌, ◌*◌};
ghost use Rattle.run_settings.specs.Limits.{least_frames};
ghost use Rattle.run_settings.specs.Settings.{FitFrames, grants_of};

/// There is a grant for each worker, each is at least 24, and together they are no more than the
/// frames.
pub fn grants_fit_the_frames()
    ensures { (workers frames : ℕ) → least_frames ≤ frames → least_frames * workers ≤ frames → FitFrames workers frames (grants_of workers frames) }
{}
