// The end at which a thread looks at a lane's level.

ghost use Rattle.std.specs.Prelude.{◌≡◌};

use r10_shared::{Level, Levels, Pass, Watch};
use std::marker::Model;
use std::sync::Wait;

/// The end of a gauge at which threads look, with a pass of it.
#[derive(Drop)]
pub struct Window {
    watch: Watch<Levels>,
    pass: Pass<Levels>,
}

impl Model for Window {
    ghost use Rattle.std.specs.Prelude.{◌≡◌};
    ghost use Rattle.r10_gauge.specs.Published.{LookingEnd};

    ghost Value = { LookingEnd };

    ghost view = { λ w. w.pass };

    ghost invariant = { λ w. w.pass.cell ≡ w.watch };
}

impl Window {
    pub fn new(watch: Watch<Levels>, pass: Pass<Levels>) -> Window
        requires { pass.cell ≡ watch }
    {
        Window { watch, pass }
    }

    /// The level that is shown at this moment.
    pub fn look<R: Wait>(&mut self, rt: &R) -> Level {
        Level::of(self.watch.glance(rt, &mut self.pass))
    }
}
